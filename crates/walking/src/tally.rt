// What a walk has counted, and how it stands.
ghost use Rattle.std.specs.Prelude.{ℕ, ◌≡◌, true};
ghost use Rattle.meaning.specs.States.{State};
ghost use Rattle.meaning.specs.Walk.{fine, no_state, stopped};
ghost use Rattle.walking.specs.Standing.{so_far, add, one, standing, stands, number_of, stateless, Notable, end_by, goes_on, Going};

use parsing::limits;
use reading::marks::Marks;

// The answers' numbers that `Course::of` has a course of its own for.
// Kept: a course is given for any number that may be noted, as `note` took any (D223).
pub const MISSED: u32 = 1;

// Kept: as above.
pub const STUCK: u32 = 2;

// Kept: as above.
pub const BROKEN: u32 = 43;

// How a walk has gone so far: nothing is missed; or something is, after which it goes on; or what has stopped it, which is an action or a
// branching that can't be run, a guard that is broken, what another answer's number says of a state, an action that is too wide or has too
// many cases, or that the budget is spent. This walk itself is stopped by no other answer's number.
#[derive(Clone, Copy)]
pub enum Course {
    Fine,
    Missed,
    Stuck,
    Broken,
    Other(u32),
    TooWide,
    TooMany,
    Spent,
}

impl Course {
    // What an answer's number says of a state: a miss, or what stops the walk there.
    pub fn of(number: u32) -> Course
        requires { Notable number }
        ensures { (left place : ℕ) → (marks : State) → stands result left place marks ≡ so_far left (end_by number place marks) }
    {
        match number {
            MISSED => Course::Missed,
            STUCK => Course::Stuck,
            BROKEN => Course::Broken,
            other => Course::Other(other),
        }
    }
}

// How a walk stands: the budget left, how it has gone so far, and the place and the state that go with a miss or with what has stopped it.
#[derive(Clone, Copy)]
pub struct Tally {
    pub left: u32,
    pub course: Course,
    pub place: usize,
    pub marks: Marks,
}

impl Tally {
    // Nothing is walked yet.
    pub fn opened(budget: u32) -> Tally
        ensures stands { standing result ≡ so_far budget fine }
        ensures going { Going result }
    {
        Tally {
            left: budget,
            course: Course::Fine,
            place: 0,
            marks: [limits::UNKNOWN_MARK; limits::FLUENTS],
        }
    }

    // The walk is neither stopped nor spent.
    pub fn goes_on(&self) -> bool
        ensures { result ≡ goes_on self.now.course }
    {
        matches!(self.course, Course::Fine | Course::Missed)
    }

    // One more is counted, or the budget is spent.
    pub fn count_one(&mut self)
        requires { Going self.old }
        ensures { standing self.new ≡ add (standing self.old) one }
    {
        if self.left == 0 {
            self.course = Course::Spent;
        } else {
            self.left -= 1;
        }
    }

    // A miss, or what stops the walk, with the place and the state concerned.
    pub fn note(&mut self, course: Course, place: usize, marks: &Marks)
        ensures { standing self.new ≡ stands course self.old.left place marks.now }
    {
        self.course = course;
        self.place = place;
        self.marks = *marks;
    }

    // Too many readings or cases stop the walk; no state is concerned.
    pub fn give_up(&mut self, course: Course, place: usize)
        requires { stateless course ≡ true }
        ensures { standing self.new ≡ so_far self.old.left (stopped (number_of course) place no_state) }
    {
        self.course = course;
        self.place = place;
    }
}
