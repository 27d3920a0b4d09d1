ghost use Rattle.std.specs.Prelude.{◌≡◌, true, ◌<◌, ltb};
ghost use Rattle.meaning.specs.Tests.{both};
ghost use Rattle.meaning.specs.Limits.{format};
ghost use Rattle.meaning.specs.Refusals.{nowhere};
ghost use Rattle.reading.specs.Planned.{items_of};
ghost use Rattle.steps.specs.Held.{plan_in};
ghost use Rattle.steps.specs.AtHand.{MarkedAs};
ghost use Rattle.steps.specs.Rests.{Position};
ghost use Rattle.steps.specs.Steps.{mode_in, refused_in, values_as, step_in, judged_in, walk_from, met_from};
ghost use Rattle.walking.specs.Standing.{add, standing, number_of, stateless, goes_on, Going, Breaks};
ghost use Rattle.walking.specs.Walks.{action_at, fork_from, add_higher};

use super::tally::{Course, Tally};
use meaning::Form;
use parsing::bytes::wide;
use parsing::limits;
use reading::marks::Marks;
use reading::notes;
use reading::notes::{Notes, get};
use steps::cases::Tried;
use steps::goals::{lacking, missed};
use steps::onward::{chosen, follow};
use steps::request::Request;
use steps::sensing::{first_unknown, is_sensing, next_unknown};
use steps::trying::{Acts, TOO_WIDE, refused};

// The marks of a fluent's first two values, which every fluent has.
const FIRST: u8 = 1;

const SECOND: u8 = 2;

// A state that is met: whether it lacks a guard, which stops the walk.
fn breaks<S: Acts>(r: &Request<S>, marks: &Marks, tally: &mut Tally) -> bool
    requires marked_as { MarkedAs S.FORM r.now.bytes.now marks.now }
    requires going { Going tally.old }
    ensures { Breaks ((step_in S.FORM r.now.bytes.now r.now.notes.now).lacks marks.now) marks.now tally.old result tally.new }
{
    match lacking(r, marks) {
        Some(p) => {
            tally.note(Course::Broken, p, marks);
            true
        }
        None => false,
    }
}

// An end state is judged.
fn judge_end<S: Acts>(r: &Request<S>, marks: &Marks, tally: &mut Tally)
    requires marked_as { MarkedAs S.FORM r.now.bytes.now marks.now }
    requires going { Going tally.old }
    ensures { standing tally.new ≡ add (standing tally.old) (judged_in S.FORM r.now.bytes.now r.now.notes.now marks.now) }
{
    tally.count_one();
    if let Course::Fine = tally.course {
        if let Some(p) = missed(r, marks) {
            tally.note(Course::Missed, p, marks);
        }
    }
}

// What stops the walk at an action with too many readings or cases.
fn too_many(t: &Notes) -> Course
    ensures stateless { stateless result ≡ true }
    ensures number { number_of result ≡ refused_in (mode_in t.now) }
{
    if refused(t) == TOO_WIDE {
        Course::TooWide
    } else {
        Course::TooMany
    }
}

// The plan from a position on, from a state that is met.
#[cycle(fork_higher_values_walk_walk_branching)]
pub fn walk<S: Acts>(r: &Request<S>, at: usize, marks: Marks, tally: &mut Tally)
    requires position { Position (plan_in S.FORM r.now.bytes.now r.now.notes.now) at }
    requires marked_as { MarkedAs S.FORM r.now.bytes.now marks }
    requires going { Going tally.old }
    ensures { standing tally.new ≡ add (standing tally.old) (met_from S.FORM r.now.bytes.now r.now.notes.now at marks) }
{
    let mut i = at;
    let mut state = marks;
    while i < limits::ITEMS {
        if breaks(r, &state, tally) {
            return;
        }
        let p = get(r.notes, notes::ITEM_PLACE + i);
        if r.bytes[p] == limits::BRANCHING_BYTE {
            walk_branching(r, i, state, tally);
            return;
        }
        let a = wide(r.bytes[p]);
        match S::tried(r, a, &state) {
            Tried::Runs => {
                tally.count_one();
                if !tally.goes_on() {
                    return;
                }
                if is_sensing(r, a) {
                    let f = first_unknown(r, a, &state);
                    if f < limits::FLUENTS {
                        fork(r, i, f, state, tally);
                        return;
                    }
                } else {
                    state = S::after(r, a, &state);
                }
                i = follow(r, i);
            }
            Tried::Stuck => {
                tally.note(Course::Stuck, p, &state);
                return;
            }
            Tried::Many => {
                tally.give_up(too_many(r.notes), p);
                return;
            }
        }
    }
    if breaks(r, &state, tally) {
        return;
    }
    judge_end(r, &state, tally);
}

// The branching that is item i, in a state that lacks no guard.
#[cycle(fork_higher_values_walk_walk_branching)]
fn walk_branching<S: Acts>(r: &Request<S>, i: usize, marks: Marks, tally: &mut Tally)
    requires marks_value { (step_in S.FORM r.now.bytes.now r.now.notes.now).lacks marks ≡ nowhere }
    requires i_bound { i < items_of (plan_in S.FORM r.now.bytes.now r.now.notes.now) }
    requires i_value { action_at r.now.bytes.now r.now.notes.now i ≡ 255 }
    requires marked_as { MarkedAs S.FORM r.now.bytes.now marks }
    requires going { Going tally.old }
    ensures { standing tally.new ≡ add (standing tally.old) (walk_from S.FORM r.now.bytes.now r.now.notes.now i marks) }
{
    match chosen(r, i, &marks) {
        Some(at) => walk(r, at, marks, tally),
        None => {
            let p = get(r.notes, notes::ITEM_PLACE + i);
            tally.note(Course::Stuck, p, &marks);
        }
    }
}

// The walk goes on, and the fluent has a value above the one that this mark says.
fn has_more<S: Acts>(r: &Request<S>, f: usize, mark: u8, tally: &Tally) -> bool
    requires { f < format.fluents }
    ensures { result ≡ both (goes_on tally.now.course) (ltb mark (values_as S.FORM r.now.bytes.now f)) }
{
    tally.goes_on() && wide(mark) < S::values_of(r.bytes, f)
}

// The readings of fluent f by the values above the one that its mark says, which are all where it is unknown, and of the unknown ones above it that the action senses, which is item i; then what follows it.
#[cycle(fork_higher_values_walk_walk_branching)]
fn higher_values<S: Acts>(r: &Request<S>, i: usize, f: usize, marks: Marks, tally: &mut Tally)
    requires i_bound { i < items_of (plan_in S.FORM r.now.bytes.now r.now.notes.now) }
    requires i_bound_2 { action_at r.now.bytes.now r.now.notes.now i < format.actions }
    requires f_lt_fluents { f < format.fluents }
    requires marked_as { MarkedAs S.FORM r.now.bytes.now marks }
    ensures { standing tally.new ≡ add_higher S.FORM r.now.bytes.now r.now.notes.now i f marks (standing tally.old) }
{
    let mut state = marks;
    if !has_more(r, f, state[f], tally) {
        return;
    }
    let p = get(r.notes, notes::ITEM_PLACE + i);
    let a = wide(r.bytes[p]);
    let g = next_unknown(r, a, f + 1, &state);
    let at = if g < limits::FLUENTS { i } else { follow(r, i) };
    while has_more(r, f, state[f], tally) {
        state[f] += 1;
        if g < limits::FLUENTS {
            higher_values(r, i, g, state, tally);
        } else {
            walk(r, at, state, tally);
        }
    }
}

// The readings of fluent f and of the unknown ones above it that the action senses, which is item i; then what follows it.
#[cycle(fork_higher_values_walk_walk_branching)]
fn fork<S: Acts>(r: &Request<S>, i: usize, f: usize, marks: Marks, tally: &mut Tally)
    requires i_bound { i < items_of (plan_in S.FORM r.now.bytes.now r.now.notes.now) }
    requires i_bound_2 { action_at r.now.bytes.now r.now.notes.now i < format.actions }
    requires f_lt_fluents { f < format.fluents }
    requires marked_as { MarkedAs S.FORM r.now.bytes.now marks }
    requires going { Going tally.old }
    ensures { standing tally.new ≡ add (standing tally.old) (fork_from S.FORM r.now.bytes.now r.now.notes.now i f marks) }
{
    let p = get(r.notes, notes::ITEM_PLACE + i);
    let a = wide(r.bytes[p]);
    let mut state = marks;
    state[f] = FIRST;
    let g = next_unknown(r, a, f + 1, &state);
    if g < limits::FLUENTS {
        fork(r, i, g, state, tally);
        if tally.goes_on() {
            state[f] = SECOND;
            fork(r, i, g, state, tally);
            if let Form::Valued = S::FORM {
                higher_values(r, i, f, state, tally);
            }
        }
        return;
    }
    let at = follow(r, i);
    walk(r, at, state, tally);
    if tally.goes_on() {
        state[f] = SECOND;
        walk(r, at, state, tally);
        if let Form::Valued = S::FORM {
            higher_values(r, i, f, state, tally);
        }
    }
}
