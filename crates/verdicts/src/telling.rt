ghost use Rattle.std.specs.Prelude.{◌≡◌, ◌-◌, ◌≤◌, length};
ghost use Rattle.meaning.specs.Limits.{format};
ghost use Rattle.meaning.specs.Walk.{in_state};
ghost use Rattle.meaning.specs.Judging.{reported};
ghost use Rattle.walking.specs.Standing.{standing};
ghost use Rattle.verdicts.specs.Telling.{told, Tallied};

use super::answers;
use super::answers::uncounted;
use meaning::Answer;
use walking::tally::{Course, Tally};

// An answer that names no place in the request.
fn unplaced(number: u8, count: u32) -> Answer
    ensures { result ≡ record { number = number; input = 0; place = 0; count = count } }
{
    Answer {
        number,
        input: answers::NEITHER_INPUT,
        place: 0,
        count,
    }
}

// A miss, or what stopped the walk in a state: the tally's state goes over the lent one.
fn report(number: u8, tally: &Tally, state: &mut [u8], budget: u32) -> Answer
    requires state_len { length state.old ≡ format.state }
    requires fewer { tally.now.left ≤ budget }
    ensures { record { answer = result; state = state.new } ≡ reported state.old (budget - tally.now.left) number tally.now.place (in_state tally.now.marks) }
{
    state.copy_from_slice(&tally.marks);
    Answer {
        number,
        input: answers::THE_REQUEST,
        place: tally.place,
        count: budget - tally.left,
    }
}

// What the tally says once the walk is over. Too many readings or cases have neither a count nor a state.
pub(crate) fn tell(tally: &Tally, state: &mut [u8], budget: u32) -> Answer
    requires state_len { length state.old ≡ format.state }
    requires tallied { Tallied tally.now budget }
    ensures { record { answer = result; state = state.new } ≡ told state.old budget (standing tally.now) }
{
    match tally.course {
        Course::Fine => unplaced(answers::VERIFIED, budget - tally.left),
        Course::Missed => report(answers::GOAL_MISSED, tally, state, budget),
        Course::Stuck => report(answers::NOT_EXECUTABLE, tally, state, budget),
        Course::Broken => report(answers::GUARD_BROKEN, tally, state, budget),
        Course::Other(number) => report(number as u8, tally, state, budget),
        Course::TooWide => uncounted(answers::SENSING_TOO_WIDE, answers::THE_REQUEST, tally.place),
        Course::TooMany => uncounted(answers::TOO_MANY_CASES, answers::THE_REQUEST, tally.place),
        Course::Spent => unplaced(answers::BUDGET_SPENT, budget),
    }
}
