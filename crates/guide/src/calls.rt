ghost use Rattle.std.specs.Prelude.{◌≡◌, [], length, None};
ghost use Rattle.meaning.specs.Limits.{format};
ghost use Rattle.guidance.specs.Guides.{next};
ghost use Rattle.guidance.specs.Guided.{asked_for};
ghost use Rattle.meaning.specs.Tests.{both};
ghost use Rattle.steps.specs.Held.{table_in, plan_in};
ghost use Rattle.guide.specs.GuideHeld.{asked_by, fluents_of, is_position, is_marked, guide_held, turned, Begins};
ghost use Rattle.meaning.specs.declared.Form.TheVariants.{Flags};

use super::going::{NOT_VERIFIED, Step, answer_call, refused, refused_step};
use super::sensed::{Fluents, sensed_by};
use parsing::limits;
use parsing::shapes::OfFlags;
use reading::marks::{Marks, state_of};
use reading::notes;
use reading::notes::{Notes, get};
use refusing::settled::settle;
use steps::onward::start_of;
use steps::request::Request;
use verdicts::answers;

// Each of the marks is one of the three.
fn is_marked(marks: &Marks) -> bool
    ensures { result ≡ is_marked marks.now }
{
    marks.iter().all(|mark| *mark <= 2)
}

// An item of the plan, or its end.
fn is_position(r: &Request<OfFlags>, at: usize) -> bool
    ensures { result ≡ is_position (plan_in Flags r.now.bytes.now r.now.notes.now) at }
{
    at == limits::ITEMS || at < get(r.notes, notes::ITEMS)
}

// A position of the plan, with marks.
fn is_going(r: &Request<OfFlags>, at: usize, marks: &Marks) -> bool
    ensures value { result ≡ both (is_position (plan_in Flags r.now.bytes.now r.now.notes.now) at) (is_marked marks.now) }
    ensures marks_len { length marks.now ≡ format.state }
{
    is_position(r, at) && is_marked(marks)
}

// A call of a guide with this request, whose plan is at `at` with `marks` and which waits for the readings of `action`. The request is read again.
pub(crate) fn call(
    request: &[u8],
    action: Option<usize>,
    at: usize,
    marks: &Marks,
    readings: &[u8],
) -> Step
    ensures { turned (guide_held request.now) (guide_held request.now action at marks.now) result ≡ next format (guide_held request.now action at marks.now) readings.now }
{
    let mut t: Notes = [0u16; notes::SLOTS];
    match settle(request, &mut t) {
        Ok(_) => {
            let r = Request::of(request, &t);
            if is_going(&r, at, marks) {
                answer_call(&r, action, at, marks, readings)
            } else {
                refused_step(NOT_VERIFIED)
            }
        }
        Err(fault) => refused(answers::refused(fault, answers::THE_REQUEST)),
    }
}

// Where the plan starts, and the first state.
#[derive(Clone, Copy)]
pub(crate) struct First {
    pub at: usize,
    pub marks: Marks,
}

// Of a request that is settled; of any other it says nothing.
pub(crate) fn at_start(request: &[u8]) -> First
    ensures { Begins request.now (guide_held request.now None result.at result.marks) }
{
    let mut t: Notes = [0u16; notes::SLOTS];
    match settle(request, &mut t) {
        Ok(_) => First {
            at: start_of(get(&t, notes::ITEMS)),
            marks: state_of(request, 2),
        },
        Err(_) => First {
            at: limits::ITEMS,
            marks: [limits::UNKNOWN_MARK; limits::FLUENTS],
        },
    }
}

// No readings.
pub(crate) fn none_asked() -> Fluents
    ensures { result ≡ fluents_of [] }
{
    Fluents {
        count: 0,
        row: [0u8; limits::FLUENTS],
    }
}

// Those that an action senses, and none where there was no action.
fn asked_after(r: &Request<OfFlags>, action: Option<usize>) -> Fluents
    ensures { result ≡ fluents_of (asked_by (table_in Flags r.now.bytes.now) action) }
{
    match action {
        Some(a) if a < limits::ACTIONS => sensed_by(r, a),
        _ => none_asked(),
    }
}

// The fluents whose readings the next call brings.
pub(crate) fn asked(request: &[u8], action: Option<usize>, at: usize, marks: &Marks) -> Fluents
    ensures { result ≡ fluents_of (asked_for (guide_held request.now action at marks.now)) }
{
    let mut t: Notes = [0u16; notes::SLOTS];
    match settle(request, &mut t) {
        Ok(_) => {
            let r = Request::of(request, &t);
            if is_going(&r, at, marks) {
                asked_after(&r, action)
            } else {
                none_asked()
            }
        }
        Err(_) => none_asked(),
    }
}
