ghost use Rattle.std.specs.Prelude.{◌≡◌, ◌<◌, Some};
ghost use Rattle.meaning.specs.Limits.{format};
ghost use Rattle.walking.specs.Walks.{action_at};
ghost use Rattle.steps.specs.Held.{plan_in};
ghost use Rattle.steps.specs.AtHand.{Marked};
ghost use Rattle.steps.specs.Rests.{rest_at, after_first, Position};
ghost use Rattle.guidance.specs.declared.Told.TheVariants.{Refused};
ghost use Rattle.guidance.specs.Guides.{of_guide, an_action, ahead};
ghost use Rattle.guide.specs.GuideHeld.{came, ItemThere, ActionThere, meets, takes, Turns};
ghost use Rattle.meaning.specs.declared.Form.TheVariants.{Flags};

use super::sensed::{is_against, sensed_by, taken_over};
use guidance::Told;
use meaning::Answer;
use parsing::bytes::wide;
use parsing::limits;
use parsing::shapes::OfFlags;
use reading::marks::Marks;
use reading::notes;
use reading::notes::get;
use steps::actions::{can_be_run, state_after};
use steps::onward::{chosen, follow};
use steps::request::Request;
use steps::sensing::is_sensing;
use verdicts::answers;
use verdicts::answers::uncounted;

// The answers that a guide alone gives (FORMAT 25.5, 25.13, 25.14).
// Kept: an answer's number is a byte of `Answer`, as the definitions have it.
pub const NOT_VERIFIED: u8 = 40;

pub const WRONG_NUMBER: u8 = 41;

pub const AGAINST_KNOWN: u8 = 42;

// What comes next: the plan's end; an action, by the number of its item; or a branching that has no condition known true.
#[derive(Clone, Copy)]
pub(crate) enum Ahead {
    End,
    Action(usize),
    NoBranch,
}

// What comes next from a position of the plan on.
pub(crate) fn look_ahead(r: &Request<OfFlags>, at: usize, marks: &Marks) -> Ahead
    requires position { Position (plan_in Flags r.now.bytes.now r.now.notes.now) at }
    requires marked { Marked marks.now }
    ensures result_value { came r.now.bytes.now r.now.notes.now result ≡ ahead marks.now (rest_at (plan_in Flags r.now.bytes.now r.now.notes.now) at) }
    ensures action_there { ActionThere r.now.bytes.now r.now.notes.now result }
{
    let mut i = at;
    while i < limits::ITEMS {
        if r.bytes[get(r.notes, notes::ITEM_PLACE + i)] != limits::BRANCHING_BYTE {
            return Ahead::Action(i);
        }
        match chosen(r, i, marks) {
            Some(j) => i = j,
            None => return Ahead::NoBranch,
        }
    }
    Ahead::End
}

// What a call makes of a guide that is on its way: its answer, and where it goes on, with the action whose readings come next. Where it refuses, the guide stays as it was, and
// only the answer counts.
#[derive(Clone, Copy)]
pub(crate) struct Step {
    pub told: Told,
    pub action: Option<usize>,
    pub at: usize,
    pub marks: Marks,
}

// A refusal with this answer.
pub(crate) fn refused(answer: Answer) -> Step
    ensures { result.told ≡ Refused answer }
{
    Step {
        told: Told::Refused(answer),
        action: None,
        at: limits::ITEMS,
        marks: [limits::UNKNOWN_MARK; limits::FLUENTS],
    }
}

// A refusal with a number of the guide's own.
pub(crate) fn refused_step(number: u8) -> Step
    ensures { result.told ≡ Refused (of_guide number) }
{
    refused(uncounted(number, answers::NEITHER_INPUT, 0))
}

// Answers the action that is item i, in the state `state`.
fn do_item(r: &Request<OfFlags>, i: usize, state: &Marks) -> Step
    requires item_there { ItemThere r.now.bytes.now r.now.notes.now i }
    requires marked { Marked state.now }
    ensures { Turns r.now.bytes.now r.now.notes.now result (meets r.now.bytes.now state.now (an_action (action_at r.now.bytes.now r.now.notes.now i) (after_first (rest_at (plan_in Flags r.now.bytes.now r.now.notes.now) i)))) }
{
    let a = wide(r.bytes[get(r.notes, notes::ITEM_PLACE + i)]);
    if !can_be_run(r, a, state) {
        return refused_step(NOT_VERIFIED);
    }
    let next = follow(r, i);
    let marks = if is_sensing(r, a) {
        *state
    } else {
        state_after(r, a, state)
    };
    Step {
        told: Told::Do(a),
        action: Some(a),
        at: next,
        marks,
    }
}

// From the position `at` on, in the state `state`.
fn go_on(r: &Request<OfFlags>, at: usize, state: &Marks) -> Step
    requires position { Position (plan_in Flags r.now.bytes.now r.now.notes.now) at }
    requires marked { Marked state.now }
    ensures { Turns r.now.bytes.now r.now.notes.now result (meets r.now.bytes.now state.now (ahead state.now (rest_at (plan_in Flags r.now.bytes.now r.now.notes.now) at))) }
{
    match look_ahead(r, at, state) {
        Ahead::End => Step {
            told: Told::Done,
            action: None,
            at,
            marks: *state,
        },
        Ahead::Action(i) => do_item(r, i, state),
        Ahead::NoBranch => refused_step(NOT_VERIFIED),
    }
}

// A call of a guide that waits at `at`, with `marks`, for the readings of `action`.
fn step_after(
    r: &Request<OfFlags>,
    action: usize,
    at: usize,
    marks: &Marks,
    readings: &[u8],
) -> Step
    requires action_lt_actions { action < format.actions }
    requires position { Position (plan_in Flags r.now.bytes.now r.now.notes.now) at }
    requires marked { Marked marks.now }
    ensures { Turns r.now.bytes.now r.now.notes.now result (takes r.now.bytes.now r.now.notes.now (Some action) at marks.now readings.now) }
{
    if readings.len() != sensed_by(r, action).count {
        return refused_step(WRONG_NUMBER);
    }
    if is_against(r, action, marks, readings) {
        return refused_step(AGAINST_KNOWN);
    }
    let state = taken_over(r, action, marks, readings);
    go_on(r, at, &state)
}

// A call of a guide that is on its way, after an action or without one.
pub(crate) fn answer_call(
    r: &Request<OfFlags>,
    action: Option<usize>,
    at: usize,
    marks: &Marks,
    readings: &[u8],
) -> Step
    requires position { Position (plan_in Flags r.now.bytes.now r.now.notes.now) at }
    requires marked { Marked marks.now }
    ensures { Turns r.now.bytes.now r.now.notes.now result (takes r.now.bytes.now r.now.notes.now action at marks.now readings.now) }
{
    match action {
        Some(a) if a < limits::ACTIONS => step_after(r, a, at, marks, readings),
        _ if !readings.is_empty() => refused_step(WRONG_NUMBER),
        _ => go_on(r, at, marks),
    }
}
