// Whether an action can be run by cases, and the state after it (FORMAT section 22). Of the unknown fluents only the open ones are filled, which stand in a body of the
// action: no other changes what it does.
ghost use Rattle.std.specs.Prelude.{◌≡◌, true, false, [], ◌∷◌, ◌<◌, drop};
ghost use Rattle.meaning.specs.Tests.{each_of};
ghost use Rattle.meaning.specs.Limits.{format};
ghost use Rattle.meaning.specs.States.{can_be_run};
ghost use Rattle.meaning.specs.ByCases.{fillings, runs_by_cases, shared_marks, after_each, after_cases, too_many, cases_does};
ghost use Rattle.steps.specs.Held.{table_in};
ghost use Rattle.steps.specs.AtHand.{Marked};
ghost use Rattle.steps.specs.Steps.{tried_as};
ghost use Rattle.steps.specs.Opened.{open_in, Filling};
ghost use Rattle.meaning.specs.declared.Form.TheVariants.{Flags};

use super::actions::{can_be_run, state_after};
use super::opening::{Open, opened};
use super::request::Request;
use parsing::bytes::wide;
use parsing::limits;
use parsing::shapes::OfFlags;
use reading::marks::Marks;

// What trying an action gives: it can't be run, it has too many cases or readings, or it can be run.
#[derive(Clone, Copy)]
pub enum Tried {
    Stuck,
    Many,
    Runs,
}

// The action can be run in each filling of the open fluents from number i up.
fn runs_in_each(r: &Request<OfFlags>, a: usize, held: &Open, i: usize, marks: Marks) -> bool
    requires a_lt_actions { a < format.actions }
    requires filling { Filling held.now i marks }
    ensures { result ≡ each_of (can_be_run (table_in Flags r.now.bytes.now) a) (fillings (drop i (open_in held.now)) marks) }
{
    if i < wide(held[0]) {
        let next = i + 1;
        let f = wide(held[next]);
        let mut state = marks;
        state[f] = limits::TRUE_MARK;
        if !runs_in_each(r, a, held, next, state) {
            return false;
        }
        state[f] = limits::FALSE_MARK;
        return runs_in_each(r, a, held, next, state);
    }
    can_be_run(r, a, &marks)
}

// What two states share.
fn shared(one: &Marks, other: &Marks) -> Marks
    requires marked { Marked one.now }
    requires marked_2 { Marked other.now }
    ensures { result ≡ shared_marks (one.now ∷ other.now ∷ []) 0 one.now }
{
    let mut both = *one;
    for f in 0..limits::FLUENTS {
        if one[f] != other[f] {
            both[f] = limits::UNKNOWN_MARK;
        }
    }
    both
}

// What the states after the action share, which is run in each filling of the open fluents from number i up.
fn after_in_each(r: &Request<OfFlags>, a: usize, held: &Open, i: usize, marks: Marks) -> Marks
    requires a_lt_actions { a < format.actions }
    requires filling { Filling held.now i marks }
    requires marks_value { each_of (can_be_run (table_in Flags r.now.bytes.now) a) (fillings (drop i (open_in held.now)) marks) ≡ true }
    ensures { result ≡ after_each (table_in Flags r.now.bytes.now) a (fillings (drop i (open_in held.now)) marks) marks }
{
    if i < wide(held[0]) {
        let next = i + 1;
        let f = wide(held[next]);
        let mut state = marks;
        state[f] = limits::TRUE_MARK;
        let one = after_in_each(r, a, held, next, state);
        state[f] = limits::FALSE_MARK;
        let other = after_in_each(r, a, held, next, state);
        return shared(&one, &other);
    }
    state_after(r, a, &marks)
}

// The action is tried by cases. Where it can be run by what is known, no case is looked at.
pub fn try_cases(r: &Request<OfFlags>, a: usize, marks: &Marks) -> Tried
    requires a_lt_actions { a < format.actions }
    requires marked { Marked marks.now }
    ensures { cases_does (table_in Flags r.now.bytes.now) a marks.now ≡ tried_as 1 (table_in Flags r.now.bytes.now) a marks.now result }
{
    let held = opened(r, a, marks);
    if limits::OPEN < wide(held[0]) {
        Tried::Many
    } else if can_be_run(r, a, marks) || runs_in_each(r, a, &held, 0, *marks) {
        Tried::Runs
    } else {
        Tried::Stuck
    }
}

// The state after an action that is not a sensing one and can be run by cases.
pub fn after_cases(r: &Request<OfFlags>, a: usize, marks: &Marks) -> Marks
    requires a_lt_actions { a < format.actions }
    requires marked { Marked marks.now }
    requires marks_value { too_many (table_in Flags r.now.bytes.now) a marks.now ≡ false }
    requires marks_value_2 { runs_by_cases (table_in Flags r.now.bytes.now) a marks.now ≡ true }
    ensures { result ≡ after_cases (table_in Flags r.now.bytes.now) a marks.now }
{
    let held = opened(r, a, marks);
    after_in_each(r, a, &held, 0, *marks)
}
