// What an action does in the mode of the walk: by what is known, the same unless it is too wide, or by cases.
ghost use Rattle.std.specs.Prelude.{◌≡◌, ◌<◌};
ghost use Rattle.meaning.specs.Limits.{format};
ghost use Rattle.meaning.specs.Schemes.{narrow_does};
ghost use Rattle.steps.specs.declared.cases.Tried.TheVariants.{Runs};
ghost use Rattle.steps.specs.Held.{table_in};
ghost use Rattle.steps.specs.AtHand.{Marked, MarkedAs};
ghost use Rattle.steps.specs.Steps.{mode_in, mode_named, does_in, after_in, refused_in, tried_as, does_as, after_as, tries_as};
ghost use Rattle.meaning.specs.declared.Form.TheVariants.{Flags};

use super::actions::{can_be_run, state_after};
use super::cases::{Tried, after_cases, try_cases};
use super::looks::Looks;
use super::request::Request;
use super::sensing::is_too_wide;
use acting::value_actions;
use parsing::shapes::{OfFlags, OfValues};
use reading::marks::Marks;
use reading::notes;
use reading::notes::{Notes, get};

// The mode of a walk by what is known that stops at a sensing action that is too wide. The mode of the walk by what is known is 0, and every other mode of a request of flags goes by cases.
pub const NARROW: usize = 2;

// The mode of a walk of a request with values.
pub const VALUES: usize = 3;

// The answers' numbers where an action is too wide, and where it has too many cases.
pub const TOO_WIDE: u32 = 37;

pub const TOO_MANY: u32 = 44;

// How a walk goes: by what is known, the same up to a sensing action that is too wide, as one of a request with values, or by cases.
#[derive(Clone, Copy)]
pub enum Mode {
    ByKnown,
    Narrow,
    Values,
    ByCases,
}

// The mode of the walk.
pub fn mode_of(t: &Notes) -> Mode
    ensures { result ≡ mode_named (mode_in t.now) }
{
    match get(t, notes::MODE) {
        0 => Mode::ByKnown,
        NARROW => Mode::Narrow,
        VALUES => Mode::Values,
        _ => Mode::ByCases,
    }
}

// The action is tried by what is known, unless it is too wide (FORMAT 24.16).
fn try_narrow(r: &Request<OfFlags>, a: usize, marks: &Marks) -> Tried
    requires a_lt_actions { a < format.actions }
    requires marked { Marked marks.now }
    ensures { narrow_does (table_in Flags r.now.bytes.now) a marks.now ≡ tried_as 2 (table_in Flags r.now.bytes.now) a marks.now result }
{
    if is_too_wide(r, a, marks) {
        Tried::Many
    } else if can_be_run(r, a, marks) {
        Tried::Runs
    } else {
        Tried::Stuck
    }
}

// Whether an action of flags can be run, in the mode of the walk.
fn try_flags(r: &Request<OfFlags>, a: usize, marks: &Marks) -> Tried
    requires a_lt_actions { a < format.actions }
    requires marked { Marked marks.now }
    ensures { does_in (mode_in r.now.notes.now) (table_in Flags r.now.bytes.now) a marks.now ≡ tried_as (mode_in r.now.notes.now) (table_in Flags r.now.bytes.now) a marks.now result }
{
    match mode_of(r.notes) {
        Mode::ByKnown => if can_be_run(r, a, marks) {
            Tried::Runs
        } else {
            Tried::Stuck
        },
        Mode::Narrow => try_narrow(r, a, marks),
        _ => try_cases(r, a, marks),
    }
}

// The answer's number where there are too many readings or cases.
pub fn refused(t: &Notes) -> u32
    ensures { result ≡ refused_in (mode_in t.now) }
{
    match mode_of(t) {
        Mode::Narrow => TOO_WIDE,
        _ => TOO_MANY,
    }
}

// The state after an action of flags that is not a sensing one and can be run.
fn after_flags(r: &Request<OfFlags>, a: usize, marks: &Marks) -> Marks
    requires a_lt_actions { a < format.actions }
    requires marked { Marked marks.now }
    requires marks_value { does_in (mode_in r.now.notes.now) (table_in Flags r.now.bytes.now) a marks.now ≡ tried_as (mode_in r.now.notes.now) (table_in Flags r.now.bytes.now) a marks.now Runs }
    ensures { result ≡ after_in (mode_in r.now.notes.now) (table_in Flags r.now.bytes.now) a marks.now }
{
    match mode_of(r.notes) {
        Mode::ByKnown | Mode::Narrow => state_after(r, a, marks),
        _ => after_cases(r, a, marks),
    }
}

// What an action does in a request of either form.
pub trait Acts: Looks {
    // Whether an action can be run.
    fn tried(r: &Request<Self>, a: usize, marks: &Marks) -> Tried
        requires a_lt_actions { a < format.actions }
        requires marked_as { MarkedAs Self.FORM r.now.bytes.now marks.now }
        ensures { does_as Self.FORM r.now.bytes.now r.now.notes.now a marks.now ≡ tries_as Self.FORM r.now.bytes.now r.now.notes.now a marks.now result };

    // The state after an action that is not a sensing one and can be run.
    fn after(r: &Request<Self>, a: usize, marks: &Marks) -> Marks
        requires a_lt_actions { a < format.actions }
        requires marked_as { MarkedAs Self.FORM r.now.bytes.now marks.now }
        requires marks_value { does_as Self.FORM r.now.bytes.now r.now.notes.now a marks.now ≡ tries_as Self.FORM r.now.bytes.now r.now.notes.now a marks.now Runs }
        ensures { result ≡ after_as Self.FORM r.now.bytes.now r.now.notes.now a marks.now };
}

impl Acts for OfFlags {
    fn tried(r: &Request<OfFlags>, a: usize, marks: &Marks) -> Tried {
        try_flags(r, a, marks)
    }

    fn after(r: &Request<OfFlags>, a: usize, marks: &Marks) -> Marks {
        after_flags(r, a, marks)
    }
}

impl Acts for OfValues {
    fn tried(r: &Request<OfValues>, a: usize, marks: &Marks) -> Tried {
        if value_actions::can_be_run(r.bytes, r.notes, a, marks) {
            Tried::Runs
        } else {
            Tried::Stuck
        }
    }

    fn after(r: &Request<OfValues>, a: usize, marks: &Marks) -> Marks {
        value_actions::state_after(r.bytes, r.notes, a, marks)
    }
}
