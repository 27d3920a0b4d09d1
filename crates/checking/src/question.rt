ghost use Rattle.std.specs.Prelude.{◌+◌, ◌*◌, ◌≤◌, ◌<◌, length, get_or};
ghost use Rattle.meaning.specs.Limits.{format};
ghost use Rattle.meaning.specs.declared.Layout.TheVariants.{Closing};
ghost use Rattle.meaning.specs.Derivations.{asks_for};
ghost use Rattle.reading.specs.Listed.{ListHere};
ghost use Rattle.steps.specs.Held.{request_in};
ghost use Rattle.comparing.specs.RuleAnswers.{SomeStands, SomeLines, Ruled};
ghost use Rattle.checking.specs.Asked.{conclusion_asked, begins, Names, SomeDerivation, EntriesChecked, ClosingChecked, EndChecked};
ghost use Rattle.meaning.specs.declared.Form.TheVariants.{Flags};

use comparing::parts::same_lists;
use comparing::plans::same_plans;
use comparing::spots::{Concludes, Spot, spot_of};
use derivation::derivations;
use derivation::derivations::Places;
use derivation::derived::place_of;
use finding::branches::sequence_of;
use meaning::{Form, Layout};
use parsing::bytes::{two, wide};
use parsing::faults::{Fault, Refusal};
use parsing::shapes::OfFlags;
use reading::notes;
use reading::notes::get;
use steps::request::Request;

// The line's X is the initial facts, and its plan is that of the request.
fn from_the_facts(r: &Request<OfFlags>, d: &[u8], l: Spot) -> bool
    requires { SomeStands d.now l }
    ensures { Ruled d.now l (begins (request_in Flags r.now.bytes.now r.now.notes.now)) result }
{
    let plan = sequence_of(Form::Flags, d, l.line);
    same_lists(d, l.line, r.bytes, 2)
        && same_plans(
            d,
            plan,
            l.end,
            r.bytes,
            get(r.notes, notes::PLAN),
            get(r.notes, notes::GOALS),
        )
}

// The line is the question: the initial facts, the plan, and as its conclusion that the fluent is known whether or, where none is asked for, the
// goals.
fn asks(r: &Request<OfFlags>, d: &[u8], l: Spot, asked: Option<u8>) -> bool
    requires { SomeStands d.now l }
    ensures { Ruled d.now l (asks_for (request_in Flags r.now.bytes.now r.now.notes.now) (conclusion_asked (request_in Flags r.now.bytes.now r.now.notes.now) asked)) result }
{
    if !from_the_facts(r, d, l) {
        return false;
    }
    match (asked, l.conclusion) {
        (None, Concludes::Literals(at)) => same_lists(d, at, r.bytes, get(r.notes, notes::GOALS)),
        (Some(f), Concludes::Fluent(g)) => f == g,
        _ => false,
    }
}

// The two-byte number at `at` is that of a line, and this is the question.
fn names(
    r: &Request<OfFlags>,
    d: &[u8],
    places: &Places,
    lines: usize,
    at: usize,
    asked: Option<u8>,
) -> bool
    requires some_lines { SomeLines Closing d.now places.now lines }
    requires at_in_bounds { at + 1 < length d.now }
    ensures { Names (request_in Flags r.now.bytes.now r.now.notes.now) d.now places.now lines at asked result }
{
    let number = two(d[at], d[at + 1]);
    number < lines
        && asks(
            r,
            d,
            spot_of(Layout::Closing, d, places, lines, number),
            asked,
        )
}

// Each entry of the whether list at `whether` is asked of the line that is named by the next number, the first of which is at `first`.
fn check_fluents(
    r: &Request<OfFlags>,
    d: &[u8],
    places: &Places,
    lines: usize,
    whether: usize,
    first: usize,
) -> Result<usize, Fault>
    requires some_lines { SomeLines Closing d.now places.now lines }
    requires list_here { ListHere format.fluents r.now.bytes.now whether }
    requires whether_in_bounds { first + 2 * get_or r.now.bytes.now whether 0 ≤ length d.now }
    ensures { EntriesChecked r.now.bytes.now r.now.notes.now d.now places.now lines whether first result }
{
    for k in 0..wide(r.bytes[whether]) {
        let at = first + 2 * k;
        if !names(r, d, places, lines, at, Some(r.bytes[whether + k + 1])) {
            return Err(Refusal::ClosingNotRight.at(at));
        }
    }
    Ok(0)
}

// The closing list: its length, then the goals, then each whether entry.
fn check_closing(
    r: &Request<OfFlags>,
    d: &[u8],
    places: &Places,
    lines: usize,
) -> Result<usize, Fault>
    requires { SomeDerivation Closing d.now places.now lines }
    ensures { ClosingChecked (request_in Flags r.now.bytes.now r.now.notes.now) d.now places.now lines result }
{
    let goals = get(r.notes, notes::GOALS);
    let whether = sequence_of(Form::Flags, r.bytes, goals);
    let due = 1 + wide(r.bytes[whether]);
    let closing = place_of(places, derivations::LINES_END);
    let count = wide(d[closing]);
    if count != due {
        return Err(Refusal::ClosingNotRight.at(closing));
    }
    let first = closing + 1;
    if !names(r, d, places, lines, first, None) {
        return Err(Refusal::ClosingNotRight.at(first));
    }
    check_fluents(r, d, places, lines, whether, closing + 3)
}

// The question, by the last line or by the closing list. Answered: the place 0.
pub fn check_end(
    layout: Layout,
    r: &Request<OfFlags>,
    d: &[u8],
    places: &Places,
    lines: usize,
) -> Result<usize, Fault>
    requires some_derivation { SomeDerivation layout d.now places.now lines }
    requires le_lines { 1 ≤ lines }
    ensures { EndChecked layout (request_in Flags r.now.bytes.now r.now.notes.now) d.now places.now lines result }
{
    match layout {
        Layout::Plain => {
            let l = spot_of(Layout::Plain, d, places, lines, lines - 1);
            if asks(r, d, l, None) {
                Ok(0)
            } else {
                Err(Refusal::NotTheQuestion.at(l.line))
            }
        }
        Layout::Closing => check_closing(r, d, places, lines),
    }
}
