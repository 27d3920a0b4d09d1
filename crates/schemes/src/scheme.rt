// The lines from a position of the plan on, in a state: those of what is next, and of what is left behind it (FORMAT 24.6 to 24.9). Where there are too many, nothing
// more is written.
ghost use Rattle.std.specs.Prelude.{◌≡◌, true, false, [], ◌∷◌, ◌++◌, ◌+◌, ◌-◌, ◌^◌, ◌≤◌, ◌<◌, length, get_or, drop};
ghost use Rattle.meaning.specs.Limits;
ghost use Rattle.meaning.specs.Limits.{format};
ghost use Rattle.meaning.specs.Lines.{sensing};
ghost use Rattle.meaning.specs.Derivations.{goals_of};
ghost use Rattle.meaning.specs.Walk.{Verified};
ghost use Rattle.meaning.specs.Schemes.{line_of, derivation_of, derivation_bytes, narrow_walk_of};
ghost use Rattle.parsing.specs.RuleKinds.{rule_number};
ghost use Rattle.reading.specs.Planned.{items_of};
ghost use Rattle.steps.specs.Held.{table_in, plan_in, request_in};
ghost use Rattle.steps.specs.AtHand.{Marked};
ghost use Rattle.steps.specs.Rests.{Position, rest_at};
ghost use Rattle.writing.specs.Progress.{Underway};
ghost use Rattle.schemes.specs.Narrow.{NarrowFrom, lines_at, fluents_from, NarrowReadings, readings_at, Acts};
ghost use Rattle.schemes.specs.Put.{Put, ReadingsPut};
ghost use Rattle.schemes.specs.Sizes.{Lined, Measured};
ghost use Rattle.meaning.specs.declared.Form.TheVariants.{Flags};

use parsing::bytes::wide;
use parsing::limits;
use parsing::rule_kinds::Rule;
use parsing::shapes::OfFlags;
use reading::marks::{Marks, state_of};
use reading::notes;
use reading::notes::get;
use steps::actions::state_after;
use steps::onward::{chosen, follow, start_of};
use steps::request::Request;
use steps::sensing::{first_unknown, is_sensing, next_unknown};
use writing::cites::Cites;
use writing::lines::{Progress, put_action, put_empty, put_goals};
use writing::room::put_number;

// The line by a rule that cites the line before it.
fn put_next(
    r: &Request<OfFlags>,
    at: usize,
    marks: &Marks,
    rule: Rule,
    room: &mut [u8],
    progress: &mut Progress,
)
    requires position { Position (plan_in Flags r.now.bytes.now r.now.notes.now) at }
    requires marked { Marked marks.now }
    requires underway { Underway progress.old }
    requires progress_nonzero { 0 < progress.old.lines }
    ensures { Put (line_of marks.now (rest_at (plan_in Flags r.now.bytes.now r.now.notes.now) at) (goals_of (request_in Flags r.now.bytes.now r.now.notes.now)) (rule_number rule) ((progress.old.lines - 1) ∷ []) ∷ []) progress.old room.old progress.new room.new }
{
    let mut cites = Cites::none();
    let previous = progress.lines - 1;
    cites.push(previous);
    put_goals(r, at, marks, u8::from(rule), &cites, room, progress);
}

// The two lines where nothing is left (FORMAT 24.6).
fn put_end(r: &Request<OfFlags>, marks: &Marks, room: &mut [u8], progress: &mut Progress)
    requires marked { Marked marks.now }
    requires underway { Underway progress.old }
    ensures { Put (lines_at r.now.bytes.now r.now.notes.now format.items marks.now progress.old.lines) progress.old room.old progress.new room.new }
{
    put_empty(marks, room, progress);
    put_next(r, limits::ITEMS, marks, Rule::Consequence, room, progress);
}

// The line by rule 5: it cites the action's own line and the line before this one (FORMAT 24.7).
fn put_composed(
    r: &Request<OfFlags>,
    at: usize,
    marks: &Marks,
    first: usize,
    room: &mut [u8],
    progress: &mut Progress,
)
    requires position { Position (plan_in Flags r.now.bytes.now r.now.notes.now) at }
    requires marked { Marked marks.now }
    requires first_bound { first < 65536 }
    requires underway { Underway progress.old }
    requires progress_nonzero { 0 < progress.old.lines }
    ensures { Put (line_of marks.now (rest_at (plan_in Flags r.now.bytes.now r.now.notes.now) at) (goals_of (request_in Flags r.now.bytes.now r.now.notes.now)) Limits.composition_rule (first ∷ (progress.old.lines - 1) ∷ []) ∷ []) progress.old room.old progress.new room.new }
{
    let mut cites = Cites::none();
    let last = progress.lines - 1;
    cites.push(first);
    cites.push(last);
    put_goals(
        r,
        at,
        marks,
        u8::from(Rule::Composition),
        &cites,
        room,
        progress,
    );
}

// The plan from a position on.
#[cycle(put_acting_put_branching_put_from_put_readings_put_sensing)]
fn put_from(
    r: &Request<OfFlags>,
    at: usize,
    marks: &Marks,
    room: &mut [u8],
    progress: &mut Progress,
)
    requires position { Position (plan_in Flags r.now.bytes.now r.now.notes.now) at }
    requires marked { Marked marks.now }
    requires narrow_from { NarrowFrom r.now.bytes.now r.now.notes.now at marks.now }
    requires underway { Underway progress.old }
    ensures { Put (lines_at r.now.bytes.now r.now.notes.now at marks.now progress.old.lines) progress.old room.old progress.new room.new }
{
    if limits::LINES < progress.lines {
        return;
    }
    if at == limits::ITEMS {
        put_end(r, marks, room, progress);
        return;
    }
    let p = get(r.notes, notes::ITEM_PLACE + at);
    if r.bytes[p] == limits::BRANCHING_BYTE {
        put_branching(r, at, marks, room, progress);
        return;
    }
    let byte = r.bytes[p];
    let a = wide(byte);
    if is_sensing(r, a) {
        put_sensing(r, at, a, marks, room, progress);
        return;
    }
    put_acting(r, at, byte, marks, room, progress);
}

// A branching that is item i: the lines of the chosen branch and of what is left behind it, and then rule 4 (FORMAT 24.9).
#[cycle(put_acting_put_branching_put_from_put_readings_put_sensing)]
fn put_branching(
    r: &Request<OfFlags>,
    i: usize,
    marks: &Marks,
    room: &mut [u8],
    progress: &mut Progress,
)
    requires i_bound { i < items_of (plan_in Flags r.now.bytes.now r.now.notes.now) }
    requires i_value { get_or r.now.bytes.now (get_or r.now.notes.now (0 + i) 0) 0 ≡ 255 }
    requires marked { Marked marks.now }
    requires narrow_from { NarrowFrom r.now.bytes.now r.now.notes.now i marks.now }
    requires underway { Underway progress.old }
    ensures { Put (lines_at r.now.bytes.now r.now.notes.now i marks.now progress.old.lines) progress.old room.old progress.new room.new }
{
    if let Some(at) = chosen(r, i, marks) {
        put_from(r, at, marks, room, progress);
        put_next(r, i, marks, Rule::Branching, room, progress);
    }
}

// An action that is item i and does not sense: rule 2, the lines of the state after it, and then rule 5 (FORMAT 24.7).
#[cycle(put_acting_put_branching_put_from_put_readings_put_sensing)]
fn put_acting(
    r: &Request<OfFlags>,
    i: usize,
    a: u8,
    marks: &Marks,
    room: &mut [u8],
    progress: &mut Progress,
)
    requires acts { Acts r.now.bytes.now r.now.notes.now i a }
    requires a_value { sensing (table_in Flags r.now.bytes.now) a ≡ false }
    requires marked { Marked marks.now }
    requires narrow_from { NarrowFrom r.now.bytes.now r.now.notes.now i marks.now }
    requires underway { Underway progress.old }
    ensures { Put (lines_at r.now.bytes.now r.now.notes.now i marks.now progress.old.lines) progress.old room.old progress.new room.new }
{
    let first = progress.lines;
    let action = wide(a);
    let after = state_after(r, action, marks);
    put_action(a, marks, &after, room, progress);
    let at = follow(r, i);
    put_from(r, at, &after, room, progress);
    put_composed(r, i, marks, first, room, progress);
}

// A sensing action that is item i: the lines of each reading, and then rule 3 (FORMAT 24.8).
#[cycle(put_acting_put_branching_put_from_put_readings_put_sensing)]
fn put_sensing(
    r: &Request<OfFlags>,
    i: usize,
    a: usize,
    marks: &Marks,
    room: &mut [u8],
    progress: &mut Progress,
)
    requires acts { Acts r.now.bytes.now r.now.notes.now i a }
    requires a_value { sensing (table_in Flags r.now.bytes.now) a ≡ true }
    requires marked { Marked marks.now }
    requires narrow_from { NarrowFrom r.now.bytes.now r.now.notes.now i marks.now }
    requires underway { Underway progress.old }
    ensures { Put (lines_at r.now.bytes.now r.now.notes.now i marks.now progress.old.lines) progress.old room.old progress.new room.new }
{
    let at = follow(r, i);
    let f = first_unknown(r, a, marks);
    let mut cites = Cites::none();
    put_readings(r, a, at, f, marks, &mut cites, room, progress);
    put_goals(r, i, marks, u8::from(Rule::Sensing), &cites, room, progress);
}

// The readings of fluent f and of the unknown ones above it that the action senses, or of none where f is the limit of fluents; each is followed by the plan from a position
// on, and its last line is cited.
#[cycle(put_acting_put_branching_put_from_put_readings_put_sensing)]
fn put_readings(
    r: &Request<OfFlags>,
    a: usize,
    at: usize,
    f: usize,
    marks: &Marks,
    cites: &mut Cites,
    room: &mut [u8],
    progress: &mut Progress,
)
    requires a_lt_actions { a < format.actions }
    requires position { Position (plan_in Flags r.now.bytes.now r.now.notes.now) at }
    requires marked { Marked marks.now }
    requires narrow_readings { NarrowReadings r.now.bytes.now r.now.notes.now a at f marks.now }
    requires marks_bound { length cites.old + 2 ^ length (fluents_from r.now.bytes.now a f marks.now) ≤ format.citations }
    requires underway { Underway progress.old }
    ensures { ReadingsPut (2 ^ length (fluents_from r.now.bytes.now a f marks.now)) (readings_at r.now.bytes.now r.now.notes.now a at f marks.now progress.old.lines) cites.old progress.old room.old cites.new progress.new room.new }
{
    if f < limits::FLUENTS {
        let mut state = *marks;
        state[f] = limits::TRUE_MARK;
        let g = next_unknown(r, a, f + 1, &state);
        put_readings(r, a, at, g, &state, cites, room, progress);
        state[f] = limits::FALSE_MARK;
        put_readings(r, a, at, g, &state, cites, room, progress);
        return;
    }
    put_from(r, at, marks, room, progress);
    cites.push(progress.lines - 1);
}

// How many lines there are, and how many bytes with the two of their number.
#[derive(Clone, Copy)]
pub struct Size {
    pub lines: usize,
    pub bytes: usize,
}

// The lines of the whole plan from the first state, behind two bytes that are left for their number.
fn put_plan(r: &Request<OfFlags>, room: &mut [u8]) -> Size
    requires { Verified (narrow_walk_of format (request_in Flags r.now.bytes.now r.now.notes.now)) }
    ensures { Lined (derivation_of format (request_in Flags r.now.bytes.now r.now.notes.now)) room.old result room.new }
{
    let marks = state_of(r.bytes, 2);
    let items = get(r.notes, notes::ITEMS);
    let at = start_of(items);
    let mut progress = Progress { lines: 0, end: 2 };
    put_from(r, at, &marks, room, &mut progress);
    Size {
        lines: progress.lines,
        bytes: progress.end,
    }
}

// The first pass: how long the derivation is.
pub fn measure(r: &Request<OfFlags>) -> Size
    requires { Verified (narrow_walk_of format (request_in Flags r.now.bytes.now r.now.notes.now)) }
    ensures { Measured (derivation_of format (request_in Flags r.now.bytes.now r.now.notes.now)) result }
{
    let mut none = [0u8; 1];
    put_plan(r, &mut none)
}

// The second pass: the derivation is put at the start of a room that has the bytes (FORMAT 24.10).
pub fn write(r: &Request<OfFlags>, room: &mut [u8])
    requires verified { Verified (narrow_walk_of format (request_in Flags r.now.bytes.now r.now.notes.now)) }
    requires t_len_bound { length (derivation_of format (request_in Flags r.now.bytes.now r.now.notes.now)) ≤ format.lines }
    requires t_in_bounds { length (derivation_bytes (derivation_of format (request_in Flags r.now.bytes.now r.now.notes.now))) ≤ length room.old }
    ensures { room.new ≡ derivation_bytes (derivation_of format (request_in Flags r.now.bytes.now r.now.notes.now)) ++ drop (length (derivation_bytes (derivation_of format (request_in Flags r.now.bytes.now r.now.notes.now)))) room.old }
{
    let size = put_plan(r, room);
    put_number(room, 0, size.lines);
}
