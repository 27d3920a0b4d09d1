ghost use Rattle.std.specs.Prelude.{◌≡◌, ◌≤◌, ◌<◌, length, set};
ghost use Rattle.meaning.specs.Limits.{format};
ghost use Rattle.meaning.specs.Reading.{repeated, two_bytes_at};
ghost use Rattle.meaning.specs.Derivations.{concludes_fluent, conclusion_at, concluded_at, line_at, closing_at, read_derivation};
ghost use Rattle.parsing.specs.Read.{numbered, over, passed};
ghost use Rattle.reading.specs.Noted.{noting, outcome};
ghost use Rattle.derivation.specs.DerivationRead.{places_noted, derivation_noted, citing, ending, planned, lined, places_slots};

use meaning::Layout;
use parsing::bytes::{below_at, byte_at, count_at, two_bytes_at};
use parsing::faults::{Fault, Refusal};
use parsing::limits;
use parsing::lists::{Kind, list_at};
use parsing::rule_kinds::Rule;
use parsing::shapes::OfFlags;
use reader::{Reader, moved, new};
use reading::notes::Notes;
use reading::plan::plan_at;

// Slot k holds the place of line k, slot PLAN_ENDS + k the place where its plan ends, and slot LINES_END the place where the lines end.
pub type Places = [u16; PLACES_SLOTS];

pub const PLAN_ENDS: usize = limits::LINES;

pub const LINES_END: usize = 2 * limits::LINES;

pub const PLACES_SLOTS: usize = LINES_END + 1;

// There is a slot for each of these places, as for the notes' slots.
pub fn sized(places: &Places)
    ensures { length places.now ≡ places_slots }
{
    let slots: &[u16] = places;
}

// A given number of citations from `start` on.
fn citations_from(s: &[u8], count: usize, start: usize) -> Result<usize, Fault>
    ensures { over result ≡ passed (repeated (two_bytes_at s.now) count start) }
{
    let mut p = start;
    for _ in 0..count {
        let (_, after) = two_bytes_at(s, p)?;
        p = after;
    }
    Ok(p)
}

// The citations, from their count on.
fn cites_at(s: &[u8], p: usize) -> Result<usize, Fault>
    ensures { over result ≡ passed (citing s.now p) }
{
    let (count, first) = count_at(0, limits::CITATIONS, s, p)?;
    citations_from(s, count, first)
}

// The rule with this number concludes a fluent; none does where no rule has it.
pub fn gives_fluent(rule: usize) -> bool
    ensures { result ≡ concludes_fluent rule }
{
    matches!(
        Rule::of(rule),
        Some(
            Rule::Look
                | Rule::Literal
                | Rule::SensingWhether
                | Rule::CompositionWhether
                | Rule::BranchingWhether
        )
    )
}

// The conclusion after the rule byte: a fluent, or a list.
fn conclusion_at(n: usize, s: &[u8], rule: usize, p: usize) -> Result<usize, Fault>
    requires { n ≤ format.fluents }
    ensures { over result ≡ passed (conclusion_at format n s.now rule p) }
{
    if gives_fluent(rule) {
        let (_, after) = below_at(n, s, p)?;
        return Ok(after);
    }
    list_at(Kind::Literals, n, limits::LISTED, s, p)
}

// The conclusion and the rule byte, in the layout's order.
fn concluded_at(layout: Layout, n: usize, s: &[u8], p: usize) -> Result<usize, Fault>
    requires { n ≤ format.fluents }
    ensures { over result ≡ passed (concluded_at format n s.now layout p) }
{
    match layout {
        Layout::Plain => {
            let rule = list_at(Kind::Literals, n, limits::LISTED, s, p)?;
            let (_, after) = byte_at(s, rule)?;
            Ok(after)
        }
        Layout::Closing => {
            let (rule, conclusion) = byte_at(s, p)?;
            conclusion_at(n, s, rule, conclusion)
        }
    }
}

// The conclusion, the rule byte and the citations.
fn end_at(layout: Layout, n: usize, s: &[u8], p: usize) -> Result<usize, Fault>
    requires { n ≤ format.fluents }
    ensures { over result ≡ passed (ending layout n s.now p) }
{
    let cites = concluded_at(layout, n, s, p)?;
    cites_at(s, cites)
}

// The plan, with notes that are of no use afterwards, and what follows it: where the plan ends and where the line ends.
fn plan_first(
    layout: Layout,
    n: usize,
    m: usize,
    s: &[u8],
    p: usize,
    t: &mut Notes,
) -> Result<(usize, usize), Fault>
    requires n_le_fluents { n ≤ format.fluents }
    requires s_len_bound { length s.now ≤ format.derivation }
    ensures { numbered result ≡ planned layout n m s.now p }
{
    let (_, plan_end) = plan_at::<OfFlags>(n, m, s, p, t)?;
    let end = end_at(layout, n, s, plan_end)?;
    Ok((plan_end, end))
}

// A line: where its plan ends and where the line ends.
pub fn line_at(
    layout: Layout,
    n: usize,
    m: usize,
    s: &[u8],
    p: usize,
    t: &mut Notes,
) -> Result<(usize, usize), Fault>
    requires n_le_fluents { n ≤ format.fluents }
    requires s_len_bound { length s.now ≤ format.derivation }
    ensures { numbered result ≡ lined (line_at format n m s.now layout p) }
{
    let plan = list_at(Kind::Literals, n, limits::LISTED, s, p)?;
    plan_first(layout, n, m, s, plan, t)
}

pub fn note_place(k: usize, p: usize, places: &mut Places)
    requires k_lt_places_slots { k < places_slots }
    requires p_bound { p < 65536 }
    ensures { places.new ≡ set places.old k p }
{
    places[k] = p as u16;
}

// A given number of lines from `start` on.
fn lines_from(
    layout: Layout,
    n: usize,
    m: usize,
    s: &[u8],
    count: usize,
    start: usize,
    t: &mut Notes,
    places: &mut Places,
) -> Result<usize, Fault>
    requires n_le_fluents { n ≤ format.fluents }
    requires count_le_lines { count ≤ format.lines }
    requires s_len_bound { length s.now ≤ format.derivation }
    ensures { outcome result places.new ≡ noting (places_noted 0) (repeated (line_at format n m s.now layout) count start) places.old }
{
    let mut p = start;
    for k in 0..count {
        let (plan_end, end) = line_at(layout, n, m, s, p, t)?;
        note_place(k, p, places);
        note_place(PLAN_ENDS + k, plan_end, places);
        p = end;
    }
    Ok(p)
}

// The same, from where a reader stands.
fn lines<'a>(
    r: Reader<'a>,
    layout: Layout,
    n: usize,
    m: usize,
    count: usize,
    t: &mut Notes,
    places: &mut Places,
) -> Result<usize, Fault>
    requires n_le_fluents { n ≤ format.fluents }
    requires count_le_lines { count ≤ format.lines }
    requires src_len_bound { length r.src.now ≤ format.derivation }
    ensures { outcome result places.new ≡ noting (places_noted 0) (repeated (line_at format n m r.entry.src.now layout) count r.entry.at) places.old }
{
    lines_from(layout, n, m, r.src, count, r.at, t, places)
}

// A given number of lines from `start` on, through a reader; whoever calls this needs none.
fn read_lines(
    layout: Layout,
    n: usize,
    m: usize,
    s: &[u8],
    count: usize,
    start: usize,
    t: &mut Notes,
    places: &mut Places,
) -> Result<usize, Fault>
    requires n_le_fluents { n ≤ format.fluents }
    requires count_le_lines { count ≤ format.lines }
    requires s_len_bound { length s.now ≤ format.derivation }
    ensures { outcome result places.new ≡ noting (places_noted 0) (repeated (line_at format n m s.now layout) count start) places.old }
{
    lines(moved(new(s), start), layout, n, m, count, t, places)
}

// What closes a derivation: nothing, or a count byte of any value and as many line numbers.
fn closing_at(layout: Layout, s: &[u8], p: usize) -> Result<usize, Fault>
    ensures { over result ≡ passed (closing_at s.now layout p) }
{
    match layout {
        Layout::Plain => Ok(p),
        Layout::Closing => {
            let (count, first) = byte_at(s, p)?;
            citations_from(s, count, first)
        }
    }
}

// A derivation for a request with n fluents and m actions.
pub fn read_derivation(
    layout: Layout,
    n: usize,
    m: usize,
    s: &[u8],
    t: &mut Notes,
    places: &mut Places,
) -> Result<usize, Fault>
    requires { n ≤ format.fluents }
    ensures { outcome result places.new ≡ noting derivation_noted (read_derivation format n m s.now layout) places.old }
{
    if limits::DERIVATION < s.len() {
        return Err(Refusal::TooLong.at(0));
    }
    let (count, first) = two_bytes_at(s, 0)?;
    if count < 1 || limits::LINES < count {
        return Err(Refusal::CountOutside.at(0));
    }
    let lines_end = read_lines(layout, n, m, s, count, first, t, places)?;
    note_place(LINES_END, lines_end, places);
    let end = closing_at(layout, s, lines_end)?;
    if end < s.len() {
        return Err(Refusal::BytesAfter.at(end));
    }
    Ok(end)
}
