ghost use Rattle.std.specs.Prelude.{◌≡◌, ◌+◌, ◌≤◌, ◌<◌, length, get_or};
ghost use Rattle.meaning.specs.Limits.{format, all_literals};
ghost use Rattle.reading.specs.Noted.{noting, outcome};
ghost use Rattle.reading.specs.Listed.{ListHere};
ghost use Rattle.derivation.specs.DerivationRead.{derivation_noted, settled_derivation, plan_ends_slot, places_slots};
ghost use Rattle.derivation.specs.Derived.{SomeLines, LineFound, LinesFound};

use super::derivations;
use super::derivations::{Places, read_derivation};
use finding::branches::sequence_of;
use meaning::{Form, Layout};
use parsing::bytes::two;
use parsing::faults::{Fault, Refusal};
use parsing::shapes::OfFlags;
use reading::notes;
use reading::notes::{Notes, widened};
use reading::plan::plan_at;
use refusing::refusal_18::overlap;

// The place in slot k, which is that of line k.
pub fn place_of(places: &Places, k: usize) -> usize
    requires { k < places_slots }
    ensures { result ≡ get_or places.now k 0 }
{
    widened(places[k])
}

// Where the plan of line k ends.
pub fn end_of(places: &Places, k: usize) -> usize
    requires { k < format.lines }
    ensures { result ≡ get_or places.now (plan_ends_slot + k) 0 }
{
    place_of(places, derivations::PLAN_ENDS + k)
}

// 18 in the plan of the line at p. The plan is read again, without a fault, into notes that are of no use afterwards.
fn overlap_in_line(n: usize, m: usize, s: &[u8], p: usize, t: &mut Notes) -> Option<usize>
    requires n_le_fluents { n ≤ format.fluents }
    requires m_le_actions { m ≤ format.actions }
    requires s_len_bound { length s.now ≤ format.derivation }
    requires list_here { ListHere all_literals s.now p }
    ensures { LineFound n m s.now p result }
{
    let plan = sequence_of(Form::Flags, s, p);
    notes::sized(t);
    let Ok((count, _)) = plan_at::<OfFlags>(n, m, s, plan, t) else {
        return None;
    };
    overlap(Form::Flags, s, t, count)
}

// 18: the first branching with two conditions that are not exclusive, over a given number of lines in order.
fn overlap_in_lines(
    n: usize,
    m: usize,
    s: &[u8],
    t: &mut Notes,
    places: &Places,
    count: usize,
) -> Option<usize>
    requires n_le_fluents { n ≤ format.fluents }
    requires m_le_actions { m ≤ format.actions }
    requires s_len_bound { length s.now ≤ format.derivation }
    requires count_le_lines { count ≤ format.lines }
    requires some_lines { SomeLines n m s.now places.now count }
    ensures { LinesFound n m s.now places.now count result }
{
    for k in 0..count {
        let p = place_of(places, k);
        if let Some(q) = overlap_in_line(n, m, s, p, t) {
            return Some(q);
        }
    }
    None
}

// A derivation settled, for a request with n fluents and m actions: read without a fault, and past 18.
pub fn settle_derivation(
    layout: Layout,
    n: usize,
    m: usize,
    s: &[u8],
    t: &mut Notes,
    places: &mut Places,
) -> Result<usize, Fault>
    requires n_le_fluents { n ≤ format.fluents }
    requires m_le_actions { m ≤ format.actions }
    ensures { outcome result places.new ≡ noting derivation_noted (settled_derivation layout n m s.now) places.old }
{
    derivations::sized(places);
    let end = read_derivation(layout, n, m, s, t, places)?;
    let count = two(s[0], s[1]);
    match overlap_in_lines(n, m, s, t, places, count) {
        Some(p) => Err(Refusal::NotExclusive.at(p)),
        None => Ok(end),
    }
}
