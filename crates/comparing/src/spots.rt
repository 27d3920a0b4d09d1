ghost use Rattle.std.specs.Prelude.{◌≡◌, ◌+◌, ◌*◌, ◌<◌, length, get_or};
ghost use Rattle.derivation.specs.DerivationRead.{plan_ends_slot};
ghost use Rattle.comparing.specs.Stands.{spot_at, number_cited};
ghost use Rattle.comparing.specs.RuleAnswers.{SomeAt, SomeLines, SomeConcluded, SameConclusions};

use super::parts::same_lists;
use derivation::derivations::{Places, gives_fluent};
use derivation::derived::{end_of, place_of};
use finding::branches::sequence_of;
use meaning::{Form, Layout};
use parsing::bytes::{two, wide};

// What a line concludes: the list of literals at a place, or a fluent.
#[derive(Clone, Copy)]
pub enum Concludes {
    Literals(usize),
    Fluent(u8),
}

// Where the parts of a line stand: the line with its list X, the end of its plan, the count of its citations. And its conclusion, and the number
// that its rule byte says, of a rule or of none.
#[derive(Clone, Copy)]
pub struct Spot {
    pub line: usize,
    pub end: usize,
    pub conclusion: Concludes,
    pub cites: usize,
    pub rule: usize,
}

// The parts of the line at p whose plan ends at e: what is between the plan and the citations goes by the layout.
fn spot_at(layout: Layout, d: &[u8], p: usize, e: usize) -> Spot
    requires { SomeAt layout d.now p e }
    ensures { result ≡ spot_at layout d.now p e }
{
    match layout {
        Layout::Plain => {
            let at = sequence_of(Form::Flags, d, e);
            Spot {
                line: p,
                end: e,
                conclusion: Concludes::Literals(e),
                cites: at + 1,
                rule: wide(d[at]),
            }
        }
        Layout::Closing => {
            let rule = wide(d[e]);
            let (conclusion, cites) = if gives_fluent(rule) {
                (Concludes::Fluent(d[e + 1]), e + 2)
            } else {
                (
                    Concludes::Literals(e + 1),
                    sequence_of(Form::Flags, d, e + 1),
                )
            };
            Spot {
                line: p,
                end: e,
                conclusion,
                cites,
                rule,
            }
        }
    }
}

// The parts of line k, which is one of the lines.
pub fn spot_of(layout: Layout, d: &[u8], places: &Places, lines: usize, k: usize) -> Spot
    requires some_lines { SomeLines layout d.now places.now lines }
    requires k_lt_lines { k < lines }
    ensures { result ≡ spot_at layout d.now (get_or places.now k 0) (get_or places.now (plan_ends_slot + k) 0) }
{
    spot_at(layout, d, place_of(places, k), end_of(places, k))
}

// The parts of the line whose number is citation k of the line at l.
pub fn cited_of(layout: Layout, d: &[u8], places: &Places, lines: usize, l: Spot, k: usize) -> Spot
    requires some_lines { SomeLines layout d.now places.now lines }
    requires number_there { l.cites + 1 + 2 * k + 1 < length d.now }
    requires number_below { number_cited d.now l k < lines }
    ensures { result ≡ spot_at layout d.now (get_or places.now (number_cited d.now l k) 0) (get_or places.now (plan_ends_slot + number_cited d.now l k) 0) }
{
    let at = l.cites + 1 + 2 * k;
    spot_of(layout, d, places, lines, two(d[at], d[at + 1]))
}

// Two lines have the same conclusion.
pub fn same_conclusions(d: &[u8], one: Spot, other: Spot) -> bool
    requires some_concluded { SomeConcluded d.now one }
    requires some_concluded_2 { SomeConcluded d.now other }
    ensures { SameConclusions d.now one other result }
{
    match (one.conclusion, other.conclusion) {
        (Concludes::Fluent(f), Concludes::Fluent(g)) => f == g,
        (Concludes::Literals(y), Concludes::Literals(z)) => same_lists(d, y, d, z),
        _ => false,
    }
}
