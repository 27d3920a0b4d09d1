ghost use Rattle.std.specs.Prelude.{◌+◌, ◌-◌, ◌<◌, ◌≡◌, [], ◌∷◌, get_or};
ghost use Rattle.meaning.specs.Derivations.{rule_3};
ghost use Rattle.meaning.specs.Limits.{format};
ghost use Rattle.derivation.specs.DerivationRead.{plan_ends_slot};
ghost use Rattle.steps.specs.Held.{table_in};
ghost use Rattle.steps.specs.AtHand.{Marked};
ghost use Rattle.comparing.specs.Stands.{spot_at};
ghost use Rattle.comparing.specs.RuleAnswers.{SomeLine, SomeLines, CitedBelow, RuledByAll};
ghost use Rattle.ruling.specs.Readings.{states_from, StandsSome, SomeFollows, SaysReading, SomeRest, Uses};
ghost use Rattle.meaning.specs.declared.Form.TheVariants.{Flags};

use comparing::known::lists_known;
use comparing::parts::same_part;
use comparing::plans::count_of;
use comparing::spots::{Spot, cited_of, same_conclusions, spot_of};
use derivation::derivations::Places;
use finding::branches::sequence_of;
use meaning::{Form, Layout};
use parsing::bytes::wide;
use parsing::limits;
use parsing::shapes::OfFlags;
use reading::marks::{Marks, state_of};
use steps::actions::can_be_run;
use steps::request::Request;
use steps::sensing::{first_unknown, is_sensing, next_unknown};

// The line `cited` says what the state knows, what follows the first item of the line `own`, and that line's conclusion.
fn says_reading(d: &[u8], marks: &Marks, own: Spot, cited: Spot) -> bool
    requires marked { Marked marks.now }
    requires stands_some { StandsSome d.now cited }
    requires stands_some_2 { StandsSome d.now own }
    requires some_follows { SomeFollows d.now own }
    ensures { SaysReading d.now marks.now own cited result }
{
    if !lists_known(marks, d, cited.line) {
        return false;
    }
    let mine = sequence_of(Form::Flags, d, own.line);
    let plan = sequence_of(Form::Flags, d, cited.line);
    if count_of(d, plan) != count_of(d, mine).saturating_sub(1) {
        return false;
    }
    same_part(&d[plan + 2..cited.end], &d[mine + 3..own.end]) && same_conclusions(d, cited, own)
}

// Citation k of line i says the reading that the state has. Where the parts of line i stand is looked up each
// time: to hand that on through the readings takes longer.
fn one_reading(
    layout: Layout,
    d: &[u8],
    places: &Places,
    marks: &Marks,
    lines: usize,
    i: usize,
    k: usize,
) -> Option<usize>
    requires marked { Marked marks.now }
    requires i_lt_lines { i < lines }
    requires some_rest { SomeRest layout d.now places.now lines (spot_at layout d.now (get_or places.now i 0) (get_or places.now (plan_ends_slot + i) 0)) }
    ensures { Uses layout d.now places.now (spot_at layout d.now (get_or places.now i 0) (get_or places.now (plan_ends_slot + i) 0)) (marks.now ∷ []) k result }
{
    let own = spot_of(layout, d, places, lines, i);
    if wide(d[own.cites]) <= k {
        return None;
    }
    let cited = cited_of(layout, d, places, lines, own, k);
    says_reading(d, marks, own, cited).then_some(k + 1)
}

// The readings of fluent f and of the unknown ones above it that action a senses, in order, by the citations of line i from k on. At the
// limit of fluents there is none, and the state is a reading.
fn each_reading(
    layout: Layout,
    r: &Request<OfFlags>,
    d: &[u8],
    places: &Places,
    a: usize,
    f: usize,
    marks: Marks,
    lines: usize,
    i: usize,
    k: usize,
) -> Option<usize>
    requires a_lt_actions { a < format.actions }
    requires marked { Marked marks }
    requires i_lt_lines { i < lines }
    requires some_rest { SomeRest layout d.now places.now lines (spot_at layout d.now (get_or places.now i 0) (get_or places.now (plan_ends_slot + i) 0)) }
    ensures { Uses layout d.now places.now (spot_at layout d.now (get_or places.now i 0) (get_or places.now (plan_ends_slot + i) 0)) (states_from (table_in Flags r.now.bytes.now) a marks f) k result }
{
    if limits::FLUENTS <= f {
        return one_reading(layout, d, places, &marks, lines, i, k);
    }
    let mut state = marks;
    state[f] = limits::TRUE_MARK;
    let g = next_unknown(r, a, f + 1, &state);
    let j = each_reading(layout, r, d, places, a, g, state, lines, i, k)?;
    state[f] = limits::FALSE_MARK;
    each_reading(layout, r, d, places, a, g, state, lines, i, j)
}

// Rules 3 and 10, for line i: a sensing action first that can be run in X; one line for each reading in the walk's order: X with the
// reading, the rest, and the line's own conclusion.
pub fn rule_3(
    layout: Layout,
    r: &Request<OfFlags>,
    d: &[u8],
    places: &Places,
    lines: usize,
    i: usize,
    l: Spot,
) -> bool
    requires some_line { SomeLine d.now l }
    requires some_lines { SomeLines layout d.now places.now lines }
    requires i_lt_lines { i < lines }
    requires l_value { l ≡ spot_at layout d.now (get_or places.now i 0) (get_or places.now (plan_ends_slot + i) 0) }
    requires cited_below { CitedBelow d.now l lines }
    ensures { RuledByAll layout d.now places.now l (rule_3 format (table_in Flags r.now.bytes.now)) result }
{
    let plan = sequence_of(Form::Flags, d, l.line);
    if count_of(d, plan) == 0 || d[plan + 2] == limits::BRANCHING_BYTE {
        return false;
    }
    let a = wide(d[plan + 2]);
    if !is_sensing(r, a) {
        return false;
    }
    let marks = state_of(d, l.line);
    if !can_be_run(r, a, &marks) {
        return false;
    }
    let f = first_unknown(r, a, &marks);
    each_reading(layout, r, d, places, a, f, marks, lines, i, 0) == Some(wide(d[l.cites]))
}
