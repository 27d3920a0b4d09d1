ghost use Rattle.std.specs.Prelude.{◌≡◌, [], ◌∷◌, ◌+◌, ◌*◌, ◌≤◌, length};
ghost use Rattle.meaning.specs.Limits.{format};
ghost use Rattle.meaning.specs.Literals.{among};
ghost use Rattle.meaning.specs.Derivations.{for_lists, citations_taken, a_rule, cited_by, given_by, check_lines};
ghost use Rattle.parsing.specs.Read.{over, passed};
ghost use Rattle.parsing.specs.RuleKinds.{rule_number};
ghost use Rattle.steps.specs.Held.{table_in};
ghost use Rattle.checking.specs.Checked.{lines_in, line_in, spot_in, AllStand, Numbered, CitesEarlier, all_below, numbers_from, refused_by, number_or_none};
ghost use Rattle.meaning.specs.declared.Form.TheVariants.{Flags};

use comparing::spots::{Spot, cited_of, spot_of};
use derivation::derivations::Places;
use derivation::derived::place_of;
use meaning::Layout;
use parsing::bytes::{two, wide};
use parsing::faults::{Fault, Refusal};
use parsing::rule_kinds::Rule;
use parsing::shapes::OfFlags;
use reading::notes::Notes;
use ruling::branchings::rule_4;
use ruling::readings::rule_3;
use ruling::rules::{rule_1, rule_2, rule_5, rule_6, rule_7, rule_8};
use steps::request::Request;

// A rule of the layout.
fn is_rule(layout: Layout, rule: Rule) -> bool
    ensures { result ≡ a_rule layout (rule_number rule) }
{
    match layout {
        Layout::Plain => matches!(
            rule,
            Rule::Empty
                | Rule::Action
                | Rule::Sensing
                | Rule::Branching
                | Rule::Composition
                | Rule::Consequence
        ),
        Layout::Closing => true,
    }
}

// The rule that asks the same of lists.
fn rule_for_lists(rule: Rule) -> Rule
    ensures { rule_number result ≡ for_lists (rule_number rule) }
{
    match rule {
        Rule::SensingWhether => Rule::Sensing,
        Rule::CompositionWhether => Rule::Composition,
        Rule::BranchingWhether => Rule::Branching,
        _ => rule,
    }
}

// One for each reading of some fluents, six at the most.
fn readings(count: usize) -> bool
    ensures { result ≡ among count (1 ∷ 2 ∷ 4 ∷ 8 ∷ 16 ∷ 32 ∷ 64 ∷ []) }
{
    [1, 2, 4, 8, 16, 32, 64].contains(&count)
}

// The rule, one for lists or 7 or 8, takes this number of citations.
fn takes(rule: Rule, count: usize) -> bool
    ensures { result ≡ among count (citations_taken (rule_number rule)) }
{
    match rule {
        Rule::Empty | Rule::Action | Rule::Look => count == 0,
        Rule::Sensing => readings(count),
        Rule::Composition => count == 2,
        _ => count == 1,
    }
}

// Each of the numbers from `cites` on is below i.
fn all_earlier(d: &[u8], cites: usize, count: usize, i: usize) -> bool
    requires { cites + 2 * count ≤ length d.now }
    ensures { result ≡ all_below i (numbers_from d.now cites count) }
{
    for k in 0..count {
        let at = cites + 2 * k;
        if i <= two(d[at], d[at + 1]) {
            return false;
        }
    }
    true
}

// Line i, whose parts stand at l, is what the rule gives: its own, or the one that asks the same of lists.
fn gives(
    layout: Layout,
    n: usize,
    m: usize,
    r: &Request<OfFlags>,
    d: &[u8],
    u: &mut Notes,
    places: &Places,
    lines: usize,
    i: usize,
    l: Spot,
    rule: Rule,
) -> bool
    requires numbered { Numbered layout n m d.now places.now lines i }
    requires l_value { l ≡ spot_in layout d.now places.now i }
    requires rule_value { rule_number rule ≡ for_lists (line_in layout n m d.now i).rule }
    requires cites_earlier { CitesEarlier layout n m d.now i }
    ensures { result ≡ given_by format (table_in Flags r.now.bytes.now) (rule_number rule) (cited_by (lines_in layout n m d.now) (line_in layout n m d.now i)) (line_in layout n m d.now i) }
{
    match rule {
        Rule::Empty => rule_1(d, l),
        Rule::Action => rule_2(r, d, l),
        Rule::Sensing => rule_3(layout, r, d, places, lines, i, l),
        Rule::Branching => {
            let cited = cited_of(layout, d, places, lines, l, 0);
            rule_4(n, m, d, u, cited, l)
        }
        Rule::Composition => {
            let first = cited_of(layout, d, places, lines, l, 0);
            let second = cited_of(layout, d, places, lines, l, 1);
            rule_5(d, first, second, l)
        }
        Rule::Consequence => {
            let cited = cited_of(layout, d, places, lines, l, 0);
            rule_6(d, cited, l)
        }
        Rule::Look => rule_7(r, d, l),
        _ => {
            let cited = cited_of(layout, d, places, lines, l, 0);
            rule_8(d, cited, l)
        }
    }
}

// Why line i is refused: 31, 33, 32 or 34; nothing where it follows.
fn line_refused(
    layout: Layout,
    n: usize,
    m: usize,
    r: &Request<OfFlags>,
    d: &[u8],
    u: &mut Notes,
    places: &Places,
    lines: usize,
    i: usize,
) -> Option<Refusal>
    requires { Numbered layout n m d.now places.now lines i }
    ensures { number_or_none result ≡ refused_by layout (table_in Flags r.now.bytes.now) (lines_in layout n m d.now) i (line_in layout n m d.now i) }
{
    let l = spot_of(layout, d, places, lines, i);
    let Some(said) = Rule::of(l.rule) else {
        return Some(Refusal::NoSuchRule);
    };
    if !is_rule(layout, said) {
        return Some(Refusal::NoSuchRule);
    }
    let rule = rule_for_lists(said);
    let count = wide(d[l.cites]);
    if !takes(rule, count) {
        return Some(Refusal::CitationsNotTaken);
    }
    if !all_earlier(d, l.cites + 1, count, i) {
        return Some(Refusal::NotEarlier);
    }
    if !gives(layout, n, m, r, d, u, places, lines, i, l, rule) {
        return Some(Refusal::DoesNotFollow);
    }
    None
}

// Line by line 31, 33, 32, 34.
pub fn check_lines(
    layout: Layout,
    n: usize,
    m: usize,
    r: &Request<OfFlags>,
    d: &[u8],
    u: &mut Notes,
    places: &Places,
    lines: usize,
) -> Result<usize, Fault>
    requires { AllStand layout n m d.now places.now lines }
    ensures { over result ≡ passed (check_lines format layout (table_in Flags r.now.bytes.now) (lines_in layout n m d.now) 0 (lines_in layout n m d.now)) }
{
    for i in 0..lines {
        if let Some(refusal) = line_refused(layout, n, m, r, d, u, places, lines, i) {
            return Err(refusal.at(place_of(places, i)));
        }
    }
    Ok(0)
}
