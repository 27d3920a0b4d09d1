ghost use Rattle.std.specs.Prelude.{◌≡◌, ◌≤◌};
ghost use Rattle.meaning.specs.Limits.{format};
ghost use Rattle.meaning.specs.Derivations.{rule_4};
ghost use Rattle.finding.specs.Branches.{BranchesHere};
ghost use Rattle.comparing.specs.RuleAnswers.{SomePlan, SomeLine, SomeRead, ReadBy};
ghost use Rattle.ruling.specs.Branched.{branches_end, SomeBranched, BranchTaken};
ghost use Rattle.meaning.specs.declared.Form.TheVariants.{Flags};

use comparing::parts::same_lists;
use comparing::plans::{count_of, joined_plans};
use comparing::spots::{Spot, same_conclusions};
use finding::branches::{next_item, next_place, sequence_of};
use meaning::Form;
use parsing::bytes::wide;
use parsing::limits;
use parsing::shapes::OfFlags;
use reading::marks::{Marks, Test, each_holds, state_of};
use reading::notes;
use reading::notes::Notes;
use reading::plan::plan_at;

// The place after a given number of branches, the first of which stands at `place` with `item` items before it.
fn after_branches(d: &[u8], t: &Notes, count: usize, place: usize, item: usize) -> usize
    requires { BranchesHere Flags d.now t.now count place item }
    ensures { result ≡ branches_end d.now t.now count place item }
{
    let mut p = place;
    let mut i = item;
    for _ in 0..count {
        let q = next_place(Form::Flags, d, t, p, i);
        i = next_item(Form::Flags, d, t, p, i);
        p = q;
    }
    p
}

// Some branch of the branching at first has its condition known, and joined with the rest, up to y, is the plan with its count at cited.
fn some_branch(
    d: &[u8],
    t: &Notes,
    held: &Marks,
    first: usize,
    cited: usize,
    yc: usize,
    y: usize,
    more: usize,
) -> bool
    requires some_branched { SomeBranched d.now t.now first y more }
    requires some_plan { SomePlan d.now cited yc }
    ensures { BranchTaken d.now t.now held.now first cited yc y more result }
{
    let count = wide(d[first + 1]);
    let rest = after_branches(d, t, count, first + 2, 1);
    let mut p = first + 2;
    let mut i = 1;
    for _ in 0..count {
        let q = next_place(Form::Flags, d, t, p, i);
        let j = next_item(Form::Flags, d, t, p, i);
        if each_holds(Test::Known, held, d, p) {
            let sequence = sequence_of(Form::Flags, d, p);
            let items = count_of(d, sequence);
            if joined_plans(d, cited, yc, sequence + 2, q, items, rest, y, more) {
                return true;
            }
        }
        p = q;
        i = j;
    }
    false
}

// Rules 4 and 12: a branching first, some condition of it within X; X, that branch joined with the rest and the line's own conclusion by the
// line `cited`.
pub fn rule_4(n: usize, m: usize, d: &[u8], t: &mut Notes, cited: Spot, l: Spot) -> bool
    requires n_le_fluents { n ≤ format.fluents }
    requires m_le_actions { m ≤ format.actions }
    requires some_line { SomeLine d.now cited }
    requires some_read { SomeRead n m d.now l }
    ensures { ReadBy n m d.now cited l rule_4 result }
{
    if !same_lists(d, cited.line, d, l.line) || !same_conclusions(d, cited, l) {
        return false;
    }
    let plan = sequence_of(Form::Flags, d, l.line);
    let count = count_of(d, plan);
    if count == 0 || d[plan + 2] != limits::BRANCHING_BYTE {
        return false;
    }
    notes::sized(t);
    let Ok(_) = plan_at::<OfFlags>(n, m, d, plan, t) else {
        return false;
    };
    let held = state_of(d, l.line);
    let given = sequence_of(Form::Flags, d, cited.line);
    some_branch(d, t, &held, plan + 2, given, cited.end, l.end, count - 1)
}
