ghost use Rattle.meaning.specs.Derivations.{rule_1, rule_2, rule_5, rule_6, rule_7, rule_8};
ghost use Rattle.meaning.specs.Limits.{format};
ghost use Rattle.steps.specs.Held.{table_in};
ghost use Rattle.comparing.specs.RuleAnswers.{SomeLine, Ruled, RuledBy, RuledByTwo};
ghost use Rattle.meaning.specs.declared.Form.TheVariants.{Flags};

use comparing::known::{lists_known, within};
use comparing::parts::same_lists;
use comparing::plans::{count_of, joined_plans, same_plans};
use comparing::spots::{Concludes, Spot, same_conclusions};
use finding::branches::{empty, sequence_of};
use meaning::Form;
use parsing::bytes::wide;
use parsing::limits;
use parsing::shapes::OfFlags;
use reading::marks::state_of;
use steps::actions::{can_be_run, state_after};
use steps::request::Request;
use steps::sensing::{is_sensing, looks_at};

// In what follows a line is told by where its parts stand. Rule 1: the empty plan, and Y = X.
pub fn rule_1(d: &[u8], l: Spot) -> bool
    requires { SomeLine d.now l }
    ensures { Ruled d.now l rule_1 result }
{
    let Concludes::Literals(conclusion) = l.conclusion else {
        return false;
    };
    let plan = sequence_of(Form::Flags, d, l.line);
    empty(d, plan) && same_lists(d, conclusion, d, l.line)
}

// Rule 2: one action without knowledge lines that can be run in X, and Y is the state after it.
pub fn rule_2(r: &Request<OfFlags>, d: &[u8], l: Spot) -> bool
    requires { SomeLine d.now l }
    ensures { Ruled d.now l (rule_2 format (table_in Flags r.now.bytes.now)) result }
{
    let Concludes::Literals(conclusion) = l.conclusion else {
        return false;
    };
    let plan = sequence_of(Form::Flags, d, l.line);
    if count_of(d, plan) != 1 || d[plan + 2] == limits::BRANCHING_BYTE {
        return false;
    }
    let a = wide(d[plan + 2]);
    if is_sensing(r, a) {
        return false;
    }
    let marks = state_of(d, l.line);
    can_be_run(r, a, &marks) && lists_known(&state_after(r, a, &marks), d, conclusion)
}

// Rules 5 and 11: X c' Z by the line `one` and then Z c'' by the line `two`, with the conclusion of the line itself.
pub fn rule_5(d: &[u8], one: Spot, two: Spot, l: Spot) -> bool
    requires some_line { SomeLine d.now one }
    requires some_line_2 { SomeLine d.now two }
    requires some_line_3 { SomeLine d.now l }
    ensures { RuledByTwo d.now one two l rule_5 result }
{
    let Concludes::Literals(middle) = one.conclusion else {
        return false;
    };
    if !same_lists(d, one.line, d, l.line)
        || !same_lists(d, middle, d, two.line)
        || !same_conclusions(d, two, l)
    {
        return false;
    }
    let plan = sequence_of(Form::Flags, d, l.line);
    let first = sequence_of(Form::Flags, d, one.line);
    let second = sequence_of(Form::Flags, d, two.line);
    let count = count_of(d, first);
    let more = count_of(d, second);
    joined_plans(
        d,
        plan,
        l.end,
        first + 2,
        one.end,
        count,
        second + 2,
        two.end,
        more,
    )
}

// Rule 6: X' c Y' by the line `cited`, with X' within X and Y within Y'.
pub fn rule_6(d: &[u8], cited: Spot, l: Spot) -> bool
    requires some_line { SomeLine d.now cited }
    requires some_line_2 { SomeLine d.now l }
    ensures { RuledBy d.now cited l rule_6 result }
{
    let Concludes::Literals(told) = cited.conclusion else {
        return false;
    };
    let Concludes::Literals(conclusion) = l.conclusion else {
        return false;
    };
    if !within(d, cited.line, d, l.line) {
        return false;
    }
    let given = sequence_of(Form::Flags, d, cited.line);
    let plan = sequence_of(Form::Flags, d, l.line);
    same_plans(d, given, cited.end, d, plan, l.end) && within(d, conclusion, d, told)
}

// Rule 7: one action that can be run in X and has a knowledge line for the fluent.
pub fn rule_7(r: &Request<OfFlags>, d: &[u8], l: Spot) -> bool
    requires { SomeLine d.now l }
    ensures { Ruled d.now l (rule_7 format (table_in Flags r.now.bytes.now)) result }
{
    let Concludes::Fluent(fluent) = l.conclusion else {
        return false;
    };
    let plan = sequence_of(Form::Flags, d, l.line);
    if count_of(d, plan) != 1 || d[plan + 2] == limits::BRANCHING_BYTE {
        return false;
    }
    let a = wide(d[plan + 2]);
    looks_at(r, a, wide(fluent)) && can_be_run(r, a, &state_of(d, l.line))
}

// Rule 8: X c by the line `cited`, with a list of one literal of the fluent.
pub fn rule_8(d: &[u8], cited: Spot, l: Spot) -> bool
    requires some_line { SomeLine d.now cited }
    requires some_line_2 { SomeLine d.now l }
    ensures { RuledBy d.now cited l rule_8 result }
{
    let Concludes::Literals(told) = cited.conclusion else {
        return false;
    };
    let Concludes::Fluent(fluent) = l.conclusion else {
        return false;
    };
    if d[told] != 1 || d[told + 1] / 2 != fluent || !same_lists(d, cited.line, d, l.line) {
        return false;
    }
    let given = sequence_of(Form::Flags, d, cited.line);
    let plan = sequence_of(Form::Flags, d, l.line);
    same_plans(d, given, cited.end, d, plan, l.end)
}
