ghost use Rattle.std.specs.Prelude.{◌≡◌, true, [], ◌+◌, ◌/◌, ◌%◌, ◌<◌};
ghost use Rattle.meaning.specs.Limits.{format};
ghost use Rattle.meaning.specs.declared.Form.TheVariants.{Valued};
ghost use Rattle.meaning.specs.Refusals.{nowhere, first_against};
ghost use Rattle.meaning.specs.Reading.{literals_in};
ghost use Rattle.meaning.specs.Values.{contradictory};
ghost use Rattle.meaning.specs.ValueStates.{can_be_run, state_after};
ghost use Rattle.parsing.specs.Masks.{FewValues};
ghost use Rattle.reading.specs.Tables.{table_in};
ghost use Rattle.valuing.specs.Valuing.{ValuedMarks};
ghost use Rattle.finding.specs.ValueLines.{ValueEffects, ValueRuns};

use parsing::bytes::two;
use parsing::limits;
use reading::marks::{Look, Marks};
use reading::notes;
use reading::notes::{Notes, first_line, line_place, next_line};
use valuing::states::{each_known, look_at};

// Some executability line of the action has a body known true.
pub fn can_be_run(s: &[u8], t: &Notes, a: usize, marks: &Marks) -> bool
    requires value_runs { ValueRuns s.now t.now }
    requires a_lt_actions { a < format.actions }
    requires valued_marks { ValuedMarks s.now marks.now }
    ensures { result ≡ can_be_run (literals_in s.now) (table_in Valued s.now) a marks.now }
{
    let mut k = first_line(t, notes::EXECUTABILITY, a);
    while 0 < k {
        let p = line_place(t, notes::EXECUTABILITY, k);
        if each_known(s, marks, p + 1) {
            return true;
        }
        k = next_line(t, notes::EXECUTABILITY, k);
    }
    false
}

// The mark of the value that an effect with the literal sets.
fn mark_set(l: usize) -> u8
    ensures { result ≡ l % 256 / 2 + 1 }
{
    (l % 256 / 2 + 1) as u8
}

// The state after an action that is not a sensing one and can be run. Each effect in turn tells the value that it sets, or forgets one that it may
// change, and that is final: no contradiction was found (16), so what one effect tells no other may change. A body is looked at only where the mark
// could change.
pub fn state_after(s: &[u8], t: &Notes, a: usize, marks: &Marks) -> Marks
    requires value_effects { ValueEffects s.now t.now }
    requires few_values { FewValues s.now }
    requires a_lt_actions { a < format.actions }
    requires valued_marks { ValuedMarks s.now marks.now }
    requires s_value { first_against (contradictory (literals_in s.now) (table_in Valued s.now)) [] (table_in Valued s.now).effects ≡ nowhere }
    requires marks_value { can_be_run (literals_in s.now) (table_in Valued s.now) a marks.now ≡ true }
    ensures { result ≡ state_after (literals_in s.now) (table_in Valued s.now) a marks.now }
{
    let mut next = *marks;
    let mut k = first_line(t, notes::EFFECTS, a);
    while 0 < k {
        let p = line_place(t, notes::EFFECTS, k);
        k = next_line(t, notes::EFFECTS, k);
        let l = two(s[p + 1], s[p + 2]);
        let f = l / 256;
        let mark = mark_set(l);
        if next[f] == mark {
            continue;
        }
        if next[f] == limits::UNKNOWN_MARK {
            if each_known(s, marks, p + 3) {
                next[f] = mark;
            }
        } else {
            match look_at(s, marks, p + 3) {
                Look::Known => next[f] = mark,
                Look::Possible => next[f] = limits::UNKNOWN_MARK,
                Look::Never => {}
            }
        }
    }
    next
}
