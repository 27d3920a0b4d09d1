ghost use Rattle.std.specs.Prelude.{◌≡◌, true, ◌<◌};
ghost use Rattle.meaning.specs.Limits.{format};
ghost use Rattle.meaning.specs.Lines.{executability_of};
ghost use Rattle.meaning.specs.States.{known, can_be_run, state_after};
ghost use Rattle.meaning.specs.Asking.{nearest, asked};
ghost use Rattle.steps.specs.Held.{table_in};
ghost use Rattle.steps.specs.AtHand.{Marked};
ghost use Rattle.meaning.specs.declared.Form.TheVariants.{Flags};

use super::request::Request;
use meaning::Runs;
use parsing::bytes::wide;
use parsing::shapes::OfFlags;
use reading::marks::{Look, Marks, Test, each_holds, look_at, mark_of, short_by};
use reading::notes;
use reading::notes::{first_line, line_place, next_line};

// The line of the action that is short by the fewest literals, the earliest of equals, where none allows it.
fn nearest(r: &Request<OfFlags>, a: usize, marks: &Marks) -> Runs
    requires a_lt_actions { a < format.actions }
    ensures { result ≡ nearest (known marks.now) (executability_of (table_in Flags r.now.bytes.now) a) }
{
    let first = first_line(r.notes, notes::EXECUTABILITY, a);
    if first == 0 {
        return Runs::Never;
    }
    let mut best = line_place(r.notes, notes::EXECUTABILITY, first);
    let mut fewest = short_by(marks, r.bytes, best + 1);
    let mut k = next_line(r.notes, notes::EXECUTABILITY, first);
    while 0 < k {
        let p = line_place(r.notes, notes::EXECUTABILITY, k);
        let short = short_by(marks, r.bytes, p + 1);
        if short < fewest {
            best = p;
            fewest = short;
        }
        k = next_line(r.notes, notes::EXECUTABILITY, k);
    }
    Runs::Short(best)
}

// Whether the action can be run: the first of its lines that allows it, or else the nearest. Only where none allows it are literals counted.
pub fn ask(r: &Request<OfFlags>, a: usize, marks: &Marks) -> Runs
    requires a_lt_actions { a < format.actions }
    ensures { result ≡ asked (table_in Flags r.now.bytes.now) a marks.now }
{
    let mut k = first_line(r.notes, notes::EXECUTABILITY, a);
    while 0 < k {
        let p = line_place(r.notes, notes::EXECUTABILITY, k);
        if each_holds(Test::Known, marks, r.bytes, p + 1) {
            return Runs::By(p);
        }
        k = next_line(r.notes, notes::EXECUTABILITY, k);
    }
    nearest(r, a, marks)
}

// Some line allows it.
pub fn can_be_run(r: &Request<OfFlags>, a: usize, marks: &Marks) -> bool
    requires a_lt_actions { a < format.actions }
    ensures { result ≡ can_be_run (table_in Flags r.now.bytes.now) a marks.now }
{
    match ask(r, a, marks) {
        Runs::By(_) => true,
        _ => false,
    }
}

// The state after an action that is not a sensing one and can be run. Each effect in turn tells what it gives or undoes what it may, and that
// is final: no contradiction was found (16), so what one effect tells no other may undo. A body is looked at only where the mark could change.
pub fn state_after(r: &Request<OfFlags>, a: usize, marks: &Marks) -> Marks
    requires a_lt_actions { a < format.actions }
    requires marked { Marked marks.now }
    requires marks_value { can_be_run (table_in Flags r.now.bytes.now) a marks.now ≡ true }
    ensures { result ≡ state_after (table_in Flags r.now.bytes.now) a marks.now }
{
    let mut next = *marks;
    let mut k = first_line(r.notes, notes::EFFECTS, a);
    while 0 < k {
        let p = line_place(r.notes, notes::EFFECTS, k);
        k = next_line(r.notes, notes::EFFECTS, k);
        let l = wide(r.bytes[p + 1]);
        let f = l / 2;
        let mark = mark_of(l);
        if next[f] == mark {
            continue;
        }
        if next[f] == 0 {
            if each_holds(Test::Known, marks, r.bytes, p + 2) {
                next[f] = mark;
            }
        } else {
            match look_at(marks, r.bytes, p + 2) {
                Look::Known => next[f] = mark,
                Look::Possible => next[f] = 0,
                Look::Never => {}
            }
        }
    }
    next
}
