ghost use Rattle.std.specs.Prelude.{◌≡◌, ◌<◌};
ghost use Rattle.meaning.specs.Limits.{format};
ghost use Rattle.meaning.specs.Lines.{knowledge_of, sensing, senses};
ghost use Rattle.meaning.specs.Schemes.{too_wide};
ghost use Rattle.steps.specs.Held.{table_in};
ghost use Rattle.steps.specs.AtHand.{Marked, MarkedAs};
ghost use Rattle.steps.specs.Steps.{unknown_as, all_unknown, first_of};
ghost use Rattle.meaning.specs.declared.Form.TheVariants.{Flags};

use super::request::Request;
use parsing::limits;
use parsing::shapes::{OfFlags, Shape};
use reading::marks::Marks;
use reading::notes;
use reading::notes::{get, is_noted};

// The action has a knowledge line.
pub fn is_sensing<S: Shape>(r: &Request<S>, a: usize) -> bool
    requires a_lt_actions { a < format.actions }
    ensures { result ≡ sensing (table_in S.FORM r.now.bytes.now) a }
{
    0 < get(r.notes, notes::SENSED_TO + a)
}

// The action has a knowledge line for the fluent.
pub fn looks_at(r: &Request<OfFlags>, a: usize, f: usize) -> bool
    requires a_lt_actions { a < format.actions }
    requires f_lt_fluents { f < format.fluents }
    ensures { result ≡ senses (knowledge_of (table_in Flags r.now.bytes.now) a) f }
{
    is_noted(r.notes, a, f)
}

// The first fluent from `from` up that the action senses and that is unknown; the limit of fluents where there is none.
pub fn next_unknown<S: Shape>(r: &Request<S>, a: usize, from: usize, marks: &Marks) -> usize
    requires a_lt_actions { a < format.actions }
    requires marked_as { MarkedAs S.FORM r.now.bytes.now marks.now }
    ensures { result ≡ first_of (unknown_as S.FORM r.now.bytes.now a marks.now from) }
{
    for f in from..get(r.notes, notes::SENSED_TO + a) {
        if marks[f] == 0 && is_noted(r.notes, a, f) {
            return f;
        }
    }
    limits::FLUENTS
}

// The first of all that it senses and that is unknown.
pub fn first_unknown<S: Shape>(r: &Request<S>, a: usize, marks: &Marks) -> usize
    requires a_lt_actions { a < format.actions }
    requires marked_as { MarkedAs S.FORM r.now.bytes.now marks.now }
    ensures { result ≡ first_of (all_unknown S.FORM r.now.bytes.now a marks.now) }
{
    let from = limits::FLUENTS - get(r.notes, notes::SENSED_FROM + a);
    next_unknown(r, a, from, marks)
}

// More of the fluents that it senses are unknown than a derivation has readings for (FORMAT 24.4). They are counted no further than that.
pub fn is_too_wide(r: &Request<OfFlags>, a: usize, marks: &Marks) -> bool
    requires a_lt_actions { a < format.actions }
    requires marked { Marked marks.now }
    ensures { result ≡ too_wide (table_in Flags r.now.bytes.now) a marks.now }
{
    let mut met = 0;
    let mut f = first_unknown(r, a, marks);
    while f < limits::FLUENTS {
        if met == limits::FORKED {
            return true;
        }
        met += 1;
        f = next_unknown(r, a, f + 1, marks);
    }
    false
}
