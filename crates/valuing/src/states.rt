ghost use Rattle.std.specs.Prelude.{◌≡◌, map, ℕ, ◌%◌, ◌≤◌, ◌<◌};
ghost use Rattle.meaning.specs.Tests.{each_of, those_of};
ghost use Rattle.meaning.specs.Limits;
ghost use Rattle.meaning.specs.Limits.{format};
ghost use Rattle.meaning.specs.declared.Form.TheVariants.{Valued};
ghost use Rattle.meaning.specs.Reading.{literals_in};
ghost use Rattle.meaning.specs.Values.{numbers, values_of, fits};
ghost use Rattle.meaning.specs.ValueStates.{known, mark_left};
ghost use Rattle.parsing.specs.Bits.{bit_of};
ghost use Rattle.parsing.specs.Masks.{FewValues};
ghost use Rattle.reading.specs.Listed.{ValuesHere, listed_as};
ghost use Rattle.valuing.specs.Valuing.{ValuedMarks, look_values};

use super::sets::allowed_by;
use parsing::bits::has_bit;
use parsing::bytes::{two, wide};
use parsing::limits;
use parsing::values::values_in;
use reading::listed::listed_in_twos;
use reading::marks::{Look, Marks};

// The literal is known true. A mark is one more than the value that it says, and 0 says none.
pub fn known(s: &[u8], marks: &Marks, l: usize) -> bool
    requires l_bound { l < 32768 }
    requires l_bound_2 { l % 256 < 32 }
    requires valued_marks { ValuedMarks s.now marks.now }
    ensures { result ≡ known (literals_in s.now) marks.now l }
{
    let mark = wide(marks[l / 256]);
    let said = l % 256 / 2 + 1;
    if l % 2 == 0 {
        return mark == said;
    }
    if mark == 0 {
        return false;
    }
    mark != said
}

// Each literal of the list at p.
pub fn each_known(s: &[u8], marks: &Marks, p: usize) -> bool
    requires values_here { ValuesHere s.now p }
    requires valued_marks { ValuedMarks s.now marks.now }
    ensures { result ≡ each_of (known (literals_in s.now) marks.now) (listed_as Valued s.now p) }
{
    for pair in listed_in_twos(s, p).chunks_exact(2) {
        if !known(s, marks, two(pair[0], pair[1])) {
            return false;
        }
    }
    true
}

// What a look at the list at p tells: each literal is known true, or each is possible and some is not known, or some is known false.
pub fn look_at(s: &[u8], marks: &Marks, p: usize) -> Look
    requires values_here { ValuesHere s.now p }
    requires valued_marks { ValuedMarks s.now marks.now }
    ensures { result ≡ look_values s.now marks.now (listed_as Valued s.now p) }
{
    let mut sure = true;
    // Kept: by place, since to go over a short list in pairs of bytes takes longer, and most bodies are short (D225).
    for k in 0..wide(s[p]) {
        let at = p + 1 + 2 * k;
        let l = two(s[at], s[at + 1]);
        if known(s, marks, l) {
            continue;
        }
        if marks[l / 256] != limits::UNKNOWN_MARK {
            return Look::Never;
        }
        sure = false;
    }
    if sure { Look::Known } else { Look::Possible }
}

// The mark of a fluent that is left those of so many values that are in the set.
fn mark_left(m: u16, values: usize) -> u8
    requires { values ≤ Limits.most_values }
    ensures { result ≡ mark_left (those_of (bit_of m) (numbers 0 values)) }
{
    let mut mark = limits::UNKNOWN_MARK;
    for v in 0..values {
        if has_bit(m, v) {
            if mark != limits::UNKNOWN_MARK {
                return limits::UNKNOWN_MARK;
            }
            mark = v as u8 + 1;
        }
    }
    mark
}

// The first state, by the list of facts at p.
pub fn first_state(s: &[u8], p: usize) -> Marks
    requires values_here { ValuesHere s.now p }
    requires few_values { FewValues s.now }
    ensures { result ≡ map (λ (f : ℕ). mark_left (those_of (fits (literals_in s.now) (listed_as Valued s.now p) f) (values_of (literals_in s.now) f))) (numbers 0 format.state) }
{
    let allowed = allowed_by(s, p);
    let mut marks = [limits::UNKNOWN_MARK; limits::FLUENTS];
    for (f, mark) in marks.iter_mut().enumerate() {
        *mark = mark_left(allowed[f], values_in(s, f));
    }
    marks
}
