ghost use Rattle.std.specs.Prelude.{◌≡◌};
ghost use Rattle.meaning.specs.declared.Form.TheVariants.{Valued};
ghost use Rattle.parsing.specs.Masks.{Allows, FewValues};
ghost use Rattle.reading.specs.Listed.{ValuesHere, listed_as};
ghost use Rattle.valuing.specs.Valuing.{agreeing};

use parsing::bytes::two;
use parsing::limits;
use parsing::values::{Allowed, EVERY_VALUE, narrow, some_left, values_in};
use reading::listed::listed_in_twos;

// What the list at p leaves to each fluent.
pub fn allowed_by(s: &[u8], p: usize) -> Allowed
    requires { ValuesHere s.now p }
    ensures { Allows s.now (listed_as Valued s.now p) result }
{
    let mut allowed = [EVERY_VALUE; limits::FLUENTS];
    for pair in listed_in_twos(s, p).chunks_exact(2) {
        narrow(&mut allowed, two(pair[0], pair[1]));
    }
    allowed
}

// Each fluent that the list at q names is left a value that is in its set too.
pub fn agrees(s: &[u8], allowed: &Allowed, q: usize) -> bool
    requires values_here { ValuesHere s.now q }
    requires few_values { FewValues s.now }
    ensures { result ≡ agreeing s.now allowed.now (listed_as Valued s.now q) }
{
    let mut both = *allowed;
    for pair in listed_in_twos(s, q).chunks_exact(2) {
        let l = two(pair[0], pair[1]);
        narrow(&mut both, l);
        let f = l / 256;
        if !some_left(both[f], values_in(s, f)) {
            return false;
        }
    }
    true
}
