// The form of a request as a type. What serves both forms is written and proved once, and the compiler makes a function for each form of it.
ghost use Rattle.std.specs.Prelude.{◌≡◌, ◌≤◌, ◌<◌};
ghost use Rattle.meaning.specs.Limits.{format};
ghost use Rattle.meaning.specs.declared.Form.{Form};
ghost use Rattle.meaning.specs.declared.Form.TheVariants.{Flags, Valued};
ghost use Rattle.meaning.specs.Reading.{literals_at, literal_at};
ghost use Rattle.parsing.specs.Masks.{Counted};
ghost use Rattle.parsing.specs.Read.{numbered, over, passed, values_first, actions_place};

use super::bytes::below_at;
use super::faults::Fault;
use super::limits;
use super::lists::{Kind, list_at};
use super::values::{EVERY_VALUE, set_value_at, value_counts_at};
use meaning::Form;

pub trait Shape: Drop {
    const FORM: Form;

    ghost FORM: { Form };

    // Kept: parameters, since each implementation has to repeat the trait's.
    // A list of at most `most` literals: the place after it.
    fn literals_at(n: usize, most: usize, s: &[u8], p: usize) -> Result<usize, Fault>
        requires n_le_fluents { n ≤ format.fluents }
        requires counted { Counted FORM s.now }
        ensures { over result ≡ passed (literals_at FORM n most s.now p) };

    // The literal of an effect.
    fn literal_at(n: usize, s: &[u8], p: usize) -> Result<(usize, usize), Fault>
        requires { n ≤ format.fluents }
        ensures { numbered result ≡ literal_at FORM n s.now p };

    // What stands between the fluents' count and the actions' count: with values, how many each fluent has.
    fn values_at(n: usize, s: &[u8], p: usize) -> Result<usize, Fault>
        ensures { over result ≡ passed (values_first FORM n s.now p) };

    // Kept: parameters, since each implementation has to repeat the trait's.
    // Where the actions' count stands, of a request whose count of n fluents stands at p.
    fn actions_place(p: usize, n: usize) -> usize
        requires p_bound { p < 65536 }
        requires n_bound { n < 65536 }
        ensures { result ≡ actions_place FORM p n };
}

// A literal is one byte (FORMAT 2.3).
#[derive(Clone, Copy)]
pub struct OfFlags;

// A literal is two bytes (FORMAT 26.5).
#[derive(Clone, Copy)]
pub struct OfValues;

impl Shape for OfFlags {
    const FORM: Form = Form::Flags;

    ghost FORM = { Flags };

    fn literals_at(n: usize, most: usize, s: &[u8], p: usize) -> Result<usize, Fault> {
        list_at(Kind::Literals, n, most, s, p)
    }

    fn literal_at(n: usize, s: &[u8], p: usize) -> Result<(usize, usize), Fault> {
        below_at(2 * n, s, p)
    }

    fn values_at(n: usize, s: &[u8], p: usize) -> Result<usize, Fault> {
        Ok(p)
    }

    fn actions_place(p: usize, n: usize) -> usize {
        p + 1
    }
}

impl Shape for OfValues {
    const FORM: Form = Form::Valued;

    ghost FORM = { Valued };

    fn literals_at(n: usize, most: usize, s: &[u8], p: usize) -> Result<usize, Fault> {
        list_at([EVERY_VALUE; limits::FLUENTS], n, most, s, p)
    }

    fn literal_at(n: usize, s: &[u8], p: usize) -> Result<(usize, usize), Fault> {
        set_value_at(n, s, p)
    }

    fn values_at(n: usize, s: &[u8], p: usize) -> Result<usize, Fault> {
        value_counts_at(n, s, p)
    }

    fn actions_place(p: usize, n: usize) -> usize {
        p + 1 + n
    }
}
