ghost use Rattle.std.specs.Prelude.{◌≡◌, ◌%◌, ◌≤◌, ◌<◌};
ghost use Rattle.meaning.specs.Limits;
ghost use Rattle.meaning.specs.Limits.{format};
ghost use Rattle.meaning.specs.Reading.{values_in, value_at, value_entry_at, value_entries_at, value_list_at, set_value_at, value_counts_at};
ghost use Rattle.parsing.specs.Read.{numbered, over, passed};
ghost use Rattle.parsing.specs.Masks.{satisfying, some_left, narrowed, Allows, FewValues};
ghost use Rattle.parsing.specs.Entries.{values_none, values_more, values_list};

use super::bits::has_bit;
use super::bytes::{below_at, count_at};
use super::faults::{Fault, Refusal};
use super::limits;
use super::lists::Entry;

// What a list leaves to each fluent: bit v of a number is there where value v satisfies all that is said of the fluent.
pub type Allowed = [u16; limits::FLUENTS];

// Nothing is said of any.
pub const EVERY_VALUE: u16 = 65535;

// How many values a fluent has.
pub fn values_in(s: &[u8], f: usize) -> usize
    requires { f < format.fluents }
    ensures value { result ≡ values_in s.now f }
    ensures upper_bound { result < 256 }
{
    if s.len() == 0 || usize::from(s[0]) <= f {
        return 2;
    }
    if s.len() <= f + 1 {
        return 0;
    }
    usize::from(s[f + 1])
}

// A literal with its two bytes.
fn value_at(n: usize, s: &[u8], p: usize) -> Result<(usize, usize), Fault>
    requires { n ≤ format.fluents }
    ensures { numbered result ≡ value_at n s.now p }
{
    let (f, second) = below_at(n, s, p)?;
    let values = values_in(s, f);
    let (said, after) = below_at(2 * values, s, second)?;
    Ok((f * 256 + said, after))
}

// The values that satisfy a literal.
pub fn satisfying(l: usize) -> u16
    requires { l % 256 < 32 }
    ensures { result ≡ satisfying l }
{
    let v = l % 256 / 2;
    let bit: u16 = 1 << v as u16;
    if l % 2 == 0 {
        return bit;
    }
    EVERY_VALUE - bit
}

// Some of so many values is left.
pub fn some_left(m: u16, values: usize) -> bool
    requires { values ≤ Limits.most_values }
    ensures { result ≡ some_left m values }
{
    (0..values).any(|v| has_bit(m, v))
}

// What a literal leaves to its fluent.
pub fn narrow(allowed: &mut Allowed, l: usize)
    requires l_bound { l < 32768 }
    requires l_bound_2 { l % 256 < 32 }
    ensures { allowed.new ≡ narrowed l allowed.old }
{
    let f = l / 256;
    allowed[f] &= satisfying(l);
}

// Of a list of literals it is kept what those so far leave.
impl Entry for Allowed {
    ghost list = { λ first n most s p. value_list_at n most s p };

    ghost entries = { λ first n s left p before. value_entries_at n s left p before };

    ghost entry = { λ first n s p before. value_entry_at n s p before };

    ghost asks = { FewValues };

    ghost kept = { λ first now s before. Allows s before now };

    fn entry_at(
        &mut self,
        n: usize,
        s: &[u8],
        p: usize,
        floor: usize,
    ) -> Result<(usize, usize), Fault> {
        let (x, after) = value_at(n, s, p)?;
        if x < floor {
            return Err(Refusal::NotAbove.at(p));
        }
        narrow(self, x);
        let f = x / 256;
        if !some_left(self[f], values_in(s, f)) {
            return Err(Refusal::ComplementBeside.at(p));
        }
        Ok((x, after))
    }

    ghost none_law = { λ first. values_none };

    ghost more_law = { λ first. values_more };

    ghost list_law = { λ first. values_list };
}

// The literal of an effect.
pub fn set_value_at(n: usize, s: &[u8], p: usize) -> Result<(usize, usize), Fault>
    requires { n ≤ format.fluents }
    ensures { numbered result ≡ set_value_at n s.now p }
{
    let (x, after) = value_at(n, s, p)?;
    if x % 2 != 0 {
        return Err(Refusal::SaysIsNot.at(p));
    }
    Ok((x, after))
}

// The numbers of values of so many fluents: the place after them.
pub fn value_counts_at(count: usize, s: &[u8], start: usize) -> Result<usize, Fault>
    ensures { over result ≡ passed (value_counts_at count s.now start) }
{
    let mut p = start;
    for _ in 0..count {
        let (_, after) = count_at(limits::FEWEST_VALUES, limits::VALUES, s, p)?;
        p = after;
    }
    Ok(p)
}
