ghost use Rattle.std.specs.Prelude.{◌≡◌, ◌+◌, ◌*◌};
ghost use Rattle.meaning.specs.Reading.{byte_at, two_bytes_at, count_at, below_at};
ghost use Rattle.parsing.specs.Read.{numbered};

use super::faults::{Fault, Refusal};

pub fn wide(x: u8) -> usize
    ensures { result ≡ x }
{
    usize::from(x)
}

// A byte, and the place after it; or the fault met. Whatever reads a number answers so.
pub fn byte_at(s: &[u8], p: usize) -> Result<(usize, usize), Fault>
    ensures { numbered result ≡ byte_at s.now p }
{
    if s.len() <= p {
        return Err(Refusal::EndsTooSoon.at(s.len()));
    }
    Ok((usize::from(s[p]), p + 1))
}

pub fn two(high: u8, low: u8) -> usize
    ensures { result ≡ high * 256 + low }
{
    usize::from(u16::from_be_bytes([high, low]))
}

// A two-byte number, high byte first.
pub fn two_bytes_at(s: &[u8], p: usize) -> Result<(usize, usize), Fault>
    ensures { numbered result ≡ two_bytes_at s.now p }
{
    let (high, second) = byte_at(s, p)?;
    let (low, after) = byte_at(s, second)?;
    Ok((high * 256 + low, after))
}

// A count from `least` to `most`.
pub fn count_at(least: usize, most: usize, s: &[u8], p: usize) -> Result<(usize, usize), Fault>
    ensures { numbered result ≡ count_at least most s.now p }
{
    let (count, after) = byte_at(s, p)?;
    if count < least || most < count {
        return Err(Refusal::CountOutside.at(p));
    }
    Ok((count, after))
}

// A fluent, literal or action: a byte below `bound`.
pub fn below_at(bound: usize, s: &[u8], p: usize) -> Result<(usize, usize), Fault>
    ensures { numbered result ≡ below_at bound s.now p }
{
    let (x, after) = byte_at(s, p)?;
    if bound <= x {
        return Err(Refusal::TooLarge.at(p));
    }
    Ok((x, after))
}
