// An index against the one that building gives (FORMAT 23.14).
ghost use Rattle.std.specs.Prelude.{◌≡◌, ◌≤◌, ◌==◌, not, length, take, zip, position};
ghost use Rattle.meaning.specs.Indexes.{first_difference, index_of};
ghost use Rattle.finding.specs.Places.{found};
ghost use Rattle.finding.specs.TablesHere.{table_in, TableHere};
ghost use Rattle.meaning.specs.declared.Form.TheVariants.{Flags};

use super::building::{index_length, put_index};
use parsing::limits;
use reading::notes::Notes;

// The place of the first byte of one that differs from the byte of the other there.
fn first_apart(one: &[u8], other: &[u8]) -> Option<usize>
    ensures { result ≡ position (λ p. not (p.0 == p.1)) (zip one.now other.now) }
{
    one.iter().zip(other).position(|(a, b)| a != b)
}

// The first difference of the first n bytes of one and all bytes of the other.
fn difference(one: &[u8], n: usize, other: &[u8]) -> Option<usize>
    requires { n ≤ length one.now }
    ensures { result ≡ found (first_difference (take n one.now) other.now) }
{
    match first_apart(&one[..n], other) {
        Some(i) => Some(i),
        None if n == other.len() => None,
        None => Some(n.min(other.len())),
    }
}

// That of the index which building gives and this one.
pub fn differs(s: &[u8], t: &Notes, index: &[u8]) -> Option<usize>
    requires { TableHere Flags s.now t.now }
    ensures { result ≡ found (first_difference (index_of (table_in Flags s.now)) index.now) }
{
    let mut room = [0u8; limits::INDEX];
    put_index(s, t, &mut room);
    let length = index_length(s, t);
    difference(&room, length, index)
}
