ghost use Rattle.std.specs.Prelude.{◌≡◌, ◌++◌};
ghost use Rattle.meaning.specs.Limits.{all_literals};
ghost use Rattle.meaning.specs.Derivations.{same_list};
ghost use Rattle.reading.specs.Listed.{listed, ListHere};

use parsing::bytes::wide;

// Two parts hold the same bytes.
pub fn same_part(one: &[u8], other: &[u8]) -> bool
    ensures { result ≡ same_list one.now other.now }
{
    one == other
}

// A part holds the bytes of two parts, one after the other.
pub fn same_joined(whole: &[u8], first: &[u8], rest: &[u8]) -> bool
    ensures { result ≡ same_list whole.now (first.now ++ rest.now) }
{
    whole.strip_prefix(first) == Some(rest)
}

// The lists at p and at q have the same entries.
pub fn same_lists(s: &[u8], p: usize, u: &[u8], q: usize) -> bool
    requires list_here { ListHere all_literals s.now p }
    requires list_here_2 { ListHere all_literals u.now q }
    ensures { result ≡ same_list (listed s.now p) (listed u.now q) }
{
    same_part(&s[p + 1..p + 1 + wide(s[p])], &u[q + 1..q + 1 + wide(u[q])])
}
