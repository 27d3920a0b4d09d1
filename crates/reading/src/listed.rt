ghost use Rattle.std.specs.Prelude.{◌≡◌, ◌+◌, ◌*◌, ◌<◌, length, slice_index};
ghost use Rattle.reading.specs.Listed.{bytes_from, listed};

// The entries of the list whose count byte stands at p, each of one byte.
pub fn listed(s: &[u8], p: usize) -> &[u8]
    requires { p + slice_index s.now p < length s.now }
    ensures entries { result.now ≡ listed s.now p }
    ensures count { length result.now ≡ slice_index s.now p }
{
    &s[p + 1..p + 1 + usize::from(s[p])]
}

// The entries of the list whose count byte stands at p, each of two bytes, as they stand there.
pub fn listed_in_twos(s: &[u8], p: usize) -> &[u8]
    requires { p + 2 * slice_index s.now p < length s.now }
    ensures entries { result.now ≡ bytes_from s.now (p + 1) (2 * slice_index s.now p) }
    ensures count { length result.now ≡ 2 * slice_index s.now p }
{
    &s[p + 1..p + 1 + 2 * usize::from(s[p])]
}
