// An input and a position in it, held by one struct. Each function over it leaves the work to a function on the slice and the number.

#![tactic(auto)]

ghost use Rattle.std.specs.Prelude.{◌≡◌};

pub mod whole; // requests, from the left

#[derive(Clone, Copy)]
pub struct Reader<'a> {
    pub src: &'a [u8],
    pub at: usize,
}

// At the start of an input.
pub fn new<'a>(src: &'a [u8]) -> Reader<'a>
    ensures { (result.src ≡ src.entry) × (result.at ≡ 0) }
{
    Reader { src, at: 0 }
}

// The same input, at another place.
pub fn moved<'a>(r: Reader<'a>, at: usize) -> Reader<'a>
    ensures { (result.src ≡ r.entry.src) × (result.at ≡ at) }
{
    Reader { src: r.src, at }
}
