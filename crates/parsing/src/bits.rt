ghost use Rattle.std.specs.Prelude.{◌≡◌, ◌<◌};
ghost use Rattle.parsing.specs.Bits.{bit_of, with_bit};

// Bit i of the number is there.
pub fn has_bit(w: u16, i: usize) -> bool
    requires { i < 16 }
    ensures { result ≡ bit_of w i }
{
    let above = usize::from(w) >> i;
    above % 2 == 1
}

// The number where bit i is there besides.
pub fn with_bit(w: u16, i: usize) -> u16
    requires { i < 16 }
    ensures { result ≡ with_bit w i }
{
    let bit: u16 = 1 << i as u16;
    w | bit
}
