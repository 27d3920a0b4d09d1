ghost use Rattle.std.specs.Prelude.{◌≡◌};
ghost use Rattle.parsing.specs.Faults.{number_of};

// Why an input is refused (FORMAT 4.8 to 4.25, 17.35, 17.36, 26.8).
#[derive(Clone, Copy, PartialEq, Eq)]
pub enum Refusal {
    TooLong = 10,
    EndsTooSoon = 11,
    CountOutside = 12,
    TooLarge = 13,
    NotAbove = 14,
    ComplementBeside = 15,
    ContradictoryEffects = 16,
    EffectAndKnowledge = 17,
    NotExclusive = 18,
    NestedTooDeep = 19,
    BytesAfter = 20,
    TooManyItems = 21,
    NoSuchRule = 31,
    NotEarlier = 32,
    CitationsNotTaken = 33,
    DoesNotFollow = 34,
    NotTheQuestion = 35,
    ClosingNotRight = 36,
    SaysIsNot = 46,
}

// The number that an answer gives it.
impl From<Refusal> for u8 {
    ghost from_gives = { λ refusal number. number ≡ number_of refusal };

    // Kept: a cast is how the number of a variant is read.
    fn from(refusal: Refusal) -> u8 {
        refusal as u8
    }
}

// The fault met: why, and at which place.
#[derive(Clone, Copy, PartialEq, Eq)]
pub struct Fault {
    pub refusal: Refusal,
    pub place: usize,
}

impl Refusal {
    // This refusal, at a place.
    pub fn at(self, place: usize) -> Fault
        ensures { result ≡ record { refusal = self; place = place } }
    {
        Fault {
            refusal: self,
            place,
        }
    }
}
