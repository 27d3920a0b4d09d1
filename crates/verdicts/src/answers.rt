ghost use Rattle.std.specs.Prelude.{◌≡◌};
ghost use Rattle.parsing.specs.Faults.{number_of};

use meaning::Answer;
use parsing::faults::Fault;

// Answers that are no refusal of a request, and the input that a place is in, named once as in the definitions' Limits (FORMAT 4.3 to 4.7, 4.26).
pub const VERIFIED: u8 = 0;

pub const GOAL_MISSED: u8 = 1;

pub const NOT_EXECUTABLE: u8 = 2;

pub const BUDGET_SPENT: u8 = 3;

pub const STATE_LENGTH: u8 = 9;

pub const NOT_REACHED: u8 = 22;

pub const SENSING_TOO_WIDE: u8 = 37;

pub const TOO_MANY_LINES: u8 = 38;

pub const ROOM_SHORT: u8 = 39;

pub const GUARD_BROKEN: u8 = 43;

pub const TOO_MANY_CASES: u8 = 44;

pub const INDEX_DIFFERS: u8 = 45;

pub const NEITHER_INPUT: u8 = 0;

pub const THE_REQUEST: u8 = 1;

pub const THE_DERIVATION: u8 = 2;

pub const THE_INDEX: u8 = 3;

pub const WHETHER_ASKED: u8 = 30;

// An answer that counts nothing.
pub fn uncounted(number: u8, input: u8, place: usize) -> Answer
    ensures { result ≡ record { number = number; input = input; place = place; count = 0 } }
{
    Answer {
        number,
        input,
        place,
        count: 0,
    }
}

// The answer that a fault in an input is.
pub fn refused(fault: Fault, input: u8) -> Answer
    ensures { result ≡ record { number = number_of fault.refusal; input = input; place = fault.place; count = 0 } }
{
    uncounted(u8::from(fault.refusal), input, fault.place)
}
