// What the answers' numbers say in words (FORMAT 12.34), which are those of the C header and of the Rust crate.
use std::fmt;
use std::fmt::Display;

// The number of an answer, which is written in words.
#[derive(Clone, Copy)]
pub struct InWords(pub u8);

impl InWords {
    pub fn as_str(self) -> &'static str {
        words(self.0)
    }
}

impl Display for InWords {
    fn fmt<W: fmt::Write>(&self, f: &mut fmt::Formatter<W>) -> fmt::Result {
        f.write_str(self.as_str())
    }
}

// Kept: an answer's number is a byte of `Answer`, and this list is the format's table, a number and its words to a line. Names in place of the
// numbers would say the words twice.
fn words(number: u8) -> &'static str {
    match number {
        0 => "verified",
        1 => "goal missed",
        2 => "not executable",
        3 => "budget spent",
        9 => "the lent state or row has another length than it is to have",
        10 => "too long",
        11 => "the input ends where a byte is due",
        12 => "a count is not within its limits",
        13 => "a fluent, literal or action is too large",
        14 => "an entry is not larger than its predecessor",
        15 => "an entry is its predecessor's complement",
        16 => "two effects are contradictory",
        17 => "an action has effects and knowledge lines",
        18 => "two conditions are not exclusive",
        19 => "a branching stands inside eight others",
        20 => "bytes are left over",
        21 => "a plan has too many items",
        22 => "not reached",
        30 => "a derivation for a request with whether entries",
        31 => "a line has no rule",
        32 => "a line cites what is no line before it",
        33 => "a line has a number of citations that its rule does not take",
        34 => "a line does not follow by its rule",
        35 => "the last line differs from the question",
        36 => "the closing list is not what the request asks",
        37 => "too many readings",
        38 => "too many lines",
        39 => "room too short",
        43 => "guard broken",
        44 => "too many cases",
        45 => "index differs",
        46 => "effect that says is not",
        _ => "no answer that the format has",
    }
}
