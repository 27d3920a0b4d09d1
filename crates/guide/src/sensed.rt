ghost use Rattle.std.specs.Prelude.{◌≡◌, ◌<◌, length};
ghost use Rattle.meaning.specs.Limits.{format};
ghost use Rattle.meaning.specs.States.{mark_of, told_all};
ghost use Rattle.steps.specs.Held.{table_in};
ghost use Rattle.steps.specs.AtHand.{Marked};
ghost use Rattle.guidance.specs.Guides.{sensed, literal_read, literals_read, against};
ghost use Rattle.guide.specs.GuideHeld.{fluents_of};
ghost use Rattle.meaning.specs.declared.Form.TheVariants.{Flags};

use parsing::limits;
use parsing::shapes::OfFlags;
use reading::marks::Marks;
use steps::request::Request;
use steps::sensing::looks_at;

// The fluents whose readings a call brings: so many, from the start of the row on, ascending, and 0 behind them.
// Kept: no heap is used, so that a list has its number beside it.
#[derive(Clone, Copy)]
pub struct Fluents {
    pub count: usize,
    pub row: [u8; limits::FLUENTS],
}

// Those that the action senses.
pub(crate) fn sensed_by(r: &Request<OfFlags>, a: usize) -> Fluents
    requires { a < format.actions }
    ensures { result ≡ fluents_of (sensed format (table_in Flags r.now.bytes.now) a) }
{
    let mut row = [0u8; limits::FLUENTS];
    let mut count = 0;
    for f in 0..limits::FLUENTS {
        if looks_at(r, a, f) {
            row[count] = f as u8;
            count += 1;
        }
    }
    Fluents { count, row }
}

// The mark that a reading gives its fluent, whichever it is: the byte 0 says no, and every other yes.
fn mark_read(byte: u8) -> u8
    ensures { result ≡ mark_of (literal_read 0 byte) }
{
    if byte == 0 {
        limits::FALSE_MARK
    } else {
        limits::TRUE_MARK
    }
}

// Some reading is against a known fluent.
pub(crate) fn is_against(r: &Request<OfFlags>, a: usize, marks: &Marks, readings: &[u8]) -> bool
    requires a_lt_actions { a < format.actions }
    requires marked { Marked marks.now }
    requires readings_len { length readings.now ≡ length (sensed format (table_in Flags r.now.bytes.now) a) }
    ensures { result ≡ against marks.now (literals_read (sensed format (table_in Flags r.now.bytes.now) a) readings.now) }
{
    let mut i = 0;
    // Kept: a reading is taken for a sensed fluent alone, so that `any` would have to count the readings in its closure.
    for f in 0..limits::FLUENTS {
        if looks_at(r, a, f) {
            let mark = mark_read(readings[i]);
            i += 1;
            if marks[f] == 3 - mark {
                return true;
            }
        }
    }
    false
}

// The state with every reading taken over.
pub(crate) fn taken_over(r: &Request<OfFlags>, a: usize, marks: &Marks, readings: &[u8]) -> Marks
    requires a_lt_actions { a < format.actions }
    requires marked { Marked marks.now }
    requires readings_len { length readings.now ≡ length (sensed format (table_in Flags r.now.bytes.now) a) }
    ensures value { result ≡ told_all (literals_read (sensed format (table_in Flags r.now.bytes.now) a) readings.now) marks.now }
    ensures marked_2 { Marked result }
{
    let mut state = *marks;
    let mut i = 0;
    for f in 0..limits::FLUENTS {
        if looks_at(r, a, f) {
            state[f] = mark_read(readings[i]);
            i += 1;
        }
    }
    state
}
