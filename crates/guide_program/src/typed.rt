// A line of readings, from standard input (FORMAT 25.17, 25.18).
ghost use Rattle.std.specs.Prelude.{◌≤◌, length, IfOk, IfSome};
ghost use Rattle.guide_program.specs.Typed.{Kept};

use programs::read_all;
use std::io;
use std::io::Read;

// How many bytes a line may have, and how many readings fit into one.
const LINE: usize = 1024;

// Room for a line, with a byte more, by which one that is too long is seen.
const LINE_ROOM: usize = LINE + 1;

pub const ROW: usize = 512;

// What was read: so many readings; or a line with anything else, or of more bytes; or that there is no line any more.
#[derive(Clone, Copy)]
pub enum Line {
    Readings(usize),
    Other,
    TooLong,
    End,
}

// One byte, and nothing of what is behind it; or that the input has ended.
fn read_byte<R: Read>(input: &mut R) -> io::Result<Option<u8>> {
    let mut one = [0u8; 1];
    let n = read_all(input, &mut one)?;
    Ok((n > 0).then_some(one[0]))
}

// What the sign of a reading says: a byte other than 0 says yes.
fn reading(byte: u8) -> u8 {
    u8::from(byte != b'0')
}

// Reads a line to its end, or to the end of the input where that has bytes before it, and puts as many of its bytes into the room as that goes. How many these
// are, or that there is no line any more.
fn read_bytes<R: Read>(input: &mut R, room: &mut [u8]) -> io::Result<Option<usize>>
    ensures { IfOk result (λ line. IfSome line (λ n. n ≤ length room.new)) }
{
    let mut count = 0;
    for _ in 0..u64::MAX {
        match read_byte(input)? {
            None if count == 0 => return Ok(None),
            None | Some(b'\n') => break,
            Some(byte) => {
                if count < room.len() {
                    room[count] = byte;
                    count += 1;
                }
            }
        }
    }
    Ok(Some(count))
}

// Puts the readings of a line at the start of the row, and gives their number: they are words of one sign each, with spaces between them.
fn readings_in(line: &[u8], row: &mut [u8]) -> Option<usize>
    ensures { IfSome result (λ n. n ≤ length row.new) }
{
    let mut count = 0;
    for word in line.split(|byte| *byte == b' ') {
        match word {
            [] => continue,
            [sign @ (b'0' | b'1')] => {
                if count < row.len() {
                    row[count] = reading(*sign);
                    count += 1;
                }
            }
            _ => return None,
        }
    }
    Some(count)
}

// Reads a line, whose readings are put at the start of the row.
pub fn read_line<R: Read>(input: &mut R, row: &mut [u8]) -> io::Result<Line>
    ensures { IfOk result (λ line. Kept line row.new) }
{
    let mut room = [0u8; LINE_ROOM];
    let Some(length) = read_bytes(input, &mut room)? else {
        return Ok(Line::End);
    };
    if length > LINE {
        return Ok(Line::TooLong);
    }
    match readings_in(&room[..length], row) {
        Some(count) => Ok(Line::Readings(count)),
        None => Ok(Line::Other),
    }
}
