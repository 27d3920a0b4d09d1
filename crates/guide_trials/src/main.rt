// Answers trials of guides, one after the other from standard input, on standard output (D193): for each a line with the answer of its start, and one for each of its calls.
// A trial has the budget in four bytes, the length of the request in two, the request, the number of calls in two, and for each call a byte that counts its readings, and these.

#![tactic(auto)]

ghost use Rattle.std.specs.Prelude.{◌≤◌};
ghost use Rattle.std.specs.Io.{ReadsAtMost};

use guidance::Told;
use guide::guides::{Guide, Turn};
use meaning::Answer;
use programs::{Counted, Program, Reason};
use std::fmt::Display;
use std::io::{ErrorKind, Read};
use std::rt::Files;
use std::{fmt, io};

// The longest request and the most readings that a trial can have. The rooms are arrays, since the project has no heap.
const REQUEST_ROOM: usize = 65535;

const READINGS_ROOM: usize = 255;

fn cut_short() -> io::Error {
    io::Error::from(ErrorKind::UnexpectedEof)
}

// As many bytes as buf has are read; whatever keeps them away, the trial is cut short.
fn read_whole<I: Read>(input: &mut I, buf: &mut [u8]) -> io::Result<()> {
    input.read_exact(buf).map_err(|_| cut_short())
}

// The number that so many bytes write, the high byte first. It has no more than 32 bits.
fn number_read<const BYTES: usize, I: Read>(input: &mut I) -> io::Result<u32>
    requires { BYTES ≤ 4 }
{
    let mut bytes = [0u8; 4];
    read_whole(input, &mut bytes[4 - BYTES..])?;
    Ok(u32::from_be_bytes(bytes))
}

// A row behind its length, which so many bytes write, is read to the start of buf.
fn row_read<const BYTES: usize, I: Read>(input: &mut I, buf: &mut [u8]) -> io::Result<usize>
    requires { BYTES ≤ 4 }
    ensures { ReadsAtMost result buf.new }
{
    let length = number_read::<BYTES, I>(input)? as usize;
    if buf.len() < length {
        return Err(cut_short());
    }
    read_whole(input, &mut buf[..length])?;
    Ok(length)
}

// All that an answer holds.
#[derive(Clone, Copy)]
struct Whole(Answer);

impl Display for Whole {
    fn fmt<W: fmt::Write>(&self, f: &mut fmt::Formatter<W>) -> fmt::Result {
        let Answer {
            number,
            input,
            place,
            count,
        } = self.0;
        write!(f, "{number} {input} {place} {count}")
    }
}

// What a call answers, with the fluents that are asked for then, each behind a space.
fn put_turn(rt: &impl Print, turn: Turn) -> io::Result<()> {
    match turn.told {
        Told::Do(action) => {
            let asked = turn.guide.asks();
            let fluents = Counted {
                row: &asked.row,
                count: asked.count,
            };
            println!(rt; "do {action}{fluents}")
        }
        Told::Done => rt.println("done"),
        Told::Refused(answer) => {
            let answer = Whole(answer);
            println!(rt; "refused {answer}")
        }
    }
}

// So many calls, from standard input.
fn put_calls<R: Print, I: Read>(
    rt: &R,
    input: &mut I,
    started: Guide,
    calls: u32,
) -> io::Result<()> {
    let mut guide = started;
    let mut readings = [0u8; READINGS_ROOM];
    for _ in 0..calls {
        let n = row_read::<1, I>(input, &mut readings)?;
        let turn = guide.next(&readings[..n]);
        guide = turn.guide;
        put_turn(rt, turn)?;
    }
    Ok(())
}

// A trial with this budget: the start and the calls behind it.
fn put_trial<R: Print + Files, E: Print, I: Read>(
    program: &Program<'_, R, E>,
    input: &mut I,
    budget: u32,
) -> io::Result<()> {
    let rt = program.rt;
    let mut bytes = [0u8; REQUEST_ROOM];
    let n = row_read::<2, I>(input, &mut bytes)?;
    if !program.stack_is_enough(None, n) {
        return Err(io::Error::from(ErrorKind::OutOfMemory));
    }
    let started = Guide::start(&bytes[..n], budget);
    let answer = Whole(started.answer);
    println!(rt; "start {answer}")?;
    let calls = number_read::<2, I>(input)?;
    put_calls(rt, input, started.guide, calls)
}

// It ends where the input ends, and at the first trial that can't be read or answered.
fn put_trials<R: Print + io::Input + Files, E: Print>(
    program: &Program<'_, R, E>,
) -> io::Result<()> {
    let mut input = program.rt.reader();
    for _ in 0..u64::MAX {
        let Ok(budget) = number_read::<4, R::Reader>(&mut input) else {
            break;
        };
        put_trial(program, &mut input, budget)?;
    }
    Ok(())
}

fn main(rt: HostRuntime) {
    let program = Program::new(&rt, b"guide_trials");
    if let Err(error) = put_trials(&program) {
        let _ = program.say(Reason(error));
    }
}
