// The actions of the plan, one after the other, and the readings of those that sense (FORMAT 25.17 to 25.19).
ghost use Rattle.std.specs.Prelude.{◌≤◌, length, IfOk, IfSome};

use super::saying::{listed, prompt, say_refused};
use super::typed::{Line, ROW, read_line};
use guidance::Told;
use guide::guides::{Guide, Turn};
use guide::sensed::Fluents;
use programs::Program;
use std::io;
use std::io::Read;

// How a run ends: the plan is done; or the start was refused, or there is no line of readings any more.
#[derive(Clone, Copy)]
pub enum Ending {
    Done,
    Early,
}

// What failed in a run: standard input or output, which is said; or standard error, on which nothing can be said.
#[derive(Clone, Copy)]
enum Failure {
    Input(io::Error),
    Output(io::Error),
    Unsaid,
}

fn put_action(rt: &impl Print, action: usize, asked: &Fluents) -> io::Result<()> {
    let fluents = listed(asked);
    println!(rt; "do {action}{fluents}")
}

// Reads lines until one has readings, and gives their number; or there is none any more. It asks for a line where somebody is to be asked, and says why one is not taken.
fn ask<R, E: Print, I: Read>(
    program: &Program<'_, R, E>,
    input: &mut I,
    asked: &Fluents,
    prompts: bool,
    row: &mut [u8],
) -> Result<Option<usize>, Failure>
    ensures { IfOk result (λ readings. IfSome readings (λ n. n ≤ length row.new)) }
{
    for _ in 0..u64::MAX {
        if prompts {
            prompt(program, asked).map_err(|_| Failure::Unsaid)?;
        }
        let said = match read_line(input, row).map_err(Failure::Input)? {
            Line::Readings(n) => return Ok(Some(n)),
            Line::End => return Ok(None),
            Line::Other => program.say("a line of readings has 0 and 1 and spaces between them"),
            Line::TooLong => program.say("a line of readings has no more than 1024 bytes"),
        };
        said.map_err(|_| Failure::Unsaid)?;
    }
    Ok(None)
}

// Calls the guide until the plan is done.
fn run<R: Print + io::Input, E: Print>(
    program: &Program<'_, R, E>,
    guide: Guide,
    prompts: bool,
) -> Result<Ending, Failure> {
    let rt = program.rt;
    let mut input = rt.reader();
    let mut row = [0u8; ROW];
    let mut count = 0;
    let mut here = guide;
    for _ in 0..u64::MAX {
        let Turn { guide, told } = here.next(&row[..count]);
        here = guide;
        let asked = here.asks();
        match told {
            Told::Do(action) => {
                put_action(rt, action, &asked).map_err(Failure::Output)?;
                if asked.count == 0 {
                    count = 0;
                    continue;
                }
            }
            Told::Done => {
                rt.println("done").map_err(Failure::Output)?;
                return Ok(Ending::Done);
            }
            Told::Refused(answer) => say_refused(program, answer).map_err(|_| Failure::Unsaid)?,
        }
        let Some(n) = ask(program, &mut input, &asked, prompts, &mut row)? else {
            break;
        };
        count = n;
    }
    Ok(Ending::Early)
}

// How the run ends; or nothing where something failed, which is said.
pub fn lead<R: Print + io::Input, E: Print>(
    program: &Program<'_, R, E>,
    guide: Guide,
    prompts: bool,
) -> Option<Ending> {
    match run(program, guide, prompts) {
        Ok(ending) => return Some(ending),
        Err(Failure::Input(error)) => program.fail(b"standard input", error),
        Err(Failure::Output(error)) => program.fail(b"standard output", error),
        Err(Failure::Unsaid) => {}
    }
    None
}
