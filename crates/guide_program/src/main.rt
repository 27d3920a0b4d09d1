// Leads an operator through the plan of the request in a file, by readings from standard input (FORMAT 25.17 to 25.20).

#![tactic(auto)]

mod leading; // the actions, until the plan's end
mod saying; // what is said on standard error
mod typed; // a line of readings

ghost use Rattle.std.specs.Prelude.{◌≤◌};

use guide::guides::Guide;
use leading::{Ending, lead};
use programs::{Program, REQUEST_ROOM};
use saying::say_refused;
use std::env::Env;
use std::io;
use std::rt::Files;
use verdicts::answers;

// How the run ends. The budget is argument i, and the request's file is named by the one behind it, which is the last. Without enough stack there is no
// start, which is said.
fn guide_arguments<R: Print + io::Input + Env + Files, E: Print>(
    program: &Program<'_, R, E>,
    i: usize,
    prompts: bool,
) -> Option<Ending>
    requires { i ≤ 2 }
{
    if program.word_count().saturating_sub(i) != 2 {
        let _ = program.say("a budget and a file are needed");
        return None;
    }
    let Some(budget) = program.number_at(i) else {
        program.say_budget();
        return None;
    };
    // One byte more than a request may have: a longer one is refused whatever it holds.
    let mut bytes = [0u8; REQUEST_ROOM];
    let n = program.read_argument(b"guide: ", i + 1, &mut bytes).ok()?;
    if !program.stack_is_enough(None, n) {
        return None;
    }
    let started = Guide::start(&bytes[..n], budget);
    if started.answer.number == answers::VERIFIED {
        return lead(program, started.guide, prompts);
    }
    say_refused(program, started.answer).ok()?;
    Some(Ending::Early)
}

// How it ended, for the script, which makes the exit status of the first number.
fn tell<R: Files>(rt: &R, ending: Option<Ending>) {
    let _ = match ending {
        Some(Ending::Done) => programs::tell(rt, "0 0 0"),
        Some(Ending::Early) => programs::tell(rt, "1 0 0"),
        None => Ok(()),
    };
}

// The script's words come first: that it is to be told how the program ends, and that there is somebody to be prompted.
fn main(rt: HostRuntime) {
    let program = Program::new(&rt, b"guide");
    let prompts = program.is_word(1, b"--prompt");
    if prompts || program.is_word(1, b"--answer") {
        let ending = guide_arguments(&program, 2, prompts);
        tell(&rt, ending);
    } else {
        guide_arguments(&program, 1, false);
    }
}
