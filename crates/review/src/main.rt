// Judges requests, or checks derivations, one after the other, and says in words what is answered (FORMAT 12.30 to 12.41).

#![tactic(auto)]

mod answering;
mod printing;

ghost use Rattle.std.specs.Prelude.{◌≤◌};

use answering::{Outcome, check_files, judge_file};
use glintstring::check_calls::{check, check_whether};
use programs::Program;
use std::env::Env;
use std::fmt::Display;
use std::rt::Files;
use std::{fmt, io};

// How many answers were asked for, how many of them pass, and how many there are not.
#[derive(Clone, Copy)]
struct Tally {
    asked: usize,
    passed: usize,
    unanswered: usize,
}

// As a script is told it.
impl Display for Tally {
    fn fmt<W: fmt::Write>(&self, f: &mut fmt::Formatter<W>) -> fmt::Result {
        let Tally {
            asked,
            passed,
            unanswered,
        } = *self;
        write!(f, "{asked} {passed} {unanswered}")
    }
}

// The last line, where there is more than one answer.
fn put_sum(rt: &impl Print, tally: Tally) -> io::Result<()> {
    let Tally {
        asked,
        passed,
        unanswered,
    } = tally;
    if asked < 2 {
        return Ok(());
    }
    println!(rt; "in all: {passed} of {asked} pass, {unanswered} without an answer")
}

// The sum, and where the script asks for it the tally that the exit status is made of.
fn tell<R: Print + Files>(rt: &R, tallied: bool, tally: Tally) -> io::Result<()> {
    put_sum(rt, tally)?;
    if tallied {
        let _ = programs::tell(rt, tally);
    }
    Ok(())
}

// An answer for each file or two from argument `first` on, until one can't be printed.
fn review_all<F: Fn(usize, usize) -> io::Result<Outcome> + Drop>(
    first: usize,
    count: usize,
    each: usize,
    review: F,
) -> io::Result<Tally>
    requires each { (1 ≤ each) × (each ≤ 2) }
    requires review { F.IsAlwaysCallable review }
{
    let mut tally = Tally {
        asked: 0,
        passed: 0,
        unanswered: 0,
    };
    for i in (first..count).step_by(each) {
        let outcome = review(i, i + (each - 1))?;
        tally.asked += 1;
        match outcome {
            Outcome::Passes => tally.passed += 1,
            Outcome::Unanswered => tally.unanswered += 1,
            Outcome::Other => {}
        }
    }
    Ok(tally)
}

fn say_misused<R, E: Print>(program: &Program<'_, R, E>) {
    let _ = program.say(
        "judge BUDGET FILE..., check REQUEST DERIVATION... or check-whether REQUEST DERIVATION... is needed",
    );
}

// The files are those from argument `first` on, and there are as many as whole answers take, which take one each or two.
fn review_files<R, E, F>(
    program: &Program<'_, R, E>,
    tallied: bool,
    first: usize,
    each: usize,
    review: F,
)
where
    R: Print + Env + Files,
    E: Print,
    F: Fn(usize, usize) -> io::Result<Outcome> + Drop,
    requires each { (1 ≤ each) × (each ≤ 2) }
    requires review { F.IsAlwaysCallable review }
{
    let count = program.word_count();
    if count <= first || (count - first) % each != 0 {
        say_misused(program);
        return;
    }
    let told = review_all(first, count, each, review).and_then(|tally| tell(
        program.rt, tallied, tally,
    ));
    if let Err(error) = told {
        program.fail(b"standard output", error);
    }
}

// The command is argument i. The budget of `judge` is the argument after it.
fn review_from<R: Print + io::Input + Env + Files, E: Print>(
    program: &Program<'_, R, E>,
    tallied: bool,
    i: usize,
)
    requires { i ≤ 2 }
{
    if program.is_word(i, b"check") {
        review_files(program, tallied, i + 1, 2, |i, j| {
            check_files(program, [i, j], check)
        });
    } else if program.is_word(i, b"check-whether") {
        review_files(program, tallied, i + 1, 2, |i, j| {
            check_files(program, [i, j], check_whether)
        });
    } else if program.is_word(i, b"judge")
        && let Some(budget) = program.number_at(i + 1)
    {
        review_files(program, tallied, i + 2, 1, |i, _| {
            judge_file(program, i, budget)
        });
    } else {
        say_misused(program);
    }
}

fn main(rt: HostRuntime) {
    let program = Program::new(&rt, b"review");
    let tallied = program.is_word(1, b"--tally");
    review_from(&program, tallied, if tallied { 2 } else { 1 });
}
