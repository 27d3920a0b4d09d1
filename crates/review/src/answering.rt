// One answer: its inputs are read, the call is made, and what it answers is said.
ghost use Rattle.std.specs.Io.{ReadsAtMost};

use super::printing::put_told;
use glintstring::judging::judge;
use meaning::Answer;
use parsing::limits;
use programs::words::InWords;
use programs::{DERIVATION_ROOM, NAME_ROOM, Program, REQUEST_ROOM, marks_left};
use std::env::Env;
use std::io;
use std::rt::Files;
use verdicts::answers;

// What became of a request, or of a request with a derivation: answer 0, another answer, or none.
#[derive(Clone, Copy)]
pub enum Outcome {
    Passes,
    Other,
    Unanswered,
}

// The name of an input.
#[derive(Clone, Copy)]
struct Name<'a>(&'a [u8]);

impl<'a> Name<'a> {
    fn is_standard_input(self) -> bool {
        matches!(self.0, b"-")
    }

    // What is said of the name.
    fn said(self) -> &'a [u8] {
        if self.is_standard_input() {
            b"standard input"
        } else {
            self.0
        }
    }

    // Reads the input as far as buf goes, or says why it can't be read.
    fn read<R: io::Input + Files, E: Print>(
        self,
        program: &Program<'_, R, E>,
        buf: &mut [u8],
    ) -> io::Result<usize>
        ensures { ReadsAtMost result buf.new }
    {
        if self.is_standard_input() {
            program.read_input(buf)
        } else {
            program.read_file(b"review: ", self.0, buf)
        }
    }
}

fn outcome_of(number: u8) -> Outcome {
    match number {
        answers::VERIFIED => Outcome::Passes,
        _ => Outcome::Other,
    }
}

// The answer to the request that argument i names. It fails where an answer can't be printed.
pub fn judge_file<R: Print + io::Input + Env + Files, E: Print>(
    program: &Program<'_, R, E>,
    i: usize,
    budget: u32,
) -> io::Result<Outcome> {
    let mut room = [0u8; NAME_ROOM];
    let name = Name(program.name_at(i, &mut room));
    // One byte more than a request may have: a longer one is refused whatever it holds.
    let mut bytes = [0u8; REQUEST_ROOM];
    let Ok(n) = name.read(program, &mut bytes) else {
        return Ok(Outcome::Unanswered);
    };
    // There is stack enough to walk the request, or it is said that there is not. Checking a derivation takes little.
    if !program.stack_is_enough(Some(name.said()), n) {
        return Ok(Outcome::Unanswered);
    }
    let request = &bytes[..n];
    let mut state = [0u8; limits::FLUENTS];
    let answer = judge(request, &mut state, budget).answer;
    let left = match answer.number {
        answers::GOAL_MISSED | answers::NOT_EXECUTABLE => Some(marks_left(request, &state)?),
        _ => None,
    };
    let words = InWords(answer.number).as_str();
    program.rt.write_all(name.said())?;
    program.rt.print(": ")?;
    // A walk's answer is never about a derivation, so that the request stands for one.
    put_told(program.rt, answer, words, left, request, request)?;
    Ok(outcome_of(answer.number))
}

// What the call answers to the request and the derivation that these two arguments name. Both files are read, so that each that can't be is
// told.
pub fn check_files<R, E, F>(
    program: &Program<'_, R, E>,
    files: [usize; 2],
    call: F,
) -> io::Result<Outcome>
where
    R: Print + io::Input + Env + Files,
    E: Print,
    F: FnOnce(&[u8], &[u8]) -> Answer + Drop,
    requires { F.IsAlwaysCallable call }
{
    let [i, j] = files;
    let mut room = [0u8; NAME_ROOM];
    let request_name = Name(program.name_at(i, &mut room));
    let mut other_room = [0u8; NAME_ROOM];
    let derivation_name = Name(program.name_at(j, &mut other_room));
    // One byte more than an input may have.
    let mut request = [0u8; REQUEST_ROOM];
    let mut derivation = [0u8; DERIVATION_ROOM];
    let first = request_name.read(program, &mut request);
    let second = derivation_name.read(program, &mut derivation);
    let (Ok(n), Ok(m)) = (first, second) else {
        return Ok(Outcome::Unanswered);
    };
    let request = &request[..n];
    let derivation = &derivation[..m];
    // The names are printed before the derivation is checked.
    program.rt.write_all(request_name.said())?;
    program.rt.print(" with ")?;
    program.rt.write_all(derivation_name.said())?;
    program.rt.print(": ")?;
    let answer = call(request, derivation);
    let words = match answer.number {
        answers::VERIFIED => "accepted",
        number => InWords(number).as_str(),
    };
    put_told(program.rt, answer, words, None, request, derivation)?;
    Ok(outcome_of(answer.number))
}
