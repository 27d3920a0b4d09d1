// What is said on standard error (FORMAT 25.18, 25.19).
use guide::going;
use guide::sensed::Fluents;
use meaning::Answer;
use programs::words::InWords;
use programs::{Counted, Program};
use std::fmt::Display;
use std::{fmt, io};
use verdicts::answers;

// A refusal in the words of a number that is a guide's own, or in those that every program has; with its number, and where it names a place with that too.
#[derive(Clone, Copy)]
struct Refusal(Answer);

impl Display for Refusal {
    fn fmt<W: fmt::Write>(&self, f: &mut fmt::Formatter<W>) -> fmt::Result {
        let Answer {
            number,
            input,
            place,
            ..
        } = self.0;
        // Kept: three numbers are a guide's own, and this is the list of their words, a number to a line.
        let said = match number {
            going::NOT_VERIFIED => "not verified",
            going::WRONG_NUMBER => "wrong number of readings",
            going::AGAINST_KNOWN => "reading against a known fluent",
            _ => InWords(number).as_str(),
        };
        write!(f, "{said} ({number})")?;
        if input == answers::THE_REQUEST {
            write!(f, ", place {place}")?;
        }
        Ok(())
    }
}

pub fn say_refused<R, E: Print>(program: &Program<'_, R, E>, answer: Answer) -> io::Result<()> {
    program.say(Refusal(answer))
}

// The fluents that are asked for, each behind a space.
pub fn listed(asked: &Fluents) -> Counted<'_> {
    Counted {
        row: &asked.row,
        count: asked.count,
    }
}

// What an operator at a terminal is asked before a line is read.
pub fn prompt<R, E: Print>(program: &Program<'_, R, E>, asked: &Fluents) -> io::Result<()> {
    let fluents = listed(asked);
    print!(program.err; "0 or 1 for each of the fluents{fluents}: ")
}
