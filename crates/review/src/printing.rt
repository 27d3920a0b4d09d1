// What an answer is told by, behind the names of its inputs (FORMAT 12.34 to 12.37).
use glintstring::showing::show;
use meaning::Answer;
use programs::Signs;
use std::fmt::Display;
use std::{fmt, io};
use verdicts::answers;

// How many bytes are printed of the part that an answer is about.
const SHOWN: usize = 16;

// An answer in words, with its numbers, the marks of the state that it leaves, where it leaves one, and the part of an input that it is about.
#[derive(Clone, Copy)]
struct Told<'a> {
    answer: Answer,
    words: &'a str,
    left: Option<&'a [u8]>,
    part: &'a [u8],
}

// What is told of an answer, behind the names of its inputs.
pub fn put_told<'a>(
    rt: &impl Print,
    answer: Answer,
    words: &'a str,
    left: Option<&'a [u8]>,
    request: &'a [u8],
    derivation: &'a [u8],
) -> io::Result<()> {
    let part = show(answer, request, derivation);
    let told = Told {
        answer,
        words,
        left,
        part,
    };
    println!(rt; "{told}")
}

impl Display for Told<'_> {
    fn fmt<W: fmt::Write>(&self, f: &mut fmt::Formatter<W>) -> fmt::Result {
        let words = self.words;
        let Answer {
            number,
            input,
            place,
            count,
        } = self.answer;
        write!(
            f,
            "{words}\n  number {number}, place {place}, count {count}"
        )?;
        if let Some(marks) = self.left {
            let signs = Signs(marks);
            write!(f, "\n  state {signs}")?;
        }
        let input = match input {
            answers::NEITHER_INPUT => return Ok(()),
            answers::THE_DERIVATION => "derivation",
            _ => "request",
        };
        let part = Part(self.part);
        write!(f, "\n  {input} from {place}:{part}")
    }
}

// The first bytes of a part of an input, each behind a space.
#[derive(Clone, Copy)]
struct Part<'a>(&'a [u8]);

impl Display for Part<'_> {
    fn fmt<W: fmt::Write>(&self, f: &mut fmt::Formatter<W>) -> fmt::Result {
        let part = self.0;
        if part.is_empty() {
            return f.write_str(" it ends there");
        }
        let shown = &part[..part.len().min(SHOWN)];
        for byte in shown {
            write!(f, " {byte}")?;
        }
        if shown.len() < part.len() {
            f.write_str(" ...")?;
        }
        Ok(())
    }
}
