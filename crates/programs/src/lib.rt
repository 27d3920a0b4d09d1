// What the programs share: an input is read as far as a buffer goes, words are known and a budget is read from its digits, an answer is printed
// as three numbers, its state as signs or as values, what a call has written to a room as it is, and the stack is looked at before a walk.

#![tactic(auto)]

mod descriptor; // the file that the script has open on descriptor 3
pub mod words; // what the numbers say in words

ghost use Rattle.std.specs.Prelude.{◌<◌, leb, length, take, slice_index, IsErr, IsOkAnd, ◌≡◌};
ghost use Rattle.std.specs.Io.{ReadsAtMost};
ghost use Rattle.programs.specs.Stack.{needed};

use descriptor::open_answer;
pub use descriptor::open_index;
use meaning::Answer;
use parsing::limits;
use std::cell::{BorrowMutError, RefCell};
use std::env::{Env, FillError};
use std::fmt::Display;
use std::fs::File;
use std::io::{Cursor, ErrorKind, Read, Stderr, Write};
use std::rt::Files;
use std::{fmt, io};
use verdicts::answers;

// Room for a request and for a derivation, with a byte more, by which one that is too long is seen. The rooms here and in the programs are
// arrays, since the project has no heap.
pub const REQUEST_ROOM: usize = limits::REQUEST + 1;

pub const DERIVATION_ROOM: usize = limits::DERIVATION + 1;

// The budget where none is asked for (FORMAT 12.1).
const BUDGET: u32 = 100000;

// How many bytes of stack a walk may need (FORMAT 12.21): 16 MiB, and 6 MiB where the request is short.
const STACK_NEEDED: u64 = 16 * 1024 * 1024;

const SHORT_STACK_NEEDED: u64 = 6 * 1024 * 1024;

const SHORT: usize = 1024;

// The errors of the system that are made here, by their numbers: an argument that is missing, a name that is too long, and one that is no text.
const INVALID_ARGUMENT: i32 = 22;

const NAME_TOO_LONG: i32 = 36;

const NO_TEXT: i32 = 84;

// The system takes a name of fewer bytes.
pub const NAME_ROOM: usize = 4096;

// Room for what the system says of the process's limits, and for the words of an error.
const LIMITS_ROOM: usize = 4096;

const ERROR_ROOM: usize = 256;

// One read, and another where a signal interrupts it.
fn read_some<R: Read>(input: &mut R, buf: &mut [u8]) -> io::Result<usize>
    ensures { ReadsAtMost result buf.new }
{
    for _ in 0..u64::MAX {
        match input.read(buf) {
            Err(error) if error.kind() == ErrorKind::Interrupted => continue,
            read => return read,
        }
    }
    Err(io::Error::from(ErrorKind::Interrupted))
}

// Reads until buf is full or the input ends.
pub fn read_all<R: Read>(input: &mut R, buf: &mut [u8]) -> io::Result<usize>
    ensures { ReadsAtMost result buf.new }
{
    let mut done = 0;
    while done < buf.len() {
        let more = read_some(input, &mut buf[done..])?;
        if more == 0 {
            break;
        }
        done += more;
    }
    Ok(done)
}

// A program as it runs: what it runs on, where its errors go, and its name, which lines of errors begin with.
#[derive(Drop)]
pub struct Program<'a, R, E> {
    pub rt: &'a R,
    pub err: E,
    name: &'a [u8],
}

impl<'a> Program<'a, HostRuntime, Stderr> {
    // The errors go to standard error.
    pub fn new(rt: &'a HostRuntime, name: &'a [u8]) -> Self
        ensures { result.name.now ≡ name.now }
    {
        Program::on(rt, rt.stderr(), name)
    }
}

impl<'a, R, E> Program<'a, R, E> {
    // A program on any runtime, whose errors go to anything that prints, or to a writer in `Written`.
    pub fn on(rt: &'a R, err: E, name: &'a [u8]) -> Self
        ensures runtime { result.rt.now ≡ rt.now }
        ensures errors { result.err ≡ err }
        ensures named { result.name.now ≡ name.now }
    {
        Program { rt, err, name }
    }
}

impl<R, E: Print> Program<'_, R, E> {
    // A line that begins with these bytes, which may be no text.
    fn say_after<D: Display + Drop>(&self, said: &[u8], file: &[u8], text: D) -> io::Result<()> {
        self.err.write_all(said)?;
        self.err.write_all(file)?;
        println!(self.err; ": {text}")
    }

    // A line with the program's name before it.
    pub fn say<D: Display + Drop>(&self, text: D) -> io::Result<()> {
        self.say_after(b"", self.name, text)
    }

    // The same of a file, or of what failed.
    fn say_of<D: Display + Drop>(&self, what: &[u8], text: D) -> io::Result<()> {
        self.err.write_all(self.name)?;
        self.say_after(b": ", what, text)
    }

    // What failed, and why.
    pub fn fail(&self, what: &[u8], error: io::Error) {
        let _ = self.say_of(what, Reason(error));
    }

    // What a budget is.
    pub fn say_budget(&self) {
        let _ = self.say("a budget is a decimal number up to 4294967295");
    }
}

impl<R: io::Input, E: Print> Program<'_, R, E> {
    // Reads standard input as far as buf goes. Where it can't be read a line says why.
    pub fn read_input(&self, buf: &mut [u8]) -> io::Result<usize>
        ensures { ReadsAtMost result buf.new }
    {
        let read = read_all(&mut self.rt.reader(), buf);
        if let Err(error) = read {
            self.fail(b"standard input", error);
        }
        read
    }

    // Reads a request from standard input, and answers it. What fails a line says.
    pub fn answer_input<F: FnOnce(&[u8]) -> io::Result<()> + Drop>(&self, answer: F)
        requires { F.IsAlwaysCallable answer }
    {
        // One byte more than a request may have: a longer one is refused whatever it holds.
        let mut bytes = [0u8; REQUEST_ROOM];
        let Ok(n) = self.read_input(&mut bytes) else {
            return;
        };
        if let Err(error) = answer(&bytes[..n]) {
            self.fail(b"standard output", error);
        }
    }
}

impl<R: Files, E: Print> Program<'_, R, E> {
    // Reads the file of this name as far as buf goes. Where it can't be read a line says why, with `said` before the name.
    pub fn read_file(&self, said: &[u8], name: &[u8], buf: &mut [u8]) -> io::Result<usize>
        ensures { ReadsAtMost result buf.new }
    {
        let read = read_named(self.rt, name, buf);
        if let Err(error) = read {
            let _ = self.say_after(said, name, Reason(error));
        }
        read
    }

    // There is stack enough to walk a request of this length. Where there is not, a line says so, with the name of the request's file, if it has one.
    pub fn stack_is_enough(&self, file: Option<&[u8]>, length: usize) -> bool {
        let needed = stack_needed(length);
        let limit = stack_limit(self.rt);
        if is_enough(needed, limit) {
            return true;
        }
        let small = TooSmall { needed, limit };
        let _ = match file {
            Some(file) => self.say_of(file, small),
            None => self.say(small),
        };
        false
    }
}

impl<R: Env + Files, E: Print> Program<'_, R, E> {
    // Reads the file that the program's argument i names, as far as buf goes. Where it can't be read a line says why, with `said` before the
    // file's name, or, where that can't be had, with the program's.
    pub fn read_argument(&self, said: &[u8], i: usize, buf: &mut [u8]) -> io::Result<usize>
        ensures { ReadsAtMost result buf.new }
    {
        let mut name = [0u8; NAME_ROOM];
        match self.word_at(i, &mut name) {
            Ok(n) => self.read_file(said, &name[..n], buf),
            Err(error) => {
                self.fail(b"file name", error);
                Err(error)
            }
        }
    }
}

impl<R: Env, E> Program<'_, R, E> {
    // How many words the program was started with, its own name among them.
    pub fn word_count(&self) -> usize {
        let mut text = [0u8; 1];
        for i in 0..usize::MAX {
            if let Err(FillError::NotPresent) = self.rt.arg(i, &mut text) {
                return i;
            }
        }
        usize::MAX
    }

    // Argument i at the start of buf, and its length; or why it is not there.
    pub fn word_at(&self, i: usize, buf: &mut [u8]) -> io::Result<usize>
        ensures { ReadsAtMost result buf.new }
    {
        match self.rt.arg(i, buf) {
            Ok(n) => Ok(n),
            Err(FillError::TooLong) => Err(io::Error::from_raw_os_error(NAME_TOO_LONG)),
            Err(FillError::NotPresent) => Err(io::Error::from_raw_os_error(INVALID_ARGUMENT)),
        }
    }

    // The file's name that argument i is. Of one that is longer than any it is as many bytes as there is room for, and no file can be opened by these.
    pub fn name_at<'a>(&self, i: usize, room: &'a mut [u8; NAME_ROOM]) -> &'a [u8] {
        let n = self.word_at(i, room).unwrap_or(NAME_ROOM);
        &room[..n]
    }

    // Argument i of the program is this word. One that is missing or too long stands for the empty word.
    pub fn is_word(&self, i: usize, word: &[u8]) -> bool {
        let mut text = [0u8; NAME_ROOM];
        match self.word_at(i, &mut text) {
            Ok(n) => &text[..n] == word,
            Err(_) => word.is_empty(),
        }
    }

    // The argument that is so many from the end, counted from 1, is this option.
    pub fn option_asked(&self, from_end: usize, option: &[u8]) -> bool {
        let count = self.word_count();
        count > from_end && self.is_word(count - from_end, option)
    }

    // The number that argument i writes. One that is missing, or longer than any number, writes none.
    pub fn number_at(&self, i: usize) -> Option<u32> {
        let mut text = [0u8; NAME_ROOM];
        let n = self.word_at(i, &mut text).ok()?;
        number_of(&text[..n])
    }

    // The program has so many words of its name and options. Without an argument beside them BUDGET, and with one, which comes first, the number that it
    // writes.
    pub fn budget_asked(&self, words: usize) -> Option<u32> {
        match self.word_count().saturating_sub(words) {
            0 => Some(BUDGET),
            1 => self.number_at(1),
            _ => None,
        }
    }
}

impl<R: Print + Files, E: Print> Program<'_, R, E> {
    // Prints what a call has written to the start of a room, or for every answer but 0 the answer where errors go. Where the script asks for it, it is
    // told the answer as well, of which it makes the exit status.
    pub fn put_written(&self, answer: Answer, room: &[u8], told: bool) -> io::Result<()> {
        let numbers = Numbers(answer);
        if answer.number != answers::VERIFIED {
            self.err.println(numbers)?;
        } else {
            let written = room.get(..answer.count as usize).ok_or(io::Error::other(
                "more was written than there is room for",
            ))?;
            self.rt.write_all(written)?;
        }
        if told {
            return tell(self.rt, numbers);
        }
        Ok(())
    }
}

// A writer as a place for errors, which is written through a `&`.
#[derive(Drop)]
pub struct Written<W>(pub RefCell<W>);

// The writer is in use only where a value that is printed writes to it itself.
fn in_use(_: BorrowMutError) -> io::Error {
    io::Error::from(ErrorKind::ResourceBusy)
}

impl<W: Write> Print for Written<W> {
    fn print<D: Display + Drop>(&self, value: D) -> io::Result<()> {
        let mut writer = self.0.try_borrow_mut().map_err(in_use)?;
        write!(*writer, "{value}")
    }

    fn println<D: Display + Drop>(&self, value: D) -> io::Result<()> {
        let mut writer = self.0.try_borrow_mut().map_err(in_use)?;
        writeln!(*writer, "{value}")
    }

    fn write_all(&self, bytes: &[u8]) -> io::Result<()> {
        let mut writer = self.0.try_borrow_mut().map_err(in_use)?;
        writer.write_all(bytes)
    }

    fn write_some(&self, bytes: &[u8]) -> io::Result<usize> {
        let mut writer = self.0.try_borrow_mut().map_err(in_use)?;
        writer.write(bytes)
    }
}

// Reads the file of this name, which is text, as far as buf goes.
fn read_named<R: Files>(rt: &R, name: &[u8], buf: &mut [u8]) -> io::Result<usize>
    ensures { ReadsAtMost result buf.new }
{
    if name.len() >= NAME_ROOM {
        return Err(io::Error::from_raw_os_error(NAME_TOO_LONG));
    }
    let Ok(name) = str::from_utf8(name) else {
        return Err(io::Error::from_raw_os_error(NO_TEXT));
    };
    let mut file = File::open(rt, name)?;
    read_all(&mut file, buf)
}

// An error in words. Those of the system stand there without its number, which follows them in what std writes.
#[derive(Clone, Copy)]
pub struct Reason(pub io::Error);

impl Display for Reason {
    fn fmt<W: fmt::Write>(&self, f: &mut fmt::Formatter<W>) -> fmt::Result {
        let error = self.0;
        let mut text = Cursor::new([0u8; ERROR_ROOM]);
        write!(text, "{error}").map_err(|_| fmt::Error)?;
        let length = text.position() as usize;
        let bytes = text.into_inner();
        let words = bytes
            .get(..length)
            .and_then(|said| str::from_utf8(said).ok())
            .unwrap_or_default();
        f.write_str(without_number(words))
    }
}

fn without_number(words: &str) -> &str {
    words
        .split_once(" (os error ")
        .map_or(words, |(before, _)| before)
}

// The number that these decimal digits write, as far as 32 bits go. `parse` alone would take a sign before them.
pub fn number_of(text: &[u8]) -> Option<u32> {
    if !text.iter().all(|byte| byte.is_ascii_digit()) {
        return None;
    }
    str::from_utf8(text).ok()?.parse::<u32>().ok()
}

// The word behind this label, without the blanks between them.
fn word_behind<'a>(text: &'a str, label: &str) -> Option<&'a str> {
    let (_, behind) = text.split_once(label)?;
    behind.split_whitespace().next()
}

// What the system says of the process in this file, as far as there is room for it.
fn told_in<'a, R: Files>(rt: &R, file: &str, room: &'a mut [u8]) -> Option<&'a str> {
    let mut file = File::open(rt, file).ok()?;
    let n = read_all(&mut file, room).ok()?;
    str::from_utf8(&room[..n]).ok()
}

// The soft limit of the process's stack in bytes, which stands first in its line. Where the system doesn't tell it, it is 0.
fn limit_told(text: &str) -> u64 {
    match word_behind(text, "Max stack size") {
        Some("unlimited") => u64::MAX,
        Some(word) => word.parse::<u64>().unwrap_or(0),
        None => 0,
    }
}

fn stack_limit(rt: &impl Files) -> u64 {
    let mut room = [0u8; LIMITS_ROOM];
    told_in(rt, "/proc/self/limits", &mut room).map_or(0, limit_told)
}

// What the walk of a request of this length may need.
fn stack_needed(length: usize) -> u64
    ensures { result ≡ needed length }
{
    if length <= SHORT {
        SHORT_STACK_NEEDED
    } else {
        STACK_NEEDED
    }
}

// A stack without a limit is told by the largest number.
fn is_enough(needed: u64, limit: u64) -> bool
    ensures { result ≡ leb needed limit }
{
    needed <= limit
}

// The stack that a walk may need, and the limit, which is less.
#[derive(Clone, Copy)]
struct TooSmall {
    needed: u64,
    limit: u64,
}

impl Display for TooSmall {
    fn fmt<W: fmt::Write>(&self, f: &mut fmt::Formatter<W>) -> fmt::Result {
        let TooSmall { needed, limit } = *self;
        write!(
            f,
            "the stack is too small: a walk may need {needed} bytes, and the limit is {limit}"
        )
    }
}

// The line is told on descriptor 3, where a script looks for the answer of a program that prints something else.
pub fn tell<R: Files, D: Display + Drop>(rt: &R, line: D) -> io::Result<()> {
    let mut script = open_answer(rt)?;
    writeln!(script, "{line}")
}

// An answer to a request as a program prints it: its number, place and count.
#[derive(Clone, Copy)]
pub struct Numbers(pub Answer);

impl Display for Numbers {
    fn fmt<W: fmt::Write>(&self, f: &mut fmt::Formatter<W>) -> fmt::Result {
        let Answer {
            number,
            place,
            count,
            ..
        } = self.0;
        write!(f, "{number} {place} {count}")
    }
}

// The marks of a request's fluents, at the start of a state. The first byte of a request that was walked is its fluent count.
pub fn marks_left<'a>(request: &[u8], state: &'a [u8; limits::FLUENTS]) -> io::Result<&'a [u8]>
    ensures marks { 0 < length request.now → IsOkAnd result (λ marks. marks.now ≡ take (slice_index request.now 0) state.now) }
    ensures empty { length request.now ≡ 0 → IsErr result }
{
    match request.first() {
        Some(fluents) => Ok(&state[..state.len().min(usize::from(*fluents))]),
        None => Err(io::Error::from(ErrorKind::InvalidData)),
    }
}

// A sign for each of these marks.
#[derive(Clone, Copy)]
pub struct Signs<'a>(pub &'a [u8]);

impl Display for Signs<'_> {
    fn fmt<W: fmt::Write>(&self, f: &mut fmt::Formatter<W>) -> fmt::Result {
        for mark in self.0 {
            f.write_char(sign(*mark))?;
        }
        Ok(())
    }
}

// Kept: a state is lent as bytes, which the calls' contracts speak of, and this match is the format's table of marks with a sign beside each (FORMAT 12.4).
fn sign(mark: u8) -> char {
    match mark {
        limits::UNKNOWN_MARK => '?',
        limits::TRUE_MARK => '+',
        _ => '-',
    }
}

// The value that each of these marks says, which is one less than the mark, or `?`; with a space between them.
#[derive(Clone, Copy)]
pub struct Values<'a>(pub &'a [u8]);

impl Display for Values<'_> {
    fn fmt<W: fmt::Write>(&self, f: &mut fmt::Formatter<W>) -> fmt::Result {
        for (f_at, mark) in self.0.iter().enumerate() {
            let space = if f_at > 0 { " " } else { "" };
            if *mark == limits::UNKNOWN_MARK {
                write!(f, "{space}?")?;
            } else {
                let value = *mark - 1;
                write!(f, "{space}{value}")?;
            }
        }
        Ok(())
    }
}

// The first so many numbers of a row that has a place for each fluent, each behind a space.
#[derive(Clone, Copy)]
pub struct Counted<'a> {
    pub row: &'a [u8; limits::FLUENTS],
    pub count: usize,
}

impl Display for Counted<'_> {
    fn fmt<W: fmt::Write>(&self, f: &mut fmt::Formatter<W>) -> fmt::Result {
        let row = self.row;
        for number in row.iter().take(self.count) {
            write!(f, " {number}")?;
        }
        Ok(())
    }
}
