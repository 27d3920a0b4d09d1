// Checks the derivation in one file against the request in another, and says so on standard output (FORMAT 12.8 to 12.12, 17.44).

#![tactic(auto)]

use glintstring::check_calls::{check, check_whether};
use meaning::Answer;
use programs::{DERIVATION_ROOM, Program, REQUEST_ROOM};
use std::env::Env;
use std::io;
use std::rt::Files;

fn put_answer(rt: &impl Print, answer: Answer) -> io::Result<()> {
    let Answer {
        number,
        input,
        place,
        ..
    } = answer;
    println!(rt; "{number} {input} {place}")
}

// What the call answers to the request and the derivation that these two arguments name.
fn audit_files<R, E, F>(program: &Program<'_, R, E>, files: [usize; 2], call: F)
where
    R: Print + Env + Files,
    E: Print,
    F: FnOnce(&[u8], &[u8]) -> Answer + Drop,
    requires { F.IsAlwaysCallable call }
{
    let [i, j] = files;
    // One byte more than a request or a derivation may have: a longer one is refused whatever it holds.
    let mut request = [0u8; REQUEST_ROOM];
    let mut derivation = [0u8; DERIVATION_ROOM];
    let Ok(n) = program.read_argument(b"", i, &mut request) else {
        return;
    };
    let Ok(m) = program.read_argument(b"", j, &mut derivation) else {
        return;
    };
    let answer = call(&request[..n], &derivation[..m]);
    if let Err(error) = put_answer(program.rt, answer) {
        program.fail(b"standard output", error);
    }
}

fn main(rt: HostRuntime) {
    let program = Program::new(&rt, b"audit");
    let count = program.word_count();
    // The option for derivations in the closing layout.
    let whether = program.is_word(1, b"--whether");
    if whether && count == 4 {
        audit_files(&program, [2, 3], check_whether);
    } else if whether {
        let _ = program.say(
            "two file names are needed: audit REQUEST DERIVATION, or audit --whether REQUEST DERIVATION",
        );
    } else if count == 3 {
        audit_files(&program, [1, 2], check);
    } else {
        let _ = program.say("two file names are needed, a request's and a derivation's");
    }
}
