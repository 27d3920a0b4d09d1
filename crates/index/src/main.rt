// Writes the index of the request on standard input to standard output (FORMAT 23.18).

#![tactic(auto)]

use glintstring::indexes::index;
use parsing::limits;
use programs::Program;

fn main(rt: HostRuntime) {
    let program = Program::new(&rt, b"index");
    let told = program.option_asked(1, b"--answer");
    // The program's name, and that word.
    let words = if told { 2 } else { 1 };
    if program.word_count() > words {
        let _ = program.say("a request is taken from standard input, and no word but --answer");
        return;
    }
    program.answer_input(|request| {
        // Room for every index.
        let mut room = [0u8; limits::INDEX];
        let answer = index(request, &mut room);
        program.put_written(answer, &room, told)
    });
}
