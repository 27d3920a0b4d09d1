// Writes a derivation of what the request on standard input asks to standard output (FORMAT 24.21, 24.22).

#![tactic(auto)]

use glintstring::derives::derive;
use parsing::limits;
use programs::Program;

fn main(rt: HostRuntime) {
    let program = Program::new(&rt, b"derive");
    let told = program.option_asked(1, b"--answer");
    // Beside a budget there are the program's name, and that word.
    let words = if told { 2 } else { 1 };
    let Some(budget) = program.budget_asked(words) else {
        program.say_budget();
        return;
    };
    // Without enough stack there is no answer, which is said.
    program.answer_input(|request| {
        if !program.stack_is_enough(None, request.len()) {
            return Ok(());
        }
        // Room for every derivation that is written.
        let mut room = [0u8; limits::DERIVATION];
        let answer = derive(request, &mut room, budget);
        program.put_written(answer, &room, told)
    });
}
