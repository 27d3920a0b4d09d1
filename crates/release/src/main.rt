// Answers every plan of the release file on standard input, and says so on standard output (FORMAT 19.21 to 19.24).

#![tactic(auto)]

use parsing::limits;
use programs::{Numbers, Program};
use std::io;
use std::io::ErrorKind;
use verdicts::answers;
use verdicts::releasing::{ROW_NUMBERS, plans, release};

// Room for the row of a file with the most plans. What is lent is cut from it: as many numbers as the file's own plans have, since a row of
// another length is answered by 9.
const ROW_ROOM: usize = ROW_NUMBERS * limits::PLANS;

// A line for each plan.
fn put_row(rt: &impl Print, row: &[u32]) -> io::Result<()> {
    let (plans, _) = row.as_chunks::<ROW_NUMBERS>();
    for [number, place, count, input] in plans {
        println!(rt; "{number} {place} {count} {input}")?;
    }
    Ok(())
}

// The call's own answer, and where it is 0 the row, for so many plans.
fn answer_plans(
    rt: &impl Print,
    file: &[u8],
    budget: u32,
    count: usize,
    row: &mut [u32],
) -> io::Result<()> {
    if row.len() / ROW_NUMBERS < count {
        return Err(io::Error::from(ErrorKind::InvalidData));
    }
    let lent = &mut row[..ROW_NUMBERS * count];
    let answer = release(file, lent, budget);
    rt.println(Numbers(answer))?;
    if answer.number == answers::VERIFIED {
        put_row(rt, lent)?;
    }
    Ok(())
}

fn main(rt: HostRuntime) {
    let program = Program::new(&rt, b"release");
    // The program's name is its only other word.
    let Some(budget) = program.budget_asked(1) else {
        program.say_budget();
        return;
    };
    // Without enough stack there is no answer, which is said.
    program.answer_input(|file| {
        if !program.stack_is_enough(None, file.len()) {
            return Ok(());
        }
        let mut row = [0u32; ROW_ROOM];
        answer_plans(&rt, file, budget, plans(file), &mut row)
    });
}
