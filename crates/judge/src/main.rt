// Judges the request on standard input, and says so on standard output (FORMAT 12.1 to 12.6, 12.13, 12.21, 18.17, 21.19, 21.20, 22.16, 23.19, 23.20, 26.92, 26.93).

#![tactic(auto)]

ghost use Rattle.std.specs.Io.{ReadsAtMost};

use glintstring::judging::{
    Judged, judge, judge_by_cases, judge_guarded, judge_indexed, judge_values,
};
use parsing::limits;
use programs::{Numbers, Program, Signs, Values, marks_left, open_index, read_all};
use std::env::Env;
use std::io;
use std::rt::Files;
use verdicts::answers;

// The call that is made.
#[derive(Clone, Copy)]
enum Call {
    Walk,
    Guarded,
    ByCases,
    Indexed,
    Values,
}

// Room for an index, with a byte more: what stands behind that changes no answer.
const INDEX_ROOM: usize = limits::INDEX + 1;

impl Call {
    // Reads the index, which the script has open on another descriptor, where the call takes one. Every other call is given none.
    fn read_index<R: Files>(self, rt: &R, buf: &mut [u8]) -> io::Result<usize>
        ensures { ReadsAtMost result buf.new }
    {
        match self {
            Call::Indexed => {
                let mut file = open_index(rt)?;
                read_all(&mut file, buf)
            }
            _ => Ok(0),
        }
    }

    // What the call answers, and the line that its answer is about, which the values call has none of.
    // Kept: each call is a function of its own, and two of the five take or give something else than the others. A trait would be five types with an
    // implementation each, and one more type to choose among them, for the one place that makes a call.
    fn answer(
        self,
        request: &[u8],
        index: &[u8],
        state: &mut [u8; limits::FLUENTS],
        budget: u32,
    ) -> Judged {
        match self {
            Call::Walk => judge(request, state, budget),
            Call::Guarded => judge_guarded(request, state, budget),
            Call::ByCases => judge_by_cases(request, state, budget),
            Call::Indexed => judge_indexed(request, index, state, budget),
            Call::Values => Judged {
                answer: judge_values(request, state, budget),
                line: 0,
            },
        }
    }

    // The line with the state that an answer has left.
    fn put_left(self, rt: &impl Print, marks: &[u8]) -> io::Result<()> {
        match self {
            Call::Values => rt.println(Values(marks)),
            _ => rt.println(Signs(marks)),
        }
    }
}

// The answer, for 1, 2 and 43 the state, and where it is asked for the line. Without the index that the call takes, or enough stack, there is no
// answer, which is said. The index is read once the request is.
fn answer_to<R: Print + Files, E: Print>(
    program: &Program<'_, R, E>,
    call: Call,
    budget: u32,
    line_asked: bool,
    request: &[u8],
) -> io::Result<()> {
    let rt = program.rt;
    let mut bytes = [0u8; INDEX_ROOM];
    let index = match call.read_index(rt, &mut bytes) {
        Ok(n) => &bytes[..n],
        Err(error) => {
            program.fail(b"index", error);
            return Ok(());
        }
    };
    if !program.stack_is_enough(None, request.len()) {
        return Ok(());
    }
    let mut state = [0u8; limits::FLUENTS];
    let Judged { answer, line } = call.answer(request, index, &mut state, budget);
    rt.println(Numbers(answer))?;
    if let answers::GOAL_MISSED | answers::NOT_EXECUTABLE | answers::GUARD_BROKEN = answer.number {
        call.put_left(rt, marks_left(request, &state)?)?;
    }
    if line_asked {
        rt.println(line)?;
    }
    Ok(())
}

// The call that the argument so many from the end asks for.
fn call_asked<R: Env, E>(program: &Program<'_, R, E>, from_end: usize) -> Call {
    if program.option_asked(from_end, b"--guarded") {
        Call::Guarded
    } else if program.option_asked(from_end, b"--by-cases") {
        Call::ByCases
    } else if program.option_asked(from_end, b"--indexed") {
        Call::Indexed
    } else if program.option_asked(from_end, b"--values") {
        Call::Values
    } else {
        Call::Walk
    }
}

// How many words there are beside a budget: the program's name, and the options.
fn words_of(call: Call, line_asked: bool) -> usize {
    let options = match call {
        Call::Walk => 0,
        _ => 1,
    };
    1 + options + usize::from(line_asked)
}

fn main(rt: HostRuntime) {
    let program = Program::new(&rt, b"judge");
    let line_asked = program.option_asked(1, b"--line");
    let call = call_asked(&program, if line_asked { 2 } else { 1 });
    let Some(budget) = program.budget_asked(words_of(call, line_asked)) else {
        program.say_budget();
        return;
    };
    program.answer_input(|request| answer_to(&program, call, budget, line_asked, request));
}
