ghost use Rattle.std.specs.Prelude.{◌≡◌, length};
ghost use Rattle.meaning.specs.Limits.{format};
ghost use Rattle.meaning.specs.Judging.{within, judge};
ghost use Rattle.meaning.specs.Guards.{judge_guarded, line_guarded};
ghost use Rattle.meaning.specs.Asking.{line_told, line};
ghost use Rattle.meaning.specs.ByCases.{judge_by_cases, line_by_cases};
ghost use Rattle.meaning.specs.Indexes.{judge_indexed, line_indexed};
ghost use Rattle.meaning.specs.Valued.{judge_values};
ghost use Rattle.steps.specs.Held.{table_in};
ghost use Rattle.steps.specs.Steps.{walk_held};
ghost use Rattle.meaning.specs.declared.Form.TheVariants.{Flags};

use super::missing::line_at;
use indexing::differing::differs;
use indexing::taking::take_index;
use meaning::Answer;
use parsing::limits;
use parsing::shapes::{OfFlags, OfValues};
use reading::notes;
use reading::notes::{Notes, put};
use refusing::settled::{settle, settle_guarded, settle_values};
use steps::request::Request;
use steps::trying::VALUES;
use verdicts::answers;
use verdicts::answers::{refused, uncounted};
use verdicts::walked::walk_plan;

// The length of a lent state.
const STATE_BYTES: usize = limits::FLUENTS;

// The mode of the call by cases.
const BY_CASES: usize = 1;

// The walk of a settled request, and the line of the action that stopped it.
fn walk_with_line(r: &Request<OfFlags>, state: &mut [u8], budget: u32) -> Judged
    requires { length state.old ≡ format.state }
    ensures given { record { answer = result.answer; state = state.new } ≡ within state.old budget (walk_held Flags r.now.bytes.now r.now.notes.now) }
    ensures line { result.line ≡ line_told (table_in Flags r.now.bytes.now) r.now.bytes.now (record { answer = result.answer; state = state.new }) }
{
    let answer = walk_plan(r, state, budget);
    let line = if answer.number == answers::NOT_EXECUTABLE {
        line_at(r, answer.place, state)
    } else {
        0
    };
    Judged { answer, line }
}

// What the walk call gives: the answer, and the line that it carries (FORMAT 18.9), 0 for none.
#[derive(Clone, Copy)]
pub struct Judged {
    pub answer: Answer,
    pub line: u32,
}

// An answer that no walk gives, and that carries no line.
fn without_walk(answer: Answer) -> Judged
    ensures answer_value { result.answer ≡ answer }
    ensures line_value { result.line ≡ 0 }
{
    Judged { answer, line: 0 }
}

// The walk call (FORMAT 1.15). Answers 1 and 2 leave the state concerned in the lent bytes; every other leaves these as they are.
pub fn judge(request: &[u8], state: &mut [u8], budget: u32) -> Judged
    ensures given { record { answer = result.answer; state = state.new } ≡ judge format request.now state.old budget }
    ensures line { result.line ≡ line format request.now state.old budget }
{
    if state.len() != STATE_BYTES {
        return without_walk(uncounted(answers::STATE_LENGTH, answers::NEITHER_INPUT, 0));
    }
    let mut t: Notes = [0u16; notes::SLOTS];
    match settle(request, &mut t) {
        Ok(_) => walk_with_line(&Request::of(request, &t), state, budget),
        Err(fault) => without_walk(refused(fault, answers::THE_REQUEST)),
    }
}

// The guarded call (FORMAT 21.1). Answers 1, 2 and 43 leave the state concerned in the lent bytes; every other leaves these as they are.
pub fn judge_guarded(request: &[u8], state: &mut [u8], budget: u32) -> Judged
    ensures given { record { answer = result.answer; state = state.new } ≡ judge_guarded format request.now state.old budget }
    ensures line { result.line ≡ line_guarded format request.now state.old budget }
{
    if state.len() != STATE_BYTES {
        return without_walk(uncounted(answers::STATE_LENGTH, answers::NEITHER_INPUT, 0));
    }
    let mut t: Notes = [0u16; notes::SLOTS];
    match settle_guarded(request, &mut t) {
        Ok(_) => walk_with_line(&Request::of(request, &t), state, budget),
        Err(fault) => without_walk(refused(fault, answers::THE_REQUEST)),
    }
}

// The call by cases (FORMAT 22.1). Answers 1 and 2 leave the state concerned in the lent bytes; every other leaves these as they are.
pub fn judge_by_cases(request: &[u8], state: &mut [u8], budget: u32) -> Judged
    ensures given { record { answer = result.answer; state = state.new } ≡ judge_by_cases format request.now state.old budget }
    ensures line { result.line ≡ line_by_cases format request.now state.old budget }
{
    if state.len() != STATE_BYTES {
        return without_walk(uncounted(answers::STATE_LENGTH, answers::NEITHER_INPUT, 0));
    }
    let mut t: Notes = [0u16; notes::SLOTS];
    match settle(request, &mut t) {
        Ok(_) => {
            put(&mut t, notes::MODE, BY_CASES);
            walk_with_line(&Request::of(request, &t), state, budget)
        }
        Err(fault) => without_walk(refused(fault, answers::THE_REQUEST)),
    }
}

// The indexed call (FORMAT 23.10). Answers 1 and 2 leave the state concerned in the lent bytes; every other leaves these as they are.
pub fn judge_indexed(request: &[u8], index: &[u8], state: &mut [u8], budget: u32) -> Judged
    ensures given { record { answer = result.answer; state = state.new } ≡ judge_indexed format request.now index.now state.old budget }
    ensures line { result.line ≡ line_indexed format request.now index.now state.old budget }
{
    if state.len() != STATE_BYTES {
        return without_walk(uncounted(answers::STATE_LENGTH, answers::NEITHER_INPUT, 0));
    }
    let mut t: Notes = [0u16; notes::SLOTS];
    match settle(request, &mut t) {
        Ok(_) => match differs(request, &t, index) {
            None => {
                take_index(request, index, &mut t);
                walk_with_line(&Request::of(request, &t), state, budget)
            }
            Some(p) => without_walk(uncounted(answers::INDEX_DIFFERS, answers::THE_INDEX, p)),
        },
        Err(fault) => without_walk(refused(fault, answers::THE_REQUEST)),
    }
}

// The values call (FORMAT 26.1). Answers 1 and 2 leave the state concerned in the lent bytes; every other leaves these as they are.
pub fn judge_values(request: &[u8], state: &mut [u8], budget: u32) -> Answer
    ensures { record { answer = result; state = state.new } ≡ judge_values format request.now state.old budget }
{
    if state.len() != STATE_BYTES {
        return uncounted(answers::STATE_LENGTH, answers::NEITHER_INPUT, 0);
    }
    let mut t: Notes = [0u16; notes::SLOTS];
    match settle_values(request, &mut t) {
        Ok(_) => {
            put(&mut t, notes::MODE, VALUES);
            walk_plan::<OfValues>(&Request::of(request, &t), state, budget)
        }
        Err(fault) => refused(fault, answers::THE_REQUEST),
    }
}
