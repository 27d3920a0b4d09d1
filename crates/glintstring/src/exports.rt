// The calls as other languages have them, with answers in one number; the crate glintstring_c exports each under its name here.
ghost use Rattle.std.specs.Prelude.{◌≡◌, ◌<◌};
ghost use Rattle.meaning.specs.declared.Layout.TheVariants.{Plain, Closing};
ghost use Rattle.meaning.specs.Limits.{format};
ghost use Rattle.meaning.specs.Judging.{judge};
ghost use Rattle.meaning.specs.Guards.{judge_guarded};
ghost use Rattle.meaning.specs.ByCases.{judge_by_cases};
ghost use Rattle.meaning.specs.Indexes.{build, judge_indexed};
ghost use Rattle.meaning.specs.Valued.{judge_values};
ghost use Rattle.meaning.specs.Asking;
ghost use Rattle.meaning.specs.Derivations.{check};
ghost use Rattle.meaning.specs.Schemes.{derive};
ghost use Rattle.meaning.specs.Releases.{plans_in, release};
ghost use Rattle.meaning.specs.Showing.{show};
ghost use Rattle.glintstring.specs.Packing.{packed, unpacked};

use super::check_calls::{check, check_whether};
use super::derives::derive;
use super::indexes::index;
use super::judging::{judge, judge_by_cases, judge_guarded, judge_indexed, judge_values};
use meaning::Answer;
use verdicts::answers;
use verdicts::releasing::{plans, release};

// An answer in one number.
fn pack(a: Answer) -> u64
    requires { a.place < 65536 }
    ensures { result ≡ packed a }
{
    a.number as u64
        + 256 * (a.input as u64)
        + 65536 * (a.place as u64)
        + 4294967296 * (a.count as u64)
}

// The walk call (FORMAT 1.15), with its answer in one number. It may be called with anything.
pub fn glintstring_judge(request: &[u8], state: &mut [u8], budget: u32) -> u64
    ensures value { result ≡ packed (judge format request.now state.old budget).answer }
    ensures state_after { state.new ≡ (judge format request.now state.old budget).state }
{
    let judged = judge(request, state, budget);
    pack(judged.answer)
}

// The guarded call (FORMAT 21.1), with its answer in one number. It may be called with anything.
pub fn glintstring_judge_guarded(request: &[u8], state: &mut [u8], budget: u32) -> u64
    ensures value { result ≡ packed (judge_guarded format request.now state.old budget).answer }
    ensures state_after { state.new ≡ (judge_guarded format request.now state.old budget).state }
{
    let judged = judge_guarded(request, state, budget);
    pack(judged.answer)
}

// The call by cases (FORMAT 22.1), with its answer in one number. It may be called with anything.
pub fn glintstring_judge_by_cases(request: &[u8], state: &mut [u8], budget: u32) -> u64
    ensures value { result ≡ packed (judge_by_cases format request.now state.old budget).answer }
    ensures state_after { state.new ≡ (judge_by_cases format request.now state.old budget).state }
{
    let judged = judge_by_cases(request, state, budget);
    pack(judged.answer)
}

// The indexed call (FORMAT 23.10), with its answer in one number. It may be called with anything.
pub fn glintstring_judge_indexed(request: &[u8], index: &[u8], state: &mut [u8], budget: u32) -> u64
    ensures value { result ≡ packed (judge_indexed format request.now index.now state.old budget).answer }
    ensures state_after { state.new ≡ (judge_indexed format request.now index.now state.old budget).state }
{
    let judged = judge_indexed(request, index, state, budget);
    pack(judged.answer)
}

// The values call (FORMAT 26.1), with its answer in one number. It may be called with anything.
pub fn glintstring_judge_values(request: &[u8], state: &mut [u8], budget: u32) -> u64
    ensures value { result ≡ packed (judge_values format request.now state.old budget).answer }
    ensures state_after { state.new ≡ (judge_values format request.now state.old budget).state }
{
    pack(judge_values(request, state, budget))
}

// The index call (FORMAT 23.6), with its answer in one number. It may be called with anything.
pub fn glintstring_index(request: &[u8], room: &mut [u8]) -> u64
    ensures value { result ≡ packed (build format request.now room.old).answer }
    ensures room_after { room.new ≡ (build format request.now room.old).room }
{
    pack(index(request, room))
}

// The derive call (FORMAT 24.11), with its answer in one number. It may be called with anything.
pub fn glintstring_derive(request: &[u8], out: &mut [u8], budget: u32) -> u64
    ensures value { result ≡ packed (derive format request.now out.old budget).answer }
    ensures out_after { out.new ≡ (derive format request.now out.old budget).room }
{
    pack(derive(request, out, budget))
}

// The walk call, with its answer in one number and the line in another, which is written whatever the answer is. It may be called with anything.
pub fn glintstring_judge_line(request: &[u8], state: &mut [u8], budget: u32, line: &mut u32) -> u64
    ensures value { result ≡ packed (judge format request.now state.old budget).answer }
    ensures state_after { state.new ≡ (judge format request.now state.old budget).state }
    ensures line_after { line.new ≡ Asking.line format request.now state.old budget }
{
    let judged = judge(request, state, budget);
    *line = judged.line;
    pack(judged.answer)
}

// The derivation call, with its answer in one number. It may be called with anything.
pub fn glintstring_check(request: &[u8], derivation: &[u8]) -> u64
    ensures { result ≡ packed (check format Plain request.now derivation.now) }
{
    pack(check(request, derivation))
}

// The whether call, with its answer in one number. It may be called with anything.
pub fn glintstring_check_whether(request: &[u8], derivation: &[u8]) -> u64
    ensures { result ≡ packed (check format Closing request.now derivation.now) }
{
    pack(check_whether(request, derivation))
}

// The release call (FORMAT 19.1), with its own answer in one number and the plans' answers in the lent row. It may be called with anything.
pub fn glintstring_release(file: &[u8], row: &mut [u32], budget: u32) -> u64
    ensures value { result ≡ packed (release format file.now row.old budget).answer }
    ensures row_after { row.new ≡ (release format file.now row.old budget).row }
{
    pack(release(file, row, budget))
}

// How many plans a file has, and 0 where the release call is refused before they are counted. It may be called with anything.
pub fn glintstring_plans(file: &[u8]) -> u32
    ensures { result ≡ plans_in format file.now }
{
    plans(file) as u32
}

// The showing call, of an answer in one number: where, in the input that it names, the part starts. The part goes on to that input's end;
// an answer that names neither shows the empty part at the start. It may be called with anything.
pub fn glintstring_show(answer: u64, request: &[u8], derivation: &[u8]) -> u64
    ensures { result ≡ (show (unpacked answer) request.now derivation.now).start }
{
    let input = answer / 256 % 256;
    let place = answer / 65536 % 65536;
    if input == answers::THE_REQUEST as u64 {
        return place.min(request.len() as u64);
    }
    if input == answers::THE_DERIVATION as u64 {
        return place.min(derivation.len() as u64);
    }
    0
}
