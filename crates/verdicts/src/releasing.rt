// The release call: many plans over one table, and a row of their answers. The table is read, and 16 and 17 are asked, once. All plans are read before
// the first is answered, since the row stays as lent where bytes follow the last of them (FORMAT 19.13).
ghost use Rattle.std.specs.Prelude.{◌≡◌, ◌+◌, ◌*◌, ◌≤◌, ◌<◌, [], length};
ghost use Rattle.meaning.specs.Limits.{format};
ghost use Rattle.meaning.specs.Refusals.{nowhere, contradiction_in};
ghost use Rattle.meaning.specs.Reading.{got};
ghost use Rattle.meaning.specs.Releases.{plans_at, byte_after, plan_answer, answers_at, rows, plans_in, released, release};
ghost use Rattle.reading.specs.Planned.{outcome_met};
ghost use Rattle.finding.specs.Places.{found};
ghost use Rattle.finding.specs.TablesHere.{table_in, TableHere};
ghost use Rattle.steps.specs.Held.{guards_in, request_in};
ghost use Rattle.steps.specs.Steps.{mode_in};
ghost use Rattle.verdicts.specs.Releasing.{opening_noted, Counted, OpenedHere, with_answer, with_unreached, past_table};
ghost use Rattle.meaning.specs.declared.Form.TheVariants.{Flags};

use super::answers;
use super::answers::{refused, uncounted};
use super::walked::walk_plan;
use meaning::{Answer, Form};
use parsing::bytes::{count_at, wide};
use parsing::faults::{Fault, Refusal};
use parsing::limits;
use parsing::shapes::OfFlags;
use reading::notes;
use reading::notes::{Notes, get};
use reading::requests::{request_at, table_at};
use refusing::refusal_18::overlap;
use refusing::settled::table_refused;
use steps::request::Request;

// A row has four numbers for each plan.
pub const ROW_NUMBERS: usize = 4;

// What stands before the plans: sections 1 to 5, which are noted, and the number of plans.
fn open_file(file: &[u8], t: &mut Notes) -> Result<(usize, usize), Fault>
    ensures { outcome_met result t.new ≡ opening_noted file.now t.old }
{
    if limits::REQUEST < file.len() {
        return Err(Refusal::TooLong.at(0));
    }
    let plans = table_at::<OfFlags>(file, 0, t)?;
    count_at(1, limits::PLANS, file, plans)
}

// The first byte after the last of the plans that start at a place, where every plan is read and there is one. What the plans leave in the notes here nobody asks for.
fn byte_after(n: usize, m: usize, file: &[u8], plans: usize, start: usize) -> Option<usize>
    requires { Counted file.now n m }
    ensures { result ≡ found (byte_after file.now (plans_at format file.now (table_in Flags file.now) plans start)) }
{
    let mut t: Notes = [0u16; notes::SLOTS];
    let mut p = start;
    for _ in 0..plans {
        match request_at::<OfFlags>(n, m, file, p, &mut t) {
            Ok(after) => p = after,
            Err(_) => return None,
        }
    }
    if p < file.len() { Some(p) } else { None }
}

// What the walk call answers of the plan at hand: 18, or how its walk ended. The state concerned is handed to nobody.
fn answer_plan(r: &Request<OfFlags>, budget: u32) -> Answer
    requires guards { guards_in r.now.bytes.now r.now.notes.now ≡ [] }
    requires mode { mode_in r.now.notes.now ≡ 0 }
    ensures { result ≡ plan_answer format budget (got (request_in Flags r.now.bytes.now r.now.notes.now) 0) }
{
    let items = get(r.notes, notes::ITEMS);
    match overlap(Form::Flags, r.bytes, r.notes, items) {
        None => {
            let mut state = [0u8; limits::FLUENTS];
            walk_plan(r, &mut state, budget)
        }
        Some(p) => refused(Refusal::NotExclusive.at(p), answers::THE_REQUEST),
    }
}

// The answer of plan k goes to its four numbers.
fn put_answer(row: &mut [u32], k: usize, a: Answer)
    requires k_in_bounds { 4 * k + 4 ≤ length row.old }
    requires place_bound { a.place < 65536 }
    ensures { row.new ≡ with_answer row.old k a }
{
    let first = ROW_NUMBERS * k;
    row[first] = a.number as u32;
    row[first + 1] = a.place as u32;
    row[first + 2] = a.count;
    row[first + 3] = a.input as u32;
}

// The plans from plan k on are not reached.
fn leave_unreached(row: &mut [u32], k: usize, plans: usize)
    requires k_le_plans { k ≤ plans }
    requires row_len { length row.old ≡ 4 * plans }
    ensures { row.new ≡ with_unreached row.old k plans }
{
    for i in k..plans {
        put_answer(
            row,
            i,
            uncounted(answers::NOT_REACHED, answers::NEITHER_INPUT, 0),
        );
    }
}

// Each plan is noted anew and answered, up to one that fails in reading.
fn answer_plans(
    n: usize,
    m: usize,
    file: &[u8],
    t: &mut Notes,
    row: &mut [u32],
    budget: u32,
    plans: usize,
    start: usize,
)
    requires counted { Counted file.now n m }
    requires table_here { TableHere Flags file.now t.old }
    requires file_value { contradiction_in (table_in Flags file.now) ≡ nowhere }
    requires start_in_bounds { start ≤ length file.now }
    requires row_len { length row.old ≡ 4 * plans }
    ensures { row.new ≡ rows (answers_at format file.now (table_in Flags file.now) budget plans start) }
{
    let mut p = start;
    for k in 0..plans {
        match request_at::<OfFlags>(n, m, file, p, t) {
            Ok(after) => {
                let answer = answer_plan(&Request::of(file, t), budget);
                put_answer(row, k, answer);
                p = after;
            }
            Err(fault) => {
                put_answer(row, k, refused(fault, answers::THE_REQUEST));
                leave_unreached(row, k + 1, plans);
                return;
            }
        }
    }
}

// Past 16 and 17: 20, or the answers.
fn answer_file(
    file: &[u8],
    t: &mut Notes,
    row: &mut [u32],
    budget: u32,
    plans: usize,
    start: usize,
) -> Answer
    requires table_here { TableHere Flags file.now t.old }
    requires file_value { contradiction_in (table_in Flags file.now) ≡ nowhere }
    requires start_in_bounds { start ≤ length file.now }
    requires row_len { length row.old ≡ 4 * plans }
    ensures { record { answer = result; row = row.new } ≡ released row.old (past_table file.now budget plans start) }
{
    let n = wide(file[0]);
    let m = wide(file[1]);
    match byte_after(n, m, file, plans, start) {
        None => {
            answer_plans(n, m, file, t, row, budget, plans, start);
            uncounted(answers::VERIFIED, answers::NEITHER_INPUT, 0)
        }
        Some(p) => refused(Refusal::BytesAfter.at(p), answers::THE_REQUEST),
    }
}

// The row's length, 16 and 17, of a file whose plans start at a place.
fn release_opened(
    file: &[u8],
    t: &mut Notes,
    row: &mut [u32],
    budget: u32,
    plans: usize,
    start: usize,
) -> Answer
    requires { OpenedHere file.now t.old plans start }
    ensures { record { answer = result; row = row.new } ≡ release format file.now row.old budget }
{
    if row.len() != ROW_NUMBERS * plans {
        return uncounted(answers::STATE_LENGTH, answers::NEITHER_INPUT, 0);
    }
    match table_refused(Form::Flags, file, t, start - 1) {
        Ok(_) => answer_file(file, t, row, budget, plans, start),
        Err(fault) => refused(fault, answers::THE_REQUEST),
    }
}

// The release call (FORMAT 19.1). The row is written with answer 0 and stays as lent with every other.
pub fn release(file: &[u8], row: &mut [u32], budget: u32) -> Answer
    ensures { record { answer = result; row = row.new } ≡ release format file.now row.old budget }
{
    let mut t: Notes = [0u16; notes::SLOTS];
    match open_file(file, &mut t) {
        Ok((plans, start)) => release_opened(file, &mut t, row, budget, plans, start),
        Err(fault) => refused(fault, answers::THE_REQUEST),
    }
}

// How many plans a file has, and 0 where the release call is refused before they are counted.
pub fn plans(file: &[u8]) -> usize
    ensures { result ≡ plans_in format file.now }
{
    let mut t: Notes = [0u16; notes::SLOTS];
    match open_file(file, &mut t) {
        Ok((count, _)) => count,
        Err(_) => 0,
    }
}
