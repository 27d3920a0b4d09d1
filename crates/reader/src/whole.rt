ghost use Rattle.std.specs.Prelude.{◌≡◌, ◌≤◌, ◌<◌, length, get_or};
ghost use Rattle.meaning.specs.Limits.{format};
ghost use Rattle.meaning.specs.Reading.{read_request};
ghost use Rattle.meaning.specs.Guards.{read_guarded};
ghost use Rattle.parsing.specs.Read.{over, passed};
ghost use Rattle.reading.specs.Noted.{noting, outcome};
ghost use Rattle.reading.specs.Requested.{Starts, request_noted, guarded_noted};
ghost use Rattle.reader.specs.Sections.{sections_as, up_to, guards_first};

use super::{Reader, new};
use parsing::faults::{Fault, Refusal};
use parsing::limits;
use parsing::lists::{Kind, list_at};
use parsing::shapes::{OfFlags, Shape};
use reading::notes;
use reading::notes::{Notes, put};
use reading::requests::{request_at, table_at};

// Kept: clause of the length. It holds of the input from its test in `read_request` and `read_guarded` on, and `Reader` is made of any input.
// All eight sections, from a place on.
fn sections_as<S: Shape>(s: &[u8], p: usize, t: &mut Notes) -> Result<usize, Fault>
    requires starts { Starts S.FORM p }
    requires s_len_bound { length s.now ≤ format.request }
    ensures { outcome result t.new ≡ noting (request_noted S.FORM) (sections_as S.FORM s.now p) t.old }
{
    let plan = table_at::<S>(s, p, t)?;
    let n = usize::from(s[p]);
    let m = usize::from(s[S::actions_place(p, n)]);
    request_at::<S>(n, m, s, plan, t)
}

// The same, from where a reader stands.
fn sections<'a, S: Shape>(r: Reader<'a>, t: &mut Notes) -> Result<usize, Fault>
    requires starts { Starts S.FORM r.at }
    requires s_len_bound { length r.src.now ≤ format.request }
    ensures { outcome result t.new ≡ noting (request_noted S.FORM) (sections_as S.FORM r.entry.src.now r.entry.at) t.old }
{
    sections_as::<S>(r.src, r.at, t)
}

// All eight sections of an input, through a reader; whoever calls this needs none.
fn read_sections<S: Shape>(s: &[u8], t: &mut Notes) -> Result<usize, Fault>
    requires { length s.now ≤ format.request }
    ensures { outcome result t.new ≡ noting (request_noted S.FORM) (sections_as S.FORM s.now 0) t.old }
{
    sections::<S>(new(s), t)
}

// Nothing stands after what was read up to e.
fn nothing_after(s: &[u8], e: usize) -> Result<usize, Fault>
    ensures { over result ≡ passed (up_to s.now e) }
{
    if e < s.len() {
        return Err(Refusal::BytesAfter.at(e));
    }
    Ok(e)
}

// The guards, behind all eight sections that end at q, and nothing after them.
fn guards_at(s: &[u8], q: usize, t: &mut Notes) -> Result<usize, Fault>
    requires s_len_bound { length s.now ≤ format.request }
    requires q_bound { q < 65536 }
    requires s_nonzero { 0 < length s.now }
    requires s_bound { get_or s.now 0 0 ≤ format.fluents }
    ensures { outcome result t.new ≡ guards_first s.now q t.old }
{
    let n = usize::from(s[0]);
    let end = list_at(Kind::Literals, n, limits::GUARDS, s, q)?;
    put(t, notes::GUARDS, q);
    nothing_after(s, end)
}

// Kept: guarded requests have flags alone and a ninth section; what both readers share is a test of the length and `read_sections`.
// A guarded request: at most the limit, all nine sections, and nothing after them.
pub fn read_guarded(s: &[u8], t: &mut Notes) -> Result<usize, Fault>
    ensures { outcome result t.new ≡ noting guarded_noted (read_guarded format s.now) t.old }
{
    if limits::REQUEST < s.len() {
        return Err(Refusal::TooLong.at(0));
    }
    let guards = read_sections::<OfFlags>(s, t)?;
    guards_at(s, guards, t)
}

// A request of a form: at most the limit, all eight sections, and nothing after them.
pub fn read_request<S: Shape>(s: &[u8], t: &mut Notes) -> Result<usize, Fault>
    ensures { outcome result t.new ≡ noting (request_noted S.FORM) (read_request format S.FORM s.now) t.old }
{
    if limits::REQUEST < s.len() {
        return Err(Refusal::TooLong.at(0));
    }
    let end = read_sections::<S>(s, t)?;
    nothing_after(s, end)
}
