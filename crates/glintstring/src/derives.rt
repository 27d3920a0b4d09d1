// The derive call (FORMAT 24.11). Every answer but 0 leaves the room as it is.
ghost use Rattle.std.specs.Prelude.{◌≡◌, false, [], length};
ghost use Rattle.meaning.specs.declared.Layout.TheVariants.{Plain};
ghost use Rattle.meaning.specs.Limits.{format};
ghost use Rattle.meaning.specs.Reading.{got};
ghost use Rattle.meaning.specs.Walk.{Verified};
ghost use Rattle.meaning.specs.Derivations.{beyond};
ghost use Rattle.meaning.specs.Schemes.{derivation_of, narrow_walk_of, write_lines, derive_got, derive};
ghost use Rattle.reading.specs.Noted.{slots};
ghost use Rattle.steps.specs.Held.{guards_in, request_in};
ghost use Rattle.steps.specs.AtHand.{AtHand};
ghost use Rattle.steps.specs.Steps.{mode_in};
ghost use Rattle.meaning.specs.declared.Form.TheVariants.{Flags};

use finding::branches::sequence_of;
use meaning::{Answer, Form};
use parsing::bytes::wide;
use parsing::limits;
use parsing::shapes::OfFlags;
use reading::notes;
use reading::notes::{Notes, get, put};
use refusing::settled::settle;
use schemes::scheme::{measure, write};
use steps::request::Request;
use steps::trying::NARROW;
use verdicts::answers;
use verdicts::answers::{refused, uncounted};
use verdicts::walked::walk_plan;

// The lines of a request whose walk is fine go to the room, where they fit: 38 and 39 are known before the first is written.
fn write_lines(r: &Request<OfFlags>, room: &mut [u8]) -> Answer
    requires { Verified (narrow_walk_of format (request_in Flags r.now.bytes.now r.now.notes.now)) }
    ensures { record { answer = result; room = room.new } ≡ write_lines format room.old (derivation_of format (request_in Flags r.now.bytes.now r.now.notes.now)) }
{
    let size = measure(r);
    let lines = size.lines;
    let bytes = size.bytes;
    if limits::LINES < lines {
        return uncounted(answers::TOO_MANY_LINES, answers::NEITHER_INPUT, 0);
    }
    if limits::DERIVATION < bytes {
        return uncounted(answers::ROOM_SHORT, answers::NEITHER_INPUT, 0);
    }
    if room.len() < bytes {
        return uncounted(answers::ROOM_SHORT, answers::NEITHER_INPUT, 0);
    }
    write(r, room);
    Answer {
        number: answers::VERIFIED,
        input: answers::NEITHER_INPUT,
        place: 0,
        count: bytes as u32,
    }
}

// The walk of a request at hand without whether entries, and once more with the steps that are too wide refused; then its lines.
fn derive_walked(request: &[u8], t: &mut Notes, room: &mut [u8], budget: u32) -> Answer
    requires at_hand { AtHand Flags request.now t.old }
    requires t_value { guards_in request.now t.old ≡ [] }
    requires t_value_2 { mode_in t.old ≡ 0 }
    requires t_len { length t.old ≡ slots }
    requires t_value_3 { beyond Plain (request_in Flags request.now t.old) ≡ false }
    ensures { record { answer = result; room = room.new } ≡ derive_got format room.old budget (got (request_in Flags request.now t.old) 0) }
{
    let mut state = [0u8; limits::FLUENTS];
    let walked = walk_plan::<OfFlags>(&Request::of(request, t), &mut state, budget);
    if walked.number != answers::VERIFIED {
        return walked;
    }
    put(t, notes::MODE, NARROW);
    let narrowed = Request::<OfFlags>::of(request, t);
    let narrow = walk_plan(&narrowed, &mut state, budget);
    if narrow.number != answers::VERIFIED {
        return narrow;
    }
    write_lines(&narrowed, room)
}

// 30, and then the derivation, of a settled request.
fn derive_at_hand(request: &[u8], t: &mut Notes, room: &mut [u8], budget: u32) -> Answer
    requires at_hand { AtHand Flags request.now t.old }
    requires t_value { guards_in request.now t.old ≡ [] }
    requires t_value_2 { mode_in t.old ≡ 0 }
    requires t_len { length t.old ≡ slots }
    ensures { record { answer = result; room = room.new } ≡ derive_got format room.old budget (got (request_in Flags request.now t.old) 0) }
{
    let goals = get(t, notes::GOALS);
    let whether = sequence_of(Form::Flags, request, goals);
    let asked = wide(request[whether]);
    if 0 < asked {
        return uncounted(answers::WHETHER_ASKED, answers::THE_REQUEST, whether);
    }
    derive_walked(request, t, room, budget)
}

pub fn derive(request: &[u8], room: &mut [u8], budget: u32) -> Answer
    ensures { record { answer = result; room = room.new } ≡ derive format request.now room.old budget }
{
    let mut t: Notes = [0u16; notes::SLOTS];
    match settle(request, &mut t) {
        Ok(_) => derive_at_hand(request, &mut t, room, budget),
        Err(fault) => refused(fault, answers::THE_REQUEST),
    }
}
