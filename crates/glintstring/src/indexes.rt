// The index call (FORMAT 23.6).
ghost use Rattle.std.specs.Prelude.{◌≡◌};
ghost use Rattle.meaning.specs.Limits.{format};
ghost use Rattle.meaning.specs.Reading.{got};
ghost use Rattle.meaning.specs.Indexes.{build_got, build};
ghost use Rattle.finding.specs.TablesHere.{TableHere};
ghost use Rattle.steps.specs.Held.{request_in};
ghost use Rattle.meaning.specs.declared.Form.TheVariants.{Flags};

use indexing::building::{index_length, put_index};
use meaning::Answer;
use reading::notes;
use reading::notes::Notes;
use refusing::settled::settle;
use verdicts::answers;
use verdicts::answers::{refused, uncounted};

// The index of a settled request goes to the room, where it fits.
fn write_index(request: &[u8], t: &Notes, room: &mut [u8]) -> Answer
    requires { TableHere Flags request.now t.now }
    ensures { record { answer = result; room = room.new } ≡ build_got room.old (got (request_in Flags request.now t.now) 0) }
{
    let length = index_length(request, t);
    if room.len() < length {
        return uncounted(answers::ROOM_SHORT, answers::NEITHER_INPUT, 0);
    }
    put_index(request, t, room);
    Answer {
        number: answers::VERIFIED,
        input: answers::NEITHER_INPUT,
        place: 0,
        count: length as u32,
    }
}

// Every answer but 0 leaves the room as it is.
pub fn index(request: &[u8], room: &mut [u8]) -> Answer
    ensures { record { answer = result; room = room.new } ≡ build format request.now room.old }
{
    let mut t: Notes = [0u16; notes::SLOTS];
    match settle(request, &mut t) {
        Ok(_) => write_index(request, &t, room),
        Err(fault) => refused(fault, answers::THE_REQUEST),
    }
}
