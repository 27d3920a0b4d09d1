ghost use Rattle.std.specs.Prelude.{◌≡◌, ◌+◌, min, length, drop, []};
ghost use Rattle.meaning.specs.Showing.{show};
ghost use Rattle.glintstring.specs.ShownPart.{chosen};

use meaning::Answer;
use verdicts::answers;

// The part from the place on; beyond the end the empty part there.
fn from<'a>(s: &'a [u8], place: usize) -> &'a [u8]
    ensures bytes { result.now ≡ drop place s.now }
    ensures block { result.ref_ptr.0 ≡ s.entry.ref_ptr.0 }
    ensures start { result.ref_ptr.1 ≡ s.entry.ref_ptr.1 + min place (length s.now) }
{
    &s[place.min(s.len())..]
}

// The empty part at the start.
fn none_of<'a>(s: &'a [u8]) -> &'a [u8]
    ensures bytes { result.now ≡ [] }
    ensures block { result.ref_ptr.0 ≡ s.entry.ref_ptr.0 }
    ensures start { result.ref_ptr.1 ≡ s.entry.ref_ptr.1 }
{
    &s[0..0]
}

// The showing call: the part of the input that the answer names, from its place on.
pub fn show<'a>(answer: Answer, request: &'a [u8], derivation: &'a [u8]) -> &'a [u8]
    ensures bytes { result.now ≡ (show answer request.now derivation.now).bytes }
    ensures block { result.ref_ptr.0 ≡ chosen answer request.entry.ref_ptr.0 derivation.entry.ref_ptr.0 }
    ensures start { result.ref_ptr.1 ≡ chosen answer request.entry.ref_ptr.1 derivation.entry.ref_ptr.1 + (show answer request.now derivation.now).start }
{
    let input = answer.input;
    let place = answer.place;
    if input == answers::THE_REQUEST {
        return from(request, place);
    }
    if input == answers::THE_DERIVATION {
        return from(derivation, place);
    }
    none_of(request)
}
