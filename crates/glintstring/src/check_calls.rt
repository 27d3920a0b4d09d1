ghost use Rattle.std.specs.Prelude.{◌≡◌};
ghost use Rattle.meaning.specs.declared.Layout.TheVariants.{Plain, Closing};
ghost use Rattle.meaning.specs.Derivations.{check};
ghost use Rattle.meaning.specs.Limits.{format};
ghost use Rattle.steps.specs.Held.{request_in};
ghost use Rattle.glintstring.specs.CheckCalls.{too_many, check_at_hand};
ghost use Rattle.meaning.specs.declared.Form.TheVariants.{Flags};

use checking::check::check_derivation;
use finding::branches::sequence_of;
use meaning::{Answer, Form, Layout};
use parsing::bytes::wide;
use parsing::shapes::OfFlags;
use reading::notes;
use reading::notes::{Notes, get};
use refusing::settled::settle;
use steps::request::Request;
use verdicts::answers;
use verdicts::answers::{refused, uncounted};

// The layout does not cover this number of whether entries.
fn is_beyond(layout: Layout, asked: usize) -> bool
    ensures { result ≡ too_many layout asked }
{
    match layout {
        Layout::Plain => 0 < asked,
        Layout::Closing => false,
    }
}

// 30, and then the derivation, of a settled request.
fn check_at_hand(layout: Layout, r: &Request<OfFlags>, derivation: &[u8]) -> Answer
    ensures { result ≡ check_at_hand layout (request_in Flags r.now.bytes.now r.now.notes.now) derivation.now }
{
    let goals = get(r.notes, notes::GOALS);
    let whether = sequence_of(Form::Flags, r.bytes, goals);
    let asked = wide(r.bytes[whether]);
    if is_beyond(layout, asked) {
        return uncounted(answers::WHETHER_ASKED, answers::THE_REQUEST, whether);
    }
    match check_derivation(layout, r, derivation) {
        Ok(_) => uncounted(answers::VERIFIED, answers::NEITHER_INPUT, 0),
        Err(fault) => refused(fault, answers::THE_DERIVATION),
    }
}

// The request is settled first, then 30, then the derivation.
fn check_as(layout: Layout, request: &[u8], derivation: &[u8]) -> Answer
    ensures { result ≡ check format layout request.now derivation.now }
{
    let mut t: Notes = [0u16; notes::SLOTS];
    match settle(request, &mut t) {
        Ok(_) => check_at_hand(layout, &Request::of(request, &t), derivation),
        Err(fault) => refused(fault, answers::THE_REQUEST),
    }
}

// The derivation call.
pub fn check(request: &[u8], derivation: &[u8]) -> Answer
    ensures { result ≡ check format Plain request.now derivation.now }
{
    check_as(Layout::Plain, request, derivation)
}

// The whether call.
pub fn check_whether(request: &[u8], derivation: &[u8]) -> Answer
    ensures { result ≡ check format Closing request.now derivation.now }
{
    check_as(Layout::Closing, request, derivation)
}
