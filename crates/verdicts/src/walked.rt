ghost use Rattle.std.specs.Prelude.{◌≡◌, length};
ghost use Rattle.meaning.specs.Limits.{format};
ghost use Rattle.meaning.specs.Judging.{within};
ghost use Rattle.steps.specs.Steps.{first_in, walk_held};

use super::telling::tell;
use meaning::Answer;
use parsing::bytes::wide;
use parsing::shapes::{OfFlags, OfValues};
use reading::marks::{Marks, state_of};
use reading::notes;
use reading::notes::get;
use steps::onward::start_of;
use steps::request::Request;
use steps::trying::Acts;
use valuing::states;
use walking::tally::Tally;
use walking::walk::walk;

// A form whose requests can be walked: it has a first state.
pub trait Walked: Acts {
    // What the facts of a request at hand say.
    fn first_state(r: &Request<Self>) -> Marks
        ensures { result ≡ first_in Self.FORM r.now.bytes.now };
}

impl Walked for OfFlags {
    fn first_state(r: &Request<OfFlags>) -> Marks {
        state_of(r.bytes, 2)
    }
}

impl Walked for OfValues {
    fn first_state(r: &Request<OfValues>) -> Marks {
        states::first_state(r.bytes, 2 + wide(r.bytes[0]))
    }
}

// The walk of a request at hand from its first state.
pub fn walk_plan<S: Walked>(r: &Request<S>, state: &mut [u8], budget: u32) -> Answer
    requires { length state.old ≡ format.state }
    ensures { record { answer = result; state = state.new } ≡ within state.old budget (walk_held S.FORM r.now.bytes.now r.now.notes.now) }
{
    let marks = S::first_state(r);
    let at = start_of(get(r.notes, notes::ITEMS));
    let mut tally = Tally::opened(budget);
    walk(r, at, marks, &mut tally);
    tell(&tally, state, budget)
}
