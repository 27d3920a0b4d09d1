ghost use Rattle.std.specs.Prelude.{◌≡◌};
ghost use Rattle.steps.specs.AtHand.{AtHand};
ghost use Rattle.steps.specs.HandProp.{AtHand-prop};

use parsing::shapes::Shape;
use reading::notes::Notes;
use std::marker::PhantomData;

// A request at hand: bytes that hold one of this form, and the notes that lead to its lines and through its plan.
#[derive(Drop)]
pub struct Request<'a, S: Shape> {
    pub bytes: &'a [u8],
    pub notes: &'a Notes,
    form: PhantomData<S>,
    pub ghost at_hand: { AtHand S.FORM bytes.now notes.now } by { AtHand-prop S.FORM bytes.now notes.now },
}

impl<'a, S: Shape> Request<'a, S> {
    pub fn of(bytes: &'a [u8], notes: &'a Notes) -> Self
        requires { AtHand S.FORM bytes.now notes.now }
        ensures bytes { result.bytes.now ≡ bytes.now }
        ensures notes { result.notes.now ≡ notes.now }
    {
        Request {
            bytes,
            notes,
            form: PhantomData,
        }
    }
}
