// An input in which a request of a form stands, with the numbers of its fluents and actions.
ghost use Rattle.std.specs.Prelude.{◌≡◌, ◌≤◌};
ghost use Rattle.meaning.specs.Limits.{format};
ghost use Rattle.meaning.specs.Reading.{literals_at};
ghost use Rattle.parsing.specs.Masks.{Counted, Counted_prop};
ghost use Rattle.parsing.specs.Read.{over, passed};

use super::faults::Fault;
use super::shapes::Shape;
use std::marker::PhantomData;

#[derive(Drop)]
pub struct Input<'a, S: Shape> {
    pub bytes: &'a [u8],
    pub fluents: usize,
    pub actions: usize,
    pub form: PhantomData<S>,
    ghost few: { fluents ≤ format.fluents },
    ghost counted: { Counted S.FORM bytes.now } by { Counted_prop S.FORM bytes.now },
}

impl<'a, S: Shape> Input<'a, S> {
    pub fn new(bytes: &'a [u8], fluents: usize, actions: usize) -> Input<'a, S>
        requires n_le_fluents { fluents ≤ format.fluents }
        requires counted { Counted S.FORM bytes.now }
        ensures bytes { result.bytes ≡ bytes.entry }
        ensures fluents { result.fluents ≡ fluents }
        ensures actions { result.actions ≡ actions }
    {
        Input {
            bytes,
            fluents,
            actions,
            form: PhantomData,
        }
    }

    // A list of at most `most` literals: the place after it.
    pub fn literals_at(&self, most: usize, p: usize) -> Result<usize, Fault>
        ensures { over result ≡ passed (literals_at S.FORM self.now.fluents most self.now.bytes.now p) }
    {
        S::literals_at(self.fluents, most, self.bytes, p)
    }
}
