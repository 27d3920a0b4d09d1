ghost use Rattle.std.specs.Prelude.{◌≡◌, ◌+◌, ◌<◌};
ghost use Rattle.meaning.specs.Tests.{each_of};
ghost use Rattle.meaning.specs.Limits.{format};
ghost use Rattle.meaning.specs.Reading.{placed_as};
ghost use Rattle.meaning.specs.Walk.{first_missed};
ghost use Rattle.finding.specs.Places.{found};
ghost use Rattle.reading.specs.Listed.{listed_as, LiteralsHere};
ghost use Rattle.steps.specs.AtHand.{MarkedAs};
ghost use Rattle.steps.specs.Steps.{knows_as, values_as};

use super::goals::{Asked, first_missed, first_value_missed};
use parsing::shapes::{OfFlags, OfValues, Shape};
use parsing::values::values_in;
use reading::marks::{Marks, Test, each_holds};
use valuing::states::each_known;

// What a state says of lists of literals, in a request of either form.
pub trait Looks: Shape {
    // Each literal of the list at p is known true.
    fn is_known(s: &[u8], p: usize, marks: &Marks) -> bool
        requires literals_here { LiteralsHere Self.FORM s.now p }
        requires marked_as { MarkedAs Self.FORM s.now marks.now }
        ensures { result ≡ each_of (knows_as Self.FORM s.now marks.now) (listed_as Self.FORM s.now p) };

    // The first goal of the list at p that is not known true.
    fn goal_missed(s: &[u8], marks: &Marks, p: usize) -> Option<usize>
        requires literals_here { LiteralsHere Self.FORM s.now p }
        requires marked_as { MarkedAs Self.FORM s.now marks.now }
        ensures { result ≡ found (first_missed (knows_as Self.FORM s.now marks.now) (placed_as Self.FORM (p + 1) (listed_as Self.FORM s.now p))) };

    // How many values a fluent has.
    fn values_of(s: &[u8], f: usize) -> usize
        requires { f < format.fluents }
        ensures { result ≡ values_as Self.FORM s.now f };
}

impl Looks for OfFlags {
    fn is_known(s: &[u8], p: usize, marks: &Marks) -> bool {
        each_holds(Test::Known, marks, s, p)
    }

    fn goal_missed(s: &[u8], marks: &Marks, p: usize) -> Option<usize> {
        first_missed(Asked::Goal, marks, s, p)
    }

    fn values_of(_: &[u8], _: usize) -> usize {
        2
    }
}

impl Looks for OfValues {
    fn is_known(s: &[u8], p: usize, marks: &Marks) -> bool {
        each_known(s, marks, p)
    }

    fn goal_missed(s: &[u8], marks: &Marks, p: usize) -> Option<usize> {
        first_value_missed(s, marks, p)
    }

    fn values_of(s: &[u8], f: usize) -> usize {
        values_in(s, f)
    }
}
