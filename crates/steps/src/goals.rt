ghost use Rattle.std.specs.Prelude.{◌≡◌, ◌+◌, ◌<◌};
ghost use Rattle.meaning.specs.Reading.{placed, placed_twos, literals_in};
ghost use Rattle.meaning.specs.Walk.{first_missed};
ghost use Rattle.meaning.specs.ValueStates as Value;
ghost use Rattle.meaning.specs.declared.Form.TheVariants.{Valued};
ghost use Rattle.finding.specs.Places.{found};
ghost use Rattle.reading.specs.Listed.{listed, ListHere, ValuesHere, listed_as};
ghost use Rattle.valuing.specs.Valuing.{ValuedMarks};
ghost use Rattle.steps.specs.AtHand.{MarkedAs};
ghost use Rattle.steps.specs.Steps.{met_as, bound_as, lacks_as, missed_as};

use super::looks::Looks;
use super::request::Request;
use finding::branches::sequence_of;
use parsing::bytes::{two, wide};
use reading::marks::{Marks, Test, holds};
use reading::notes;
use reading::notes::get;
use valuing::states::known;

// What is asked at the end: that a literal is known, or that it is known whether a fluent is true.
#[derive(Clone, Copy)]
pub enum Asked {
    Goal,
    Whether,
}

fn met(asked: Asked, marks: &Marks, x: usize) -> bool
    requires { x < bound_as asked }
    ensures { result ≡ met_as asked marks.now x }
{
    match asked {
        Asked::Goal => holds(Test::Known, marks, x),
        Asked::Whether => 0 < marks[x],
    }
}

// The first entry of the list at p that is not met.
pub(crate) fn first_missed(asked: Asked, marks: &Marks, s: &[u8], p: usize) -> Option<usize>
    requires { ListHere (bound_as asked) s.now p }
    ensures { result ≡ found (first_missed (met_as asked marks.now) (placed (p + 1) (listed s.now p))) }
{
    for i in p + 1..p + 1 + wide(s[p]) {
        if !met(asked, marks, wide(s[i])) {
            return Some(i);
        }
    }
    None
}

// The first literal of values of the list at p that is not known true.
pub(crate) fn first_value_missed(s: &[u8], marks: &Marks, p: usize) -> Option<usize>
    requires values_here { ValuesHere s.now p }
    requires valued_marks { ValuedMarks s.now marks.now }
    ensures { result ≡ found (first_missed (Value.known (literals_in s.now) marks.now) (placed_twos (p + 1) (listed_as Valued s.now p))) }
{
    for k in 0..wide(s[p]) {
        let at = p + 1 + 2 * k;
        if !known(s, marks, two(s[at], s[at + 1])) {
            return Some(at);
        }
    }
    None
}

// The first guard that a state lacks. Where the notes have no place of guards there are none.
pub fn lacking<S: Looks>(r: &Request<S>, marks: &Marks) -> Option<usize>
    ensures { result ≡ found (lacks_as S.FORM r.now.bytes.now r.now.notes.now marks.now) }
{
    let guards = get(r.notes, notes::GUARDS);
    if guards == 0 {
        return None;
    }
    first_missed(Asked::Goal, marks, r.bytes, guards)
}

// The first goal or whether entry that an end state misses.
pub fn missed<S: Looks>(r: &Request<S>, marks: &Marks) -> Option<usize>
    requires marked_as { MarkedAs S.FORM r.now.bytes.now marks.now }
    ensures { result ≡ found (missed_as S.FORM r.now.bytes.now r.now.notes.now marks.now) }
{
    let goals = get(r.notes, notes::GOALS);
    match S::goal_missed(r.bytes, marks, goals) {
        Some(p) => Some(p),
        None => first_missed(
            Asked::Whether,
            marks,
            r.bytes,
            sequence_of(S::FORM, r.bytes, goals),
        ),
    }
}
