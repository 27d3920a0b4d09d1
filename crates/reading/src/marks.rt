ghost use Rattle.std.specs.Prelude.{◌≡◌, ◌<◌};
ghost use Rattle.meaning.specs.Tests.{each_of};
ghost use Rattle.meaning.specs.Limits.{format, all_literals};
ghost use Rattle.meaning.specs.States.{mark_of, known, state_of};
ghost use Rattle.meaning.specs.Asking.{short_by};
ghost use Rattle.reading.specs.Listed.{listed, ListHere, holds_as, look_at};

use super::listed::listed;
use parsing::limits;

// A partial state: a mark for each fluent.
pub type Marks = [u8; limits::FLUENTS];

// What is asked of a literal in a partial state: that it is known true, or that it is not known false.
#[derive(Clone, Copy)]
pub enum Test {
    Known,
    Possible,
}

// What one look at a list of literals tells.
#[derive(Clone, Copy)]
pub enum Look {
    Known,
    Possible,
    Never,
}

pub fn mark_of(l: usize) -> u8
    ensures { result ≡ mark_of l }
{
    if l % 2 == 0 {
        limits::TRUE_MARK
    } else {
        limits::FALSE_MARK
    }
}

pub fn holds(test: Test, marks: &Marks, l: usize) -> bool
    requires { l < all_literals }
    ensures { result ≡ holds_as test marks.now l }
{
    let mark = mark_of(l);
    match test {
        Test::Known => marks[l / 2] == mark,
        Test::Possible => marks[l / 2] != 3 - mark,
    }
}

// Each literal of the list at p.
pub fn each_holds(test: Test, marks: &Marks, s: &[u8], p: usize) -> bool
    requires { ListHere all_literals s.now p }
    ensures { result ≡ each_of (holds_as test marks.now) (listed s.now p) }
{
    listed(s, p)
        .iter()
        .all(|l| holds(test, marks, usize::from(*l)))
}

// Kept: one pass tells both, whether each is known and whether each is possible, so that no byte of a body is read twice (`tests/gate/reads`); `all` and `any` tell one.
// What a look at the list at p tells: each literal is known true, or each is possible and some is not known, or some is known false.
pub fn look_at(marks: &Marks, s: &[u8], p: usize) -> Look
    requires { ListHere all_literals s.now p }
    ensures { result ≡ look_at marks.now (listed s.now p) }
{
    let mut sure = true;
    for literal in listed(s, p) {
        let l = usize::from(*literal);
        let mark = mark_of(l);
        if marks[l / 2] == 3 - mark {
            return Look::Never;
        }
        sure &= marks[l / 2] == mark;
    }
    if sure { Look::Known } else { Look::Possible }
}

// How many literals of the list at p are not known true.
pub fn short_by(marks: &Marks, s: &[u8], p: usize) -> usize
    requires { ListHere all_literals s.now p }
    ensures { result ≡ short_by (known marks.now) (listed s.now p) }
{
    listed(s, p)
        .iter()
        .filter(|l| !holds(Test::Known, marks, usize::from(**l)))
        .count()
}

// The state that holds the literals of the list at p and nothing else.
pub fn state_of(s: &[u8], p: usize) -> Marks
    requires { ListHere all_literals s.now p }
    ensures { result ≡ state_of format (listed s.now p) }
{
    let mut marks = [limits::UNKNOWN_MARK; limits::FLUENTS];
    for l in listed(s, p) {
        let l = usize::from(*l);
        marks[l / 2] = mark_of(l);
    }
    marks
}
