ghost use Rattle.std.specs.Prelude.{◌≡◌, false};
ghost use Rattle.meaning.specs.Limits.{all_literals};
ghost use Rattle.meaning.specs.Literals.{exclusive};
ghost use Rattle.meaning.specs.Derivations.{same_list, included, literals_of};
ghost use Rattle.reading.specs.Listed.{listed, ListHere};
ghost use Rattle.steps.specs.AtHand.{Marked};

use parsing::bytes::wide;
use parsing::limits;
use reading::listed::listed;
use reading::marks::{Marks, Test, each_holds, state_of};

// Every literal of the list at p is in the list at q, in which none stands beside its complement.
pub fn within(s: &[u8], p: usize, u: &[u8], q: usize) -> bool
    requires list_here { ListHere all_literals s.now p }
    requires list_here_2 { ListHere all_literals u.now q }
    requires q_value { exclusive (listed u.now q) (listed u.now q) ≡ false }
    ensures { result ≡ included (listed s.now p) (listed u.now q) }
{
    let marks = state_of(u, q);
    each_holds(Test::Known, &marks, s, p)
}

// The list at p has just the literals that the state knows.
pub fn lists_known(marks: &Marks, s: &[u8], p: usize) -> bool
    requires marked { Marked marks.now }
    requires list_here { ListHere all_literals s.now p }
    ensures { result ≡ same_list (listed s.now p) (literals_of marks.now) }
{
    let mut entries = listed(s, p).iter();
    for (f, mark) in marks.iter().enumerate() {
        if *mark == limits::UNKNOWN_MARK {
            continue;
        }
        let Some(entry) = entries.next() else {
            return false;
        };
        if wide(*entry) != 2 * f + wide(*mark) - 1 {
            return false;
        }
    }
    entries.next().is_none()
}
