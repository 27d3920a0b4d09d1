ghost use Rattle.std.specs.Prelude.{◌≡◌, ◌+◌, ◌<◌, length};
ghost use Rattle.reading.specs.Listed.{LiteralsHere, span};
ghost use Rattle.finding.specs.Branches.{sequence_place, no_item, place_after, item_after, BranchHere};

use meaning::Form;
use parsing::bytes::wide;
use reading::notes;
use reading::notes::{Notes, get};

// The bytes that so many literals take.
fn span(form: Form, many: u8) -> usize
    ensures { result ≡ span form many }
{
    match form {
        Form::Flags => wide(many),
        Form::Valued => 2 * wide(many),
    }
}

// Where a sequence's count of items stands, after the list at p: a branch's condition, or a line's X.
pub fn sequence_of(form: Form, s: &[u8], p: usize) -> usize
    requires { LiteralsHere form s.now p }
    ensures { result ≡ sequence_place form s.now p }
{
    let bytes = span(form, s[p]);
    let first = p + 1;
    first + bytes
}

// The two-byte count at q is 0.
pub fn empty(s: &[u8], q: usize) -> bool
    requires { q + 1 < length s.now }
    ensures { result ≡ no_item s.now q }
{
    let second = q + 1;
    if s[q] == 0 {
        return s[second] == 0;
    }
    false
}

// The branch after the one at p, which has i items before it.
pub fn next_place(form: Form, s: &[u8], t: &Notes, p: usize, i: usize) -> usize
    requires { BranchHere form s.now p i }
    ensures { result ≡ place_after form s.now t.now p i }
{
    let q = sequence_of(form, s, p);
    let none = empty(s, q);
    if none {
        return q + 2;
    }
    get(t, notes::BRANCH_PLACE + i)
}

// How many items are before that one.
pub fn next_item(form: Form, s: &[u8], t: &Notes, p: usize, i: usize) -> usize
    requires { BranchHere form s.now p i }
    ensures { result ≡ item_after form s.now t.now p i }
{
    let q = sequence_of(form, s, p);
    let none = empty(s, q);
    if none {
        return i;
    }
    get(t, notes::BRANCH_ITEM + i)
}
