ghost use Rattle.std.specs.Prelude.{◌≡◌, ◌+◌, ◌<◌, get_or};
ghost use Rattle.finding.specs.Branches.{BranchHere};
ghost use Rattle.reading.specs.Planned.{items_of};
ghost use Rattle.steps.specs.Held.{plan_in};
ghost use Rattle.steps.specs.AtHand.{MarkedAs};
ghost use Rattle.steps.specs.Rests.{start};
ghost use Rattle.steps.specs.Steps.{Followed, Into, Chosen};

use super::looks::Looks;
use super::request::Request;
use finding::branches::{empty, next_item, next_place, sequence_of};
use parsing::bytes::wide;
use parsing::limits;
use parsing::shapes::Shape;
use reading::marks::Marks;
use reading::notes;
use reading::notes::get;

// The first position of a plan with so many items.
pub fn start_of(items: usize) -> usize
    ensures { result ≡ start items }
{
    if items == 0 { limits::ITEMS } else { 0 }
}

// The position after item i: the next item of its sequence, or else what follows the branchings that end with it.
pub fn follow<S: Shape>(r: &Request<S>, i: usize) -> usize
    requires i_bound { i < items_of (plan_in S.FORM r.now.bytes.now r.now.notes.now) }
    ensures { Followed S.FORM r.now.bytes.now r.now.notes.now i result }
{
    let mut at = get(r.notes, notes::ITEM_NEXT + i);
    while limits::ITEMS < at {
        at = get(r.notes, notes::ITEM_NEXT + (at - notes::AROUND_FROM));
    }
    at
}

// Where the branch begins that has its condition at p and `item` items before it; with no item of its own, after branching i.
fn into<S: Shape>(r: &Request<S>, i: usize, p: usize, item: usize) -> usize
    requires i_bound { i < items_of (plan_in S.FORM r.now.bytes.now r.now.notes.now) }
    requires branch_here { BranchHere S.FORM r.now.bytes.now p item }
    ensures { Into S.FORM r.now.bytes.now r.now.notes.now i p item result }
{
    if empty(r.bytes, sequence_of(S::FORM, r.bytes, p)) {
        follow(r, i)
    } else {
        item
    }
}

// Where the walk goes on from the branching that is item i: in the branch whose condition is known true.
pub fn chosen<S: Looks>(r: &Request<S>, i: usize, marks: &Marks) -> Option<usize>
    requires i_bound { i < items_of (plan_in S.FORM r.now.bytes.now r.now.notes.now) }
    requires i_value { get_or r.now.bytes.now (get_or r.now.notes.now (0 + i) 0) 0 ≡ 255 }
    requires marked_as { MarkedAs S.FORM r.now.bytes.now marks.now }
    ensures { Chosen S.FORM r.now.bytes.now r.now.notes.now i marks.now result }
{
    let start = get(r.notes, notes::ITEM_PLACE + i);
    let mut p = start + 2;
    let mut item = i + 1;
    for _ in 0..wide(r.bytes[start + 1]) {
        if S::is_known(r.bytes, p, marks) {
            return Some(into(r, i, p, item));
        }
        (p, item) = (
            next_place(S::FORM, r.bytes, r.notes, p, item),
            next_item(S::FORM, r.bytes, r.notes, p, item),
        );
    }
    None
}
