ghost use Rattle.std.specs.Prelude.{◌≡◌};
ghost use Rattle.meaning.specs.Tests.{each_of};
ghost use Rattle.parsing.specs.Masks.{Counted};
ghost use Rattle.finding.specs.PlansHeld.{SomePlan};
ghost use Rattle.finding.specs.Places.{found};
ghost use Rattle.finding.specs.Branches.{conditions_from, BranchesHere, ItemHere, ItemsHere};
ghost use Rattle.refusing.specs.Refusal18.{OverlapFound, rules_out, all_apart, item_apart, first_overlap};

use super::held::Held;
use finding::branches::{next_item, next_place};
use meaning::Form;
use parsing::bytes::wide;
use parsing::limits;
use parsing::values::Allowed;
use reading::marks::Marks;
use reading::notes;
use reading::notes::{Notes, get};

// What is held rules out the conditions of a given number of branches.
fn excludes<H: Held>(s: &[u8], t: &Notes, held: &H, count: usize, place: usize, item: usize) -> bool
    requires counted { Counted H.FORM s.now }
    requires branches_here { BranchesHere H.FORM s.now t.now count place item }
    ensures { result ≡ each_of (rules_out H.meets s.now held.now) (conditions_from H.FORM s.now t.now count place item) }
{
    let mut p = place;
    let mut i = item;
    for _ in 0..count {
        if held.agrees(s, p) {
            return false;
        }
        (p, i) = (
            next_place(H::FORM, s, t, p, i),
            next_item(H::FORM, s, t, p, i),
        );
    }
    true
}

// Every two conditions of a given number of branches are exclusive.
fn exclusive<H: Held>(s: &[u8], t: &Notes, count: usize, place: usize, item: usize) -> bool
    requires counted { Counted H.FORM s.now }
    requires branches_here { BranchesHere H.FORM s.now t.now count place item }
    ensures { result ≡ all_apart H.FORM s.now (conditions_from H.FORM s.now t.now count place item) }
{
    let mut p = place;
    let mut i = item;
    for k in 0..count {
        let held = H::of(s, p);
        (p, i) = (
            next_place(H::FORM, s, t, p, i),
            next_item(H::FORM, s, t, p, i),
        );
        if !excludes(s, t, &held, count - k - 1, p, i) {
            return false;
        }
    }
    true
}

// Item i, at p, is no branching with two conditions that are not exclusive.
fn apart<H: Held>(s: &[u8], t: &Notes, i: usize, p: usize) -> bool
    requires counted { Counted H.FORM s.now }
    requires item_here { ItemHere H.FORM s.now t.now i p }
    ensures { result ≡ item_apart H.FORM s.now t.now i p }
{
    s[p] != limits::BRANCHING_BYTE || exclusive::<H>(s, t, wide(s[p + 1]), p + 2, i + 1)
}

// The first item that is such a branching.
fn first_overlap<H: Held>(s: &[u8], t: &Notes, count: usize) -> Option<usize>
    requires counted { Counted H.FORM s.now }
    requires items_here { ItemsHere H.FORM s.now t.now count }
    ensures { result ≡ found (first_overlap H.FORM s.now t.now count 0) }
{
    for i in 0..count {
        let p = get(t, notes::ITEM_PLACE + i);
        if !apart::<H>(s, t, i, p) {
            return Some(p);
        }
    }
    None
}

// 18: the first branching with two conditions that are not exclusive, of a plan with a given number of items.
pub fn overlap(form: Form, s: &[u8], t: &Notes, count: usize) -> Option<usize>
    requires counted { Counted form s.now }
    requires some_plan { SomePlan form s.now t.now count }
    ensures { OverlapFound form s.now t.now count result }
{
    match form {
        Form::Flags => first_overlap::<Marks>(s, t, count),
        Form::Valued => first_overlap::<Allowed>(s, t, count),
    }
}
