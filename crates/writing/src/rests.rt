// What is left of a plan from a position on, as bytes: the items of its own sequence from there, and then those behind each branching around it, each copied from where it
// stands in the request.
ghost use Rattle.std.specs.Prelude.{◌≡◌, ◌+◌, ◌*◌, ◌≤◌, ◌<◌, length};
ghost use Rattle.std.proofs.lemmas.List.Edits.{sets};
ghost use Rattle.meaning.specs.Limits.{format};
ghost use Rattle.meaning.specs.Layouts.{plan_written, items_written, items_in};
ghost use Rattle.reading.specs.Planned.{items_of};
ghost use Rattle.steps.specs.Held.{plan_in};
ghost use Rattle.steps.specs.Rests.{Position, rest_at};
ghost use Rattle.writing.specs.Ends.{ItemEnds};
ghost use Rattle.meaning.specs.declared.Form.TheVariants.{Flags};

use super::room::{put_number, put_part};
use finding::branches::{next_item, next_place};
use meaning::Form;
use parsing::limits;
use parsing::shapes::OfFlags;
use reading::notes;
use reading::notes::get;
use steps::onward::follow;
use steps::request::Request;

// The place after item i.
fn item_end(r: &Request<OfFlags>, i: usize) -> usize
    requires { i < items_of (plan_in Flags r.now.bytes.now r.now.notes.now) }
    ensures { ItemEnds r.now.bytes.now r.now.notes.now i result }
{
    let start = get(r.notes, notes::ITEM_PLACE + i);
    if r.bytes[start] != limits::BRANCHING_BYTE {
        return start + 1;
    }
    let branches = r.bytes[start + 1];
    let mut p = start + 2;
    let mut item = i + 1;
    for _ in 0..branches {
        let q = next_place(Form::Flags, r.bytes, r.notes, p, item);
        item = next_item(Form::Flags, r.bytes, r.notes, p, item);
        p = q;
    }
    p
}

// Where items that were put end, and how many they are.
#[derive(Clone, Copy)]
pub struct Put {
    pub end: usize,
    pub items: usize,
}

// The items from a position on.
fn put_items(r: &Request<OfFlags>, at: usize, room: &mut [u8], q: usize) -> Put
    requires position { Position (plan_in Flags r.now.bytes.now r.now.notes.now) at }
    requires q_bound { q < 140737488355330 }
    ensures after { result.end ≡ q + length (items_written (rest_at (plan_in Flags r.now.bytes.now r.now.notes.now) at)) }
    ensures within { result.end ≤ q + format.request * format.items }
    ensures items { result.items ≡ items_in (rest_at (plan_in Flags r.now.bytes.now r.now.notes.now) at) }
    ensures few { result.items ≤ format.items }
    ensures written { room.new ≡ sets room.old q (items_written (rest_at (plan_in Flags r.now.bytes.now r.now.notes.now) at)) }
{
    let mut i = at;
    let mut p = q;
    let mut items = 0;
    while i < limits::ITEMS {
        let start = get(r.notes, notes::ITEM_PLACE + i);
        let end = item_end(r, i);
        put_part(r.bytes, start, end, room, p);
        p += end - start;
        items += 1;
        i = follow(r, i);
    }
    Put { end: p, items }
}

// What is left from a position on: the number of its items, and the items. It gives the place after them.
pub fn put_rest(r: &Request<OfFlags>, at: usize, room: &mut [u8], q: usize) -> usize
    requires position { Position (plan_in Flags r.now.bytes.now r.now.notes.now) at }
    requires q_bound { q < 140737488355328 }
    ensures after { result ≡ q + length (plan_written (rest_at (plan_in Flags r.now.bytes.now r.now.notes.now) at)) }
    ensures within { result ≤ q + 2 + format.request * format.items }
    ensures written { room.new ≡ sets room.old q (plan_written (rest_at (plan_in Flags r.now.bytes.now r.now.notes.now) at)) }
{
    let put = put_items(r, at, room, q + 2);
    put_number(room, q, put.items);
    put.end
}
