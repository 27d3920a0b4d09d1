ghost use Rattle.std.specs.Prelude.{◌≡◌, ◌+◌, ◌*◌, ◌≤◌, ◌<◌, length, set};
ghost use Rattle.meaning.specs.Limits.{format};
ghost use Rattle.meaning.specs.Reading.{item_at, sequence_at, branching_at, plan_at};
ghost use Rattle.parsing.specs.Masks.{Counted};
ghost use Rattle.reading.specs.Noted.{item_next};
ghost use Rattle.reading.specs.Planned.{number_after, branch_noted, item_noted, inside_noted, sequence_noted, plan_noted, noting_met, outcome_met, branch_noting};

use super::notes;
use super::notes::{Notes, put};
use parsing::bytes::{byte_at, count_at, two_bytes_at};
use parsing::faults::{Fault, Refusal};
use parsing::inputs::Input;
use parsing::limits;
use parsing::shapes::Shape;

// What follows an item: the item met next, or where it is the last of its sequence what stands around the sequence.
fn after(left: usize, met: usize, up: usize) -> usize
    ensures { result ≡ number_after left met up }
{
    if left == 1 {
        return up;
    }
    met
}

// Kept: clause and parameters of `up`. It is a slot's number or the limit of items, is handed on as it is and stored here alone; a type for it would be made and taken apart once each.
// The item with `met` items before it, and `more` up to its end.
fn note_next(left: usize, met: usize, more: usize, up: usize, t: &mut Notes)
    requires met_lt_format { met < format.items }
    requires more_le_format { more ≤ format.items }
    requires up_bound { up ≤ 2 * format.items }
    ensures { t.new ≡ set t.old (item_next + met) (number_after left more up) }
{
    put(t, notes::ITEM_NEXT + met, after(left, more, up));
}

// Kept: the links lie in the notes, which are a fixed array, since no heap is used.
// A sequence of a branch is passed over through its first item.
fn note_branch(first: usize, met: usize, p: usize, t: &mut Notes)
    requires met_le_format { met ≤ format.items }
    requires p_le_derivation { p ≤ format.derivation }
    ensures { t.new ≡ branch_noted first met p t.old }
{
    if met <= first {
        return;
    }
    put(t, notes::BRANCH_PLACE + first, p);
    put(t, notes::BRANCH_ITEM + first, met);
}

// Kept: parameters. How deep branchings may still be nested changes from call to call, where the input stays the same.
// Kept: clause of the length. `Input` serves the readers of lines too, which ask nothing of the length; what is noted here are places, which have to fit the notes.
// A sequence with `before` items before it, in which `deep` branchings may stand one inside another: the items met up to its end.
#[cycle(branch_at_branching_at_item_at_sequence_at)]
fn sequence_at<S: Shape>(
    input: &Input<S>,
    deep: usize,
    start: usize,
    before: usize,
    up: usize,
    t: &mut Notes,
) -> Result<(usize, usize), Fault>
    requires before_le_format { before ≤ format.items }
    requires up_bound { up ≤ 2 * format.items }
    requires s_len_bound { length input.now.bytes.now ≤ format.derivation }
    ensures { outcome_met result t.new ≡ noting_met (sequence_noted S.FORM up before start t.old) (sequence_at format S.FORM input.now.fluents input.now.actions input.now.bytes.now (branching_at format S.FORM input.now.fluents input.now.actions input.now.bytes.now deep) start before) }
{
    let (count, first) = two_bytes_at(input.bytes, start)?;
    let mut p = first;
    let mut met = before;
    for i in 0..count {
        let (more, after) = item_at(input, deep, p, met, t)?;
        note_next(count - i, met, more, up, t);
        p = after;
        met = more;
    }
    note_branch(before, met, p, t);
    Ok((met, p))
}

// One item: the items met up to its end.
#[cycle(branch_at_branching_at_item_at_sequence_at)]
fn item_at<S: Shape>(
    input: &Input<S>,
    deep: usize,
    p: usize,
    met: usize,
    t: &mut Notes,
) -> Result<(usize, usize), Fault>
    requires s_len_bound { length input.now.bytes.now ≤ format.derivation }
    ensures { outcome_met result t.new ≡ noting_met (item_noted S.FORM met t.old) (item_at format S.FORM input.now.fluents input.now.actions input.now.bytes.now (branching_at format S.FORM input.now.fluents input.now.actions input.now.bytes.now deep) p met) }
{
    let (x, after) = byte_at(input.bytes, p)?;
    if limits::ITEMS <= met {
        return Err(Refusal::TooManyItems.at(p));
    }
    if x == usize::from(limits::BRANCHING_BYTE) {
        put(t, notes::ITEM_PLACE + met, p);
        return branching_at(input, deep, p, met, t);
    }
    if input.actions <= x {
        return Err(Refusal::TooLarge.at(p));
    }
    put(t, notes::ITEM_PLACE + met, p);
    Ok((met + 1, after))
}

// The branching that is item i and whose byte 255 stands at `start`.
#[cycle(branch_at_branching_at_item_at_sequence_at)]
fn branching_at<S: Shape>(
    input: &Input<S>,
    deep: usize,
    start: usize,
    i: usize,
    t: &mut Notes,
) -> Result<(usize, usize), Fault>
    requires s_len_bound { length input.now.bytes.now ≤ format.derivation }
    requires start_in_bounds { start < length input.now.bytes.now }
    requires i_lt_format { i < format.items }
    ensures { outcome_met result t.new ≡ noting_met (inside_noted S.FORM i t.old) (branching_at format S.FORM input.now.fluents input.now.actions input.now.bytes.now deep start (i + 1)) }
{
    if deep == 0 {
        return Err(Refusal::NestedTooDeep.at(start));
    }
    let (count, first) = count_at(1, limits::BRANCHES, input.bytes, start + 1)?;
    let mut p = first;
    let mut met = i + 1;
    for _ in 0..count {
        let (more, after) = branch_at(input, deep - 1, p, met, notes::AROUND_FROM + i, t)?;
        p = after;
        met = more;
    }
    Ok((met, p))
}

// A branch: its condition and its sequence.
#[cycle(branch_at_branching_at_item_at_sequence_at)]
fn branch_at<S: Shape>(
    input: &Input<S>,
    deep: usize,
    p: usize,
    met: usize,
    up: usize,
    t: &mut Notes,
) -> Result<(usize, usize), Fault>
    requires met_le_format { met ≤ format.items }
    requires up_bound { up ≤ 2 * format.items }
    requires s_len_bound { length input.now.bytes.now ≤ format.derivation }
    ensures { outcome_met result t.new ≡ branch_noting S.FORM input.now.fluents input.now.actions deep up input.now.bytes.now p met t.old }
{
    let sequence = input.body_at(p)?;
    sequence_at(input, deep, sequence, met, up, t)
}

// The plan, over n fluents and m actions: how many items it has.
pub fn plan_at<S: Shape>(
    n: usize,
    m: usize,
    s: &[u8],
    start: usize,
    t: &mut Notes,
) -> Result<(usize, usize), Fault>
    requires counted { Counted S.FORM s.now }
    requires n_le_fluents { n ≤ format.fluents }
    requires s_len_bound { length s.now ≤ format.derivation }
    ensures { outcome_met result t.new ≡ noting_met (plan_noted S.FORM start t.old) (plan_at format S.FORM n m s.now start) }
{
    let input = Input::<S>::new(s, n, m);
    sequence_at(&input, limits::NESTED, start, 0, limits::ITEMS, t)
}
