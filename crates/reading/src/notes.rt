ghost use Rattle.std.specs.Prelude.{◌≡◌, ◌≤◌, ◌<◌, length, get_or, set};
ghost use Rattle.meaning.specs.Limits.{format};
ghost use Rattle.reading.specs.Noted;
ghost use Rattle.reading.specs.Noted.{line_place, next_line, first_line, appended, raised, pair_slot, pair_there, pair_noted, run_lines, slots, line_numbers};

use parsing::bits::{has_bit, with_bit};
use parsing::limits;

// Kept: what is proved of notes, from `AtHand` and `TableHere` upward, is said of one list of slots, and one function takes where a section's slots start for effects and executability lines alike.
// What reading leaves behind; specs/Noted says what its slots hold.
pub const ITEM_PLACE: usize = 0;

pub const ITEM_NEXT: usize = limits::ITEMS;

pub const AROUND_FROM: usize = limits::ITEMS + 1;

pub const BRANCH_PLACE: usize = 2 * limits::ITEMS;

pub const BRANCH_ITEM: usize = 3 * limits::ITEMS;

pub const FIRST_LINES: usize = 2 * limits::LINE_NUMBERS;

pub const LINE_SLOTS: usize = FIRST_LINES + limits::ACTIONS;

pub const EFFECTS: usize = 4 * limits::ITEMS;

pub const EXECUTABILITY: usize = EFFECTS + LINE_SLOTS;

pub const SENSED_FROM: usize = EXECUTABILITY + LINE_SLOTS;

pub const SENSED_TO: usize = SENSED_FROM + limits::ACTIONS;

pub const PLAN: usize = SENSED_TO + limits::ACTIONS;

pub const ITEMS: usize = PLAN + 1;

pub const COUNT_OF_EFFECTS: usize = PLAN + 2;

pub const COUNT_OF_EXECUTABILITY: usize = PLAN + 3;

pub const COUNT_OF_KNOWLEDGE: usize = PLAN + 4;

pub const GOALS: usize = PLAN + 5;

pub const GUARDS: usize = PLAN + 6;

pub const MODE: usize = PLAN + 7;

pub const SENSED: usize = PLAN + 8;

pub const WORD_BITS: usize = 16;

pub const ROW_WORDS: usize = limits::FLUENTS / WORD_BITS;

pub const SENSED_WORDS: usize = limits::ACTIONS * ROW_WORDS;

pub const SLOTS: usize = SENSED + SENSED_WORDS;

// Kept: see above, at the slots.
pub type Notes = [u16; SLOTS];

pub fn widened(x: u16) -> usize
    ensures { result ≡ x }
{
    usize::from(x)
}

// The notes have all their slots.
pub fn sized(t: &Notes)
    ensures { length t.now ≡ slots }
{
    let slots: &[u16] = t;
}

pub fn get(t: &Notes, slot: usize) -> usize
    requires { slot < slots }
    ensures { result ≡ get_or t.now slot 0 }
{
    usize::from(t[slot])
}

pub fn put(t: &mut Notes, slot: usize, value: usize)
    requires slot_lt_slots { slot < slots }
    requires value_bound { value < 65536 }
    ensures { t.new ≡ set t.old slot value }
{
    t[slot] = value as u16;
}

// Where line k stands, of the section whose slots start at `lines`.
pub fn line_place(t: &Notes, lines: usize, k: usize) -> usize
    requires lines_le_run_lines { lines ≤ run_lines }
    requires k_lt_line_numbers { k < line_numbers }
    ensures { result ≡ line_place t.now lines k }
{
    let slot = lines + k;
    get(t, slot)
}

// The line of the same action that comes after line k in file order, or 0.
pub fn next_line(t: &Notes, lines: usize, k: usize) -> usize
    requires lines_le_run_lines { lines ≤ run_lines }
    requires k_lt_line_numbers { k < line_numbers }
    ensures { result ≡ next_line t.now lines k }
{
    let slot = lines + limits::LINE_NUMBERS + k;
    get(t, slot)
}

// The first line of action a in file order, or 0.
pub fn first_line(t: &Notes, lines: usize, a: usize) -> usize
    requires lines_le_run_lines { lines ≤ run_lines }
    requires a_lt_actions { a < format.actions }
    ensures { result ≡ first_line t.now lines a }
{
    let slot = lines + FIRST_LINES + a;
    get(t, slot)
}

// Kept: what a new line comes after is told as its number in the links, where 256 + a stands before the first line of action a, so that both are linked by one store.
// What a new line of action a comes after: the action's last line so far, or 256 + a where it has none.
fn before(last: u8, a: usize) -> usize
    requires { a < format.actions }
    ensures { result ≡ Noted.before last a }
{
    if last == 0 {
        return limits::LINE_NUMBERS + a;
    }
    usize::from(last)
}

// A line: its number in its section, its place, its action and the byte after the action.
#[derive(Drop)]
pub struct Line {
    pub number: usize,
    pub place: usize,
    pub action: usize,
    pub second: usize,
    ghost number_fits: { number < line_numbers },
    ghost place_fits: { place < 65536 },
    ghost acts: { action < format.actions },
}

// Kept: the links lie in the notes, which are a fixed array, since no heap is used.
// The line comes after `last`, its action's last line so far.
pub fn append_line(t: &mut Notes, lines: usize, last: u8, line: &Line)
    requires lines_le_run_lines { lines ≤ run_lines }
    ensures { t.new ≡ appended lines last line.now.number line.now.place line.now.action t.old }
{
    put(t, lines + line.number, line.place);
    let i = before(last, line.action);
    put(t, lines + limits::LINE_NUMBERS + i, line.number);
}

// The slot holds at least the value.
fn raise(t: &mut Notes, slot: usize, value: usize)
    requires slot_lt_slots { slot < slots }
    requires value_bound { value < 65536 }
    ensures { t.new ≡ raised slot value t.old }
{
    if get(t, slot) < value {
        put(t, slot, value);
    }
}

// The slot that has the bit of action a and fluent f.
fn pair_slot(a: usize, f: usize) -> usize
    requires a_lt_actions { a < format.actions }
    requires f_lt_fluents { f < format.fluents }
    ensures { result ≡ pair_slot a f }
{
    SENSED + (ROW_WORDS * a + f / WORD_BITS)
}

// It is noted that action a senses fluent f.
pub fn is_noted(t: &Notes, a: usize, f: usize) -> bool
    requires a_lt_actions { a < format.actions }
    requires f_lt_fluents { f < format.fluents }
    ensures { result ≡ pair_there t.now a f }
{
    let slot = pair_slot(a, f);
    has_bit(t[slot], f % WORD_BITS)
}

// Action a senses fluent f.
pub fn note_pair(t: &mut Notes, a: usize, f: usize)
    requires a_lt_actions { a < format.actions }
    requires f_lt_fluents { f < format.fluents }
    ensures { t.new ≡ pair_noted a f t.old }
{
    let slot = pair_slot(a, f);
    t[slot] = with_bit(t[slot], f % WORD_BITS);
    raise(t, SENSED_FROM + a, limits::FLUENTS - f);
    raise(t, SENSED_TO + a, f + 1);
}
