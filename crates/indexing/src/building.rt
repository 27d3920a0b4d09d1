// The index of a table that was read (FORMAT 23.2).
ghost use Rattle.std.specs.Prelude.{◌≡◌, [], ◌∷◌, ◌+◌, ◌≤◌, ◌<◌, length};
ghost use Rattle.std.proofs.lemmas.List.Edits.{sets};
ghost use Rattle.meaning.specs.Limits.{format};
ghost use Rattle.meaning.specs.Indexes.{offsets, counted_offsets, index_of};
ghost use Rattle.reading.specs.Noted.{run_lines};
ghost use Rattle.finding.specs.TablesHere.{table_in, TableHere};
ghost use Rattle.indexing.specs.IndexNotes.{places_noted, LinesNoted};
ghost use Rattle.meaning.specs.declared.Form.TheVariants.{Flags};

use parsing::bytes::wide;
use reading::notes;
use reading::notes::{Notes, first_line, get, line_place, next_line};

// The offset p goes to place q of the room.
fn put_offset(room: &mut [u8], q: usize, p: usize)
    requires q_in_bounds { q + 2 ≤ length room.old }
    requires p_bound { p < 65536 }
    ensures { room.new ≡ sets room.old q (offsets (p ∷ [])) }
{
    room[q] = (p / 256) as u8;
    room[q + 1] = (p % 256) as u8;
}

// The count of an action's lines and their offsets go to the room from place q on. It gives the place after them.
fn put_lines(t: &Notes, lines: usize, a: usize, room: &mut [u8], q: usize) -> usize
    requires lines_le_run_lines { lines ≤ run_lines }
    requires a_lt_actions { a < format.actions }
    requires lines_noted { LinesNoted t.now lines a }
    requires a_in_bounds { q + length (counted_offsets (places_noted t.now lines a)) ≤ length room.old }
    ensures value { result ≡ q + length (counted_offsets (places_noted t.now lines a)) }
    ensures room_after { room.new ≡ sets room.old q (counted_offsets (places_noted t.now lines a)) }
{
    let mut count: usize = 0;
    let mut p = q + 1;
    let mut k = first_line(t, lines, a);
    while 0 < k {
        let place = line_place(t, lines, k);
        put_offset(room, p, place);
        p += 2;
        count += 1;
        k = next_line(t, lines, k);
    }
    room[q] = count as u8;
    p
}

// How many bytes the index has (FORMAT 23.5).
pub fn index_length(s: &[u8], t: &Notes) -> usize
    requires { TableHere Flags s.now t.now }
    ensures { result ≡ length (index_of (table_in Flags s.now)) }
{
    let actions = wide(s[1]);
    let effects = get(t, notes::COUNT_OF_EFFECTS);
    let runs = get(t, notes::COUNT_OF_EXECUTABILITY);
    2 * (actions + effects + runs)
}

// The index goes to the start of the room.
pub fn put_index(s: &[u8], t: &Notes, room: &mut [u8])
    requires table_here { TableHere Flags s.now t.now }
    requires s_in_bounds { length (index_of (table_in Flags s.now)) ≤ length room.old }
    ensures { room.new ≡ sets room.old 0 (index_of (table_in Flags s.now)) }
{
    let actions = wide(s[1]);
    let mut q = 0;
    for a in 0..actions {
        let middle = put_lines(t, notes::EFFECTS, a, room, q);
        q = put_lines(t, notes::EXECUTABILITY, a, room, middle);
    }
}
