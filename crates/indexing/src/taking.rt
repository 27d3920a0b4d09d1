// An index taken into the notes: afterwards an action's lines are reached by its offsets (FORMAT 23.12).
ghost use Rattle.std.specs.Prelude.{◌≡◌, ◌+◌, ◌≤◌, ◌<◌, length, get_or};
ghost use Rattle.meaning.specs.Limits.{format};
ghost use Rattle.meaning.specs.Indexes.{offset_at, counted_at, after_counted, index_of};
ghost use Rattle.reading.specs.Noted.{run_lines, line_numbers};
ghost use Rattle.finding.specs.TablesHere.{table_in, TableHere};
ghost use Rattle.indexing.specs.IndexNotes.{lines_taken, index_taken};
ghost use Rattle.meaning.specs.declared.Form.TheVariants.{Flags};

use parsing::bytes::{two, wide};
use parsing::limits;
use reading::notes;
use reading::notes::{Notes, put};

// The offset that stands at p.
fn offset_at(index: &[u8], p: usize) -> usize
    requires { p + 1 < length index.now }
    ensures value { result ≡ offset_at index.now p }
    ensures upper_bound { result < 65536 }
{
    two(index[p], index[p + 1])
}

// The offsets behind the count at q become the lines of action a, numbered from k + 1 on. It gives the place after them.
fn take_lines(index: &[u8], q: usize, t: &mut Notes, lines: usize, a: usize, k: usize) -> usize
    requires lines_le_run_lines { lines ≤ run_lines }
    requires a_lt_actions { a < format.actions }
    requires q_in_bounds { q < length index.now }
    requires q_in_bounds_2 { after_counted index.now q ≤ length index.now }
    requires q_bound { k + get_or index.now q 0 < line_numbers }
    ensures value { result ≡ after_counted index.now q }
    ensures t_after { t.new ≡ lines_taken lines (line_numbers + a) k (counted_at index.now q) t.old }
{
    let count = wide(index[q]);
    let mut p = q + 1;
    let mut i = limits::LINE_NUMBERS + a;
    let mut n = k;
    for _ in 0..count {
        let place = offset_at(index, p);
        p += 2;
        n += 1;
        put(t, lines + n, place);
        put(t, lines + limits::LINE_NUMBERS + i, n);
        i = n;
    }
    put(t, lines + limits::LINE_NUMBERS + i, 0);
    p
}

// The index becomes what the notes have of the lines of sections 3 and 4.
pub fn take_index(s: &[u8], index: &[u8], t: &mut Notes)
    requires table_here { TableHere Flags s.now t.old }
    requires index_value { index.now ≡ index_of (table_in Flags s.now) }
    ensures { t.new ≡ index_taken index.now 0 (table_in Flags s.now).actions 0 0 0 t.old }
{
    let actions = wide(s[1]);
    let mut q = 0;
    let mut effects = 0;
    let mut runs = 0;
    for a in 0..actions {
        let effect_count = wide(index[q]);
        let middle = take_lines(index, q, t, notes::EFFECTS, a, effects);
        let run_count = wide(index[middle]);
        q = take_lines(index, middle, t, notes::EXECUTABILITY, a, runs);
        effects += effect_count;
        runs += run_count;
    }
}
