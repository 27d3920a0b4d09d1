// Bytes into a room. What is beyond its end is left out, so that a room of no use counts what another will hold.
ghost use Rattle.std.specs.Prelude.{◌≡◌, ◌+◌, ◌-◌, ◌≤◌, ◌<◌, length, set, take, drop};
ghost use Rattle.std.proofs.lemmas.List.Edits.{sets};
ghost use Rattle.meaning.specs.Limits.{format};
ghost use Rattle.meaning.specs.Derivations.{literals_of};
ghost use Rattle.meaning.specs.Layouts.{list_written, number_written};
ghost use Rattle.steps.specs.AtHand.{Marked};

use reading::marks::Marks;

pub fn put(room: &mut [u8], q: usize, x: u8)
    ensures { room.new ≡ set room.old q x }
{
    if q < room.len() {
        room[q] = x;
    }
}

// A number in two bytes, the high one first.
pub fn put_number(room: &mut [u8], q: usize, k: usize)
    requires k_bound { k < 65536 }
    requires q_bound { q < 281474976710656 }
    ensures { room.new ≡ sets room.old q (number_written k) }
{
    put(room, q, (k / 256) as u8);
    put(room, q + 1, (k % 256) as u8);
}

// The bytes of s from p up to e, as many of them as fit behind q.
pub fn put_part(s: &[u8], p: usize, e: usize, room: &mut [u8], q: usize)
    requires p_le_e { p ≤ e }
    requires e_in_bounds { e ≤ length s.now }
    requires q_bound { q < 281474976710656 }
    ensures { room.new ≡ sets room.old q (take (e - p) (drop p s.now)) }
{
    if room.len() <= q {
        return;
    }
    let fitting = (e - p).min(room.len() - q);
    // Kept: byte by byte, since `copy_from_slice` of any length would have the archive for C need `memmove` from outside.
    for i in 0..fitting {
        room[q + i] = s[p + i];
    }
}

// What a state knows, as a list. It gives the place after it.
pub fn put_known(marks: &Marks, room: &mut [u8], q: usize) -> usize
    requires marked { Marked marks.now }
    requires q_bound { q < 281474976710656 }
    ensures after { result ≡ q + length (list_written (literals_of marks.now)) }
    ensures within { result ≤ q + 1 + format.fluents }
    ensures written { room.new ≡ sets room.old q (list_written (literals_of marks.now)) }
{
    let mut p = q + 1;
    let mut count: u8 = 0;
    for (f, mark) in marks.iter().enumerate() {
        if *mark != 0 {
            let literal = 2 * f + usize::from(*mark) - 1;
            put(room, p, literal as u8);
            p += 1;
            count += 1;
        }
    }
    put(room, q, count);
    p
}
