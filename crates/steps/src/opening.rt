// The open fluents of an action: the unknown ones that stand in its bodies (FORMAT 22.8).
ghost use Rattle.std.specs.Prelude.{◌≡◌, ◌<◌};
ghost use Rattle.meaning.specs.Limits.{format, all_literals};
ghost use Rattle.meaning.specs.ByCases.{open_fluents};
ghost use Rattle.reading.specs.Listed.{listed, ListHere};
ghost use Rattle.steps.specs.Held.{table_in};
ghost use Rattle.steps.specs.AtHand.{Marked};
ghost use Rattle.steps.specs.Flags.{flagged, flagged_at, HasBodies, places_of, OpenFlags, with_flag};
ghost use Rattle.steps.specs.Opened.{Opened};
ghost use Rattle.meaning.specs.declared.Form.TheVariants.{Flags};

use super::request::Request;
use parsing::bytes::wide;
use parsing::limits;
use parsing::shapes::OfFlags;
use reading::marks::Marks;
use reading::notes;
use reading::notes::{first_line, line_place, next_line};

// The open fluents of an action, ascending, behind their number, which is one more than the limit where there are more.
pub const OPEN_SLOTS: usize = 1 + limits::OPEN;

pub type Open = [u8; OPEN_SLOTS];

// The unknown fluents of the body at p get a flag.
fn flag_body(s: &[u8], p: usize, marks: &Marks, flags: &mut Marks)
    requires { ListHere all_literals s.now p }
    ensures { flags.new ≡ flagged marks.now (listed s.now p) flags.old }
{
    for l in &s[p + 1..p + 1 + wide(s[p])] {
        let f = wide(*l) / 2;
        if marks[f] == 0 {
            flags[f] = 1;
        }
    }
}

// Those of the bodies of the action's lines in one section, each so many bytes behind its line's place.
fn flag_lines(
    r: &Request<OfFlags>,
    lines: usize,
    behind: usize,
    a: usize,
    marks: &Marks,
    flags: &mut Marks,
)
    requires has_bodies { HasBodies lines behind }
    requires a_lt_actions { a < format.actions }
    ensures { flags.new ≡ flagged_at r.now.bytes.now marks.now behind (places_of lines r.now.bytes.now a) flags.old }
{
    let mut k = first_line(r.notes, lines, a);
    while 0 < k {
        flag_body(
            r.bytes,
            line_place(r.notes, lines, k) + behind,
            marks,
            flags,
        );
        k = next_line(r.notes, lines, k);
    }
}

// Those of all bodies of the action, and no others.
fn open_flags(r: &Request<OfFlags>, a: usize, marks: &Marks) -> Marks
    requires a_lt_actions { a < format.actions }
    requires marked { Marked marks.now }
    ensures { OpenFlags (table_in Flags r.now.bytes.now) a marks.now result }
{
    let mut flags = [0u8; limits::FLUENTS];
    // An effect has its literal between its action and its body.
    flag_lines(r, notes::EFFECTS, 2, a, marks, &mut flags);
    flag_lines(r, notes::EXECUTABILITY, 1, a, marks, &mut flags);
    flags
}

// The fluents that have a flag.
fn gathered(flags: &Marks) -> Open
    ensures { Opened (with_flag flags.now) result }
{
    let mut held = [0u8; OPEN_SLOTS];
    let mut k = 0;
    for f in 0..limits::FLUENTS {
        if flags[f] == 1 {
            k += 1;
            if limits::OPEN < k {
                break;
            }
            held[k] = f as u8;
        }
    }
    held[0] = k as u8;
    held
}

// The open fluents of the action.
pub fn opened(r: &Request<OfFlags>, a: usize, marks: &Marks) -> Open
    requires a_lt_actions { a < format.actions }
    requires marked { Marked marks.now }
    ensures { Opened (open_fluents (table_in Flags r.now.bytes.now) a marks.now) result }
{
    let flags = open_flags(r, a, marks);
    gathered(&flags)
}
