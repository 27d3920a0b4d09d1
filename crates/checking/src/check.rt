ghost use Rattle.std.specs.Prelude.{◌≡◌};
ghost use Rattle.meaning.specs.Limits.{format};
ghost use Rattle.meaning.specs.Derivations.{check_derivation};
ghost use Rattle.parsing.specs.Read.{over, passed};
ghost use Rattle.steps.specs.Held.{request_in};
ghost use Rattle.meaning.specs.declared.Form.TheVariants.{Flags};

use super::each_line::check_lines;
use super::question::check_end;
use derivation::derivations;
use derivation::derivations::{PLACES_SLOTS, Places};
use derivation::derived::settle_derivation;
use meaning::Layout;
use parsing::bytes::{two, wide};
use parsing::faults::Fault;
use parsing::shapes::OfFlags;
use reading::notes;
use reading::notes::Notes;
use steps::request::Request;

// A derivation for a settled request: read, past 18, each line, the question.
pub fn check_derivation(layout: Layout, r: &Request<OfFlags>, d: &[u8]) -> Result<usize, Fault>
    ensures { over result ≡ passed (check_derivation format layout (request_in Flags r.now.bytes.now r.now.notes.now) d.now) }
{
    let n = wide(r.bytes[0]);
    let m = wide(r.bytes[1]);
    let mut u: Notes = [0u16; notes::SLOTS];
    let mut places: Places = [0u16; PLACES_SLOTS];
    derivations::sized(&places);
    settle_derivation(layout, n, m, d, &mut u, &mut places)?;
    let count = two(d[0], d[1]);
    check_lines(layout, n, m, r, d, &mut u, &places, count)?;
    check_end(layout, r, d, &places, count)
}
