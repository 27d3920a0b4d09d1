ghost use Rattle.std.specs.Prelude.{◌+◌, ◌<◌};
ghost use Rattle.finding.specs.LinesHere.{KnowledgeHere};
ghost use Rattle.refusing.specs.Refusal17.{MixedFound};

use parsing::bytes::wide;
use reading::notes;
use reading::notes::{Notes, first_line};

// 17: the first knowledge line whose action has an effect too.
pub fn mixed(s: &[u8], t: &Notes, start: usize, count: usize) -> Option<usize>
    requires { KnowledgeHere s.now start count }
    ensures { MixedFound s.now t.now start count result }
{
    for k in 0..count {
        let p = start + 2 * k;
        if 0 < first_line(t, notes::EFFECTS, wide(s[p])) {
            return Some(p);
        }
    }
    None
}
