ghost use Rattle.std.specs.Prelude.{◌≡◌, ◌+◌, ◌*◌, ◌<◌, length, get_or};
ghost use Rattle.comparing.specs.RuleAnswers.{SomePlan, SomeItems, SamePlans, JoinedPlans};

use super::parts::{same_joined, same_part};
use parsing::bytes::two;

// The two-byte count at q.
pub fn count_of(d: &[u8], q: usize) -> usize
    requires { q + 1 < length d.now }
    ensures { result ≡ get_or d.now q 0 * 256 + get_or d.now (q + 1) 0 }
{
    two(d[q], d[q + 1])
}

// The plan with its count at q, up to e, is the one with its count at r, up to f.
pub fn same_plans(d: &[u8], q: usize, e: usize, u: &[u8], r: usize, f: usize) -> bool
    requires some_plan { SomePlan d.now q e }
    requires some_plan_2 { SomePlan u.now r f }
    ensures { SamePlans d.now q e u.now r f result }
{
    count_of(d, q) == count_of(u, r) && same_part(&d[q + 2..e], &u[r + 2..f])
}

// The plan with its count at q, up to e, is the items from a up to b joined with those from g up to h.
pub fn joined_plans(
    d: &[u8],
    q: usize,
    e: usize,
    a: usize,
    b: usize,
    count: usize,
    g: usize,
    h: usize,
    more: usize,
) -> bool
    requires some_plan { SomePlan d.now q e }
    requires some_items { SomeItems d.now a b count }
    requires some_items_2 { SomeItems d.now g h more }
    ensures { JoinedPlans d.now q e a b count g h more result }
{
    count_of(d, q) == count + more && same_joined(&d[q + 2..e], &d[a..b], &d[g..h])
}
