ghost use Rattle.std.specs.Prelude.{◌≡◌, ◌+◌, ◌≤◌, ◌<◌, []};
ghost use Rattle.meaning.specs.Limits.{format};
ghost use Rattle.meaning.specs.Refusals.{first_against};
ghost use Rattle.parsing.specs.Masks.{Counted};
ghost use Rattle.reading.specs.Listed.{listed_as, LiteralsHere};
ghost use Rattle.reading.specs.Noted.{line_numbers};
ghost use Rattle.finding.specs.Places.{found};
ghost use Rattle.finding.specs.LinesHere.{body_place, effect_from, EffectHere, effects_in, EffectsHere};
ghost use Rattle.finding.specs.TablesHere.{table_in, RunsHere};
ghost use Rattle.refusing.specs.Refusal16.{contradictory_as, among, agreeing, passing_lines, sets_apart, fluent_by, buckets, bucket_at, Linked, bucket_linked};

use super::held::Held;
use meaning::Form;
use parsing::bytes::wide;
use parsing::limits;
use parsing::values::Allowed;
use reading::marks::Marks;
use reading::notes;
use reading::notes::{Notes, first_line, line_place, next_line};

// Effects of one action and fluent share a bucket, and others may fall into it too: a slot for each of all pairs would take longer to clear
// than the effects of a small table take to compare.
const BUCKETS: usize = 1024;

// For each effect, and for each bucket, the last effect before it in the same bucket.
const LINKED_SLOTS: usize = limits::LINE_NUMBERS + BUCKETS;

type Links = [u8; LINKED_SLOTS];

// The fluent of an effect by the byte behind its action.
fn fluent_by(form: Form, byte: u8) -> usize
    ensures { result ≡ fluent_by form byte }
{
    match form {
        Form::Flags => wide(byte) / 2,
        Form::Valued => wide(byte),
    }
}

// The bucket of the effect at p, by its action and its fluent.
fn bucket_at(form: Form, s: &[u8], p: usize) -> usize
    requires { EffectHere form s.now p }
    ensures { result ≡ bucket_at form s.now p }
{
    (limits::FLUENTS * wide(s[p]) + fluent_by(form, s[p + 1])) % BUCKETS
}

// Effect k goes in front of the effects of its bucket.
fn link_bucket(same: &mut Links, bucket: usize, k: usize)
    requires bucket_lt_buckets { bucket < buckets }
    requires k_lt_line_numbers { k < line_numbers }
    ensures { same.new ≡ bucket_linked bucket k same.old }
{
    let last = limits::LINE_NUMBERS + bucket;
    same[k] = same[last];
    same[last] = k as u8;
}

// The effects at p and q are of one action, and what they set of one fluent differs.
#[tactic(auto, using(crate::proofs::Laws16::effect_there, crate::proofs::Laws16::effect_second, crate::proofs::Laws16::effect_third, crate::proofs::Laws16::effect_fits, crate::proofs::Laws16::third_fits))]
fn sets_apart(form: Form, s: &[u8], p: usize, q: usize) -> bool
    requires effect_here { EffectHere form s.now p }
    requires effect_here_2 { EffectHere form s.now q }
    ensures { result ≡ sets_apart form s.now p q }
{
    if s[p] != s[q] {
        return false;
    }
    match form {
        Form::Flags => s[p + 1] / 2 == s[q + 1] / 2 && s[p + 1] != s[q + 1],
        Form::Valued => s[p + 1] == s[q + 1] && s[p + 2] / 2 != s[q + 2] / 2,
    }
}

// The body at p agrees with both.
fn agrees_with_both<H: Held>(s: &[u8], one: &H, other: &H, p: usize) -> bool
    requires counted { Counted H.FORM s.now }
    requires literals_here { LiteralsHere H.FORM s.now p }
    ensures { result ≡ agreeing H.meets s.now one.now other.now (listed_as H.FORM s.now p) }
{
    one.agrees(s, p) && other.agrees(s, p)
}

// Some executability line of the action has a body that agrees with both.
fn runs_with<H: Held>(s: &[u8], t: &Notes, a: usize, one: &H, other: &H) -> bool
    requires counted { Counted H.FORM s.now }
    requires runs_here { RunsHere H.FORM s.now t.now }
    requires a_lt_actions { a < format.actions }
    ensures { result ≡ passing_lines (agreeing H.meets s.now one.now other.now) (table_in H.FORM s.now) a }
{
    let mut k = first_line(t, notes::EXECUTABILITY, a);
    while 0 < k {
        let p = line_place(t, notes::EXECUTABILITY, k);
        if agrees_with_both(s, one, other, p + 1) {
            return true;
        }
        k = next_line(t, notes::EXECUTABILITY, k);
    }
    false
}

// The effect at p, whose body leaves what is held, contradicts the one at q. The executability lines are asked only of two that clash.
fn contradicts<H: Held>(s: &[u8], t: &Notes, held: &H, p: usize, q: usize) -> bool
    requires counted { Counted H.FORM s.now }
    requires runs_here { RunsHere H.FORM s.now t.now }
    requires effect_here { EffectHere H.FORM s.now p }
    requires effect_here_2 { EffectHere H.FORM s.now q }
    requires left { H.left s.now (listed_as H.FORM s.now (body_place H.FORM p)) held.now }
    ensures { result ≡ contradictory_as H.FORM s.now (effect_from H.FORM s.now p) (effect_from H.FORM s.now q) }
{
    let body = q + H::BODY;
    sets_apart(H::FORM, s, p, q)
        && held.agrees(s, body)
        && runs_with(s, t, wide(s[p]), held, &H::of(s, body))
}

// Effect k + 1 contradicts one of the first k, sought among those in its bucket.
fn contradicted<H: Held>(s: &[u8], t: &Notes, same: &Links, k: usize) -> bool
    requires k_bound { k < 255 }
    requires counted { Counted H.FORM s.now }
    requires runs_here { RunsHere H.FORM s.now t.now }
    requires effects_here { EffectsHere H.FORM s.now t.now (k + 1) }
    requires linked { Linked H.FORM s.now t.now same.now k }
    ensures { result ≡ among H.FORM s.now t.now k k }
{
    let p = line_place(t, notes::EFFECTS, k + 1);
    let mut i = wide(same[limits::LINE_NUMBERS + bucket_at(H::FORM, s, p)]);
    if i == 0 {
        return false;
    }
    // What the body leaves is made only where there is another effect to compare.
    let held = H::of(s, p + H::BODY);
    while 0 < i {
        let q = line_place(t, notes::EFFECTS, i);
        if contradicts(s, t, &held, p, q) {
            return true;
        }
        i = wide(same[i]);
    }
    false
}

// The first effect that contradicts one before it.
fn first_contradiction<H: Held>(s: &[u8], t: &Notes, count: usize) -> Option<usize>
    requires count_bound { count ≤ 255 }
    requires counted { Counted H.FORM s.now }
    requires runs_here { RunsHere H.FORM s.now t.now }
    requires effects_here { EffectsHere H.FORM s.now t.now count }
    ensures { result ≡ found (first_against (contradictory_as H.FORM s.now) [] (effects_in H.FORM s.now t.now 0 count)) }
{
    let mut same = [0u8; LINKED_SLOTS];
    for k in 0..count {
        let p = line_place(t, notes::EFFECTS, k + 1);
        if contradicted::<H>(s, t, &same, k) {
            return Some(p);
        }
        link_bucket(&mut same, bucket_at(H::FORM, s, p), k + 1);
    }
    None
}

// 16: the first effect that contradicts one before it.
pub fn contradiction(form: Form, s: &[u8], t: &Notes, count: usize) -> Option<usize>
    requires count_bound { count ≤ 255 }
    requires runs_here { RunsHere form s.now t.now }
    requires counted { Counted form s.now }
    requires effects_here { EffectsHere form s.now t.now count }
    ensures { result ≡ found (first_against (contradictory_as form s.now) [] (effects_in form s.now t.now 0 count)) }
{
    match form {
        Form::Flags => first_contradiction::<Marks>(s, t, count),
        Form::Valued => first_contradiction::<Allowed>(s, t, count),
    }
}
