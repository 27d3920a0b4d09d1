ghost use Rattle.std.specs.Prelude.{◌≡◌, ◌≤◌, ℕ, zero, suc, List, [], ◌∷◌};
ghost use Rattle.meaning.specs.Limits.{format};
ghost use Rattle.meaning.specs.Reading;
ghost use Rattle.meaning.specs.Reading.{Got, got, next, floor_after, count_at, bound_of, entry_at};
ghost use Rattle.parsing.specs.Read.{over, passed, kind_of, beside_floor};
ghost use Rattle.parsing.specs.Entries.{EntryRead, kind_none, kind_more, kind_list};

use super::bytes::{below_at, count_at};
use super::faults::{Fault, Refusal};

// What a list holds.
#[derive(Clone, Copy)]
pub enum Kind {
    Literals,
    Fluents,
}

impl Kind {
    // The first number that is too large, over n fluents.
    fn first_too_large(self, n: usize) -> usize
        requires { n ≤ format.fluents }
        ensures { result ≡ bound_of (kind_of self) n }
    {
        match self {
            Kind::Literals => 2 * n,
            Kind::Fluents => n,
        }
    }

    // The entry is the complement of the one before it, which `floor` is one more than; it is not below the floor.
    fn beside(self, floor: usize, x: usize) -> bool
        requires { floor ≤ x }
        ensures { result ≡ beside_floor (kind_of self) floor x }
    {
        match self {
            Kind::Literals => floor % 2 != 0 && x == floor,
            Kind::Fluents => false,
        }
    }
}

// What a list holds, and what is kept of the entries so far.
pub trait Entry: Drop {
    // A list, a given number of its entries after those before them, of which the last stands first, and one entry.
    ghost list: { Self → (n most : ℕ) → List ℕ → ℕ → Got (List ℕ) };

    ghost entries: { Self → (n : ℕ) → List ℕ → (left p : ℕ) → (before : List ℕ) → Got (List ℕ) };

    ghost entry: { Self → (n : ℕ) → List ℕ → ℕ → (before : List ℕ) → Got ℕ };

    // What is asked of the input.
    ghost asks: { List ℕ → Type 0 };

    // What was `first` before any entry is `now` what is kept of those before.
    ghost kept: { (first now : Self) (s before : List ℕ) → Type 0 };

    // Kept: parameters, since each implementation has to repeat the trait's.
    // The entry at p. `floor` is 0 at the first entry, and else one more than the entry before.
    fn entry_at(
        &mut self,
        n: usize,
        s: &[u8],
        p: usize,
        floor: usize,
    ) -> Result<(usize, usize), Fault>
        requires n_le_fluents { n ≤ format.fluents }
        requires asked { asks s.now }
        ensures { (first : Self) → EntryRead (entry first n s.now p) (kept first self.old s.now) (kept first self.new s.now) floor result };

    ghost none_law: { (first : Self) (n : ℕ) (s : List ℕ) (p : ℕ) (before : List ℕ) → entries first n s zero p before ≡ got [] p };

    ghost more_law: { (first : Self) (n : ℕ) (s : List ℕ) (left p : ℕ) (before : List ℕ) → entries first n s (suc left) p before
        ≡ next (entry first n s p before) (λ x q. next (entries first n s left q (x ∷ before)) (λ xs r. got (x ∷ xs) r)) };

    ghost list_law: { (first : Self) (n most : ℕ) (s : List ℕ) (p : ℕ) → list first n most s p
        ≡ next (count_at 0 most s p) (λ c q. entries first n s c q []) };
}

impl Entry for Kind {
    ghost list = { λ kind. Reading.list_at (kind_of kind) };

    ghost entries = { λ kind n s left p before. Reading.entries_at (kind_of kind) n s left p (floor_after before) };

    ghost entry = { λ kind n s p before. entry_at (kind_of kind) n s p (floor_after before) };

    ghost asks = { λ s. Unit {0} };

    ghost kept = { λ first now s before. now ≡ first };

    fn entry_at(
        &mut self,
        n: usize,
        s: &[u8],
        p: usize,
        floor: usize,
    ) -> Result<(usize, usize), Fault> {
        let (x, after) = below_at(self.first_too_large(n), s, p)?;
        if x < floor {
            return Err(Refusal::NotAbove.at(p));
        }
        if self.beside(floor, x) {
            return Err(Refusal::ComplementBeside.at(p));
        }
        Ok((x, after))
    }

    ghost none_law = { kind_none };

    ghost more_law = { kind_more };

    ghost list_law = { kind_list };
}

// A given number of entries from `start` on: the place after them.
fn entries_at<E: Entry>(
    first: E,
    n: usize,
    s: &[u8],
    count: usize,
    start: usize,
) -> Result<usize, Fault>
    requires n_le_fluents { n ≤ format.fluents }
    requires asked { E.asks s.now }
    requires none_yet { E.kept first first s.now [] }
    ensures { over result ≡ passed (E.entries first n s.now count start []) }
{
    let mut p = start;
    let mut floor = 0;
    let mut kept = first;
    for _ in 0..count {
        let (x, after) = kept.entry_at(n, s, p, floor)?;
        floor = x + 1;
        p = after;
    }
    Ok(p)
}

// A list of at most `most` entries: the place after it.
pub fn list_at<E: Entry>(
    first: E,
    n: usize,
    most: usize,
    s: &[u8],
    p: usize,
) -> Result<usize, Fault>
    requires n_le_fluents { n ≤ format.fluents }
    requires asked { E.asks s.now }
    requires none_yet { E.kept first first s.now [] }
    ensures { over result ≡ passed (E.list first n most s.now p) }
{
    let (count, start) = count_at(0, most, s, p)?;
    entries_at(first, n, s, count, start)
}
