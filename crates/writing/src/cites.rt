// The numbers of the lines that a line cites, one behind another. No heap is used, so there is room for as many as a line may cite. The places behind them hold 0, so
// that the list gives the fields back.
ghost use Rattle.std.specs.Prelude.{◌≡◌, [], ◌∷◌, ◌++◌, ◌≤◌, ◌<◌, length};
ghost use Rattle.meaning.specs.Limits.{format};

use parsing::limits;
use std::marker::Model;

#[derive(Clone, Copy)]
pub struct Cites {
    count: usize,
    lines: [u16; limits::CITATIONS],
}

impl Model for Cites {
    ghost use Rattle.std.specs.Prelude.{◌≡◌, ℕ, List, ◌++◌, ◌-◌, ◌≤◌, length, take, drop, replicate};
    ghost use Rattle.std.proofs.Common.{sym, ap, ◌∙◌, subst, take-append-drop, length-take-le};
    ghost use Rattle.meaning.specs.Limits.{format};

    ghost Value = { List ℕ };

    ghost view = { λ c. take c.count c.lines };

    ghost invariant = { λ c. (c.count ≤ format.citations) × (length c.lines ≡ format.citations) × (drop c.count c.lines ≡ replicate (format.citations - c.count) 0) };

    ghost inverse = { λ cited. record { count = length cited; lines = cited ++ replicate (format.citations - length cited) 0 } };

    ghost inverse_ok = { λ c h.
        let counted : length (take c.count c.lines) ≡ c.count = length-take-le c.count c.lines (subst (λ n. c.count ≤ n) (sym h.1) h.0) in
        let behind : take c.count c.lines ++ replicate (format.citations - length (take c.count c.lines)) 0 ≡ c.lines =
        ap (λ n. take c.count c.lines ++ replicate (format.citations - n) 0) counted
        ∙ ap (λ xs. take c.count c.lines ++ xs) (sym h.2)
        ∙ take-append-drop c.count c.lines
        in
        λ i. record { count = counted i; lines = behind i } };
}

impl Cites {
    // No line is cited.
    pub fn none() -> Self
        ensures { result ≡ [] }
    {
        Cites {
            count: 0,
            lines: [0; limits::CITATIONS],
        }
    }

    // One more line is cited.
    pub fn push(&mut self, line: usize)
        requires room { length self.old < format.citations }
        requires line_bound { line < 65536 }
        ensures { self.new ≡ self.old ++ (line ∷ []) }
    {
        self.lines[self.count] = line as u16;
        self.count += 1;
    }

    // The lines that are cited.
    pub fn lines(&self) -> &[u16]
        ensures same { result.now ≡ self.now }
        ensures few { length result.now ≤ format.citations }
    {
        &self.lines[..self.count]
    }
}
