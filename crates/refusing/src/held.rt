ghost use Rattle.std.specs.Prelude.{◌≡◌, refl, ℕ, ◌+◌, Bool, List};
ghost use Rattle.meaning.specs.Limits.{format};
ghost use Rattle.meaning.specs.States;
ghost use Rattle.meaning.specs.Tests.{each_of};
ghost use Rattle.meaning.specs.declared.Form.{Form};
ghost use Rattle.meaning.specs.declared.Form.TheVariants.{Flags, Valued};
ghost use Rattle.parsing.specs.Masks.{Allows, Counted};
ghost use Rattle.reading.specs.Listed.{listed_as, LiteralsHere, holds_as};
ghost use Rattle.reading.specs.declared.marks.Test.TheVariants.{Possible};
ghost use Rattle.valuing.specs.Valuing.{agreeing};
ghost use Rattle.finding.specs.LinesHere.{body_place};
ghost use Rattle.valuing.specs.Meets.{meets_as};
ghost use Rattle.valuing.proofs.MeetsLaws.{state_meets, sets_meet};

use meaning::Form;
use parsing::values::Allowed;
use reading::marks::{Marks, Test, each_holds, state_of};
use valuing::sets;
use valuing::sets::allowed_by;

// What a list of literals leaves possible: the state that holds flags, or the sets of values that are left.
pub trait Held: Drop {
    const FORM: Form;

    // How far behind an effect's first byte its body stands.
    const BODY: usize;

    ghost FORM: { Form };

    ghost BODY: { ℕ };

    // It is what a list leaves.
    ghost left: { (s list : List ℕ) → Self → Type 0 };

    // Another list is possible beside it.
    ghost meets: { (s : List ℕ) → Self → (list : List ℕ) → Bool };

    // What the list at p leaves.
    fn of(s: &[u8], p: usize) -> Self
        requires { LiteralsHere FORM s.now p }
        ensures { left s.now (listed_as FORM s.now p) result };

    // The list at p is possible beside it.
    fn agrees(&self, s: &[u8], p: usize) -> bool
        requires counted { Counted FORM s.now }
        requires literals_here { LiteralsHere FORM s.now p }
        ensures { result ≡ meets s.now self.now (listed_as FORM s.now p) };

    ghost body_law: { (p : ℕ) → body_place FORM p ≡ p + BODY };

    // What is possible beside it is what is possible beside the list that leaves it.
    ghost meets_law: { (s list : List ℕ) (held : Self) (p : ℕ) → left s list held → Counted FORM s
        → LiteralsHere FORM s p
        → meets s held (listed_as FORM s p) ≡ meets_as FORM s list (listed_as FORM s p) };
}

impl Held for Marks {
    const FORM: Form = Form::Flags;

    const BODY: usize = 2;

    ghost FORM = { Flags };

    ghost BODY = { 2 };

    ghost left = { λ s list held. held ≡ States.state_of format list };

    ghost meets = { λ s held list. each_of (holds_as Possible held) list };

    fn of(s: &[u8], p: usize) -> Marks {
        state_of(s, p)
    }

    fn agrees(&self, s: &[u8], p: usize) -> bool {
        each_holds(Test::Possible, self, s, p)
    }

    ghost body_law = { λ p. refl };

    ghost meets_law = { state_meets };
}

impl Held for Allowed {
    const FORM: Form = Form::Valued;

    const BODY: usize = 3;

    ghost FORM = { Valued };

    ghost BODY = { 3 };

    ghost left = { λ s list held. Allows s list held };

    ghost meets = { λ s held list. agreeing s held list };

    fn of(s: &[u8], p: usize) -> Allowed {
        allowed_by(s, p)
    }

    fn agrees(&self, s: &[u8], p: usize) -> bool {
        sets::agrees(s, self, p)
    }

    ghost body_law = { λ p. refl };

    ghost meets_law = { sets_meet };
}
