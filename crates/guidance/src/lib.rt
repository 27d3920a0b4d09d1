// What a guide answers, and the theorems of it. It has no code but the type: its definitions are in specs/, its theorems in proofs/.

#![tactic(auto)]

use meaning::Answer;

// What a call of a guide answers: an action that is to be done, by its number; or that the plan has ended; or a refusal. `Guides.number_told` and
// `Guides.values_told` say what each case stands for.
#[derive(Clone, Copy)]
pub enum Told {
    Do(usize),
    Done,
    Refused(Answer),
}
