// Reading a derivation, and what is refused of it.

#![tactic(auto)]

pub mod derivations; // derivations
pub mod derived; // derivations past refusal 18
