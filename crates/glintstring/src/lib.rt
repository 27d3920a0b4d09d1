// The calls of the verifier.

#![tactic(auto)]

pub mod exports; // the calls as other languages link them
pub mod judging; // the calls that walk: by what is known, with guards, by cases and by an index
pub mod indexes; // the index call
pub mod derives; // the derive call
pub mod missing; // the line of the action that stopped it
pub mod showing; // the showing call
pub mod check_calls; // the derivation call
