// Derivations checked: the lines in order, the question, the whole.

#![tactic(auto)]

pub mod each_line; // the lines in order
pub mod question; // the question, by the last line or by the closing list
pub mod check; // a derivation for a settled request
