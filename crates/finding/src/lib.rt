// Finding what a request holds, by the notes that its reading left.

#![tactic(auto)]

pub mod branches; // from a branch of a plan to the next one
