// The walk of a plan over partial states.

#![tactic(auto)]

pub mod tally; // what the walk has counted, and how it stands
pub mod walk; // the walk
