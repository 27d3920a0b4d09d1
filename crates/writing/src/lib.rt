// Lines of a derivation, written into a room as far as it goes.

#![tactic(auto)]

pub mod room; // bytes, numbers, lists and parts of an input
pub mod rests; // what is left of a plan
pub mod cites; // the lines that a line cites
pub mod lines; // a line behind those that are there
