// Parts of inputs and plans, compared where they stand.

#![tactic(auto)]

pub mod parts; // parts of an input, compared
pub mod known; // lists against what is known
pub mod plans; // plans, compared by their bytes
pub mod spots; // where the parts of a line stand
