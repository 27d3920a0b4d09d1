// The rules of derivations.

#![tactic(auto)]

pub mod rules; // rules 1, 2, 5 to 8, and 11 by rule 5
pub mod readings; // rules 3 and 10
pub mod branchings; // rules 4 and 12
