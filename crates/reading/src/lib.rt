// Reading a request, from the left: the first fault met, or notes of what was read.

#![tactic(auto)]

pub mod notes; // what reading leaves behind
pub mod sections; // sections 3 to 5
pub mod listed; // the entries of a list
pub mod marks; // partial states
pub mod requests; // requests
pub mod plan; // the plan
