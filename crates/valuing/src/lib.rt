// What literals of values say: in a partial state, and of the values that lists leave to each fluent.

#![tactic(auto)]

pub mod sets; // the values that lists leave
pub mod states; // partial states
