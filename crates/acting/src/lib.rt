// What actions do in a request with values.

#![tactic(auto)]

pub mod value_actions; // whether one can be run, and the state after it
