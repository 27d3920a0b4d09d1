// What the walk asks of a request at hand, by its notes.

#![tactic(auto)]

pub mod request; // a request that was read, with its notes
pub mod looks; // what a state says of lists of literals, by the form
pub mod actions; // whether an action can be run by what is known, and the state after it
pub mod opening; // the open fluents of an action
pub mod cases; // whether an action can be run by cases, and the state after it
pub mod trying; // whether an action can be run in the mode of the walk, and the state after it
pub mod sensing; // what a sensing action forks
pub mod goals; // what an end state misses
pub mod onward; // where the walk goes on
