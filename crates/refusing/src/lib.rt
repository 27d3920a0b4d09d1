// What is refused of a request that was read, by the notes that its reading left.

#![tactic(auto)]

pub mod held; // what a list of literals leaves possible
pub mod refusal_16; // contradictory effects
pub mod refusal_17; // an action with effects and knowledge lines
pub mod refusal_18; // conditions that are not exclusive
pub mod settled; // requests past all refusals
