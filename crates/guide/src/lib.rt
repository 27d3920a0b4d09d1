// The operator's guide: a plan that is verified, answered action by action (FORMAT section 25).

#![tactic(auto)]

pub mod guides; // the guide, its start and its calls
pub mod calls; // a call, of a request that is read again
pub mod going; // from a position of the plan to the next action
pub mod sensed; // the fluents that an action senses, and their readings
