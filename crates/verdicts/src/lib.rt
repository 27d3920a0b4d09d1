// What is answered of a plan, and of the plans of a release.

#![tactic(auto)]

pub mod answers; // the numbers, and an answer that counts nothing
pub mod telling; // what a walk's tally says
pub mod walked; // the walk of a request at hand, told
pub mod releasing; // the release call
