// An index beside a table (FORMAT section 23).

#![tactic(auto)]

pub mod building; // the index of a table that was read
pub mod differing; // another index against that one
pub mod taking; // an index taken into the notes
