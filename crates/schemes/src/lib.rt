// The lines of the scheme of a plan (FORMAT 24.5 to 24.10): measured, and then written.

#![tactic(auto)]

pub mod scheme; // the lines from a position on, by recursion
