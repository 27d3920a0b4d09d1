// Readers of bytes, numbers, lists and lines, each equal to one definition: from the left, what stands at a place, or the first fault met.

#![tactic(auto)]

pub mod limits; // every limit and mark
pub mod faults; // why and where an input is refused
pub mod rule_kinds; // the rules of derivations
pub mod bits; // the bits of a number
pub mod bytes; // bytes, numbers and counts
pub mod lists; // lists of literals, of fluents and of values
pub mod values; // literals of fluents with values, and lists of them
pub mod shapes; // the form of a request, as a type
pub mod inputs; // an input with the numbers of its fluents and actions
pub mod table_lines; // the lines of sections 3 to 5
