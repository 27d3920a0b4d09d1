// Every limit and mark, named once as in the definitions' Limits (FORMAT 3.2 to 3.15).
pub const FLUENTS: usize = 128;

pub const ACTIONS: usize = 128;

pub const LISTED: usize = 128;

pub const BODY: usize = 16;

pub const BRANCHES: usize = 8;

pub const NESTED: usize = 8;

pub const ITEMS: usize = 1024;

pub const REQUEST: usize = 16384;

pub const DERIVATION: usize = 32768;

pub const LINES: usize = 1024;

pub const CITATIONS: usize = 64;

pub const PLANS: usize = 64;

pub const GUARDS: usize = 64;

pub const OPEN: usize = 12;

// The unknown fluents that a sensing action may have in a derivation (FORMAT 24.4).
pub const FORKED: usize = 6;

// The values that a fluent may have (FORMAT 26.1).
pub const FEWEST_VALUES: usize = 2;

pub const VALUES: usize = 16;

// An index has two counts for each action, and two bytes for each of up to 255 effects and 255 executability lines (FORMAT 23.5).
pub const INDEX: usize = 2 * ACTIONS + 4 * 255;

// A line's number in its section is a byte (FORMAT 2.14 to 2.16).
pub const LINE_NUMBERS: usize = 256;

// The byte that opens a branching (FORMAT 2.24).
pub const BRANCHING_BYTE: u8 = 255;

// Marks of a partial state (FORMAT 4.47, 7.1).
// Kept: a mark is a byte of the state that the C interface lends and hands out, and `3 - mark` is the other mark of a fluent; an enum would be turned into that byte, and back, at each of these places.
pub const UNKNOWN_MARK: u8 = 0;

pub const TRUE_MARK: u8 = 1;

pub const FALSE_MARK: u8 = 2;
