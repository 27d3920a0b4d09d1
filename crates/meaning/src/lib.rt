#![tactic(auto)]

// What a call answers: its number, the input that the place is in (1 the request, 2 the derivation, 0 neither),
// the place, and the count.
#[derive(Clone, Copy)]
pub struct Answer {
    pub number: u8,
    pub input: u8,
    pub place: usize,
    pub count: u32,
}

// How a derivation is written: the plain layout has Y before the rule byte, and ends with its lines; the closing one has the rule byte
// before Y, and after the lines a list that names those which answer the question.
#[derive(Clone, Copy)]
pub enum Layout {
    Plain,
    Closing,
}

// How a request writes its literals: those of flags with one byte each, those of fluents with any number of values with two.
#[derive(Clone, Copy)]
pub enum Form {
    Flags,
    Valued,
}

// What asking whether an action can be run gives, a line by its place: the first line that allows it; or, where none does, the one that is
// short by the fewest literals; or that it has no line. `Asking.asked` is the definition.
#[derive(Clone, Copy)]
pub enum Runs {
    By(usize),
    Short(usize),
    Never,
}
