ghost use Rattle.std.specs.Prelude.{◌≡◌};
ghost use Rattle.parsing.specs.RuleKinds.{rule_number, rule_of};

// The rules of a derivation (FORMAT 10.12 to 10.17, 17.21 to 17.25).
#[derive(Clone, Copy, PartialEq, Eq)]
pub enum Rule {
    Empty = 1,
    Action = 2,
    Sensing = 3,
    Branching = 4,
    Composition = 5,
    Consequence = 6,
    Look = 7,
    Literal = 8,
    SensingWhether = 10,
    CompositionWhether = 11,
    BranchingWhether = 12,
}

// The byte that says it.
impl From<Rule> for u8 {
    ghost from_gives = { λ rule number. number ≡ rule_number rule };

    // Kept: a cast is how the number of a variant is read.
    fn from(rule: Rule) -> u8 {
        rule as u8
    }
}

impl Rule {
    // The rule with a number, if there is one.
    pub fn of(number: usize) -> Option<Rule>
        ensures { result ≡ rule_of number }
    {
        match number {
            1 => Some(Rule::Empty),
            2 => Some(Rule::Action),
            3 => Some(Rule::Sensing),
            4 => Some(Rule::Branching),
            5 => Some(Rule::Composition),
            6 => Some(Rule::Consequence),
            7 => Some(Rule::Look),
            8 => Some(Rule::Literal),
            10 => Some(Rule::SensingWhether),
            11 => Some(Rule::CompositionWhether),
            12 => Some(Rule::BranchingWhether),
            _ => None,
        }
    }
}
