// Why a call refuses. Each case has a number; some tell a value.
ghost use Rattle.std.specs.Prelude.{◌≡◌, Some};
ghost use Rattle.sheet.specs.Refusals.{number, text};

use std::fmt;

#[derive(Clone, Copy)]
pub enum Misfit {
    // the target's rest is not nothing
    Target(u16),
    // the first rule that breaks a condition of fit
    Rule(u16),
}

#[derive(Clone, Copy)]
pub enum Refusal {
    // more than 16,000 slots
    Slots,
    // no such rule is entered
    Unknown,
    // the rule is struck
    Struck,
    // the sheet has rules entered
    Used,
    // more than 4 facts in a body
    Body,
    // a cost over 1,000,000
    Cost,
    // fewer free slots than rules to be entered
    Full,
    // a fact count that is 0 or above 4,096
    Facts,
    // a standing rule, the lowest such, names a fact not below the fact count
    Stray(u16),
    // a target not below the fact count
    Target,
    // a column too short
    Short,
    // a map entry, that of the lowest such fact, not below the number of groups
    Map(u16),
    // a guide that does not fit
    Unfit(Misfit),
    // no derivation of the target: the numbers of facts closed and of entries taken
    OutOfReach(u16, u16),
    // the bytes stop short of the last field's end
    Cut,
    // a number not in its form, or too large for its field
    Number,
    // bytes after the last rule
    Tail,
}

impl Refusal {
    // The number by which the refusal is told; programs print it.
    pub fn number(self) -> u8
        ensures { result ≡ number self }
    {
        match self {
            Refusal::Slots => 1,
            Refusal::Unknown => 2,
            Refusal::Struck => 3,
            Refusal::Used => 4,
            Refusal::Body => 5,
            Refusal::Cost => 6,
            Refusal::Full => 7,
            Refusal::Facts => 8,
            Refusal::Stray(_) => 9,
            Refusal::Target => 10,
            Refusal::Short => 11,
            Refusal::Map(_) => 12,
            Refusal::Unfit(_) => 13,
            Refusal::OutOfReach(_, _) => 14,
            Refusal::Cut => 15,
            Refusal::Number => 16,
            Refusal::Tail => 17,
        }
    }
}

// The number, and what is told with it.
impl fmt::Display for Refusal {
    ghost output = { λ e. Some (text e) };

    fn fmt<F: fmt::Write>(&self, f: &mut fmt::Formatter<F>) -> fmt::Result {
        let number = self.number();
        match self {
            Refusal::Stray(rule) => write!(f, "refused {number} rule {rule}"),
            Refusal::Map(fact) => write!(f, "refused {number} fact {fact}"),
            Refusal::Unfit(Misfit::Target(fact)) => write!(f, "refused {number} target {fact}"),
            Refusal::Unfit(Misfit::Rule(rule)) => write!(f, "refused {number} rule {rule}"),
            Refusal::OutOfReach(closed, taken) => {
                write!(f, "refused {number} closed {closed} taken {taken}")
            }
            _ => write!(f, "refused {number}"),
        }
    }
}
