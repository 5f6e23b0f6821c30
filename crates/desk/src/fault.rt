// What is wrong with a line.
ghost use Rattle.std.specs.Prelude.{◌≡◌};
ghost use Rattle.memory.specs.declared.failure.Failure.TheVariants.{Told};

use memory::failure::Failure;
use std::fmt;

// The words that a call consists of.
#[derive(Clone, Copy)]
pub enum Field {
    Call,
    Head,
    Cost,
    BodyFact,
    Rule,
    Measure,
    FactCount,
    Target,
    Guide,
    GroupCount,
    Group,
}

#[derive(Clone, Copy)]
pub enum Kind {
    Missing(Field),
    Unknown(Field),
    NotANumber(Field),
    // a number above this limit
    TooLarge(Field, u32),
    Superfluous,
}

// A fault, and the index of the word that has it.
#[derive(Clone, Copy)]
pub struct Fault {
    pub index: usize,
    pub kind: Kind,
}

impl From<Fault> for Failure<Fault> {
    ghost from_gives = { λ e r. r ≡ Told e };

    fn from(fault: Fault) -> Failure<Fault> {
        Failure::Told(fault)
    }
}

impl fmt::Display for Field {
    fn fmt<F: fmt::Write>(&self, f: &mut fmt::Formatter<F>) -> fmt::Result {
        let name = match self {
            Field::Call => "enter, reprice, strike or search",
            Field::Head => "the head",
            Field::Cost => "the cost",
            Field::BodyFact => "a fact of the body",
            Field::Rule => "the rule",
            Field::Measure => "total, hardest or total-steps",
            Field::FactCount => "the number of facts",
            Field::Target => "the target",
            Field::Guide => "map",
            Field::GroupCount => "the number of groups",
            Field::Group => "the group of a fact",
        };
        write!(f, "{name}")
    }
}

// Words are counted from 1.
impl fmt::Display for Fault {
    fn fmt<F: fmt::Write>(&self, f: &mut fmt::Formatter<F>) -> fmt::Result {
        let word = self.index.saturating_add(1);
        match self.kind {
            Kind::Missing(field) => write!(f, "word {word} is missing: {field}"),
            Kind::Unknown(field) => write!(f, "word {word} is unknown, expected {field}"),
            Kind::NotANumber(field) => write!(f, "word {word} is not a number: {field}"),
            Kind::TooLarge(field, limit) => write!(f, "word {word} is above {limit}: {field}"),
            Kind::Superfluous => write!(f, "word {word} is superfluous"),
        }
    }
}
