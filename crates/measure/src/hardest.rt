// Hardest: the largest cost of all, from 0 to 1,000,000. It shares a trait with Total, and differs in its join and its limit.
ghost use Rattle.std.specs.Prelude.{Some, decimal};
ghost use Rattle.measure.specs.Hardest.{hardest_ops};
ghost use Rattle.std.proofs.Common.{rules};

use crate::{COST_LIMIT, Measure};
use std::fmt;

#[derive(Clone, Copy)]
pub struct Hardest {
    pub cost: u32,
}

impl Measure for Hardest {
    ghost ops = { hardest_ops };

    ghost lawful = { Prim.search rules };

    fn nothing() -> Hardest {
        Hardest { cost: 0 }
    }

    fn heaviest() -> Hardest {
        Hardest { cost: COST_LIMIT }
    }

    fn effort(cost: u32) -> Hardest {
        Hardest {
            cost: cost.min(COST_LIMIT),
        }
    }

    fn join(self, other: Hardest) -> Hardest {
        Hardest {
            cost: self.cost.max(other.cost).min(COST_LIMIT),
        }
    }

    fn no_heavier(self, other: Hardest) -> bool {
        self.cost.min(COST_LIMIT) <= other.cost.min(COST_LIMIT)
    }
}

// The cost in decimal digits.
impl fmt::Display for Hardest {
    ghost output = { λ s. Some (decimal s.cost) };

    fn fmt<F: fmt::Write>(&self, f: &mut fmt::Formatter<F>) -> fmt::Result {
        write!(f, "{}", self.cost)
    }
}
