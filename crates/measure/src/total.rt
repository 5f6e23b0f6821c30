// Total: the sum of all costs, from 0 to 1,000,000,000.
ghost use Rattle.std.specs.Prelude.{Some, decimal};
ghost use Rattle.measure.specs.Total.{total_ops};
ghost use Rattle.std.proofs.Common.{rules};

use crate::{COST_LIMIT, Measure};
use std::fmt;

// The heaviest total.
pub(crate) const TOTAL_LIMIT: u32 = 1_000_000_000;

#[derive(Clone, Copy)]
pub struct Total {
    pub total: u32,
}

impl Measure for Total {
    ghost ops = { total_ops };

    ghost lawful = { Prim.search rules };

    fn nothing() -> Total {
        Total { total: 0 }
    }

    fn heaviest() -> Total {
        Total { total: TOTAL_LIMIT }
    }

    fn effort(cost: u32) -> Total {
        Total {
            total: cost.min(COST_LIMIT),
        }
    }

    fn join(self, other: Total) -> Total {
        let a = self.total.min(TOTAL_LIMIT);
        let b = other.total.min(TOTAL_LIMIT);
        Total {
            total: (a + b).min(TOTAL_LIMIT),
        }
    }

    fn no_heavier(self, other: Total) -> bool {
        self.total.min(TOTAL_LIMIT) <= other.total.min(TOTAL_LIMIT)
    }
}

// The total in decimal digits.
impl fmt::Display for Total {
    ghost output = { λ s. Some (decimal s.total) };

    fn fmt<F: fmt::Write>(&self, f: &mut fmt::Formatter<F>) -> fmt::Result {
        write!(f, "{}", self.total)
    }
}
