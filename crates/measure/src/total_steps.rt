// Total-steps: the sum of all costs and the number of rules, compared by the sum and then by the number.
ghost use Rattle.std.specs.Prelude.{◌≡◌, ◌++◌, Some, codes, decimal};
ghost use Rattle.measure.specs.Ops.{Ops};
ghost use Rattle.measure.specs.TotalSteps.{total_steps_ops};
ghost use Rattle.std.proofs.Common.{arith};
ghost use Rattle.std.proofs.lemmas.Bool.Decides.{nat_tests};

use crate::total::TOTAL_LIMIT;
use crate::{COST_LIMIT, Measure};
use std::fmt;

const STEPS_LIMIT: u16 = 65_535;

#[derive(Clone, Copy)]
pub struct TotalSteps {
    pub total: u32,
    pub steps: u16,
}

const HEAVIEST: TotalSteps = TotalSteps {
    total: TOTAL_LIMIT,
    steps: 0,
};

impl TotalSteps {
    // The weight that this record counts as.
    fn norm(self) -> TotalSteps
        ensures { result ≡ total_steps_ops.norm self }
    {
        if self.total < TOTAL_LIMIT {
            self
        } else {
            HEAVIEST
        }
    }
}

impl Measure for TotalSteps {
    ghost ops = { total_steps_ops };

    ghost lawful = { record {
      total = λ a b. Prim.grind (arith, nat_tests);
      trans = λ a b c p q. Prim.grind (arith, nat_tests);
      antisym = λ a b p q. Prim.grind (arith, nat_tests);
      assoc = λ a b c. Prim.grind (arith, nat_tests);
      comm = λ a b. Prim.grind (arith, nat_tests);
      neutral = λ a. Prim.grind (arith, nat_tests);
      lightest = λ a. Prim.grind (arith, nat_tests);
      most = λ a. Prim.grind (arith, nat_tests);
      mono = λ a b c p. Prim.grind (arith, nat_tests);
      leb_norm = λ a b. Prim.grind (arith, nat_tests);
      leb_norm' = λ a b. Prim.grind (arith, nat_tests);
      join_norm = λ a b. Prim.grind (arith, nat_tests);
      norm_nothing = Prim.grind (arith, nat_tests);
      norm_heaviest = Prim.grind (arith, nat_tests);
      norm_effort = λ c. Prim.grind (arith, nat_tests);
      norm_join = λ a b. Prim.grind (arith, nat_tests);
      norm_norm = λ a. Prim.grind (arith, nat_tests);
      effort_limit = λ c. Prim.grind (arith, nat_tests);
    } };

    fn nothing() -> TotalSteps {
        TotalSteps { total: 0, steps: 0 }
    }

    fn heaviest() -> TotalSteps {
        HEAVIEST
    }

    fn effort(cost: u32) -> TotalSteps {
        TotalSteps {
            total: cost.min(COST_LIMIT),
            steps: 1,
        }
    }

    fn join(self, other: TotalSteps) -> TotalSteps {
        let a = self.norm();
        let b = other.norm();
        let total = a.total + b.total;
        if total >= TOTAL_LIMIT {
            return HEAVIEST;
        }
        TotalSteps {
            total,
            steps: a.steps.saturating_add(b.steps),
        }
    }

    fn no_heavier(self, other: TotalSteps) -> bool {
        let a = self.norm();
        let b = other.norm();
        a.total < b.total || (a.total == b.total && a.steps <= b.steps)
    }
}

// The total and the steps in decimal digits, with a slash between.
impl fmt::Display for TotalSteps {
    ghost output = { λ s. Some (decimal s.total ++ codes "/" ++ decimal s.steps) };

    fn fmt<F: fmt::Write>(&self, f: &mut fmt::Formatter<F>) -> fmt::Result {
        write!(f, "{}/{}", self.total, self.steps)
    }
}
