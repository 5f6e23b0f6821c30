// The names of the measures.
ghost use Rattle.std.specs.Prelude.{◌≡◌, ℕ, List, codes};

use measure::Measure;
use measure::hardest::Hardest;
use measure::total::Total;
use measure::total_steps::TotalSteps;
use std::fmt;

// A measure with a name, whose weights are written as text.
pub trait Named: Measure + fmt::Display {
    ghost named: { List ℕ };

    // A function, since no clause can say what a constant text is.
    fn name() -> &'static str
        ensures { result.now ≡ named };
}

impl Named for Total {
    ghost named = { codes "total" };

    fn name() -> &'static str {
        "total"
    }
}

impl Named for Hardest {
    ghost named = { codes "hardest" };

    fn name() -> &'static str {
        "hardest"
    }
}

impl Named for TotalSteps {
    ghost named = { codes "total-steps" };

    fn name() -> &'static str {
        "total-steps"
    }
}
