// A guide of the measure Total alone.
ghost use Rattle.measure.specs.Total.{total_ops};

use guide::Guide;
use measure::Measure;
use measure::total::Total;

// One floor for every fact, and no rest.
#[derive(Clone, Copy)]
pub struct Flat {
    pub floor: Total,
}

impl Guide<Total> for Flat {
    ghost floor = { λ s _. s.floor };

    ghost rest = { λ _ _. total_ops.nothing };

    fn floor(&self, _fact: u16) -> Total {
        self.floor
    }

    fn rest(&self, _fact: u16) -> Total {
        Total::nothing()
    }
}
