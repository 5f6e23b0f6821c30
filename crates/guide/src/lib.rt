// Guides: for each fact a floor and a rest, which may spare some work.
#![tactic(auto)]

pub mod blank;
pub mod each;
pub mod fit;
pub mod heavier;
pub mod map;

ghost use Rattle.std.specs.Prelude.{◌≡◌, ℕ};

use measure::Measure;

// A guide of the measure W gives each fact number two weights:
// floor, which is to be no heavier than any derivation of the fact,
// and rest, which is to be no heavier than what any derivation of the target adds around the fact.
pub trait Guide<W: Measure> {
    ghost floor: { Self → ℕ → W };

    ghost rest: { Self → ℕ → W };

    fn floor(&self, fact: u16) -> W
        ensures { result ≡ floor self.now fact };

    fn rest(&self, fact: u16) -> W
        ensures { result ≡ rest self.now fact };
}
