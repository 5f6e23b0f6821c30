// The heavier of two guides: fact by fact the heavier floor and the heavier rest.
ghost use Rattle.std.specs.Prelude.{◌≡◌};
ghost use Rattle.derivation.specs.Theorems.{heavier as heavier_weight};

use crate::Guide;
use measure::Measure;

#[derive(Clone, Copy)]
pub struct Heavier<A, B>(pub A, pub B);

// Of two weights the heavier one, and the second where neither is heavier.
pub fn heavier_of<W: Measure>(a: W, b: W) -> W
    ensures { result ≡ heavier_weight W.Measure.ops a b }
{
    if a.no_heavier(b) { b } else { a }
}

impl<W: Measure, A: Guide<W>, B: Guide<W>> Guide<W> for Heavier<A, B> {
    ghost floor = { λ s f. heavier_weight W.Measure.ops (A.Guide.floor s.0 f) (B.Guide.floor s.1 f) };

    ghost rest = { λ s f. heavier_weight W.Measure.ops (A.Guide.rest s.0 f) (B.Guide.rest s.1 f) };

    fn floor(&self, fact: u16) -> W {
        heavier_of(self.0.floor(fact), self.1.floor(fact))
    }

    fn rest(&self, fact: u16) -> W {
        heavier_of(self.0.rest(fact), self.1.rest(fact))
    }
}
