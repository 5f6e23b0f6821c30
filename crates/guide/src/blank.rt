// The guide that says nothing.
use crate::Guide;
use measure::Measure;

#[derive(Clone, Copy)]
pub struct Blank;

impl<W: Measure> Guide<W> for Blank {
    ghost floor = { λ _ _. W.Measure.ops.nothing };

    ghost rest = { λ _ _. W.Measure.ops.nothing };

    fn floor(&self, _fact: u16) -> W {
        W::nothing()
    }

    fn rest(&self, _fact: u16) -> W {
        W::nothing()
    }
}
