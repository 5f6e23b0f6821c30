// The guide that answers for groups of facts.
ghost use Rattle.std.specs.Prelude.{◌≡◌};
ghost use Rattle.guide.specs.Map.{by_group};

use crate::Guide;
use measure::Measure;

// A map gives each fact its group; the columns give each group its floor and its rest.
#[derive_where(Clone, Copy)]
pub struct MapGuide<'a, W> {
    pub map: &'a [u16],
    pub floors: &'a [W],
    pub rests: &'a [W],
}

// The entry of a fact's group in a column; nothing for a fact beyond the map, or where either column lacks the group.
fn entry_of<W: Measure>(map: &[u16], column: &[W], beside: &[W], fact: u16) -> W
    ensures { result ≡ by_group W.Measure.ops map.now column.now beside.now fact }
{
    let Some(group) = map.get(fact as usize) else {
        return W::nothing();
    };
    let group = *group as usize;
    match column.get(group) {
        Some(weight) if group < beside.len() => *weight,
        _ => W::nothing(),
    }
}

impl<'a, W: Measure> Guide<W> for MapGuide<'a, W> {
    ghost floor = { λ s f. by_group W.Measure.ops s.map.now s.floors.now s.rests.now f };

    ghost rest = { λ s f. by_group W.Measure.ops s.map.now s.rests.now s.floors.now f };

    fn floor(&self, fact: u16) -> W {
        entry_of(self.map, self.floors, self.rests, fact)
    }

    fn rest(&self, fact: u16) -> W {
        entry_of(self.map, self.rests, self.floors, fact)
    }
}
