// What a column of weights holds for a fact.
ghost use Rattle.std.specs.Prelude.{◌≡◌};
ghost use Rattle.search.specs.Entries.{held};

use measure::Measure;

// The weight that a column holds for a fact; heaviest for a fact beyond it.
pub fn held<W: Measure>(column: &[W], fact: u16) -> W
    ensures { result ≡ held W.Measure.ops column.now fact }
{
    column.get(fact as usize).copied().unwrap_or(W::heaviest())
}
