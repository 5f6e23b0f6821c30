// Joining a weight for each of some facts.
ghost use Rattle.std.specs.Prelude.{◌≡◌, ℕ, map};
ghost use Rattle.derivation.specs.Joins.{joined};

use measure::Measure;

// A weight joined with the weight that a function gives for each of some facts.
pub fn join_each<W: Measure, F: Fn(u16) -> W>(start: W, facts: &[u16], weight: F) -> W
    requires { F.IsAlwaysCallable weight }
    ensures { (of : ℕ → W) → ((f : ℕ) (w : W) → F.post weight f w → w ≡ of f) → W.Measure.ops.norm start ≡ start → result ≡ W.Measure.ops.join start (joined W.Measure.ops (map of facts.now)) }
{
    facts
        .iter()
        .fold(start, |joined, fact| joined.join(weight(*fact)))
}
