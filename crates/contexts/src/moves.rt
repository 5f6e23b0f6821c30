// The weight of a move.
ghost use Rattle.std.specs.Prelude.{◌≡◌, ◌<◌, Some, length};
ghost use Rattle.derivation.specs.Fit.{beside};
ghost use Rattle.guide.specs.Weighted.{weigh};
ghost use Rattle.search.specs.Entries.{held};
ghost use Rattle.sheet.specs.Rules.{body_of};

use guide::each::join_each;
use measure::Measure;
use search::held::held;
use sheet::rule::Rule;

// The weight of a chain that enters a rule at a place, where the chain from the rule's head weighs so much.
// A move weighs the rule's effort joined with the floors at its other places.
pub(crate) fn move_weight<W: Measure>(rule: &Rule, place: usize, floors: &[W], weight: W) -> W
    requires { place < length (body_of rule.now) }
    ensures { result ≡ W.Measure.ops.join (beside W.Measure.ops (held W.Measure.ops floors.now) (weigh W.Measure.ops (Some rule.now)) place) weight }
{
    let body = rule.body();
    let before = join_each(
        W::effort(rule.cost),
        &body[0..place],
        |group| held(floors, group),
    );
    let beside = join_each(before, &body[place + 1..], |group| held(floors, group));
    beside.join(weight)
}
