// The entry of a rule whose body is closed throughout.
ghost use Rattle.std.specs.Prelude.{◌≡◌};
ghost use Rattle.search.specs.Entries.{rule_weight, rule_entry};

use crate::held::held;
use guide::Guide;
use guide::each::join_each;
use measure::Measure;
use queue::entry::Entry;
use sheet::rule::Rule;

// The weight of a rule: its effort joined with the weights of its body.
fn weight_of<W: Measure>(rule: &Rule, weights: &[W]) -> W
    ensures { result ≡ rule_weight W.Measure.ops rule.now weights.now }
{
    join_each(
        W::effort(rule.cost),
        rule.body(),
        |fact| held(weights, fact),
    )
}

// The entry of a rule: its weight, and that joined with the rest of its head.
pub(crate) fn entry_of<W: Measure, G: Guide<W>>(
    rule: &Rule,
    number: u16,
    weights: &[W],
    guide: &G,
) -> Entry<W>
    ensures { result ≡ rule_entry W.Measure.ops (G.Guide.rest guide.now) rule.now number weights.now }
{
    let weight = weight_of(rule, weights);
    let priority = weight.join(guide.rest(rule.head));
    Entry {
        priority,
        weight,
        rule: number,
    }
}
