// The first entries of a search: those of the rules with no open place from the start.
ghost use Rattle.std.specs.Prelude.{◌≡◌, ℕ, ◌+◌, ◌<◌, ◌≤◌, Bool, false, ◌&&◌, ◌||◌, [], length, if◌then◌else◌, ◌==◌};
ghost use Rattle.search.specs.Same.{SamePlaces};
ghost use Rattle.search.specs.Waiting.{unready, waiting, Filled, entry_at, Ready};

use crate::closed::Closed;
use crate::rules::rule_of;
use crate::weigh::entry_of;
use guide::Guide;
use measure::Measure;
use queue::entry::Entry;
use queue::lent::Queue;
use sheet::passed::Passed;

// Puts in the entry of a rule if it stands and has no open place.
fn seed_rule<W: Measure, G: Guide<W>>(
    sheet: &Passed,
    number: usize,
    missing: &[u16],
    weights: &[W],
    guide: &G,
    queue: &mut Queue<Entry<W>>,
)
    requires known { number < length sheet.now.slots.now }
    requires long { (length missing.now ≡ length sheet.now.slots.now) × (length weights.now ≡ sheet.now.facts) }
    requires room { queue.old.count < length queue.old.places.now }
    ensures same { SamePlaces queue.old.places queue.new.places }
    ensures counts { queue.new.count ≡ queue.old.count + (if waiting sheet.now.slots.now [] missing.now number then 1 else 0) }
    ensures filled { (flag : ℕ → Bool) → flag number ≡ false → Filled W.Measure.ops (entry_at W.Measure.ops (G.Guide.rest guide.now) sheet.now.slots.now weights.now) flag queue.old.places.now queue.old.count → Filled W.Measure.ops (entry_at W.Measure.ops (G.Guide.rest guide.now) sheet.now.slots.now weights.now) (λ k. (number == k && waiting sheet.now.slots.now [] missing.now number) || flag k) queue.new.places.now queue.new.count }
{
    let rule = rule_of(sheet, number);
    if rule.struck {
        return;
    }
    if missing[number] > 0 {
        return;
    }
    let entry = entry_of(&rule, number as u16, weights, guide);
    queue.put(entry).unwrap();
}

// Puts in the first entries.
pub(crate) fn seed<W: Measure, G: Guide<W>>(
    sheet: &Passed,
    missing: &[u16],
    closed: &Closed<W>,
    guide: &G,
    queue: &mut Queue<Entry<W>>,
)
    requires long { (length missing.now ≡ length sheet.now.slots.now) × (length closed.now.weights.now ≡ sheet.now.facts) }
    requires room { (queue.old.count ≡ 0) × (length sheet.now.slots.now ≤ length queue.old.places.now) }
    ensures same { SamePlaces queue.old.places queue.new.places }
    ensures ready { Ready W.Measure.ops (G.Guide.rest guide.now) sheet.now.slots.now closed.now.weights.now [] missing.now queue.new.places.now queue.new.count }
    ensures total { queue.new.count + unready missing.now ≤ length sheet.now.slots.now }
{
    // by number: of a rule by its slot the check knows that it is within the sheet only through its number
    for number in 0..sheet.slots().len() {
        seed_rule(sheet, number, missing, closed.weights, guide, queue);
    }
}
