// After a fact is closed: the rules whose body names it.
ghost use Rattle.std.specs.Prelude.{◌≡◌, ℕ, ◌+◌, ◌-◌, ◌*◌, ◌<◌, ◌≤◌, false, List, length, slice_index, slice_set};
ghost use Rattle.search.specs.Chains.{uses};
ghost use Rattle.search.specs.Same.{SamePlaces};
ghost use Rattle.search.specs.Waiting.{unready, Ready};
ghost use Rattle.sheet.specs.Slots.{rule_at};

use crate::chain::Chains;
use crate::closed::Closed;
use crate::rules::rule_of;
use crate::weigh::entry_of;
use guide::Guide;
use measure::Measure;
use queue::entry::Entry;
use queue::lent::Queue;
use sheet::passed::Passed;
use sheet::rule::BODY_LIMIT;

// One open place fewer of a rule. With the last one its entry is put in.
fn visit<W: Measure, G: Guide<W>>(
    sheet: &Passed,
    number: usize,
    weights: &[W],
    guide: &G,
    missing: &mut [u16],
    queue: &mut Queue<Entry<W>>,
)
    requires known { number < length sheet.now.slots.now }
    requires long { (length missing.old ≡ length sheet.now.slots.now) × (length weights.now ≡ sheet.now.facts) }
    requires stands { (rule_at sheet.now.slots.now number).struck ≡ false }
    requires some { 0 < slice_index missing.old number }
    requires room { queue.old.count + unready missing.old ≤ length queue.old.places.now }
    ensures same { SamePlaces queue.old.places queue.new.places }
    ensures left { missing.new ≡ slice_set missing.old number (slice_index missing.old number - 1) }
    ensures total { queue.new.count + unready missing.new ≡ queue.old.count + unready missing.old }
    ensures ready { (taken : List ℕ) → Ready W.Measure.ops (G.Guide.rest guide.now) sheet.now.slots.now weights.now taken missing.old queue.old.places.now queue.old.count → Ready W.Measure.ops (G.Guide.rest guide.now) sheet.now.slots.now weights.now taken missing.new queue.new.places.now queue.new.count }
{
    let left = missing[number] - 1;
    missing[number] = left;
    if left > 0 {
        return;
    }
    let rule = rule_of(sheet, number);
    let entry = entry_of(&rule, number as u16, weights, guide);
    queue.put(entry).unwrap();
}

// Visits each place in the chain of a fact that was closed.
pub(crate) fn walk<W: Measure, G: Guide<W>>(
    chains: &Chains,
    fact: u16,
    closed: &Closed<W>,
    guide: &G,
    missing: &mut [u16],
    queue: &mut Queue<Entry<W>>,
)
    requires known { fact < chains.now.sheet.facts }
    requires long { (length missing.old ≡ length chains.now.sheet.slots.now) × (length closed.now.weights.now ≡ chains.now.sheet.facts) }
    requires some { (r : ℕ) → uses chains.now.sheet.slots.now fact r (4 * length chains.now.sheet.slots.now) ≤ slice_index missing.old r }
    requires room { queue.old.count + unready missing.old ≤ length queue.old.places.now }
    ensures same { SamePlaces queue.old.places queue.new.places }
    ensures left { (r : ℕ) → slice_index missing.new r + uses chains.now.sheet.slots.now fact r (4 * length chains.now.sheet.slots.now) ≡ slice_index missing.old r }
    ensures total { queue.new.count + unready missing.new ≡ queue.old.count + unready missing.old }
    ensures ready { (taken : List ℕ) → Ready W.Measure.ops (G.Guide.rest guide.now) chains.now.sheet.slots.now closed.now.weights.now taken missing.old queue.old.places.now queue.old.count → Ready W.Measure.ops (G.Guide.rest guide.now) chains.now.sheet.slots.now closed.now.weights.now taken missing.new queue.new.places.now queue.new.count }
{
    let mut link = chains.heads[fact as usize];
    while link > 0 {
        let place = link as usize - 1;
        let number = place / BODY_LIMIT;
        visit(&chains.sheet, number, closed.weights, guide, missing, queue);
        link = chains.next[place];
    }
}
