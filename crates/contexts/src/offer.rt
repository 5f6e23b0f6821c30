// Offers to the places of a rule.
ghost use Rattle.std.specs.Prelude.{◌≡◌, ◌+◌, ◌<◌, ◌≤◌, false, length, take};
ghost use Rattle.contexts.specs.Offers.{Offering, Follows};
ghost use Rattle.guide.specs.Weighted.{weighted};
ghost use Rattle.search.specs.Entries.{held};
ghost use Rattle.search.specs.Same.{SamePlaces};
ghost use Rattle.sheet.specs.Slots.{rule_at};

use crate::link::Links;
use crate::moves::move_weight;
use measure::Measure;
use queue::entry::Entry;
use queue::lent::Queue;
use sheet::slot::rule_in;

// Puts in an entry that offers a group a weight, unless the group is closed.
pub(crate) fn offer<W: Measure>(group: u16, weight: W, done: &[u16], queue: &mut Queue<Entry<W>>)
    requires known { group < length done.now }
    requires room { queue.old.count < length queue.old.places.now }
    ensures same { SamePlaces queue.old.places queue.new.places }
    ensures few { queue.new.count ≤ queue.old.count + 1 }
    ensures offers { Offering done.now group weight (take queue.old.count queue.old.places.now) (take queue.new.count queue.new.places.now) }
{
    if done[group as usize] == 1 {
        return;
    }
    let entry = Entry {
        priority: weight,
        weight,
        rule: group,
    };
    queue.put(entry).unwrap();
}

// Offers each place of a rule's body the weight of a chain from it, where the chain from the head weighs so much.
pub(crate) fn offer_places<W: Measure>(
    links: &Links<W>,
    number: u16,
    weight: W,
    done: &[u16],
    queue: &mut Queue<Entry<W>>,
)
    requires known { (number < length links.now.sheet.slots.now) × (length done.now ≡ links.now.sheet.facts) }
    requires stands { (rule_at links.now.sheet.slots.now number).struck ≡ false }
    requires room { queue.old.count + 4 ≤ length queue.old.places.now }
    ensures same { SamePlaces queue.old.places queue.new.places }
    ensures few { queue.new.count ≤ queue.old.count + 4 }
    ensures follows { Follows W.Measure.ops (held W.Measure.ops links.now.floors.now) (weighted W.Measure.ops links.now.sheet.slots.now) links.now.sheet.facts done.now (rule_at links.now.sheet.slots.now number).head weight (λ k _. k ≡ number) (take queue.old.count queue.old.places.now) (take queue.new.count queue.new.places.now) }
{
    let rule = rule_in(&links.sheet.slots()[number as usize]);
    for (place, group) in rule.body().iter().enumerate() {
        let through = move_weight(&rule, place, links.floors, weight);
        offer(*group, through, done, queue);
    }
}
