// After a group is closed: the rules that conclude it.
ghost use Rattle.std.specs.Prelude.{◌≡◌, ◌+◌, ◌*◌, ◌<◌, ◌≤◌, true, length, take};
ghost use Rattle.contexts.specs.Links.{concludes, concluding};
ghost use Rattle.contexts.specs.Offers.{Follows};
ghost use Rattle.guide.specs.Weighted.{weighted};
ghost use Rattle.search.specs.Entries.{held};
ghost use Rattle.search.specs.Same.{SamePlaces};

use crate::link::Links;
use crate::offer::offer_places;
use measure::Measure;
use queue::entry::Entry;
use queue::lent::Queue;

// Offers chains to the places of each standing rule that concludes the group, where the chain from the group weighs so much.
pub(crate) fn spread<W: Measure>(
    links: &Links<W>,
    group: u16,
    weight: W,
    done: &[u16],
    queue: &mut Queue<Entry<W>>,
)
    requires known { (group < links.now.sheet.facts) × (length done.now ≡ links.now.sheet.facts) }
    requires room { queue.old.count + 4 * concluding links.now.sheet.slots.now group (length links.now.sheet.slots.now) ≤ length queue.old.places.now }
    ensures same { SamePlaces queue.old.places queue.new.places }
    ensures few { queue.new.count ≤ queue.old.count + 4 * concluding links.now.sheet.slots.now group (length links.now.sheet.slots.now) }
    ensures follows { Follows W.Measure.ops (held W.Measure.ops links.now.floors.now) (weighted W.Measure.ops links.now.sheet.slots.now) links.now.sheet.facts done.now group weight (λ k _. concludes links.now.sheet.slots.now group k ≡ true) (take queue.old.count queue.old.places.now) (take queue.new.count queue.new.places.now) }
{
    let mut link = links.first[group as usize];
    while let Some(number) = link.checked_sub(1) {
        offer_places(links, number, weight, done, queue);
        link = links.next[number as usize];
    }
}
