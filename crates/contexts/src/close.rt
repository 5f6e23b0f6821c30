// Closing the groups, that of the least weight first.
ghost use Rattle.std.specs.Prelude.{◌≡◌, ℕ, ◌<◌, ◌≤◌, length, replicate, slice_set};
ghost use Rattle.contexts.specs.Answered.{queue_length};
ghost use Rattle.derivation.specs.Maps.{LeastChain};
ghost use Rattle.guide.specs.Weighted.{weighted};
ghost use Rattle.search.specs.Entries.{held};

use crate::link::Links;
use crate::offer::offer;
use crate::spread::spread;
use measure::Measure;
use queue::entry::Entry;
use queue::lent::Queue;

// Closes a group at a weight; its mark, in a column lent as numbers, is then 1.
fn close<W: Measure>(group: u16, weight: W, rests: &mut [W], done: &mut [u16])
    requires { (group < length rests.old) × (group < length done.old) }
    ensures rests { rests.new ≡ slice_set rests.old group weight }
    ensures done { done.new ≡ slice_set done.old group 1 }
{
    rests[group as usize] = weight;
    done[group as usize] = 1;
}

// Takes entries until the queue is empty. The first of a group closes it, and chains through the group are offered.
pub(crate) fn close_all<W: Measure>(
    links: &Links<W>,
    target: u16,
    rests: &mut [W],
    done: &mut [u16],
    queue: &mut [Entry<W>],
)
    requires target { target < links.now.sheet.facts }
    requires room { queue_length (length links.now.sheet.slots.now) ≤ length queue.old }
    requires cleared { (rests.old ≡ replicate links.now.sheet.facts W.Measure.ops.heaviest) × (done.old ≡ replicate links.now.sheet.facts 0) }
    ensures { (k : ℕ) → LeastChain W.Measure.ops (held W.Measure.ops links.now.floors.now) (weighted W.Measure.ops links.now.sheet.slots.now) target k (held W.Measure.ops rests.new k) }
{
    let mut queue = Queue::new(queue);
    offer(target, W::nothing(), done, &mut queue);
    while let Some(entry) = queue.take() {
        let group = entry.rule;
        if done[group as usize] == 1 {
            continue;
        }
        close(group, entry.weight, rests, done);
        spread(links, group, entry.weight, done, &mut queue);
    }
}
