// The main loop.
ghost use Rattle.std.specs.Prelude.{◌≡◌, ◌+◌, ◌≤◌, [], length};
ghost use Rattle.derivation.specs.Search.{start};
ghost use Rattle.search.specs.ClosedFacts.{SameClosed, ShowsEnd};
ghost use Rattle.search.specs.Waiting.{unready, Ready};
ghost use Rattle.search.specs.Shown.{Shows, Running, wanted, outcome, run_answer};

use crate::chain::Chains;
use crate::closed::Closed;
use crate::columns::Counts;
use crate::rules::rule_of;
use crate::visit::walk;
use guide::Guide;
use measure::Measure;
use queue::entry::Entry;
use queue::lent::Queue;
use sheet::refusal::Refusal;

// Whether the fact is the target; a survey has none.
fn is_target(target: Option<u16>, fact: u16) -> bool
    ensures { result ≡ wanted target fact }
{
    target == Some(fact)
}

// Takes entries until the target is closed; out of reach where the queue runs empty first.
// What is closed, the open places and the queue stand apart, here and in what it calls: the check covers no view of one field of a
// struct while its other fields are written.
pub(crate) fn run<W: Measure, G: Guide<W>>(
    chains: &Chains,
    target: Option<u16>,
    guide: &G,
    closed: &mut Closed<W>,
    missing: &mut [u16],
    queue: &mut Queue<Entry<W>>,
) -> Result<Counts, Refusal>
    requires long { (length closed.old.weights.now ≡ chains.now.sheet.facts) × (length missing.old ≡ length chains.now.sheet.slots.now) × (length chains.now.sheet.slots.now ≤ length queue.old.places.now) }
    requires shown { Shows W.Measure.ops chains.now.sheet.slots.now start closed.old.weights.now closed.old.reasons.now closed.old.order.now closed.old.count 0 }
    requires running { Running chains.now.sheet.slots.now (start {W = W}) closed.old.reasons.now missing.old closed.old.count }
    requires ready { Ready W.Measure.ops (G.Guide.rest guide.now) chains.now.sheet.slots.now closed.old.weights.now [] missing.old queue.old.places.now queue.old.count }
    requires room { queue.old.count + unready missing.old ≤ length chains.now.sheet.slots.now }
    ensures same { SameClosed closed.old closed.new × (queue.new.places.ghost_name ≡ queue.old.places.ghost_name) }
    ensures answered { result ≡ run_answer target (outcome W.Measure.ops chains.now.sheet.slots.now (G.Guide.rest guide.now) target) }
    ensures shows { ShowsEnd W.Measure.ops chains.now.sheet.slots.now (G.Guide.rest guide.now) target closed.new }
{
    let mut taken: u16 = 0;
    // the form of this loop is fixed: it takes the answer of the queue apart, and leaves with the refusal
    loop {
        let Some(entry) = queue.take() else {
            return Err(Refusal::OutOfReach(closed.count, taken));
        };
        taken += 1;
        let head = rule_of(&chains.sheet, entry.rule as usize).head;
        if closed.has(head) {
            continue;
        }
        closed.close(head, entry);
        if is_target(target, head) {
            return Ok(Counts {
                closed: closed.count,
                taken,
            });
        }
        walk(chains, head, closed, guide, missing, queue);
    }
}
