// Set-up and main loop.
ghost use Rattle.std.specs.Prelude.{◌≡◌, ◌+◌, ◌*◌, ◌≤◌, length};
ghost use Rattle.search.specs.ClosedFacts.{SameClosed, ShowsEnd};
ghost use Rattle.search.specs.Shown.{outcome, run_answer};

use crate::chain::{Chains, count_missing};
use crate::closed::Closed;
use crate::columns::Counts;
use crate::run::run;
use crate::seed::seed;
use guide::Guide;
use measure::Measure;
use queue::entry::Entry;
use queue::lent::Queue;
use sheet::passed::Passed;
use sheet::refusal::Refusal;

// Runs the search from its start, and answers the counts; a survey has no target.
pub(crate) fn explore<W: Measure, G: Guide<W>>(
    sheet: &Passed,
    target: Option<u16>,
    guide: &G,
    closed: &mut Closed<W>,
    queue: &mut [Entry<W>],
    work: &mut [u16],
) -> Result<Counts, Refusal>
    requires facts { length closed.old.weights.now ≡ sheet.now.facts }
    requires rules { (length sheet.now.slots.now ≤ length queue.old) × (sheet.now.facts + 5 * length sheet.now.slots.now ≤ length work.old) }
    ensures same { SameClosed closed.old closed.new }
    ensures answered { result ≡ run_answer target (outcome W.Measure.ops sheet.now.slots.now (G.Guide.rest guide.now) target) }
    ensures shows { ShowsEnd W.Measure.ops sheet.now.slots.now (G.Guide.rest guide.now) target closed.new }
{
    closed.reopen();
    let (missing, work) = work.split_at_mut(sheet.slots().len());
    count_missing(sheet, missing);
    let chains = Chains::new(sheet, work);
    let mut queue = Queue::new(queue);
    seed(sheet, missing, closed, guide, &mut queue);
    run(&chains, target, guide, closed, missing, &mut queue)
}
