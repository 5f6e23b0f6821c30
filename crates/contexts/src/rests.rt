// The public call.
ghost use Rattle.std.specs.Prelude.{◌≡◌, ◌<◌, ◌≤◌, true, length, is_ok};
ghost use Rattle.contexts.specs.Answered.{queue_length, contexts_long, computed, contexts_answer, rests_left, Rests};
ghost use Rattle.contexts.specs.Same.{SameContextColumns};
ghost use Rattle.derivation.specs.Contexts.{context};
ghost use Rattle.guide.specs.Weighted.{weighted};
ghost use Rattle.search.specs.Answered.{column, work_length};
ghost use Rattle.search.specs.Entries.{held};
ghost use Rattle.search.specs.Left.{Scratch};
ghost use Rattle.sheet.specs.Refusals.{answer};

use crate::close::close_all;
use crate::link::{Links, link};
use measure::Measure;
use queue::entry::Entry;
use sheet::passed::Passed;
use sheet::refusal::Refusal;

// The columns that contexts write.
#[derive(Drop)]
pub struct ContextColumns<'a, W> {
    // the least weight of a chain from each fact to the target, heaviest where there is none
    pub rests: &'a mut [W],
    // the queue of entries
    pub queue: &'a mut [Entry<W>],
    // the working column
    pub work: &'a mut [u16],
}

impl<W> ContextColumns<'_, W> {
    // Whether the columns, and so many floors, are long enough for a sheet.
    fn are_long(&self, sheet: &Passed, floors: usize) -> bool
        ensures { result ≡ contexts_long sheet.now.facts (length sheet.now.slots.now) floors (length self.now.rests.now) (length self.now.queue.now) (length self.now.work.now) }
    {
        let facts = sheet.facts() as usize;
        let rules = sheet.slots().len();
        facts <= floors
            && facts <= self.rests.len()
            && 4 * rules + 1 <= self.queue.len()
            && 3 * facts + 5 * rules <= self.work.len()
    }
}

// Computes the contexts in columns of just the lengths asked for.
fn fill<W: Measure>(
    sheet: &Passed,
    target: u16,
    floors: &[W],
    rests: &mut [W],
    queue: &mut [Entry<W>],
    work: &mut [u16],
)
    requires target { target < sheet.now.facts }
    requires long { (sheet.now.facts ≤ length floors.now) × (length rests.old ≡ sheet.now.facts) × (queue_length (length sheet.now.slots.now) ≤ length queue.old) × (length work.old ≡ work_length sheet.now.facts (length sheet.now.slots.now)) }
    ensures { rests.new ≡ column (context W.Measure.ops (held W.Measure.ops floors.now) (weighted W.Measure.ops sheet.now.slots.now) target) sheet.now.facts }
{
    let facts = rests.len();
    let (first, work) = work.split_at_mut(facts);
    let (done, next) = work.split_at_mut(facts);
    // not fill, which asks that a clone of a weight equals it: no measure says that
    for rest in rests.iter_mut() {
        *rest = W::heaviest();
    }
    done.fill(0);
    link(sheet, first, next);
    let links = Links {
        sheet: *sheet,
        floors,
        first,
        next,
    };
    close_all(&links, target, rests, done, queue);
}

// Computes the contexts of a passed sheet: the rests column then holds for each fact the least weight of a chain to the target.
pub fn contexts<W: Measure>(
    sheet: &Passed,
    target: u16,
    floors: &[W],
    columns: &mut ContextColumns<W>,
) -> Result<(), Refusal>
    ensures answered { answer result ≡ contexts_answer sheet.now.facts target (contexts_long sheet.now.facts (length sheet.now.slots.now) (length floors.now) (length columns.old.rests.now) (length columns.old.queue.now) (length columns.old.work.now)) }
    ensures rests { columns.new.rests.now ≡ rests_left W.Measure.ops floors.now sheet.now.slots.now sheet.now.facts target (computed sheet.now.facts target (contexts_long sheet.now.facts (length sheet.now.slots.now) (length floors.now) (length columns.old.rests.now) (length columns.old.queue.now) (length columns.old.work.now))) columns.old.rests.now }
    ensures queues { Scratch (computed sheet.now.facts target (contexts_long sheet.now.facts (length sheet.now.slots.now) (length floors.now) (length columns.old.rests.now) (length columns.old.queue.now) (length columns.old.work.now))) (queue_length (length sheet.now.slots.now)) columns.old.queue.now columns.new.queue.now }
    ensures works { Scratch (computed sheet.now.facts target (contexts_long sheet.now.facts (length sheet.now.slots.now) (length floors.now) (length columns.old.rests.now) (length columns.old.queue.now) (length columns.old.work.now))) (work_length sheet.now.facts (length sheet.now.slots.now)) columns.old.work.now columns.new.work.now }
    ensures least { is_ok result ≡ true → Rests W.Measure.ops floors.now sheet.now.slots.now sheet.now.facts target columns.new.rests.now }
    ensures same { SameContextColumns columns.old columns.new }
{
    if target >= sheet.facts() {
        return Err(Refusal::Target);
    }
    if !columns.are_long(sheet, floors.len()) {
        return Err(Refusal::Short);
    }
    let facts = sheet.facts() as usize;
    let rules = sheet.slots().len();
    fill(
        sheet,
        target,
        floors,
        &mut columns.rests[0..facts],
        &mut columns.queue[0..4 * rules + 1],
        &mut columns.work[0..3 * facts + 5 * rules],
    );
    Ok(())
}
