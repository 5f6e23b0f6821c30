// An entry: a rule, the weight that it would close its head at, and the priority of that.
ghost use Rattle.queue.specs.Entry.{entry_leb, entry_canon};
ghost use Rattle.queue.specs.Entries.{entry_linear, entry_apart};

use crate::order::{Order, Strict};
use measure::Measure;

#[derive(Clone, Copy)]
pub struct Entry<W> {
    pub priority: W,
    pub weight: W,
    pub rule: u16,
}

// By priority, then by weight, then by rule number.
impl<W: Measure> Order for Entry<W> {
    ghost leb = { entry_leb W.Measure.ops };

    ghost linear = { entry_linear W.Measure.lawful };

    fn no_later(self, other: Entry<W>) -> bool {
        if !self.priority.no_heavier(other.priority) {
            return false;
        }
        if !other.priority.no_heavier(self.priority) {
            return true;
        }
        if !self.weight.no_heavier(other.weight) {
            return false;
        }
        if !other.weight.no_heavier(self.weight) {
            return true;
        }
        self.rule <= other.rule
    }
}

impl<W: Measure> Strict for Entry<W> {
    ghost canon = { entry_canon W.Measure.ops };

    ghost apart = { entry_apart W.Measure.lawful };
}
