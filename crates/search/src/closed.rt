// The facts closed so far, in the columns that show them.
ghost use Rattle.std.specs.Prelude.{◌≡◌, ◌+◌, ◌<◌, ◌≤◌, not, length, replicate, ◌==◌, slice_index, slice_set};
ghost use Rattle.derivation.specs.Search.{no_reason};

use measure::Measure;
use queue::entry::Entry;

// The reason of a fact that is not closed: the lent column holds numbers, and no Option fits.
pub const NO_RULE: u16 = 65_535;

#[derive(Drop)]
pub(crate) struct Closed<'a, W> {
    // the weight of each closed fact, heaviest for the others
    pub weights: &'a mut [W],
    // the rule that closed each fact, NO_RULE for the others
    pub reasons: &'a mut [u16],
    // the first `count` places: the rules that closed a fact, in that order
    pub order: &'a mut [u16],
    pub count: u16,
    ghost reasons_long: { length reasons.now ≡ length weights.now },
    ghost order_long: { length order.now ≡ length weights.now },
    ghost few: { length weights.now ≤ 4096 },
}

// Every weight is heaviest. Not fill, which asks that a clone of a weight equals it: no measure says that.
fn clear<W: Measure>(weights: &mut [W])
    ensures { weights.new ≡ replicate (length weights.old) W.Measure.ops.heaviest }
{
    for weight in weights.iter_mut() {
        *weight = W::heaviest();
    }
}

impl<'a, W: Measure> Closed<'a, W> {
    ghost use Rattle.search.specs.ClosedFacts.{SameClosed, NoneClosed};

    // No fact is closed any more.
    pub(crate) fn reopen(&mut self)
        ensures same { SameClosed self.old self.new }
        ensures none { NoneClosed W.Measure.ops self.new }
    {
        clear(self.weights);
        self.reasons.fill(NO_RULE);
        self.count = 0;
    }

    // Whether a fact is closed.
    pub(crate) fn has(&self, fact: u16) -> bool
        requires { fact < length self.now.weights.now }
        ensures { result ≡ not (slice_index self.now.reasons.now fact == no_reason) }
    {
        self.reasons[fact as usize] != NO_RULE
    }

    // Closes a fact by the rule of an entry, at the entry's weight.
    pub(crate) fn close(&mut self, fact: u16, entry: Entry<W>)
        requires room { (fact < length self.old.weights.now) × (self.old.count < length self.old.weights.now) }
        ensures same { SameClosed self.old self.new }
        ensures weights { self.new.weights.now ≡ slice_set self.old.weights.now fact entry.weight }
        ensures reasons { self.new.reasons.now ≡ slice_set self.old.reasons.now fact entry.rule }
        ensures order { self.new.order.now ≡ slice_set self.old.order.now self.old.count entry.rule }
        ensures count { self.new.count ≡ self.old.count + 1 }
    {
        self.weights[fact as usize] = entry.weight;
        self.reasons[fact as usize] = entry.rule;
        self.order[self.count as usize] = entry.rule;
        self.count += 1;
    }
}
