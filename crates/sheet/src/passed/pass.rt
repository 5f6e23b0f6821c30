// Passing a sheet: its standing rules are checked once, for all that reads the view.
ghost use Rattle.std.specs.Prelude.{◌≡◌, ◌≤◌, [], length};
ghost use Rattle.sheet.specs.Passing.{scan as scanned, pass_answer, pass_view, seen};
ghost use Rattle.sheet.specs.Refusals.{answer};

use crate::passed::Passed;
use crate::refusal::Refusal;
use crate::slot::{Slot, used};

// The highest fact count.
pub const FACT_LIMIT: u16 = 4_096;

impl<'a> Passed<'a> {
    // A view of no rules over no facts.
    pub fn empty() -> Passed<'a>
        ensures { seen result ≡ ([], 0) }
    {
        Passed {
            slots: &[],
            facts: 0,
        }
    }

    // The slots of the rules entered, each of them full; a rule's number is its index.
    pub fn slots(&self) -> &'a [Slot]
        ensures { result.now ≡ self.now.slots.now }
    {
        self.slots
    }

    // The fact count.
    pub fn facts(&self) -> u16
        ensures { result ≡ self.now.facts }
    {
        self.facts
    }
}

// The number of rules entered, or the lowest stray one.
fn scan(slots: &[Slot], facts: u16) -> Result<usize, Refusal>
    requires { length slots.now ≤ 16000 }
    ensures { answer result ≡ scanned facts 0 slots.now }
{
    for (i, slot) in slots.iter().enumerate() {
        match slot {
            None => return Ok(i),
            Some(rule) => {
                if !rule.is_within(facts) {
                    return Err(Refusal::Stray(i as u16));
                }
            }
        }
    }
    Ok(slots.len())
}

// Passes a sheet with a fact count into the view; a refusal leaves the view as it was.
// The view is written and not answered: that form is fixed, and the check covers no Result that holds a view with an invariant.
pub fn pass<'a>(slots: &'a [Slot], facts: u16, view: &mut Passed<'a>) -> Result<(), Refusal>
    ensures answered { answer result ≡ pass_answer slots.now facts }
    ensures left { seen view.new ≡ pass_view slots.now facts (seen view.old) }
{
    if facts == 0 || facts > FACT_LIMIT {
        return Err(Refusal::Facts);
    }
    let slots = used(slots);
    let count = scan(slots, facts)?;
    *view = Passed {
        slots: &slots[0..count],
        facts,
    };
    Ok(())
}
