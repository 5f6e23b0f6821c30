// A sheet edited, then passed, then searched.
ghost use Rattle.std.specs.Prelude.{[], ◌≡◌};
ghost use Rattle.sheet.specs.Edits.{enter_slots};

use crate::flat::Flat;
use measure::Measure;
use measure::total::Total;
use queue::entry::Entry;
use search::columns::{Columns, Found};
use search::find::search;
use sheet::edit::enter;
use sheet::passed::Passed;
use sheet::passed::pass::pass;
use sheet::refusal::Refusal;
use sheet::slot::Slot;

const FACTS: usize = 4;

const RULES: usize = 8;

const WORK: usize = 52;

// Enters one more rule, for a given fact, and searches the sheet for the target.
// There is room for 4 facts and 8 rules.
pub fn with_given(
    slots: &mut [Slot],
    given: u16,
    cost: u32,
    target: u16,
    guide: &Flat,
) -> Result<Found<Total>, Refusal>
    ensures { slots.new ≡ enter_slots slots.old given [] cost }
{
    enter(slots, given, &[], cost)?;
    let lent: &[Slot] = slots;
    let mut view = Passed::empty();
    pass(lent, 4, &mut view)?;
    let none = Total::nothing();
    let blank = Entry {
        priority: none,
        weight: none,
        rule: 0,
    };
    let mut columns = Columns {
        weights: &mut [none; FACTS],
        reasons: &mut [0; FACTS],
        line: &mut [0; FACTS],
        queue: &mut [blank; RULES],
        work: &mut [0; WORK],
    };
    search(&view, target, guide, &mut columns)
}
