// Rules linked by their heads, as search::chain chains places: what is linked, and what is known of it, differ.
// Before contexts are computed: the standing rules, linked by their heads.
// The columns are lent as numbers: a link is 0 at the end, or a rule's number + 1.
ghost use Rattle.std.specs.Prelude.{◌≡◌, ◌≤◌, length};
ghost use Rattle.contexts.specs.Links.{Linked};

use sheet::passed::Passed;
use sheet::slot::rule_in;

// A passed sheet with its standing rules linked by their heads, and the floors of its facts.
#[derive(Drop)]
pub(crate) struct Links<'a, W> {
    pub sheet: Passed<'a>,
    pub floors: &'a [W],
    // the last rule that concludes each fact
    pub first: &'a [u16],
    // for each rule, the last one before it that concludes the same fact
    pub next: &'a [u16],
    ghost floors_long: { sheet.facts ≤ length floors.now },
    ghost first_long: { length first.now ≡ sheet.facts },
    ghost next_long: { length sheet.slots.now ≤ length next.now },
    ghost linked: { Linked sheet.slots.now first.now next.now (length sheet.slots.now) },
}

// Links to each fact the standing rules that conclude it.
pub(crate) fn link(sheet: &Passed, first: &mut [u16], next: &mut [u16])
    requires first_long { length first.old ≡ sheet.now.facts }
    requires next_long { length sheet.now.slots.now ≤ length next.old }
    ensures { Linked sheet.now.slots.now first.new next.new (length sheet.now.slots.now) }
{
    first.fill(0);
    // by index: after a loop over an adapter of `iter_mut` the check knows no element
    for (number, slot) in sheet.slots().iter().enumerate() {
        let rule = rule_in(slot);
        if rule.struck {
            continue;
        }
        let head = rule.head as usize;
        next[number] = first[head];
        first[head] = (number + 1) as u16;
    }
}
