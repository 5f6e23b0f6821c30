// A slot of a sheet, and how many of a column are taken or free.
ghost use Rattle.std.specs.Prelude.{◌≡◌};
ghost use Rattle.sheet.specs.Slots.{used as first_slots, count, free, rule_in};

use crate::rule::{BODY_LIMIT, Rule};

// A call uses this many slots at most.
pub const SLOT_LIMIT: usize = 16_000;

// What an empty slot reads as.
const STRUCK: Rule = Rule {
    head: 0,
    body: [0; BODY_LIMIT],
    arity: 0,
    cost: 0,
    struck: true,
};

// A slot holds a rule, or is empty.
pub type Slot = Option<Rule>;

// The rule in a slot; an empty slot reads as a struck rule.
pub fn rule_in(slot: &Slot) -> Rule
    ensures { result ≡ rule_in slot.now }
{
    slot.unwrap_or(STRUCK)
}

// The slots that a call uses.
#[tactic(auto, using(std::proofs::lemmas::List::take_min))]
pub fn used(slots: &[Slot]) -> &[Slot]
    ensures { result.now ≡ first_slots slots.now }
{
    &slots[..SLOT_LIMIT.min(slots.len())]
}

// The number of rules entered: of slots before the first empty one.
#[tactic(auto, unfolding(crate::specs::Slots::count))]
pub fn entered(slots: &[Slot]) -> usize
    ensures { result ≡ count slots.now }
{
    let slots = used(slots);
    slots.iter().take_while(|slot| slot.is_some()).count()
}

// The number of free slots: so many rules can be entered.
#[tactic(auto, unfolding(crate::specs::Slots::free))]
pub fn vacant(slots: &[Slot]) -> usize
    ensures { result ≡ free slots.now }
{
    used(slots).iter().filter(|slot| slot.is_none()).count()
}
