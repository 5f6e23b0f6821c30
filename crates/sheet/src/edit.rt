// The edits of a sheet. A refused edit changes nothing.
ghost use Rattle.std.specs.Prelude.{◌≡◌, ℕ};
ghost use Rattle.sheet.specs.Refusals.{answer, accepted};
ghost use Rattle.sheet.specs.Edits.{open_answer, open_slots, body_answer, cost_answer, new_answer, room_answer, enter_answer, enter_slots, standing_answer, reprice_answer, reprice_slots, strike_answer, strike_slots};
ghost use Rattle.sheet.specs.Slots.{rule_at};

use crate::refusal::Refusal;
use crate::rule::{BODY_LIMIT, Rule};
use crate::slot::{SLOT_LIMIT, Slot, entered, vacant};
use measure::COST_LIMIT;

// Makes a new sheet of the slots: every one is emptied.
pub fn open(slots: &mut [Slot]) -> Result<(), Refusal>
    ensures answered { answer result ≡ open_answer slots.old }
    ensures left { slots.new ≡ open_slots slots.old }
{
    if slots.len() > SLOT_LIMIT {
        return Err(Refusal::Slots);
    }
    slots.fill(None);
    Ok(())
}

// A body of more than 4 facts is refused.
pub fn check_body(arity: usize) -> Result<(), Refusal>
    ensures { answer result ≡ body_answer arity }
{
    if arity > BODY_LIMIT {
        return Err(Refusal::Body);
    }
    Ok(())
}

// A cost over 1,000,000 is refused. It has its own type, limit and refusal, so one test of both would only pass these on.
pub fn check_cost(cost: u32) -> Result<(), Refusal>
    ensures { answer result ≡ cost_answer cost }
{
    if cost > COST_LIMIT {
        return Err(Refusal::Cost);
    }
    Ok(())
}

// A sheet with rules entered is refused.
pub fn check_new(slots: &[Slot]) -> Result<(), Refusal>
    ensures { answer result ≡ new_answer slots.now }
{
    if entered(slots) > 0 {
        return Err(Refusal::Used);
    }
    Ok(())
}

// More rules than free slots are refused.
pub fn check_room(slots: &[Slot], count: usize) -> Result<(), Refusal>
    ensures { answer result ≡ room_answer slots.now count }
{
    if vacant(slots) < count {
        return Err(Refusal::Full);
    }
    Ok(())
}

// Enters a rule in the next slot, and answers its number.
pub fn enter(slots: &mut [Slot], head: u16, body: &[u16], cost: u32) -> Result<u16, Refusal>
    ensures answered { answer result ≡ enter_answer slots.old body.now cost }
    ensures left { slots.new ≡ enter_slots slots.old head body.now cost }
{
    check_body(body.len())?;
    check_cost(cost)?;
    let number = entered(slots);
    if number >= slots.len().min(SLOT_LIMIT) {
        return Err(Refusal::Full);
    }
    slots[number] = Some(Rule::new(head, body, cost));
    Ok(number as u16)
}

// The rule of this number, if it is entered and not struck.
fn standing(slots: &[Slot], number: u16) -> Result<Rule, Refusal>
    ensures { answer result ≡ standing_answer slots.now number (accepted (rule_at slots.now number)) }
{
    let number = number as usize;
    if number >= entered(slots) {
        return Err(Refusal::Unknown);
    }
    let Some(rule) = slots[number] else {
        return Err(Refusal::Unknown);
    };
    if rule.struck {
        return Err(Refusal::Struck);
    }
    Ok(rule)
}

// Replaces the cost of a rule.
pub fn reprice(slots: &mut [Slot], number: u16, cost: u32) -> Result<(), Refusal>
    ensures answered { answer result ≡ reprice_answer slots.old number cost }
    ensures left { slots.new ≡ reprice_slots slots.old number cost }
{
    let mut rule = standing(slots, number)?;
    check_cost(cost)?;
    rule.cost = cost;
    slots[number as usize] = Some(rule);
    Ok(())
}

// Strikes a rule: it keeps its number and is out of use for good.
pub fn strike(slots: &mut [Slot], number: u16) -> Result<(), Refusal>
    ensures answered { answer result ≡ strike_answer slots.old number }
    ensures left { slots.new ≡ strike_slots slots.old number }
{
    let mut rule = standing(slots, number)?;
    rule.struck = true;
    slots[number as usize] = Some(rule);
    Ok(())
}
