// Folding: writes the rules of a sheet into a second sheet, over groups of facts.
mod rule;

ghost use Rattle.std.specs.Prelude.{◌≡◌, ◌<◌, ◌≤◌, length, nat_le, IfSome};
ghost use Rattle.std.specs.List.{position_from};
ghost use Rattle.abstraction.specs.Fold.{group_of, folded, map_answer, fold_answer, fold_slots};
ghost use Rattle.abstraction.specs.Folds.{Folds};
ghost use Rattle.sheet.specs.Refusals.{answer};

use rule::fold_slot;
use sheet::edit::{check_new, check_room};
use sheet::passed::Passed;
use sheet::refusal::Refusal;
use sheet::slot::Slot;

// The lowest fact whose group is not below the number of groups.
fn first_outside(entries: &[u16], groups: u16) -> Option<usize>
    ensures lowest { result ≡ position_from (λ g. nat_le groups g) 0 entries.now }
    ensures inside { IfSome result (λ fact. fact < length entries.now) }
{
    entries.iter().position(|group| *group >= groups)
}

// A group not below the number of groups is refused; the lowest such fact is told.
pub(crate) fn check_groups(entries: &[u16], groups: u16) -> Result<(), Refusal>
    requires { length entries.now ≤ 65535 }
    ensures { answer result ≡ map_answer groups 0 entries.now }
{
    match first_outside(entries, groups) {
        Some(fact) => Err(Refusal::Map(fact as u16)),
        None => Ok(()),
    }
}

// Writes each rule, over groups, into the slot of its number.
pub(crate) fn write(slots: &[Slot], map: &[u16], second: &mut [Slot])
    requires { length slots.now ≤ length second.old }
    ensures { second.new ≡ folded (group_of map.now) slots.now second.old }
{
    // by index: after a loop over an adapter of `iter_mut` the check knows no element
    for (number, slot) in slots.iter().enumerate() {
        second[number] = fold_slot(slot, map);
    }
}

// What a folding asks for: an unused second sheet with room for the rules, and one of the groups for each fact.
fn check(sheet: &Passed, map: &[u16], groups: u16, second: &[Slot]) -> Result<(), Refusal>
    ensures { answer result ≡ fold_answer sheet.now.slots.now sheet.now.facts map.now groups second.now }
{
    check_new(second)?;
    check_room(second, sheet.slots().len())?;
    let facts = sheet.facts() as usize;
    if map.len() < facts {
        return Err(Refusal::Short);
    }
    check_groups(&map[0..facts], groups)
}

// Folds a passed sheet by a map, which gives each fact one of so many groups, into a second sheet that has no rules entered.
// A refusal changes nothing.
pub fn fold(sheet: &Passed, map: &[u16], groups: u16, second: &mut [Slot]) -> Result<(), Refusal>
    ensures answered { answer result ≡ fold_answer sheet.now.slots.now sheet.now.facts map.now groups second.old }
    ensures left { second.new ≡ fold_slots sheet.now.slots.now sheet.now.facts map.now groups second.old }
    ensures folds { Folds sheet.now.slots.now sheet.now.facts map.now groups second.old second.new (answer result) }
{
    check(sheet, map, groups, second)?;
    write(sheet.slots(), map, second);
    Ok(())
}
