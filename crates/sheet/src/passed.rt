// The passed view of a sheet.
pub mod pass;

ghost use Rattle.std.specs.Prelude.{◌≡◌, true, length, nat_le};
ghost use Rattle.sheet.specs.Slots.{passes};

use crate::slot::Slot;

// The entered rules of a sheet and a fact count, for reading only.
// In every passed sheet each standing rule names only facts below the fact count.
#[derive(Clone, Copy)]
pub struct Passed<'a> {
    slots: &'a [Slot],
    facts: u16,
    ghost within: { passes facts slots.now ≡ true },
    ghost few: { nat_le (length slots.now) 16000 ≡ true },
    ghost small: { nat_le facts 4096 ≡ true },
}
