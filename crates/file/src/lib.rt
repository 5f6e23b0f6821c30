// The reader of sheet files.
#![tactic(auto)]

mod examples;
pub mod fault;
mod fill;
pub mod header;
mod judge;
mod number;
mod reader;
mod rules;
#[cfg(test)]
mod tests;

ghost use Rattle.std.specs.Prelude.{◌≡◌};
ghost use Rattle.file.specs.Faults.{heard, report_of};
ghost use Rattle.file.specs.Entering.{read_answer, read_slots};
ghost use Rattle.file.specs.Written.{Faithful};

use fault::Fault;
use fill::fill;
use header::Header;
use judge::{check_rules, check_sheet, take_opening};
use reader::Reader;
use sheet::slot::Slot;

// Reads a file into a sheet with no rules entered: enters every rule of it, or none.
#[tactic(auto, unfolding(crate::specs::Whole::file))]
pub fn read(bytes: &[u8], slots: &mut [Slot]) -> Result<Header, Fault>
    ensures answered { heard report_of result ≡ read_answer bytes.now slots.old }
    ensures left { slots.new ≡ read_slots bytes.now slots.old }
    ensures faithful { Faithful bytes.now slots.old slots.new (heard report_of result) }
{
    check_sheet(slots)?;
    let mut reader = Reader::new(bytes);
    let (header, count) = take_opening(&mut reader, slots)?;
    check_rules(reader, count)?;
    fill(slots, reader);
    Ok(header)
}
