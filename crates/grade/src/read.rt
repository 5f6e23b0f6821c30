// Reading the sheet file.
ghost use Rattle.std.specs.Prelude.{◌≡◌};
ghost use Rattle.file.specs.Entering.{read_answer, read_slots};
ghost use Rattle.grade.specs.Reading.{sheet_answer};
ghost use Rattle.sheet.specs.Refusals.{answer};

use file::header::Header;
use sheet::refusal::Refusal;
use sheet::slot::Slot;

// Reads a file into a new sheet. Of a fault only the refusal is told, and not the field and its place.
pub(crate) fn read_sheet(bytes: &[u8], slots: &mut [Slot]) -> Result<Header, Refusal>
    ensures answered { answer result ≡ sheet_answer (read_answer bytes.now slots.old) }
    ensures left { slots.new ≡ read_slots bytes.now slots.old }
{
    file::read(bytes, slots).map_err(|fault| fault.cause.refusal())
}
