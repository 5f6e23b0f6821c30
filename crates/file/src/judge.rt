// The judgement of a whole file, before any of it is entered.
ghost use Rattle.std.specs.Prelude.{◌≡◌};
ghost use Rattle.file.specs.declared.fault.Field.TheVariants as at;
ghost use Rattle.sheet.specs.Edits.{new_answer};
ghost use Rattle.file.specs.Faults.{heard, mapped, says, at_field, report_of};
ghost use Rattle.file.specs.Whole.{opening, closing};
ghost use Rattle.file.specs.Reader.{Reads};

use crate::fault::{Cause, Fault, Field};
use crate::header::Header;
use crate::reader::Reader;
use crate::rules::take_rule;
use sheet::edit::check_new;
use sheet::slot::Slot;

// The sheet must be new; its refusal is told with the first field.
pub fn check_sheet(slots: &[Slot]) -> Result<(), Fault>
    ensures { heard report_of result ≡ at_field at.Facts 0 (says (new_answer slots.now)) }
{
    check_new(slots).map_err(|refusal| Fault {
        cause: Cause::Sheet(refusal),
        field: Field::Facts,
        place: 0,
    })
}

// Takes the fields before the rules: answers the header and the number of rules.
#[tactic(auto, unfolding(crate::specs::Whole::opening))]
pub fn take_opening(reader: &mut Reader, slots: &[Slot]) -> Result<(Header, u16), Fault>
    ensures { Reads report_of (opening slots.now reader.old.size) reader.old result reader.new }
{
    let facts = reader.field(Field::Facts, Reader::short)?;
    let target = reader.field(Field::Target, Reader::short)?;
    let count = reader.field(Field::Rules, |reader| reader.count(slots))?;
    Ok((Header { facts, target }, count))
}

// So many rules must follow, and nothing after them.
#[tactic(auto, using(crate::proofs::Closed::closing_more, crate::proofs::Closed::closing_out, crate::proofs::Closed::closing_end))]
pub fn check_rules(mut reader: Reader, count: u16) -> Result<(), Fault>
    ensures { heard report_of result ≡ mapped (λ _. tt) (closing reader.entry.size count reader.entry.left.now) }
{
    for _rule in 0..count {
        take_rule(&mut reader)?;
    }
    reader.field(Field::Tail, |reader| reader.end())
}
