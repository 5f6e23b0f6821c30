// Entering the rules of a file.
ghost use Rattle.std.specs.Prelude.{◌≡◌, List, length, Ok};
ghost use Rattle.file.specs.Rules.{Entry};
ghost use Rattle.file.specs.Whole.{closing};
ghost use Rattle.file.specs.Entering.{filled};

use crate::reader::Reader;
use crate::rules::take_rule;
use sheet::slot::Slot;

// Fills the next empty slots with the rules that are left, where nothing follows them.
pub fn fill(slots: &mut [Slot], mut reader: Reader)
    ensures { (es : List Entry) → Ok es ≡ closing reader.entry.size (length es) reader.entry.left.now → slots.new ≡ filled es slots.old }
{
    for slot in slots.iter_mut() {
        if slot.is_none() {
            let Ok(rule) = take_rule(&mut reader) else {
                return;
            };
            *slot = Some(rule);
        }
    }
}
