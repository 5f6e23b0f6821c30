// The rules of a passed sheet, by number.
ghost use Rattle.std.specs.Prelude.{◌≡◌, ◌<◌, true, false, length};
ghost use Rattle.sheet.specs.Rules.{all_below, body_of};
ghost use Rattle.sheet.specs.Slots.{rule_at};

use sheet::passed::Passed;
use sheet::rule::Rule;
use sheet::slot::rule_in;

// The rule of a number. One that stands names only facts below the fact count.
pub(crate) fn rule_of(sheet: &Passed, number: usize) -> Rule
    requires { number < length sheet.now.slots.now }
    ensures is { result ≡ rule_at sheet.now.slots.now number }
    ensures known { result.struck ≡ false → (result.head < sheet.now.facts) × (all_below sheet.now.facts (body_of result) ≡ true) }
{
    rule_in(&sheet.slots()[number])
}
