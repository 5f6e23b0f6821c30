// The line: what the target needs of the rules that closed a fact, in their order.
ghost use Rattle.std.specs.Prelude.{◌≡◌, ℕ, ◌<◌, ◌≤◌, true, false, [], ◌∷◌, ◌++◌, reverse, length, take, drop, if◌then◌else◌, slice_index};
ghost use Rattle.derivation.specs.Search.{among};
ghost use Rattle.search.specs.Unwound.{unwound_rules};
ghost use Rattle.sheet.specs.Rules.{all_below};
ghost use Rattle.sheet.specs.Slots.{rule_at};
ghost use Rattle.std.specs.List.{AllByRecursion};

use crate::rules::rule_of;
use sheet::passed::Passed;

// Marks the facts of a body as needed, by a 1: the column is lent as numbers.
fn mark(body: &[u16], needed: &mut [u16])
    requires { all_below (length needed.old) body.now ≡ true }
    ensures { (f : ℕ) → slice_index needed.new f ≡ (if among body.now f then 1 else slice_index needed.old f) }
{
    for fact in body {
        needed[*fact as usize] = 1;
    }
}

// Goes back from the last rule, writes those that are needed, and answers how many there are.
fn unwind(sheet: &Passed, order: &[u16], target: u16, needed: &mut [u16], line: &mut [u16]) -> usize
    requires known { (target < sheet.now.facts) × (length needed.old ≡ sheet.now.facts) × (length order.now ≤ length line.old) }
    requires stand { AllByRecursion (λ r. (r < length sheet.now.slots.now) × ((rule_at sheet.now.slots.now r).struck ≡ false)) order.now }
    ensures few { result ≤ length order.now }
    ensures written { take result line.new ≡ unwound_rules sheet.now.slots.now (reverse order.now) (target ∷ []) }
    ensures beyond { drop result line.new ≡ drop result line.old }
{
    needed.fill(0);
    needed[target as usize] = 1;
    // counted by hand: only some of the rules are written, and a lent column has no push
    let mut len = 0;
    for number in order.iter().rev() {
        let rule = rule_of(sheet, *number as usize);
        if needed[rule.head as usize] != 1 {
            continue;
        }
        line[len] = *number;
        len += 1;
        mark(rule.body(), needed);
    }
    len
}

// Writes the line, and answers its length.
pub(crate) fn draw(
    sheet: &Passed,
    order: &[u16],
    target: u16,
    needed: &mut [u16],
    line: &mut [u16],
) -> usize
    requires known { (target < sheet.now.facts) × (length needed.old ≡ sheet.now.facts) × (length order.now ≤ length line.old) }
    requires stand { AllByRecursion (λ r. (r < length sheet.now.slots.now) × ((rule_at sheet.now.slots.now r).struck ≡ false)) order.now }
    ensures counts { result ≡ length (unwound_rules sheet.now.slots.now (reverse order.now) (target ∷ [])) }
    ensures few { result ≤ length order.now }
    ensures written { line.new ≡ reverse (unwound_rules sheet.now.slots.now (reverse order.now) (target ∷ [])) ++ drop result line.old }
{
    let len = unwind(sheet, order, target, needed, line);
    line[0..len].reverse();
    len
}
