// Before a search: the open places of each rule, and the chains.
// A place is 4 × the rule's number + its index in the body.
// A link is 0 at the end of a chain, or a place + 1: the lent columns hold numbers, and no Option fits.
ghost use Rattle.std.specs.Prelude.{◌≡◌, ℕ, ◌+◌, ◌*◌, ◌<◌, ◌≤◌, length, slice_index};
ghost use Rattle.search.specs.Chains.{Chained};
ghost use Rattle.search.specs.Waiting.{arity};
ghost use Rattle.sheet.specs.Slots.{rule_at};

use crate::rules::rule_of;
use sheet::passed::Passed;
use sheet::rule::{BODY_LIMIT, Rule};
use sheet::slot::rule_in;

// The open places of a rule before any fact is closed: its body's length, none for a struck rule.
fn arity_of(rule: &Rule) -> u16
    ensures { result ≡ arity rule.now }
{
    if rule.struck {
        return 0;
    }
    rule.body().len() as u16
}

// Counts the open places of each rule.
pub(crate) fn count_missing(sheet: &Passed, missing: &mut [u16])
    requires { length missing.old ≡ length sheet.now.slots.now }
    ensures { (k : ℕ) → k < length sheet.now.slots.now → slice_index missing.new k ≡ arity (rule_at sheet.now.slots.now k) }
{
    // by index: after a loop over an adapter of `iter_mut` the check knows no element
    for (i, slot) in sheet.slots().iter().enumerate() {
        missing[i] = arity_of(&rule_in(slot));
    }
}

// Puts the places of one rule in front of the chains of the facts that they name.
fn chain_rule(sheet: &Passed, number: usize, heads: &mut [u16], next: &mut [u16])
    requires known { number < length sheet.now.slots.now }
    requires long { (length heads.old ≡ sheet.now.facts) × (4 * length sheet.now.slots.now ≤ length next.old) }
    requires chained { Chained sheet.now.slots.now heads.old next.old (4 * number) }
    ensures { Chained sheet.now.slots.now heads.new next.new (4 * number + 4) }
{
    let rule = rule_of(sheet, number);
    if rule.struck {
        return;
    }
    let first = BODY_LIMIT * number;
    for (i, fact) in rule.body().iter().enumerate() {
        let place = first + i;
        let fact = *fact as usize;
        next[place] = heads[fact];
        heads[fact] = (place + 1) as u16;
    }
}

// The rules of a sheet, and to each fact the chain of the places of standing rules that name it.
#[derive(Clone, Copy)]
pub(crate) struct Chains<'s, 'a> {
    pub sheet: Passed<'s>,
    // the last place that names each fact, as a link
    pub heads: &'a [u16],
    // the place before each place that names the same fact, as a link
    pub next: &'a [u16],
    ghost heads_long: { length heads.now ≡ sheet.facts },
    ghost next_long: { 4 * length sheet.slots.now ≤ length next.now },
    ghost chained: { Chained sheet.slots.now heads.now next.now (4 * length sheet.slots.now) },
}

impl<'s, 'a> Chains<'s, 'a> {
    // Chains the places of a sheet, in a column for the heads and the links of places.
    pub(crate) fn new(sheet: &Passed<'s>, column: &'a mut [u16]) -> Chains<'s, 'a>
        requires { sheet.now.facts + 4 * length sheet.now.slots.now ≤ length column.old }
        ensures { result.sheet ≡ sheet.now }
    {
        let (heads, next) = column.split_at_mut(sheet.facts() as usize);
        heads.fill(0);
        // by number: of a rule by its slot the check knows that it is within the sheet only through its number
        for number in 0..sheet.slots().len() {
            chain_rule(sheet, number, heads, next);
        }
        Chains {
            sheet: *sheet,
            heads,
            next,
        }
    }
}
