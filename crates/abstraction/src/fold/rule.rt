// A rule over groups of facts.
ghost use Rattle.std.specs.Prelude.{◌≡◌, map as mapped};
ghost use Rattle.abstraction.specs.Fold.{group_of, fold_record, fold_slot};

use sheet::rule::{BODY_LIMIT, Rule};
use sheet::slot::Slot;

// The group of a fact; 0 for a fact beyond the map.
fn group(map: &[u16], fact: u16) -> u16
    ensures { result ≡ group_of map.now fact }
{
    map.get(fact as usize).copied().unwrap_or(0)
}

// The groups of the facts in all places of a body.
fn groups(places: [u16; BODY_LIMIT], map: &[u16]) -> [u16; BODY_LIMIT]
    ensures { result ≡ mapped (group_of map.now) places }
{
    places.map(|fact| group(map, fact))
}

// The rule that has each fact's group in its place; a struck one stays as it is.
fn fold_rule(rule: &Rule, map: &[u16]) -> Rule
    ensures { result ≡ fold_record (group_of map.now) rule.now }
{
    if rule.struck {
        return *rule;
    }
    let places = groups(rule.body, map);
    let arity = rule.body().len();
    Rule::new(group(map, rule.head), &places[0..arity], rule.cost)
}

// The slot with the rule in it folded.
pub fn fold_slot(slot: &Slot, map: &[u16]) -> Slot
    ensures { result ≡ fold_slot (group_of map.now) slot.now }
{
    slot.as_ref().map(|rule| fold_rule(rule, map))
}
