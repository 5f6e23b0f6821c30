// The check of fit: the target, then the rules by number.
ghost use Rattle.std.specs.Prelude.{◌≡◌, ◌&&◌, map, length};
ghost use Rattle.derivation.specs.Fit.{all_below, floor_kept, rest_kept, rule_fits, check_fit};
ghost use Rattle.derivation.specs.Joins.{joined};
ghost use Rattle.guide.specs.Fit.{fit_answer, Decides};
ghost use Rattle.guide.specs.Weighted.{weigh, weighted};
ghost use Rattle.sheet.specs.Refusals.{answer};
ghost use Rattle.sheet.specs.Rules.{body_of};
ghost use Rattle.std.specs.Prelude.{Some};

use crate::Guide;
use crate::each::join_each;
use measure::Measure;
use sheet::passed::Passed;
use sheet::refusal::{Misfit, Refusal};
use sheet::rule::Rule;
use sheet::slot::rule_in;

// Whether a rule keeps both conditions:
// it undercuts neither the rest of a fact in its body, by its effort, the other floors and the rest of its head,
// nor the floor of its head, by its effort and the floors of its body.
fn keeps<W: Measure, G: Guide<W>>(rule: &Rule, guide: &G) -> bool
    ensures { result ≡ (floor_kept W.Measure.ops (G.Guide.floor guide.now) (weigh W.Measure.ops (Some rule.now)) && all_below (length (body_of rule.now)) (rest_kept W.Measure.ops (G.Guide.floor guide.now) (G.Guide.rest guide.now) (weigh W.Measure.ops (Some rule.now)))) }
{
    let body = rule.body();
    let head_rest = guide.rest(rule.head);
    let mut before = W::effort(rule.cost);
    for (place, fact) in body.iter().enumerate() {
        let beside = join_each(before, &body[place + 1..], |fact| guide.floor(fact));
        if !guide.rest(*fact).no_heavier(beside.join(head_rest)) {
            return false;
        }
        before = before.join(guide.floor(*fact));
    }
    guide.floor(rule.head).no_heavier(before)
}

// Whether a rule is struck or keeps both conditions.
fn rule_fits<W: Measure, G: Guide<W>>(rule: &Rule, guide: &G) -> bool
    ensures { result ≡ rule_fits W.Measure.ops (G.Guide.floor guide.now) (G.Guide.rest guide.now) (weigh W.Measure.ops (Some rule.now)) }
{
    rule.struck || keeps(rule, guide)
}

// Accepts a guide that fits the rules and the target; else tells the target, or the first rule that breaks a condition.
pub fn check_fit<W: Measure, G: Guide<W>>(
    sheet: &Passed,
    target: u16,
    guide: &G,
) -> Result<(), Refusal>
    ensures answered { answer result ≡ fit_answer (check_fit W.Measure.ops (G.Guide.floor guide.now) (G.Guide.rest guide.now) (weighted W.Measure.ops sheet.now.slots.now) target) target }
    ensures decides { Decides W.Measure.ops (G.Guide.floor guide.now) (G.Guide.rest guide.now) (weighted W.Measure.ops sheet.now.slots.now) target (answer result) }
{
    if !guide.rest(target).no_heavier(W::nothing()) {
        return Err(Refusal::Unfit(Misfit::Target(target)));
    }
    let slots = sheet.slots();
    // the form is fixed: the rules are gone through with their numbers
    for (number, slot) in slots.iter().enumerate() {
        if !rule_fits(&rule_in(slot), guide) {
            return Err(Refusal::Unfit(Misfit::Rule(number as u16)));
        }
    }
    Ok(())
}
