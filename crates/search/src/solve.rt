// The search once nothing is left to refuse it.
ghost use Rattle.std.specs.Prelude.{◌≡◌, ◌<◌, ◌≤◌, false, ◌++◌, length, take, drop, slice_index_or};
ghost use Rattle.derivation.specs.Search.{answer as found_weight, weight_of, reason_of};
ghost use Rattle.search.specs.Answered.{column, work_length, told_found, end as end_state, end_line};
ghost use Rattle.search.specs.Unwound.{drawn_line};
ghost use Rattle.sheet.specs.Refusals.{answer, after};
ghost use Rattle.sheet.specs.Slots.{rule_at};
ghost use Rattle.std.specs.List.{AllByRecursion};

use crate::closed::Closed;
use crate::columns::{Counts, Found};
use crate::explore::explore;
use crate::line::draw;
use guide::Guide;
use measure::Measure;
use queue::entry::Entry;
use sheet::passed::Passed;
use sheet::refusal::Refusal;

// The answer where the target is closed: the line is drawn.
fn finish<W: Measure>(
    sheet: &Passed,
    target: u16,
    counts: Counts,
    closed: &Closed<W>,
    needed: &mut [u16],
    line: &mut [u16],
) -> Found<W>
    requires known { (target < sheet.now.facts) × (counts.closed ≤ sheet.now.facts) }
    requires long { (length closed.now.weights.now ≡ sheet.now.facts) × (length needed.old ≡ sheet.now.facts) × (sheet.now.facts ≤ length line.old) }
    requires stand { AllByRecursion (λ r. (r < length sheet.now.slots.now) × ((rule_at sheet.now.slots.now r).struck ≡ false)) (take counts.closed closed.now.order.now) }
    ensures answered { result ≡ record { weight = slice_index_or closed.now.weights.now target W.Measure.ops.heaviest; closed = counts.closed; taken = counts.taken; line = length (drawn_line sheet.now.slots.now (take counts.closed closed.now.order.now) target) } }
    ensures drawn { line.new ≡ drawn_line sheet.now.slots.now (take counts.closed closed.now.order.now) target ++ drop (length (drawn_line sheet.now.slots.now (take counts.closed closed.now.order.now) target)) line.old }
{
    let len = draw(
        sheet,
        &closed.order[0..counts.closed as usize],
        target,
        needed,
        line,
    );
    Found {
        weight: closed.weights[target as usize],
        closed: counts.closed,
        taken: counts.taken,
        line: len as u16,
    }
}

// Searches columns of just the lengths asked for. They stand apart: a struct of them would be taken apart again here, to make
// what is closed of three of them.
pub(crate) fn solve<'a, W: Measure, G: Guide<W>>(
    sheet: &Passed,
    target: u16,
    guide: &G,
    weights: &'a mut [W],
    reasons: &'a mut [u16],
    line: &mut [u16],
    queue: &mut [Entry<W>],
    work: &'a mut [u16],
) -> Result<Found<W>, Refusal>
    requires known { target < sheet.now.facts }
    requires long { (length weights.old ≡ sheet.now.facts) × (length reasons.old ≡ sheet.now.facts) × (sheet.now.facts ≤ length line.old) × (length sheet.now.slots.now ≤ length queue.old) × (length work.old ≡ work_length sheet.now.facts (length sheet.now.slots.now)) }
    ensures answered { answer result ≡ told_found (end_line W.Measure.ops (G.Guide.rest guide.now) sheet.now.slots.now target) (end_state W.Measure.ops (G.Guide.rest guide.now) sheet.now.slots.now target) (found_weight W.Measure.ops target (end_state W.Measure.ops (G.Guide.rest guide.now) sheet.now.slots.now target)) }
    ensures weighs { weights.new ≡ column (weight_of W.Measure.ops (end_state W.Measure.ops (G.Guide.rest guide.now) sheet.now.slots.now target)) sheet.now.facts }
    ensures gives { reasons.new ≡ column (reason_of (end_state W.Measure.ops (G.Guide.rest guide.now) sheet.now.slots.now target)) sheet.now.facts }
    ensures draws { line.new ≡ after (answer result) (λ _. end_line W.Measure.ops (G.Guide.rest guide.now) sheet.now.slots.now target ++ drop (length (end_line W.Measure.ops (G.Guide.rest guide.now) sheet.now.slots.now target)) line.old) line.old }
{
    let (order, work) = work.split_at_mut(sheet.facts() as usize);
    let (needed, work) = work.split_at_mut(sheet.facts() as usize);
    let mut closed = Closed {
        weights,
        reasons,
        order,
        count: 0,
    };
    let counts = explore(sheet, Some(target), guide, &mut closed, queue, work)?;
    Ok(finish(sheet, target, counts, &closed, needed, line))
}
