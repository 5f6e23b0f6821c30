// The public call.
ghost use Rattle.std.specs.Prelude.{◌≡◌, length};
ghost use Rattle.search.specs.Answered.{work_length, long_enough, search_answer, ran};
ghost use Rattle.search.specs.Left.{weights_left, reasons_left, line_left, Scratch};
ghost use Rattle.search.specs.Promise.{Promise};
ghost use Rattle.search.specs.Same.{SameColumns};
ghost use Rattle.sheet.specs.Refusals.{answer};

use crate::columns::{Columns, Found, are_long};
use crate::solve::solve;
use guide::Guide;
use guide::fit::check_fit;
use measure::Measure;
use sheet::passed::Passed;
use sheet::refusal::Refusal;

// Searches a passed sheet for a derivation of the target that has the least weight.
pub fn search<W: Measure, G: Guide<W>>(
    sheet: &Passed,
    target: u16,
    guide: &G,
    columns: &mut Columns<W>,
) -> Result<Found<W>, Refusal>
    ensures answered { answer result ≡ search_answer W.Measure.ops (G.Guide.floor guide.now) (G.Guide.rest guide.now) sheet.now.slots.now sheet.now.facts target (long_enough sheet.now.facts (length sheet.now.slots.now) (length columns.old.weights.now) (length columns.old.reasons.now) (length columns.old.line.now) (length columns.old.queue.now) (length columns.old.work.now)) }
    ensures weighs { columns.new.weights.now ≡ weights_left W.Measure.ops (G.Guide.rest guide.now) sheet.now.slots.now sheet.now.facts target (answer result) columns.old.weights.now }
    ensures gives { columns.new.reasons.now ≡ reasons_left W.Measure.ops (G.Guide.rest guide.now) sheet.now.slots.now sheet.now.facts target (answer result) columns.old.reasons.now }
    ensures draws { columns.new.line.now ≡ line_left W.Measure.ops (G.Guide.rest guide.now) sheet.now.slots.now sheet.now.facts target (answer result) columns.old.line.now }
    ensures queues { Scratch (ran (answer result)) (length sheet.now.slots.now) columns.old.queue.now columns.new.queue.now }
    ensures works { Scratch (ran (answer result)) (work_length sheet.now.facts (length sheet.now.slots.now)) columns.old.work.now columns.new.work.now }
    ensures promises { Promise W.Measure.ops (G.Guide.rest guide.now) sheet.now.slots.now sheet.now.facts target (answer result) columns.new.weights.now columns.new.reasons.now columns.new.line.now }
    ensures same { SameColumns columns.old columns.new }
{
    if target >= sheet.facts() {
        return Err(Refusal::Target);
    }
    let facts = sheet.facts() as usize;
    let rules = sheet.slots().len();
    if columns.line.len() < facts
        || !are_long(
            sheet,
            columns.weights.len(),
            columns.reasons.len(),
            columns.queue.len(),
            columns.work.len(),
        )
    {
        return Err(Refusal::Short);
    }
    check_fit(sheet, target, guide)?;
    solve(
        sheet,
        target,
        guide,
        &mut columns.weights[0..facts],
        &mut columns.reasons[0..facts],
        columns.line,
        &mut columns.queue[0..rules],
        &mut columns.work[0..3 * facts + 5 * rules],
    )
}
