// The survey: a search with no guide and no target, run till the queue is empty.
ghost use Rattle.std.specs.Prelude.{◌≡◌, ℕ, ◌≤◌, true, length, is_ok};
ghost use Rattle.derivation.specs.Search.{closed_count, taken_count, weight_of, reason_of};
ghost use Rattle.search.specs.Answered.{column, work_length};
ghost use Rattle.search.specs.Left.{Scratch};
ghost use Rattle.search.specs.Same.{SameSurveyColumns};
ghost use Rattle.search.specs.Surveyed.{survey_long, explored, survey_answer, floors_left, causes_left, Floors};
ghost use Rattle.sheet.specs.Refusals.{answer};
ghost use Rattle.sheet.specs.declared.refusal.Refusal.TheVariants.{OutOfReach};

use crate::closed::Closed;
use crate::columns::{Counts, are_long};
use crate::explore::explore;
use guide::blank::Blank;
use measure::Measure;
use queue::entry::Entry;
use sheet::passed::Passed;
use sheet::refusal::Refusal;

// The counts that an end without a target tells. The form of the main loop is fixed: it leaves with the refusal that has them.
fn counts_of(refusal: Refusal) -> Counts
    ensures { (closed taken : ℕ) → refusal ≡ OutOfReach closed taken → result ≡ record { closed = closed; taken = taken } }
{
    match refusal {
        Refusal::OutOfReach(closed, taken) => Counts { closed, taken },
        _ => Counts {
            closed: 0,
            taken: 0,
        },
    }
}

// Explores columns of just the lengths asked for, and answers the counts. They stand apart as in solve, and are three of its five.
fn survey_slots<'a, W: Measure>(
    sheet: &Passed,
    weights: &'a mut [W],
    reasons: &'a mut [u16],
    queue: &mut [Entry<W>],
    work: &'a mut [u16],
) -> Counts
    requires { (length weights.old ≡ sheet.now.facts) × (length reasons.old ≡ sheet.now.facts) × (length sheet.now.slots.now ≤ length queue.old) × (length work.old ≡ work_length sheet.now.facts (length sheet.now.slots.now)) }
    ensures answered { result ≡ record { closed = closed_count (explored W.Measure.ops sheet.now.slots.now); taken = taken_count (explored W.Measure.ops sheet.now.slots.now) } }
    ensures weighs { weights.new ≡ column (weight_of W.Measure.ops (explored W.Measure.ops sheet.now.slots.now)) sheet.now.facts }
    ensures gives { reasons.new ≡ column (reason_of (explored W.Measure.ops sheet.now.slots.now)) sheet.now.facts }
{
    let (order, work) = work.split_at_mut(sheet.facts() as usize);
    let mut closed = Closed {
        weights,
        reasons,
        order,
        count: 0,
    };
    match explore(sheet, None, &Blank, &mut closed, queue, work) {
        Ok(counts) => counts,
        Err(refusal) => counts_of(refusal),
    }
}

// The columns that a survey writes.
#[derive(Drop)]
pub struct SurveyColumns<'a, W> {
    // the least weight of a derivation of each derivable fact, heaviest for the others
    pub weights: &'a mut [W],
    // the rule that closed each fact, 65,535 for the others
    pub reasons: &'a mut [u16],
    // the queue of entries
    pub queue: &'a mut [Entry<W>],
    // the working column
    pub work: &'a mut [u16],
}

// Surveys a passed sheet: the weight column then holds the least weight of a derivation of each derivable fact.
pub fn survey<W: Measure>(sheet: &Passed, columns: &mut SurveyColumns<W>) -> Result<Counts, Refusal>
    ensures answered { answer result ≡ survey_answer W.Measure.ops sheet.now.slots.now (survey_long sheet.now.facts (length sheet.now.slots.now) (length columns.old.weights.now) (length columns.old.reasons.now) (length columns.old.queue.now) (length columns.old.work.now)) }
    ensures weighs { columns.new.weights.now ≡ floors_left W.Measure.ops sheet.now.slots.now sheet.now.facts (survey_long sheet.now.facts (length sheet.now.slots.now) (length columns.old.weights.now) (length columns.old.reasons.now) (length columns.old.queue.now) (length columns.old.work.now)) columns.old.weights.now }
    ensures gives { columns.new.reasons.now ≡ causes_left W.Measure.ops sheet.now.slots.now sheet.now.facts (survey_long sheet.now.facts (length sheet.now.slots.now) (length columns.old.weights.now) (length columns.old.reasons.now) (length columns.old.queue.now) (length columns.old.work.now)) columns.old.reasons.now }
    ensures queues { Scratch (survey_long sheet.now.facts (length sheet.now.slots.now) (length columns.old.weights.now) (length columns.old.reasons.now) (length columns.old.queue.now) (length columns.old.work.now)) (length sheet.now.slots.now) columns.old.queue.now columns.new.queue.now }
    ensures works { Scratch (survey_long sheet.now.facts (length sheet.now.slots.now) (length columns.old.weights.now) (length columns.old.reasons.now) (length columns.old.queue.now) (length columns.old.work.now)) (work_length sheet.now.facts (length sheet.now.slots.now)) columns.old.work.now columns.new.work.now }
    ensures floors { is_ok result ≡ true → Floors W.Measure.ops sheet.now.slots.now sheet.now.facts columns.new.weights.now }
    ensures same { SameSurveyColumns columns.old columns.new }
{
    if !are_long(
        sheet,
        columns.weights.len(),
        columns.reasons.len(),
        columns.queue.len(),
        columns.work.len(),
    ) {
        return Err(Refusal::Short);
    }
    let facts = sheet.facts() as usize;
    let rules = sheet.slots().len();
    Ok(survey_slots(
        sheet,
        &mut columns.weights[0..facts],
        &mut columns.reasons[0..facts],
        &mut columns.queue[0..rules],
        &mut columns.work[0..3 * facts + 5 * rules],
    ))
}
