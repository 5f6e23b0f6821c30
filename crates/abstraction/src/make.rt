// Making a guide from a map: the sheet is folded, surveyed, and its contexts are computed.
ghost use Rattle.std.specs.Prelude.{◌≡◌, ◌<◌, ◌≤◌, true, ◌++◌, length, take, drop, is_ok};
ghost use Rattle.abstraction.specs.Fold.{group_of, folded};
ghost use Rattle.abstraction.specs.Made.{Made};
ghost use Rattle.abstraction.specs.Make.{make_long, make_answer, over_groups, second_left, floors_left, reasons_left, rests_left};
ghost use Rattle.abstraction.specs.Same.{SameGuideColumns};
ghost use Rattle.contexts.specs.Answered.{queue_length};
ghost use Rattle.derivation.specs.Contexts.{context};
ghost use Rattle.derivation.specs.Fit.{Fit};
ghost use Rattle.derivation.specs.Search.{weight_of, reason_of};
ghost use Rattle.guide.specs.Map.{by_group};
ghost use Rattle.guide.specs.Weighted.{weighted};
ghost use Rattle.search.specs.Answered.{column, work_length};
ghost use Rattle.search.specs.Entries.{held};
ghost use Rattle.search.specs.Left.{Scratch};
ghost use Rattle.search.specs.Surveyed.{explored};
ghost use Rattle.sheet.specs.Refusals.{answer, accepted};
ghost use Rattle.sheet.specs.Slots.{passes};

use crate::fold::{check_groups, write};
use contexts::rests::{ContextColumns, contexts};
use measure::Measure;
use queue::entry::Entry;
use search::survey::{SurveyColumns, survey};
use sheet::edit::{check_new, check_room};
use sheet::passed::Passed;
use sheet::passed::pass::{FACT_LIMIT, pass};
use sheet::refusal::Refusal;
use sheet::slot::Slot;

// The columns that making a guide writes, and the second sheet that it folds into.
#[derive(Drop)]
pub struct GuideColumns<'a, W> {
    // the rules over groups
    pub second: &'a mut [Slot],
    // the least weight of a derivation of each group, heaviest where it has no derivation
    pub floors: &'a mut [W],
    // the least weight of a chain from each group to the target's, heaviest where there is none
    pub rests: &'a mut [W],
    // the rule that closed each group, 65,535 for the others
    pub reasons: &'a mut [u16],
    // the queue of entries
    pub queue: &'a mut [Entry<W>],
    // the working column
    pub work: &'a mut [u16],
}

impl<W> GuideColumns<'_, W> {
    // Whether the columns, and a map of this length, are long enough for so many groups.
    fn are_long(&self, sheet: &Passed, map: usize, groups: u16) -> bool
        ensures { result ≡ make_long sheet.now.facts (length sheet.now.slots.now) groups map (length self.now.floors.now) (length self.now.rests.now) (length self.now.reasons.now) (length self.now.queue.now) (length self.now.work.now) }
    {
        let rules = sheet.slots().len();
        let groups = groups as usize;
        sheet.facts() as usize <= map
            && groups <= self.floors.len()
            && groups <= self.rests.len()
            && groups <= self.reasons.len()
            && 4 * rules + 1 <= self.queue.len()
            && 3 * groups + 5 * rules <= self.work.len()
    }
}

// Every refusal, in the order of their numbers.
fn check<W>(
    sheet: &Passed,
    target: u16,
    map: &[u16],
    groups: u16,
    columns: &GuideColumns<W>,
) -> Result<(), Refusal>
    ensures { answer result ≡ make_answer sheet.now.slots.now sheet.now.facts target map.now groups columns.now.second.now (make_long sheet.now.facts (length sheet.now.slots.now) groups (length map.now) (length columns.now.floors.now) (length columns.now.rests.now) (length columns.now.reasons.now) (length columns.now.queue.now) (length columns.now.work.now)) }
{
    let second: &[Slot] = columns.second;
    let rules = sheet.slots().len();
    check_new(second)?;
    check_room(&second[0..rules.min(second.len())], rules)?;
    if groups == 0 || groups > FACT_LIMIT {
        return Err(Refusal::Facts);
    }
    let facts = sheet.facts();
    if target >= facts {
        return Err(Refusal::Target);
    }
    if !columns.are_long(sheet, map.len(), groups) {
        return Err(Refusal::Short);
    }
    check_groups(&map[0..facts as usize], groups)
}

// Surveys a view, and computes its contexts with the weights found as floors.
// Here and below the columns stand apart: the check covers no view of one field of a struct while its other fields are written.
fn weigh<W: Measure>(
    view: &Passed,
    target: u16,
    floors: &mut [W],
    rests: &mut [W],
    reasons: &mut [u16],
    queue: &mut [Entry<W>],
    work: &mut [u16],
) -> Result<(), Refusal>
    requires target { target < view.now.facts }
    requires long { (view.now.facts ≤ length floors.old) × (view.now.facts ≤ length rests.old) × (view.now.facts ≤ length reasons.old) × (queue_length (length view.now.slots.now) ≤ length queue.old) × (work_length view.now.facts (length view.now.slots.now) ≤ length work.old) }
    ensures answered { answer result ≡ accepted tt }
    ensures weighs { floors.new ≡ column (weight_of W.Measure.ops (explored W.Measure.ops view.now.slots.now)) view.now.facts ++ drop view.now.facts floors.old }
    ensures gives { reasons.new ≡ column (reason_of (explored W.Measure.ops view.now.slots.now)) view.now.facts ++ drop view.now.facts reasons.old }
    ensures leads { rests.new ≡ column (context W.Measure.ops (held W.Measure.ops (take view.now.facts floors.new)) (weighted W.Measure.ops view.now.slots.now) target) view.now.facts ++ drop view.now.facts rests.old }
    ensures queues { Scratch true (queue_length (length view.now.slots.now)) queue.old queue.new }
    ensures works { Scratch true (work_length view.now.facts (length view.now.slots.now)) work.old work.new }
{
    survey(
        view,
        &mut SurveyColumns {
            weights: floors,
            reasons,
            queue,
            work,
        },
    )?;
    contexts(
        view,
        target,
        &floors[0..view.facts() as usize],
        &mut ContextColumns { rests, queue, work },
    )
}

// Folds the rules into the second sheet, and weighs its groups.
fn fill<W: Measure>(
    sheet: &Passed,
    target: u16,
    map: &[u16],
    groups: u16,
    second: &mut [Slot],
    floors: &mut [W],
    rests: &mut [W],
    reasons: &mut [u16],
    queue: &mut [Entry<W>],
    work: &mut [u16],
) -> Result<(), Refusal>
    requires few { (0 < groups) × (groups ≤ 4096) × (target < groups) }
    requires within { passes groups (over_groups sheet.now.slots.now map.now) ≡ true }
    requires room { length sheet.now.slots.now ≤ length second.old }
    requires long { (groups ≤ length floors.old) × (groups ≤ length rests.old) × (groups ≤ length reasons.old) × (queue_length (length sheet.now.slots.now) ≤ length queue.old) × (work_length groups (length sheet.now.slots.now) ≤ length work.old) }
    ensures answered { answer result ≡ accepted tt }
    ensures folds { second.new ≡ folded (group_of map.now) sheet.now.slots.now second.old }
    ensures weighs { floors.new ≡ column (weight_of W.Measure.ops (explored W.Measure.ops (over_groups sheet.now.slots.now map.now))) groups ++ drop groups floors.old }
    ensures gives { reasons.new ≡ column (reason_of (explored W.Measure.ops (over_groups sheet.now.slots.now map.now))) groups ++ drop groups reasons.old }
    ensures leads { rests.new ≡ column (context W.Measure.ops (held W.Measure.ops (take groups floors.new)) (weighted W.Measure.ops (over_groups sheet.now.slots.now map.now)) target) groups ++ drop groups rests.old }
    ensures queues { Scratch true (queue_length (length sheet.now.slots.now)) queue.old queue.new }
    ensures works { Scratch true (work_length groups (length sheet.now.slots.now)) work.old work.new }
{
    let slots = sheet.slots();
    write(slots, map, second);
    let mut view = Passed::empty();
    pass(&second[0..slots.len()], groups, &mut view)?;
    weigh(&view, target, floors, rests, reasons, queue, work)
}

// Makes the columns of a guide for a passed sheet and a target, from a map that gives each fact one of so many groups.
// The guide is the map with the floors and the rests. A refusal changes nothing.
pub fn make<W: Measure>(
    sheet: &Passed,
    target: u16,
    map: &[u16],
    groups: u16,
    columns: &mut GuideColumns<W>,
) -> Result<(), Refusal>
    ensures answered { answer result ≡ make_answer sheet.now.slots.now sheet.now.facts target map.now groups columns.old.second.now (make_long sheet.now.facts (length sheet.now.slots.now) groups (length map.now) (length columns.old.floors.now) (length columns.old.rests.now) (length columns.old.reasons.now) (length columns.old.queue.now) (length columns.old.work.now)) }
    ensures folds { columns.new.second.now ≡ second_left sheet.now.slots.now map.now (is_ok result) columns.old.second.now }
    ensures weighs { columns.new.floors.now ≡ floors_left sheet.now.slots.now map.now (is_ok result) W.Measure.ops groups columns.old.floors.now }
    ensures leads { columns.new.rests.now ≡ rests_left sheet.now.slots.now map.now (is_ok result) W.Measure.ops groups target columns.new.floors.now columns.old.rests.now }
    ensures gives { columns.new.reasons.now ≡ reasons_left sheet.now.slots.now map.now (is_ok result) W.Measure.ops groups columns.old.reasons.now }
    ensures queues { Scratch (is_ok result) (queue_length (length sheet.now.slots.now)) columns.old.queue.now columns.new.queue.now }
    ensures works { Scratch (is_ok result) (work_length groups (length sheet.now.slots.now)) columns.old.work.now columns.new.work.now }
    ensures made { is_ok result ≡ true → Made W.Measure.ops (weighted W.Measure.ops sheet.now.slots.now) sheet.now.facts target map.now groups columns.new.floors.now columns.new.rests.now }
    ensures fits { is_ok result ≡ true → Fit W.Measure.ops (by_group W.Measure.ops map.now columns.new.floors.now columns.new.rests.now) (by_group W.Measure.ops map.now columns.new.rests.now columns.new.floors.now) (weighted W.Measure.ops sheet.now.slots.now) target }
    ensures same { SameGuideColumns columns.old columns.new }
{
    check(sheet, target, map, groups, columns)?;
    fill(
        sheet,
        map[target as usize],
        map,
        groups,
        columns.second,
        columns.floors,
        columns.rests,
        columns.reasons,
        columns.queue,
        columns.work,
    )
}
