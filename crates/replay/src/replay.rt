// A list of calls, ended by a search: the whole promise.
ghost use Rattle.std.specs.Prelude.{◌≡◌, [], map, length, take};
ghost use Rattle.replay.specs.Rules.{weighted_after};
ghost use Rattle.replay.specs.Run.{lengths_of, board_of, started, is_accepted, found_on, searched, board_left, answers, Written};
ghost use Rattle.replay.specs.Law.{Lawful};
ghost use Rattle.replay.specs.Whole.{InOrder, Whole};
ghost use Rattle.search.specs.Answered.{work_length, checked};
ghost use Rattle.search.specs.Left.{Scratch};
ghost use Rattle.search.specs.Same.{SameColumns};
ghost use Rattle.sheet.specs.Refusals.{answer, accepted, after};

use crate::call::{Call, Reply};
use crate::run::run;
use crate::seek::seek;
use guide::Guide;
use measure::Measure;
use search::columns::{Columns, Found};
use sheet::refusal::Refusal;
use sheet::slot::Slot;

// Runs a list of calls on a new sheet; then passes the sheet and searches it for the target.
pub fn replay<W: Measure, G: Guide<W>>(
    calls: &[Call<G>],
    slots: &mut [Slot],
    replies: &mut [Reply<W>],
    facts: u16,
    target: u16,
    guide: &G,
    columns: &mut Columns<W>,
) -> Result<Found<W>, Refusal>
    ensures answered { answer result ≡ checked (started slots.old calls.now replies.old) (found_on W.Measure.ops (lengths_of columns.old) (G.Guide.floor guide.now) (G.Guide.rest guide.now) facts target (board_left W.Measure.ops (lengths_of columns.old) G.Guide.floor G.Guide.rest (board_of slots.old columns.old) calls.now)) }
    ensures leaves { board_of slots.new columns.new ≡ after (started slots.old calls.now replies.old) (λ _. searched W.Measure.ops (lengths_of columns.old) (G.Guide.floor guide.now) (G.Guide.rest guide.now) facts target (board_left W.Measure.ops (lengths_of columns.old) G.Guide.floor G.Guide.rest (board_of slots.old columns.old) calls.now)) (board_of slots.old columns.old) }
    ensures replies { Written replies.old replies.new (after (started slots.old calls.now replies.old) (λ _. answers W.Measure.ops (lengths_of columns.old) G.Guide.floor G.Guide.rest (board_of slots.old columns.old) calls.now) []) }
    ensures queues { Scratch (is_accepted (started slots.old calls.now replies.old)) (length slots.old) columns.old.queue.now columns.new.queue.now }
    ensures works { Scratch (is_accepted (started slots.old calls.now replies.old)) (work_length 4096 (length slots.old)) columns.old.work.now columns.new.work.now }
    ensures edits { started slots.old calls.now replies.old ≡ accepted tt → Lawful (length slots.old) calls.now (map answer (take (length calls.now) replies.new)) slots.new }
    ensures promises { started slots.old calls.now replies.old ≡ accepted tt → InOrder W.Measure.ops (weighted_after W.Measure.ops (length slots.old) calls.now) (G.Guide.floor guide.now) (G.Guide.rest guide.now) facts target (lengths_of columns.old) → Whole W.Measure.ops (length slots.old) calls.now (G.Guide.rest guide.now) facts target (answer result) columns.new.weights.now columns.new.reasons.now columns.new.line.now }
    ensures lengths { lengths_of columns.new ≡ lengths_of columns.old }
    ensures same { SameColumns columns.old columns.new }
{
    run(calls, slots, replies, columns)?;
    seek(slots, facts, target, guide, columns)
}
