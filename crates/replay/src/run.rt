// Running a list of calls on a new sheet.
ghost use Rattle.std.specs.Prelude.{◌≡◌, ◌≤◌, true, [], map, length, take};
ghost use Rattle.replay.specs.Run.{lengths_of, board_of, ColumnsLeft, start_answer, started, is_accepted, board_after, replies_to, board_left, answers, Written};
ghost use Rattle.replay.specs.Law.{Lawful};
ghost use Rattle.search.specs.Answered.{work_length};
ghost use Rattle.search.specs.Left.{Scratch};
ghost use Rattle.search.specs.Same.{SameColumns};
ghost use Rattle.sheet.specs.Refusals.{answer, accepted, after};
ghost use Rattle.sheet.specs.Edits.{open_slots};

use crate::call::{Call, Reply};
use crate::one::run_one;
use guide::Guide;
use measure::Measure;
use search::columns::Columns;
use sheet::edit::open;
use sheet::refusal::Refusal;
use sheet::slot::{SLOT_LIMIT, Slot};

// Opens the sheet, where there is a place for the reply to each of so many calls.
fn start(slots: &mut [Slot], calls: usize, replies: usize) -> Result<(), Refusal>
    ensures answered { answer result ≡ start_answer (length slots.old) calls replies }
    ensures left { slots.new ≡ after (start_answer (length slots.old) calls replies) (λ _. open_slots slots.old) slots.old }
{
    if slots.len() <= SLOT_LIMIT && replies < calls {
        return Err(Refusal::Short);
    }
    open(slots)
}

// Makes each call in turn, and writes its reply, by its index: after a loop over `iter_mut` the check knows no element.
fn make_calls<W: Measure, G: Guide<W>>(
    calls: &[Call<G>],
    slots: &mut [Slot],
    replies: &mut [Reply<W>],
    columns: &mut Columns<W>,
)
    requires { length calls.now ≤ length replies.old }
    ensures leaves { board_of slots.new columns.new ≡ board_after W.Measure.ops (lengths_of columns.old) G.Guide.floor G.Guide.rest (board_of slots.old columns.old) calls.now }
    ensures replies { Written replies.old replies.new (replies_to W.Measure.ops (lengths_of columns.old) G.Guide.floor G.Guide.rest (board_of slots.old columns.old) calls.now) }
    ensures columns { ColumnsLeft (length slots.old) columns.old columns.new }
{
    for (i, call) in calls.iter().enumerate() {
        let reply = run_one(call, slots, columns);
        replies[i] = reply;
    }
}

// Opens a new sheet over the slots and makes each call of the list in turn:
// each finds what the earlier ones have made of the sheet and the columns, and its reply is written.
pub fn run<W: Measure, G: Guide<W>>(
    calls: &[Call<G>],
    slots: &mut [Slot],
    replies: &mut [Reply<W>],
    columns: &mut Columns<W>,
) -> Result<(), Refusal>
    ensures answered { answer result ≡ started slots.old calls.now replies.old }
    ensures leaves { board_of slots.new columns.new ≡ after (started slots.old calls.now replies.old) (λ _. board_left W.Measure.ops (lengths_of columns.old) G.Guide.floor G.Guide.rest (board_of slots.old columns.old) calls.now) (board_of slots.old columns.old) }
    ensures replies { Written replies.old replies.new (after (started slots.old calls.now replies.old) (λ _. answers W.Measure.ops (lengths_of columns.old) G.Guide.floor G.Guide.rest (board_of slots.old columns.old) calls.now) []) }
    ensures queues { Scratch (is_accepted (started slots.old calls.now replies.old)) (length slots.old) columns.old.queue.now columns.new.queue.now }
    ensures works { Scratch (is_accepted (started slots.old calls.now replies.old)) (work_length 4096 (length slots.old)) columns.old.work.now columns.new.work.now }
    ensures edits { started slots.old calls.now replies.old ≡ accepted tt → Lawful (length slots.old) calls.now (map answer (take (length calls.now) replies.new)) slots.new }
    ensures lengths { lengths_of columns.new ≡ lengths_of columns.old }
    ensures same { SameColumns columns.old columns.new }
{
    start(slots, calls.len(), replies.len())?;
    make_calls(calls, slots, replies, columns);
    Ok(())
}
