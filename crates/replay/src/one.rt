// One call of a list.
ghost use Rattle.std.specs.Prelude.{◌≡◌, length};
ghost use Rattle.replay.specs.Run.{lengths_of, board_of, ColumnsLeft, replied, next};
ghost use Rattle.sheet.specs.Refusals.{answer};

use crate::call::{Call, Done, Reply};
use crate::seek::seek;
use guide::Guide;
use measure::Measure;
use search::columns::Columns;
use sheet::edit::{enter, reprice, strike};
use sheet::slot::Slot;

// Makes one call, and answers the reply.
#[tactic(auto, unfolding(crate::specs::Run::replied, crate::specs::Run::next))]
pub(crate) fn run_one<W: Measure, G: Guide<W>>(
    call: &Call<G>,
    slots: &mut [Slot],
    columns: &mut Columns<W>,
) -> Reply<W>
    ensures replies { answer result ≡ replied W.Measure.ops (lengths_of columns.old) G.Guide.floor G.Guide.rest (board_of slots.old columns.old) call.now }
    ensures leaves { board_of slots.new columns.new ≡ next W.Measure.ops (lengths_of columns.old) G.Guide.floor G.Guide.rest (board_of slots.old columns.old) call.now }
    ensures columns { ColumnsLeft (length slots.old) columns.old columns.new }
{
    match call {
        Call::Enter { head, body, cost } => Ok(Done::Entered(enter(slots, *head, body, *cost)?)),
        Call::Reprice { number, cost } => {
            reprice(slots, *number, *cost)?;
            Ok(Done::Changed)
        }
        Call::Strike { number } => {
            strike(slots, *number)?;
            Ok(Done::Changed)
        }
        Call::Search {
            facts,
            target,
            guide,
        } => Ok(Done::Found(seek(slots, *facts, *target, guide, columns)?)),
    }
}
