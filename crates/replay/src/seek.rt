// A search of a sheet that is yet to be passed.
ghost use Rattle.std.specs.Prelude.{◌≡◌, length};
ghost use Rattle.replay.specs.Run.{lengths_of, board_of, ColumnsLeft, found_on, searched};
ghost use Rattle.sheet.specs.Refusals.{answer};

use guide::Guide;
use measure::Measure;
use search::columns::{Columns, Found};
use search::find::search;
use sheet::passed::Passed;
use sheet::passed::pass::pass;
use sheet::refusal::Refusal;
use sheet::slot::Slot;

// Passes the sheet with the fact count and, where that is accepted, searches it for the target.
#[tactic(auto, unfolding(crate::specs::Run::sought))]
pub(crate) fn seek<W: Measure, G: Guide<W>>(
    slots: &[Slot],
    facts: u16,
    target: u16,
    guide: &G,
    columns: &mut Columns<W>,
) -> Result<Found<W>, Refusal>
    ensures answered { answer result ≡ found_on W.Measure.ops (lengths_of columns.old) (G.Guide.floor guide.now) (G.Guide.rest guide.now) facts target (board_of slots.now columns.old) }
    ensures leaves { board_of slots.now columns.new ≡ searched W.Measure.ops (lengths_of columns.old) (G.Guide.floor guide.now) (G.Guide.rest guide.now) facts target (board_of slots.now columns.old) }
    ensures columns { ColumnsLeft (length slots.now) columns.old columns.new }
{
    let mut view = Passed::empty();
    pass(slots, facts, &mut view)?;
    search(&view, target, guide, columns)
}
