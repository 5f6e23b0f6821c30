// Running the edits read so far, and searching after them.
ghost use Rattle.std.specs.Prelude.{◌≤◌, vec_len};

use crate::edit::Edit;
use crate::made::Made;
use crate::query::{Guidance, Query};
use crate::reply::Answer;
use guide::Guide;
use guide::blank::Blank;
use guide::heavier::Heavier;
use measure::Measure;
use memory::columns::{OwnedColumns, RULES};
use memory::failure::Failure;
use replay::call::{Call, Done, Reply};
use replay::replay::replay;
use replay::run::run;
use search::columns::{Columns, Found};
use sheet::refusal::Refusal;
use sheet::slot::Slot;
use std::alloc::{AllocError, Global};

// An edit, and the number of its line.
#[derive(Drop)]
pub struct Noted {
    pub edit: Edit,
    pub line: usize,
}

// Edits as a list of calls, the sheet that they are made of, and the replies to them.
#[derive(Drop)]
pub struct Batch<'a, W, G> {
    calls: Vec<Call<'a, G>>,
    pub slots: Vec<Slot>,
    pub replies: Vec<Reply<W>>,
    ghost few_slots: { vec_len slots ≤ 16000 },
    ghost enough_replies: { vec_len calls ≤ vec_len replies },
}

impl<'a, W: Measure, G: Copy> Batch<'a, W, G> {
    // A list that has not been run, and a new sheet.
    fn new(heap: Global, edits: &'a [Noted]) -> Result<Batch<'a, W, G>, AllocError> {
        Ok(Batch {
            calls: edits.iter().map(|noted| noted.edit.call()).collect(heap)?,
            slots: vec![in heap; None; RULES]?,
            replies: vec![in heap; Ok(Done::Changed); edits.len()]?,
        })
    }

    // Runs the calls; with few slots and a reply for each call no list is refused.
    fn run(&mut self, columns: &mut Columns<W>)
    where
        G: Guide<W>,
    {
        let result = run(&self.calls, &mut self.slots, &mut self.replies, columns);
        result.unwrap();
    }

    // Runs the calls, and searches the sheet with a guide.
    fn replay(
        &mut self,
        query: &Query,
        guide: &G,
        columns: &mut Columns<W>,
    ) -> Result<Found<W>, Refusal>
    where
        G: Guide<W>,
    {
        replay(
            &self.calls,
            &mut self.slots,
            &mut self.replies,
            query.facts,
            query.target,
            guide,
            columns,
        )
    }

    // The replies, and no longer the calls.
    pub(crate) fn into_replies(self) -> Vec<Reply<W>> {
        self.replies
    }
}

// What a list of edits and the search at its end were answered.
#[derive(Drop)]
pub struct Outcome<W> {
    // the replies to the edits
    pub replies: Vec<Reply<W>>,
    // the reply to the search
    pub reply: Reply<W>,
    // the columns that the search has left
    pub columns: OwnedColumns<W>,
}

impl<W: Measure> Outcome<W> {
    // The reply to the search, as it is printed.
    pub(crate) fn answer(&self) -> Answer<'_, W> {
        let line = match &self.reply {
            Ok(Done::Found(found)) => self.columns.line_of(found),
            _ => &[],
        };
        Answer {
            reply: self.reply,
            line,
        }
    }
}

// Runs the edits on a new sheet.
pub(crate) fn run_edits<'a, W: Measure>(
    heap: Global,
    edits: &'a [Noted],
) -> Result<Batch<'a, W, Blank>, AllocError> {
    let mut batch = Batch::new(heap, edits)?;
    let mut columns = OwnedColumns::empty(heap);
    batch.run(&mut columns.lend());
    Ok(batch)
}

// Runs the edits on a new sheet, and searches it with a guide.
fn search_with<W: Measure, G: Guide<W> + Copy>(
    heap: Global,
    edits: &[Noted],
    query: &Query,
    guide: &G,
) -> Result<Outcome<W>, AllocError> {
    let mut batch = Batch::new(heap, edits)?;
    let mut columns = OwnedColumns::new(heap)?;
    let found = batch.replay(query, guide, &mut columns.lend());
    Ok(Outcome {
        replies: batch.into_replies(),
        reply: found.map(Done::Found),
        columns,
    })
}

// Runs the edits and the search after them, with the guide that is asked for.
// A refusal to pass the sheet for a guide, or to make one, is the failure.
pub(crate) fn search_after<W: Measure>(
    heap: Global,
    edits: &[Noted],
    query: &Query,
) -> Result<Outcome<W>, Failure<Refusal>> {
    let outcome = match &query.guidance {
        Guidance::Blank => search_with(heap, edits, query, &Blank)?,
        Guidance::Map(map) => {
            let edited: Batch<W, Blank> = run_edits(heap, edits)?;
            let made: Made<W> = Made::new(heap, &edited.slots, query, map)?;
            search_with(heap, edits, query, &made.guide())?
        }
        Guidance::Heavier(first, second) => {
            let edited: Batch<W, Blank> = run_edits(heap, edits)?;
            let a: Made<W> = Made::new(heap, &edited.slots, query, first)?;
            let b: Made<W> = Made::new(heap, &edited.slots, query, second)?;
            search_with(heap, edits, query, &Heavier(a.guide(), b.guide()))?
        }
    };
    Ok(outcome)
}
