// The columns of a search.
ghost use Rattle.std.specs.Prelude.{◌≡◌, take, IfOk};
ghost use Rattle.memory.specs.Columns.{HasRoom, HasNone, Lends};

use measure::Measure;
use queue::entry::Entry;
use search::columns::{Columns, Found};
use std::alloc::{AllocError, Global};

// There is room for as many facts and rules.
pub const FACTS: usize = 256;

pub const RULES: usize = 512;

pub const WORK: usize = 3 * FACTS + 5 * RULES;

// What the places of a queue hold before a search.
pub fn blank_entry<W: Measure>() -> Entry<W>
    ensures { result ≡ record { priority = W.Measure.ops.nothing; weight = W.Measure.ops.nothing; rule = 0 } }
{
    Entry {
        priority: W::nothing(),
        weight: W::nothing(),
        rule: 0,
    }
}

// The columns of a search, and the memory that they are in: a search is lent each by itself.
#[derive(Drop)]
pub struct OwnedColumns<W> {
    pub weights: Vec<W>,
    pub reasons: Vec<u16>,
    pub line: Vec<u16>,
    pub queue: Vec<Entry<W>>,
    pub work: Vec<u16>,
}

impl<W: Measure> OwnedColumns<W> {
    pub fn new(heap: Global) -> Result<OwnedColumns<W>, AllocError>
        ensures { IfOk result HasRoom }
    {
        Ok(OwnedColumns {
            weights: vec![in heap; W::nothing(); FACTS]?,
            reasons: vec![in heap; 0; FACTS]?,
            line: vec![in heap; 0; FACTS]?,
            queue: vec![in heap; blank_entry(); RULES]?,
            work: vec![in heap; 0; WORK]?,
        })
    }

    // Columns of no places, for a list with no searches.
    pub fn empty(heap: Global) -> OwnedColumns<W>
        ensures { HasNone result }
    {
        OwnedColumns {
            weights: Vec::new(heap),
            reasons: Vec::new(heap),
            line: Vec::new(heap),
            queue: Vec::new(heap),
            work: Vec::new(heap),
        }
    }

    // Lends the columns to a search.
    pub fn lend(&mut self) -> Columns<'_, W>
        ensures { Lends self.old result }
    {
        Columns {
            weights: &mut self.weights,
            reasons: &mut self.reasons,
            line: &mut self.line,
            queue: &mut self.queue,
            work: &mut self.work,
        }
    }

    // The rules of the line of a target that was found, in order; the memory of the other columns is given back.
    pub fn into_line(self, found: &Found<W>) -> Vec<u16>
        ensures { result.items ≡ take found.now.line self.line.items }
    {
        let n = self.line_of(found).len();
        let mut line = self.line;
        line.truncate(n);
        line
    }

    // The rules of the line of a target that was found, in order.
    pub fn line_of(&self, found: &Found<W>) -> &[u16]
        ensures { result.now ≡ take found.now.line self.now.line.items }
    {
        let n = self.line.len().min(usize::from(found.line));
        &self.line[..n]
    }
}
