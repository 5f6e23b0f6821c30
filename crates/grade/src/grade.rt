// The grade of a sheet under one measure.
use guide::blank::Blank;
use measure::Measure;
use memory::columns::OwnedColumns;
use memory::failure::Failure;
use search::columns::Found;
use search::find::search;
use sheet::passed::Passed;
use sheet::refusal::Refusal;
use std::alloc::Global;
use std::fmt;
use text::named::Named;
use text::solution::Solution;

// What the search has found, and the rules of the line; the other columns are not held until the report is printed.
#[derive(Drop)]
pub struct Grade<W> {
    found: Found<W>,
    line: Vec<u16>,
}

// Searches the sheet for the target with the blank guide.
pub(crate) fn grade_sheet<W: Measure>(
    heap: Global,
    sheet: &Passed,
    target: u16,
) -> Result<Grade<W>, Failure<Refusal>> {
    let mut columns = OwnedColumns::new(heap)?;
    let found = search(sheet, target, &Blank, &mut columns.lend())?;
    let line = columns.into_line(&found);
    Ok(Grade { found, line })
}

impl<W: Named> fmt::Display for Grade<W> {
    fn fmt<F: fmt::Write>(&self, f: &mut fmt::Formatter<F>) -> fmt::Result {
        let found = self.found;
        let line = self.line.as_slice();
        Solution { found, line }.fmt(f)
    }
}
