// The grades of a sheet file, one line a measure.
use crate::grade::{Grade, grade_sheet};
use crate::input::check_length;
use crate::read::read_sheet;
use measure::hardest::Hardest;
use measure::total::Total;
use measure::total_steps::TotalSteps;
use memory::columns::RULES;
use memory::failure::Failure;
use sheet::passed::Passed;
use sheet::passed::pass::pass;
use sheet::refusal::Refusal;
use std::alloc::Global;
use std::fmt;

#[derive(Drop)]
pub struct Report {
    total: Grade<Total>,
    hardest: Grade<Hardest>,
    total_steps: Grade<TotalSteps>,
}

// Reads the file into a new sheet, and grades that under each measure.
pub(crate) fn grade_file(heap: Global, bytes: &[u8]) -> Result<Report, Failure<Refusal>> {
    check_length(bytes.len())?;
    let mut slots = vec![in heap; None; RULES]?;
    let header = read_sheet(bytes, &mut slots)?;
    let mut view = Passed::empty();
    pass(&slots, header.facts, &mut view)?;
    Ok(Report {
        total: grade_sheet(heap, &view, header.target)?,
        hardest: grade_sheet(heap, &view, header.target)?,
        total_steps: grade_sheet(heap, &view, header.target)?,
    })
}

impl fmt::Display for Report {
    fn fmt<F: fmt::Write>(&self, f: &mut fmt::Formatter<F>) -> fmt::Result {
        let total = &self.total;
        let hardest = &self.hardest;
        let total_steps = &self.total_steps;
        write!(f, "{total}\n{hardest}\n{total_steps}\n")
    }
}
