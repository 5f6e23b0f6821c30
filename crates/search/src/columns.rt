// The columns lent to a search, and what it answers.
ghost use Rattle.std.specs.Prelude.{◌≡◌, length};
ghost use Rattle.search.specs.Surveyed.{survey_long};

use queue::entry::Entry;
use sheet::passed::Passed;

// The columns that a search writes.
#[derive(Drop)]
pub struct Columns<'a, W> {
    // the weight of each closed fact, heaviest for the others
    pub weights: &'a mut [W],
    // the rule that closed each fact, 65,535 for the others
    pub reasons: &'a mut [u16],
    // the rules of the line
    pub line: &'a mut [u16],
    // the queue of entries
    pub queue: &'a mut [Entry<W>],
    // the working column
    pub work: &'a mut [u16],
}

// A target that was found.
#[derive(Clone, Copy)]
pub struct Found<W> {
    // the least weight of a derivation
    pub weight: W,
    // the number of facts closed
    pub closed: u16,
    // the number of entries taken from the queue
    pub taken: u16,
    // the length of the line
    pub line: u16,
}

// The numbers of facts closed and of entries taken.
#[derive(Clone, Copy)]
pub struct Counts {
    pub closed: u16,
    pub taken: u16,
}

// Whether columns of these lengths, which a search and a survey both write, are long enough for a sheet.
// What the working column needs is written out: a function of two numbers would have to require that the sum fits.
pub(crate) fn are_long(
    sheet: &Passed,
    weights: usize,
    reasons: usize,
    queue: usize,
    work: usize,
) -> bool
    ensures { result ≡ survey_long sheet.now.facts (length sheet.now.slots.now) weights reasons queue work }
{
    let facts = sheet.facts() as usize;
    let rules = sheet.slots().len();
    facts <= weights && facts <= reasons && rules <= queue && 3 * facts + 5 * rules <= work
}
