// The edits of a sheet.
ghost use Rattle.desk.specs.Edits.{Makes};

use crate::fault::{Fault, Field};
use crate::words::Words;
use memory::failure::Failure;
use replay::call::Call;
use std::alloc::Global;

// It owns its body, which a call of a list only borrows.
#[derive(Drop)]
pub enum Edit {
    Enter {
        head: u16,
        body: Vec<u16>,
        cost: u32,
    },
    Reprice {
        number: u16,
        cost: u32,
    },
    Strike {
        number: u16,
    },
}

// HEAD COST BODY…
pub(crate) fn parse_enter(heap: Global, words: &mut Words) -> Result<Edit, Failure<Fault>> {
    let head = words.short(Field::Head)?;
    let cost = words.cost()?;
    let body = words.shorts(heap, words.list.len(), Field::BodyFact)?;
    Ok(Edit::Enter { head, body, cost })
}

// RULE COST
pub(crate) fn parse_reprice(words: &mut Words) -> Result<Edit, Fault> {
    let number = words.short(Field::Rule)?;
    let cost = words.cost()?;
    words.check_end()?;
    Ok(Edit::Reprice { number, cost })
}

// RULE
pub(crate) fn parse_strike(words: &mut Words) -> Result<Edit, Fault> {
    let number = words.short(Field::Rule)?;
    words.check_end()?;
    Ok(Edit::Strike { number })
}

impl Edit {
    // The edit as a call of a list.
    pub fn call<'a, G>(&'a self) -> Call<'a, G>
        ensures { Makes self.now result }
    {
        match self {
            Edit::Enter { head, body, cost } => Call::Enter {
                head: *head,
                body: body.as_slice(),
                cost: *cost,
            },
            Edit::Reprice { number, cost } => Call::Reprice {
                number: *number,
                cost: *cost,
            },
            Edit::Strike { number } => Call::Strike { number: *number },
        }
    }
}
