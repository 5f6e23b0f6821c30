// The calls of a list, and the replies to them.
use search::columns::Found;
use sheet::refusal::Refusal;

// A call. G is the kind of guide that its searches have.
#[derive(Clone, Copy)]
pub enum Call<'a, G> {
    Enter {
        head: u16,
        body: &'a [u16],
        cost: u32,
    },
    Reprice {
        number: u16,
        cost: u32,
    },
    Strike {
        number: u16,
    },
    Search {
        facts: u16,
        target: u16,
        guide: G,
    },
}

// What an accepted call gives. W is the measure of its searches.
#[derive(Clone, Copy)]
pub enum Done<W> {
    // a rule was entered under this number
    Entered(u16),
    // a rule was repriced or struck
    Changed,
    // a target was found
    Found(Found<W>),
}

// The reply to a call.
pub type Reply<W> = Result<Done<W>, Refusal>;
