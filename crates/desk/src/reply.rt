// Replies as they are printed.
use replay::call::{Done, Reply};
use std::fmt;
use std::fmt::Display;
use text::named::Named;
use text::solution::Solution;

// A reply, and the rules of the line where a target was found.
#[derive(Clone, Copy)]
pub struct Answer<'a, W> {
    pub reply: Reply<W>,
    pub line: &'a [u16],
}

impl<'a, W: Named> fmt::Display for Answer<'a, W> {
    fn fmt<F: fmt::Write>(&self, f: &mut fmt::Formatter<F>) -> fmt::Result {
        let line = self.line;
        match self.reply {
            Ok(Done::Entered(number)) => write!(f, "entered {number}"),
            Ok(Done::Changed) => write!(f, "changed"),
            Ok(Done::Found(found)) => Solution { found, line }.fmt(f),
            Err(refusal) => write!(f, "{refusal}"),
        }
    }
}
