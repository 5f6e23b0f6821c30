// A target that was found, as one line of text.
ghost use Rattle.std.specs.Prelude.{Some};
ghost use Rattle.text.specs.Solution.{spaced, solution_text};

use crate::named::Named;
use search::columns::Found;
use std::fmt;

// Numbers, each after a space.
#[derive(Clone, Copy)]
struct Spaced<'a>(&'a [u16]);

impl<'a> fmt::Display for Spaced<'a> {
    ghost output = { λ s. Some (spaced s.0.now) };

    fn fmt<F: fmt::Write>(&self, f: &mut fmt::Formatter<F>) -> fmt::Result {
        for number in self.0 {
            write!(f, " {number}")?;
        }
        Ok(())
    }
}

#[derive(Clone, Copy)]
pub struct Solution<'a, W> {
    pub found: Found<W>,
    // the rules of the line, in order
    pub line: &'a [u16],
}

// The measure, the weight, the numbers of facts closed and of entries taken, and the line.
impl<'a, W: Named> fmt::Display for Solution<'a, W> {
    ghost output = { λ s. solution_text W.named (W.output s.found.weight) s.found.closed s.found.taken s.line.now };

    fn fmt<F: fmt::Write>(&self, f: &mut fmt::Formatter<F>) -> fmt::Result {
        let name = W::name();
        let weight = self.found.weight;
        let closed = self.found.closed;
        let taken = self.found.taken;
        let line = Spaced(self.line);
        write!(
            f,
            "{name} {weight} closed {closed} taken {taken} line{line}"
        )
    }
}
