// The words of a line, read in order.
ghost use Rattle.std.specs.Prelude.{◌≡◌, ◌≤◌, length, nat_le, IfOk};
ghost use Rattle.desk.specs.Fields.{word_at, seen, wrong_kind, number_at, ended};
ghost use Rattle.desk.specs.Words.{texts, MovesOn};
ghost use Rattle.desk.specs.declared.fault.Field.TheVariants.{Cost};

use crate::fault::{Fault, Field, Kind};
use crate::number::{Wrong, parse_number};
use memory::failure::Failure;
use std::alloc::Global;

// After a fault the index is left open.
#[derive(Clone, Copy)]
pub struct Words<'a> {
    pub list: &'a [&'a [u8]],
    // the index of the next word
    pub index: usize,
}

// What a word that is not the number wanted is told as.
fn kind_of(wrong: Wrong, field: Field, limit: u32) -> Kind
    ensures { result ≡ wrong_kind wrong field limit }
{
    match wrong {
        Wrong::Form => Kind::NotANumber(field),
        Wrong::Large => Kind::TooLarge(field, limit),
    }
}

impl<'a> Words<'a> {
    // The next word.
    pub fn word(&mut self, field: Field) -> Result<&'a [u8], Fault>
        ensures answered { seen result ≡ word_at (texts self.old) self.old.index field }
        ensures next { MovesOn result self.old self.new }
    {
        let index = self.index;
        if self.is_at_end() {
            let kind = Kind::Missing(field);
            return Err(Fault { index, kind });
        }
        self.index += 1;
        Ok(self.list[index])
    }

    // The next word as a number, at most the limit.
    fn number(&mut self, field: Field, limit: u32) -> Result<u32, Fault>
        ensures answered { result ≡ number_at (texts self.old) self.old.index field limit }
        ensures bound { IfOk result (λ n. n ≤ limit) }
        ensures next { MovesOn result self.old self.new }
    {
        let index = self.index;
        let word = self.word(field)?;
        parse_number(word, limit).map_err(|wrong| {
            let kind = kind_of(wrong, field, limit);
            Fault { index, kind }
        })
    }

    // The next word as a cost.
    pub fn cost(&mut self) -> Result<u32, Fault>
        ensures answered { result ≡ number_at (texts self.old) self.old.index Cost 4294967295 }
        ensures next { MovesOn result self.old self.new }
    {
        self.number(Field::Cost, u32::MAX)
    }

    // The next word as a fact, a rule, a count or a group.
    pub fn short(&mut self, field: Field) -> Result<u16, Fault>
        ensures answered { result ≡ number_at (texts self.old) self.old.index field 65535 }
        ensures next { MovesOn result self.old self.new }
    {
        let number = self.number(field, u32::from(u16::MAX))?;
        Ok(number as u16)
    }

    // The words up to an end as numbers.
    pub(crate) fn shorts(
        &mut self,
        heap: Global,
        end: usize,
        field: Field,
    ) -> Result<Vec<u16>, Failure<Fault>> {
        let mut numbers = Vec::new(heap);
        for _ in self.index..end {
            numbers.push(self.short(field)?)?;
        }
        Ok(numbers)
    }

    // Whether there is no next word.
    pub fn is_at_end(&self) -> bool
        ensures { result ≡ nat_le (length self.now.list.now) self.now.index }
    {
        self.list.len() <= self.index
    }

    // Refuses words that are left.
    pub fn check_end(&self) -> Result<(), Fault>
        ensures { result ≡ ended (length self.now.list.now) self.now.index }
    {
        if self.is_at_end() {
            return Ok(());
        }
        let index = self.index;
        let kind = Kind::Superfluous;
        Err(Fault { index, kind })
    }
}
