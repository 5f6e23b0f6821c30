// A file that is read from its front.
ghost use Rattle.std.specs.Prelude.{◌≡◌, ◌≤◌, IfOk, length};

use crate::fault::{Cause, Fault, Field};
use crate::number::take_number;
use sheet::edit::{check_body, check_cost, check_room};
use sheet::refusal::Refusal;
use sheet::slot::Slot;

#[derive(Clone, Copy)]
pub struct Reader<'a> {
    // the bytes that are left
    left: &'a [u8],
    // the size of the file
    size: usize,
    ghost part: { length left.now ≤ size },
}

impl<'a> Reader<'a> {
    ghost use Rattle.std.specs.Fn.{FnOnceReturnsAtMut};
    ghost use Rattle.file.specs.Faults.{heard, reason_of};
    ghost use Rattle.file.specs.Number.{number, short, arity_field, cost_field, count_field};
    ghost use Rattle.file.specs.Whole.{ended};
    ghost use Rattle.file.specs.Reader.{Reads, ReadsField, place_of};

    // The reader of a whole file.
    pub fn new(bytes: &'a [u8]) -> Reader<'a>
        ensures left { result.left.now ≡ bytes.now }
        ensures size { result.size ≡ length bytes.now }
    {
        Reader {
            left: bytes,
            size: bytes.len(),
        }
    }

    // The place of the first byte left.
    fn place(&self) -> usize
        ensures { result ≡ place_of self.now }
    {
        self.size - self.left.len()
    }

    // Takes a field; a fault tells where the field begins.
    pub(crate) fn field<T, F: FnOnce(&mut Reader<'a>) -> Result<T, Cause>>(
        &mut self,
        field: Field,
        take: F,
    ) -> Result<T, Fault>
        requires { F.IsAlwaysCallable take }
        ensures { ReadsField (λ r got r'. FnOnceReturnsAtMut F.FnOnce take r got r') field self.old result self.new }
    {
        let place = self.place();
        take(self).map_err(|cause| Fault {
            cause,
            field,
            place,
        })
    }

    // Takes a number.
    fn number(&mut self) -> Result<u32, Cause>
        ensures { Reads reason_of number self.old result self.new }
    {
        let (value, rest) = take_number(self.left)?;
        self.left = rest;
        Ok(value)
    }

    // Takes a number of at most 65,535.
    #[tactic(auto, unfolding(crate::specs::Number::short))]
    pub fn short(&mut self) -> Result<u16, Cause>
        ensures { Reads reason_of short self.old result self.new }
    {
        let value = self.number()?;
        u16::try_from(value).map_err(|_| Cause::Bytes(Refusal::Number))
    }

    // Takes the length of a body.
    #[tactic(auto, unfolding(crate::specs::Number::arity_field))]
    pub fn arity(&mut self) -> Result<usize, Cause>
        ensures read { Reads reason_of arity_field self.old result self.new }
        ensures few { IfOk result (λ n. n ≤ 4) }
    {
        let arity = usize::from(self.short()?);
        check_body(arity)?;
        Ok(arity)
    }

    // Takes a cost.
    #[tactic(auto, unfolding(crate::specs::Number::cost_field))]
    pub fn cost(&mut self) -> Result<u32, Cause>
        ensures { Reads reason_of cost_field self.old result self.new }
    {
        let cost = self.number()?;
        check_cost(cost)?;
        Ok(cost)
    }

    // Takes the number of rules, for which there must be room.
    #[tactic(auto, unfolding(crate::specs::Number::count_field))]
    pub fn count(&mut self, slots: &[Slot]) -> Result<u16, Cause>
        ensures { Reads reason_of (count_field slots.now) self.old result self.new }
    {
        let count = self.short()?;
        check_room(slots, usize::from(count))?;
        Ok(count)
    }

    // Nothing may be left.
    pub fn end(&self) -> Result<(), Cause>
        ensures { heard reason_of result ≡ ended self.now.left.now }
    {
        if self.left.is_empty() {
            return Ok(());
        }
        Err(Cause::Bytes(Refusal::Tail))
    }
}
