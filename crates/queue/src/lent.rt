// A queue over a lent column, with the number of its elements.
ghost use Rattle.std.specs.Prelude.{◌≡◌, ◌+◌, ◌-◌, ◌≤◌, [], length, take, MatchOption, MatchResult};
ghost use Rattle.queue.specs.Heap.{Heap, Added, Removed};

use crate::heap::{Full, put, take};
use crate::order::Order;

// The first `count` places of the column hold the elements, in heap order.
#[derive(Drop)]
pub struct Queue<'a, T: Order> {
    places: &'a mut [T],
    pub(crate) count: usize,
    ghost within: { count ≤ length places.now },
    ghost ordered: { Heap T.Order.leb (take count places.now) },
}

impl<'a, T: Order> Queue<'a, T> {
    // An empty queue.
    pub fn new(places: &'a mut [T]) -> Queue<'a, T>
        ensures same { result.places.ghost_name ≡ places.entry.ghost_name }
        ensures column { result.places.now ≡ places.old }
        ensures none { result.count ≡ 0 }
    {
        Queue { places, count: 0 }
    }

    // Puts an element in, unless no place is left.
    pub fn put(&mut self, x: T) -> Result<(), Full>
        ensures same { self.new.places.ghost_name ≡ self.old.places.ghost_name }
        ensures puts { MatchResult result (λ _. Added T.Order.leb self.old.places.now self.old.count x self.new.places.now self.new.count) (λ _. (length self.old.places.now ≤ self.old.count) × (self.new.places.now ≡ self.old.places.now) × (self.new.count ≡ self.old.count)) }
    {
        self.count = put(self.places, self.count, x)?;
        Ok(())
    }

    // Takes a least element out, if there is any.
    pub fn take(&mut self) -> Option<T>
        ensures same { self.new.places.ghost_name ≡ self.old.places.ghost_name }
        ensures takes { MatchOption result ((self.old.count ≡ 0) × (self.new.places.now ≡ self.old.places.now) × (self.new.count ≡ 0)) (λ x. Removed T.Order.leb self.old.places.now self.old.count self.new.places.now x × (self.new.count ≡ self.old.count - 1)) }
    {
        let x = take(self.places, self.count)?;
        self.count -= 1;
        Some(x)
    }
}
