// Whole runs: any list of puts and takes, and what each is answered.
ghost use Rattle.std.specs.Prelude.{◌≡◌};
ghost use Rattle.queue.specs.Run.{Step, Ran};

use crate::heap::Full;
use crate::lent::Queue;
use crate::order::Order;

#[derive(Clone, Copy)]
pub enum Op<T> {
    Put(T),
    Take,
}

// A put's Result and a take's Option, in one column of replies.
#[derive(Clone, Copy)]
pub enum Reply<T> {
    Added,
    Refused,
    Taken(T),
    Empty,
}

// The reply column is shorter than the list of puts and takes.
#[derive(Clone, Copy, PartialEq, Eq)]
pub struct Short;

// Runs the puts and takes in turn on a queue that is empty at first, writes each reply, and answers how many elements are left.
pub fn run_all<T: Order>(
    ops: &[Op<T>],
    queue: &mut [T],
    replies: &mut [Reply<T>],
) -> Result<usize, Short>
    ensures { Ran T.Order.leb ops.now queue.old replies.old queue.new replies.new result }
{
    if replies.len() < ops.len() {
        return Err(Short);
    }
    let mut held = Queue::new(queue);
    // by index: after a loop over an adapter of `iter_mut` the check knows no element
    for (i, op) in ops.iter().enumerate() {
        replies[i] = answer(*op, &mut held);
    }
    Ok(held.count)
}

// The reply to one put or take.
fn answer<T: Order>(op: Op<T>, queue: &mut Queue<T>) -> Reply<T>
    ensures same { queue.new.places.ghost_name ≡ queue.old.places.ghost_name }
    ensures steps { Step T.Order.leb op queue.old.places.now queue.old.count queue.new.places.now result queue.new.count }
{
    match op {
        Op::Put(x) => match queue.put(x) {
            Ok(()) => Reply::Added,
            Err(Full) => Reply::Refused,
        },
        Op::Take => match queue.take() {
            Some(x) => Reply::Taken(x),
            None => Reply::Empty,
        },
    }
}
