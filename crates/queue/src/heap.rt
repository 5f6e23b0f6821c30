// Putting an element into a queue and taking a least one out.
// These are calls for a caller who keeps a lent column and the number of its elements; `lent::Queue` holds the two together.
ghost use Rattle.queue.specs.Heap.{Put, Took};

use crate::order::Order;
use crate::sift::{sift_down, sift_up};

// No place is left in the column.
#[derive(Clone, Copy, PartialEq, Eq)]
pub struct Full;

// Puts x into the queue that the first count elements are, and answers how many they are then.
pub fn put<T: Order>(queue: &mut [T], count: usize, x: T) -> Result<usize, Full>
    ensures { Put T.Order.leb queue.old count x queue.new result }
{
    if count >= queue.len() {
        return Err(Full);
    }
    queue[count] = x;
    sift_up(&mut queue[0..count + 1]);
    Ok(count + 1)
}

// Takes a least element out of the queue that the first count elements are: one fewer is left.
pub fn take<T: Order>(queue: &mut [T], count: usize) -> Option<T>
    ensures { Took T.Order.leb queue.old count queue.new result }
{
    if count == 0 {
        return None;
    }
    if count > queue.len() {
        return None;
    }
    let last = count - 1;
    let least = queue[0];
    queue.swap(0, last);
    sift_down(&mut queue[0..last]);
    Some(least)
}
