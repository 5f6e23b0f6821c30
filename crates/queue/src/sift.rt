// Mending the order of a heap after one element was changed.
// The loops follow one path of the tree: the next place is half or double the last, so no range yields them.
ghost use Rattle.std.specs.Prelude.{◌≡◌, ℕ, ◌+◌, ◌*◌, ◌<◌, ◌≤◌, true, length, slice_index_or};
ghost use Rattle.std.specs.List.Sorted.{IsPermutation};
ghost use Rattle.queue.specs.Heap.{Edges, Above, Below};

use crate::order::Order;

// Moves the last element up to where its parent comes no later.
pub(crate) fn sift_up<T: Order>(heap: &mut [T])
    requires { 0 < length heap.old }
    ensures contents { IsPermutation heap.old heap.new }
    ensures mends { Above T.Order.leb heap.old → Edges T.Order.leb heap.new }
{
    let mut place = heap.len() - 1;
    while place > 0 {
        let parent = (place - 1) / 2;
        let upper = heap[parent];
        let lower = heap[place];
        if upper.no_later(lower) {
            return;
        }
        heap.swap(parent, place);
        place = parent;
    }
}

// The child of a place, of two the one that comes no later.
fn least_child<T: Order>(heap: &[T], place: usize) -> usize
    requires { 2 * place + 1 < length heap.now }
    ensures child { (2 * place < result) × (result ≤ 2 * place + 2) × (result < length heap.now) }
    ensures least { (j : ℕ) (d : T) → 2 * place < j → j ≤ 2 * place + 2 → j < length heap.now → T.Order.leb (slice_index_or heap.now result d) (slice_index_or heap.now j d) ≡ true }
{
    let left = 2 * place + 1;
    let right = left + 1;
    if right < heap.len() {
        let first = heap[left];
        let second = heap[right];
        if first.no_later(second) {
            return left;
        }
        return right;
    }
    left
}

// Moves the first element down to where it comes no later than its children.
pub(crate) fn sift_down<T: Order>(heap: &mut [T])
    ensures contents { IsPermutation heap.old heap.new }
    ensures mends { Below T.Order.leb heap.old → Edges T.Order.leb heap.new }
{
    let mut place = 0;
    while place < heap.len() / 2 {
        let child = least_child(heap, place);
        let upper = heap[place];
        let lower = heap[child];
        if upper.no_later(lower) {
            return;
        }
        heap.swap(place, child);
        place = child;
    }
}
