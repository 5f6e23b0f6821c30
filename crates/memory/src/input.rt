// Reading an input.
ghost use Rattle.std.specs.Prelude.{◌≡◌, ◌+◌, ◌≤◌, take, IfOk, IfSome, vec_len};

use std::alloc::Global;
use std::io;
use std::io::Read;

// Reads one byte more than the limit at most.
pub fn read_up_to<R: Read + Drop>(heap: Global, input: R, limit: u32) -> io::Result<Vec<u8>>
    ensures bytes { IfOk result (λ v. IfSome (R.remaining input) (λ xs. v.items ≡ take (limit + 1) xs)) }
{
    let mut bytes = Vec::new(heap);
    let mut input = input.take(u64::from(limit) + 1);
    input.read_to_end(&mut bytes)?;
    Ok(bytes)
}
