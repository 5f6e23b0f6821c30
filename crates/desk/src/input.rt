// The length of the input. Too long a one is told with the limit, and is no refusal of the library as it is in grade.
ghost use Rattle.std.specs.Prelude.{◌≡◌, nat_le};

// The longest input.
pub const INPUT_LIMIT: u32 = 65_536;

// Whether an input of this length is read.
pub(crate) fn is_allowed(len: usize) -> bool
    ensures { result ≡ nat_le len 65536 }
{
    len <= INPUT_LIMIT as usize
}
