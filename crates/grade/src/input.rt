// The length of the input.
ghost use Rattle.std.specs.Prelude.{◌≡◌};
ghost use Rattle.grade.specs.Limits.{input_answer};
ghost use Rattle.sheet.specs.Refusals.{answer};

use sheet::refusal::Refusal;

// The longest input.
pub const INPUT_LIMIT: u32 = 16_384;

// An input that is too long is refused.
pub(crate) fn check_length(len: usize) -> Result<(), Refusal>
    ensures { answer result ≡ input_answer len }
{
    if len > INPUT_LIMIT as usize {
        return Err(Refusal::Short);
    }
    Ok(())
}
