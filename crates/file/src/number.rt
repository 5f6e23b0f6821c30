// Numbers: up to 3 bytes, each with seven bits of the number, the lowest bits first.
ghost use Rattle.std.specs.Prelude.{◌≡◌, ◌≤◌, IfOk, length};
ghost use Rattle.file.specs.Faults.{seen, reason_of};
ghost use Rattle.file.specs.Number.{number};

use crate::fault::Cause;
use sheet::refusal::Refusal;

// Takes a number that has no byte too many, and answers it with the bytes after it.
#[tactic(auto, unfolding(crate::specs::Number::number))]
pub fn take_number(input: &[u8]) -> Result<(u32, &[u8]), Cause>
    ensures taken { seen reason_of result ≡ number input.now }
    ensures rest { IfOk result (λ p. length p.1.now ≤ length input.now) }
{
    match input {
        [a @ 0..=0x7f, rest @ ..] => Ok((*a as u32, rest)),
        [_, 0, ..] => Err(Cause::Bytes(Refusal::Number)),
        [a, b @ 0..=0x7f, rest @ ..] => Ok((*a as u32 - 0x80 + *b as u32 * 0x80, rest)),
        [_, _, 0 | 0x80..=0xff, ..] => Err(Cause::Bytes(Refusal::Number)),
        [a, b, c, rest @ ..] => Ok((
            *a as u32 - 0x80 + (*b as u32 - 0x80) * 0x80 + *c as u32 * 0x4000,
            rest,
        )),
        _ => Err(Cause::Bytes(Refusal::Cut)),
    }
}
