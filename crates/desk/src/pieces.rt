// Cutting a text into lines, and a line into words.
ghost use Rattle.std.specs.Prelude.{◌≡◌, map, IfOk};
ghost use Rattle.desk.specs.Pieces.{pieces as pieces_of, words_of};

use std::alloc::{AllocError, Global};

// The pieces of a text between separators; some may be empty.
pub fn split<'a>(heap: Global, text: &'a [u8], separator: u8) -> Result<Vec<&'a [u8]>, AllocError>
    ensures { IfOk result (λ v. map (λ x. x.now) v.items ≡ pieces_of separator text.now) }
{
    text.split(|byte| *byte == separator).collect(heap)
}

// The words of a line, which are parted by spaces.
pub fn split_words<'a>(heap: Global, line: &'a [u8]) -> Result<Vec<&'a [u8]>, AllocError>
    ensures { IfOk result (λ v. map (λ x. x.now) v.items ≡ words_of line.now) }
{
    line.split(|byte| *byte == b' ')
        .filter(|piece| !piece.is_empty())
        .collect(heap)
}
