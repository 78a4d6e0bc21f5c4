//! The lines before the program of a short report.
ghost use Rattle.std.specs.Prelude.{◌≡◌, ◌++◌, OnOk};
ghost use Rattle.short_texts.specs.Short.{short_head};

use crate::NoMemory;
use report_lines::push_number_line;

/// What stands before the program: the word of the mode, which begins the text, the words of the analysis, and the number
/// of its passes.
#[derive(Clone, Copy, Debug, PartialEq, Eq)]
pub struct Head<'a> {
    /// The word of the mode, as `mixed`.
    pub word: &'a [u8],
    /// How often each head is joined before it is widened.
    pub delay: u32,
    /// The number of narrowing passes.
    pub narrow: u32,
    /// The number of passes up to the end, without the narrowing ones.
    pub passes: u64,
}

/// Appends the lines before the program.
pub(crate) fn push_head(text: &mut Vec<u8>, head: Head<'_>) -> Result<(), NoMemory>
    ensures { OnOk result (text.new.items ≡ text.old.items
        ++ short_head head.entry.word.now head.entry.delay head.entry.narrow head.entry.passes) }
{
    push_number_line(text, head.word, 1)?;
    push_number_line(text, b"delay", u64::from(head.delay))?;
    push_number_line(text, b"narrow", u64::from(head.narrow))?;
    push_number_line(text, b"passes", head.passes)?;
    text.extend_from_slice(b"program\n")
}
