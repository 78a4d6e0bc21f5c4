//! The lines before the program of a report.
ghost use Rattle.std.specs.Prelude.{◌≡◌, ◌++◌, OnOk};
ghost use Rattle.report_print.specs.Texts.{head_text};

use crate::NoMemory;
use report_lines::{push_number_line, push_word_line};
use trop_spelling::Spelling;

/// Appends the lines before the program: the version, the mode, and the numbers of the analysis.
pub(crate) fn push_head<S: Spelling>(
    text: &mut Vec<u8>,
    delay: u32,
    narrow: u32,
    passes: u64,
) -> Result<(), NoMemory>
    ensures { OnOk result (text.new.items ≡ text.old.items ++ head_text S.KIND delay narrow passes) }
{
    push_number_line(text, b"report", 2)?;
    push_word_line(text, b"mode", S::ring_word())?;
    push_number_line(text, b"delay", u64::from(delay))?;
    push_number_line(text, b"narrow", u64::from(narrow))?;
    push_number_line(text, b"passes", passes)?;
    text.extend_from_slice(b"program\n")
}
