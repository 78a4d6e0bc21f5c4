//! Rows as they are printed.
ghost use Rattle.std.specs.Prelude.{◌≡◌, ◌≤◌, ◌^◌, ◌++◌, ℕ, map, length, OnOk, IfOk};
ghost use Rattle.trop_theory.specs.Vectors.{row_size};
ghost use Rattle.trop_spelling.specs.Spelling.{element_text};
ghost use Rattle.trop_spelling.specs.Parts.{IsRowLine};
ghost use Rattle.trop_reading.specs.InLines.{IsOnlyLine};
ghost use Rattle.trop_spelling.specs.Printed.{after_commas, numbers, printed_row};

use crate::{NoMemory, Spelling};
use std::alloc::Global;
use trop_row::Row;

/// The row as it is printed, `[a, b]`. It is read back as it is, under each bound on sizes that it keeps.
pub fn row_text<S: Spelling>(alloc: Global, row: &Row<S>) -> Result<Vec<u8>, NoMemory>
    ensures text { IfOk result (λ text. text.items ≡ printed_row S.KIND (numbers S.numbering row.now)) }
    ensures read_back { (bound : ℕ) → bound ≤ 2 ^ 48 → row_size S.ring row.now ≤ bound →
        IfOk result (λ text. IsOnlyLine (IsRowLine S.KIND S.ring S.numbering bound (length row.now)) text.items row.now) }
{
    let mut text = Vec::new(alloc);
    push_row(&mut text, row.as_slice())?;
    Ok(text)
}

/// Appends the row as it is printed.
pub fn push_row<S: Spelling>(text: &mut Vec<u8>, entries: &[S]) -> Result<(), NoMemory>
    ensures { OnOk result (text.new.items ≡ text.old.items ++ printed_row S.KIND (numbers S.numbering entries.now)) }
{
    text.push(b'[')?;
    if let [first, rest @ ..] = entries {
        first.push_element(text)?;
        push_rest(text, rest)?;
    }
    text.push(b']')?;
    Ok(())
}

// Each entry behind a comma and a space.
fn push_rest<S: Spelling>(text: &mut Vec<u8>, entries: &[S]) -> Result<(), NoMemory>
    ensures { OnOk result (text.new.items ≡ text.old.items
        ++ after_commas (map (element_text S.KIND) (numbers S.numbering entries.now))) }
{
    for x in entries {
        text.extend_from_slice(b", ")?;
        x.push_element(text)?;
    }
    Ok(())
}
