//! The lines of rows and of inequalities.
ghost use Rattle.std.specs.Prelude.{◌≡◌, ◌+◌, ◌++◌, All, length, codes, OnOk};
ghost use Rattle.trop_theory.specs.Inequalities.{IsIn};
ghost use Rattle.trop_spelling.specs.Printed.{numbers, printed_inequality};
ghost use Rattle.report_texts.specs.Printed.{row_text};
ghost use Rattle.report_print.specs.Texts.{rows_text, inequalities_text};

use crate::NoMemory;
use trop_row::{Gens, Ineq, Row, System};
use trop_spelling::{Spelling, push_inequality, push_row};
use trop_text::Names;

// The row, in normal form: a point where its entry 0 is finite, else a ray, with its other entries.
fn push_generator<S: Spelling>(text: &mut Vec<u8>, row: &Row<S>) -> Result<(), NoMemory>
    ensures { OnOk result (text.new.items ≡ text.old.items ++ row_text S.KIND (numbers S.numbering row.now)) }
{
    let [first, rest @ ..] = row.as_slice() else {
        return Ok(());
    };
    let word: &[u8] = if first.number().is_some() {
        b"point "
    } else {
        b"ray "
    };
    text.extend_from_slice(word)?;
    push_row(text, rest)
}

/// Appends a line for each row.
pub(crate) fn push_rows<S: Spelling>(text: &mut Vec<u8>, rows: &Gens<S>) -> Result<(), NoMemory>
    ensures { OnOk result (text.new.items ≡ text.old.items ++ rows_text S.KIND S.numbering rows.now.rows) }
{
    for row in rows.as_slice() {
        push_generator(text, row)?;
        text.push(b'\n')?;
    }
    Ok(())
}

// An inequality behind the word `inv`.
fn push_inv<S: Spelling>(text: &mut Vec<u8>, names: &Names, inv: &Ineq<S>) -> Result<(), NoMemory>
    requires { length inv.now.left ≡ length names.now + 1 }
    ensures { OnOk result (text.new.items ≡ text.old.items
        ++ (codes "inv " ++ printed_inequality S.KIND S.numbering names.now inv.now)) }
{
    text.extend_from_slice(b"inv ")?;
    push_inequality(text, names, inv)
}

/// Appends a line for each inequality.
pub(crate) fn push_inequalities<S: Spelling>(
    text: &mut Vec<u8>,
    names: &Names,
    invs: &System<S>,
) -> Result<(), NoMemory>
    requires { invs.now.n ≡ length names.now + 1 }
    ensures { OnOk result (text.new.items ≡ text.old.items
        ++ inequalities_text S.KIND S.numbering names.now invs.now.inequalities) }
{
    for inv in invs.as_slice() {
        push_inv(text, names, inv)?;
        text.push(b'\n')?;
    }
    Ok(())
}
