//! The lines of rows and of inequalities.
ghost use Rattle.std.specs.Prelude.{◌≡◌, ◌+◌, ◌*◌, ◌++◌, length, OnOk};
ghost use Rattle.report_texts.specs.Printed.{lines_text};
ghost use Rattle.mixed_print.specs.Blocks.{row_line, inv_line};

use crate::NoMemory;
use crate::sides::push_side;
use trop_row::{Gens, Ineq, Row, System};
use trop_scalar::{MaxInt, Scalar};
use trop_spelling::{Spelling, push_row};
use trop_text::Names;

// The row, in normal form: a point where its entry 0 is finite, else a ray, with its other entries.
fn push_generator(text: &mut Vec<u8>, row: &Row<MaxInt>) -> Result<(), NoMemory>
    ensures { OnOk result (text.new.items ≡ text.old.items ++ row_line row.now) }
{
    let [first, rest @ ..] = row.as_slice() else {
        return Ok(());
    };
    let word: &[u8] = if first.number().is_some() {
        b"point "
    } else {
        b"ray "
    };
    text.extend_from_slice(word)?;
    push_row(text, rest)
}

/// Appends a line for each row.
pub(crate) fn push_rows(text: &mut Vec<u8>, rows: &Gens<MaxInt>) -> Result<(), NoMemory>
    ensures { OnOk result (text.new.items ≡ text.old.items ++ lines_text row_line rows.now.rows) }
{
    for row in rows.as_slice() {
        push_generator(text, row)?;
        text.push(b'\n')?;
    }
    Ok(())
}

// The inequality behind the word `inv`.
fn push_inv(text: &mut Vec<u8>, names: &Names, inv: &Ineq<MaxInt>) -> Result<(), NoMemory>
    requires { length inv.now.left ≡ 2 * length names.now + 1 }
    ensures { OnOk result (text.new.items ≡ text.old.items ++ inv_line names.now inv.now) }
{
    text.extend_from_slice(b"inv ")?;
    push_side(text, names, inv.left().as_slice())?;
    text.push(b' ')?;
    text.extend_from_slice(<MaxInt as Spelling>::order_word())?;
    text.push(b' ')?;
    push_side(text, names, inv.right().as_slice())
}

/// Appends a line for each inequality.
pub(crate) fn push_inequalities(
    text: &mut Vec<u8>,
    names: &Names,
    invs: &System<MaxInt>,
) -> Result<(), NoMemory>
    requires { invs.now.n ≡ 2 * length names.now + 1 }
    ensures { OnOk result (text.new.items ≡ text.old.items
        ++ lines_text (inv_line names.now) invs.now.inequalities) }
{
    for inv in invs.as_slice() {
        push_inv(text, names, inv)?;
        text.push(b'\n')?;
    }
    Ok(())
}
