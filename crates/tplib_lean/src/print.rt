//! Lean lists as they are printed.
ghost use Rattle.std.specs.Prelude.{◌≡◌, ◌+◌, ◌++◌, length, codes, OnOk, IfOk};
ghost use Rattle.trop_spelling.specs.Printed.{printed_inequality};
ghost use Rattle.tplib_lean.specs.Printed.{fails_comment, printed_lean};

use std::alloc::Global;
use trop_files::{Spelling, print_ineqs};
use trop_lean::LeanList;
use trop_row::{Ineq, Row, System};
use trop_spelling::{NoMemory, push_inequality, push_row};
use trop_text::Names;

/// The file of the inequalities of a lean list, in the variables with these names. Behind each of them stands a comment
/// with its row.
pub fn print_lean<S: Spelling>(
    alloc: Global,
    names: &Names,
    list: &LeanList<S>,
) -> Result<Vec<u8>, NoMemory>
    requires names { list.now.kept.n ≡ length names.now + 1 }
    requires one_each { length list.now.rows.rows ≡ length list.now.kept.inequalities }
    ensures { IfOk result (λ text. text.items ≡
        printed_lean S.KIND S.numbering names.now list.now.kept.inequalities list.now.rows.rows) }
{
    let kept = list.kept.as_slice();
    let rows = list.rows.as_slice();

    // The file of no inequality is the header.
    let mut text = print_ineqs(alloc, names, &System::<S>::new(alloc, list.kept.n()))?;
    for k in 0..kept.len() {
        push_bound(&mut text, names, &kept[k])?;
        push_comment(&mut text, &rows[k])?;
    }
    Ok(text)
}

// Appends the line of an inequality.
fn push_bound<S: Spelling>(
    text: &mut Vec<u8>,
    names: &Names,
    ineq: &Ineq<S>,
) -> Result<(), NoMemory>
    requires { length ineq.now.left ≡ length names.now + 1 }
    ensures { OnOk result (text.new.items ≡ text.old.items
        ++ (printed_inequality S.KIND S.numbering names.now ineq.now ++ codes "\n")) }
{
    push_inequality(text, names, ineq)?;
    text.push(b'\n')?;
    Ok(())
}

// Appends the line of the comment that names the row.
fn push_comment<S: Spelling>(text: &mut Vec<u8>, row: &Row<S>) -> Result<(), NoMemory>
    ensures { OnOk result (text.new.items ≡ text.old.items ++ (fails_comment S.KIND S.numbering row.now ++ codes "\n")) }
{
    text.extend_from_slice(b"# fails at ")?;
    push_row(text, row.as_slice())?;
    text.push(b'\n')?;
    Ok(())
}
