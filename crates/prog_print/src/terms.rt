//! Names, numbers and terms.
ghost use Rattle.std.specs.Prelude.{◌≡◌, ◌++◌, length, decimal, OnOk};
ghost use Rattle.prog_theory.specs.Fits.{IsVariable, FitsTerm};
ghost use Rattle.prog_tree.specs.Terms.{term_of};
ghost use Rattle.prog_texts.specs.Inks.{name_text};
ghost use Rattle.prog_print.specs.Texts.{constant_text, shift_text, term_text};

use crate::NoMemory;
use itoa::Buffer;
use prog_tree::Term;
use trop_text::Names;

fn push_number(text: &mut Vec<u8>, number: u64) -> Result<(), NoMemory>
    ensures { OnOk result (text.new.items ≡ text.old.items ++ decimal number) }
{
    let mut buffer = Buffer::new();
    text.extend_from_slice(buffer.format(number).as_bytes())
}

/// Appends the name of a variable.
#[tactic(auto, using(crate::proofs::Loops::name_found))]
pub(crate) fn push_name(text: &mut Vec<u8>, names: &Names, var: u32) -> Result<(), NoMemory>
    requires { IsVariable (length names.now) var }
    ensures { OnOk result (text.new.items ≡ text.old.items ++ name_text names.now var) }
{
    let name = names.name(var - 1);
    text.extend_from_slice(name.as_bytes())
}

// A number alone.
fn push_constant(text: &mut Vec<u8>, number: i64) -> Result<(), NoMemory>
    ensures { OnOk result (text.new.items ≡ text.old.items ++ constant_text number) }
{
    if number < 0 {
        text.push(b'-')?;
    }
    push_number(text, number.unsigned_abs())
}

// What stands behind a variable that the number is added to.
fn push_shift(text: &mut Vec<u8>, number: i64) -> Result<(), NoMemory>
    ensures { OnOk result (text.new.items ≡ text.old.items ++ shift_text number) }
{
    if number == 0 {
        return Ok(());
    }
    let sign: &[u8] = if number > 0 { b" + " } else { b" - " };
    text.extend_from_slice(sign)?;
    push_number(text, number.unsigned_abs())
}

/// Appends a term.
pub(crate) fn push_term(text: &mut Vec<u8>, names: &Names, term: Term) -> Result<(), NoMemory>
    requires { FitsTerm (length names.now) (term_of term) }
    ensures { OnOk result (text.new.items ≡ text.old.items ++ term_text names.now (term_of term)) }
{
    if term.coord == 0 {
        return push_constant(text, term.add);
    }
    push_name(text, names, term.coord)?;
    push_shift(text, term.add)
}
