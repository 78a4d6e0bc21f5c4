//! Files as they are printed.
ghost use Rattle.std.specs.Prelude.{◌≡◌, ◌≤◌, ◌+◌, ◌++◌, length, OnOk, IfOk, All};
ghost use Rattle.trop_theory.specs.Normal.{IsNormal};
ghost use Rattle.trop_theory.specs.Vectors.{rows_size};
ghost use Rattle.trop_theory.specs.Inequalities.{system_size};
ghost use Rattle.trop_text.specs.Names.{AreNames};
ghost use Rattle.trop_text.specs.Pieces.{pieces_of};
ghost use Rattle.trop_spelling.specs.Printed.{numbers};
ghost use Rattle.trop_files.specs.PrintedFiles.{after_spaces, printed_header, generator_line, printed_gens, printed_ineqs};
ghost use Rattle.trop_files.specs.Generators.{greatest_number, most_generators, Rows, SpellsGenerators};
ghost use Rattle.trop_files.specs.InequalityFiles.{most_inequalities, Systems, SpellsInequalities};

use std::alloc::Global;
use trop_row::{Gens, System};
use trop_spelling::{NoMemory, Spelling, push_inequality, push_row};
use trop_text::Names;

/// The file of generators with these rows, which are in normal form, in the variables with these names. Where a file
/// may hold them, it is read back as these names and rows.
pub fn print_gens<S: Spelling>(
    alloc: Global,
    names: &Names,
    gens: &Gens<S>,
) -> Result<Vec<u8>, NoMemory>
    requires names { gens.now.n ≡ length names.now + 1 }
    requires normal { All (IsNormal S.ring) gens.now.rows }
    ensures text { IfOk result (λ text. text.items ≡ printed_gens S.KIND S.numbering names.now gens.now.rows) }
    ensures read_back { length gens.now.rows ≤ most_generators → rows_size S.ring gens.now.rows ≤ greatest_number →
        IfOk result (λ text. SpellsGenerators (pieces_of text.items)
        (record { names = names.now; vars_line = 3; rows = S.three.over Rows gens.now.rows })) }
{
    let mut text = Vec::new(alloc);
    push_header::<S>(&mut text, b"gens", names)?;
    for row in gens.as_slice() {
        push_generator(&mut text, row.as_slice())?;
        text.push(b'\n')?;
    }
    Ok(text)
}

/// The file of these inequalities, in the variables with these names. Where a file may hold them, it is read back as
/// these names and inequalities.
pub fn print_ineqs<S: Spelling>(
    alloc: Global,
    names: &Names,
    system: &System<S>,
) -> Result<Vec<u8>, NoMemory>
    requires { system.now.n ≡ length names.now + 1 }
    ensures text { IfOk result (λ text. text.items ≡ printed_ineqs S.KIND S.numbering names.now system.now.inequalities) }
    ensures read_back { length system.now.inequalities ≤ most_inequalities →
        system_size S.ring system.now.inequalities ≤ greatest_number →
        IfOk result (λ text. SpellsInequalities (pieces_of text.items)
        (record { names = names.now; inequalities = S.three.over Systems system.now.inequalities })) }
{
    let mut text = Vec::new(alloc);
    push_header::<S>(&mut text, b"ineqs", names)?;
    for ineq in system.as_slice() {
        push_inequality(&mut text, names, ineq)?;
        text.push(b'\n')?;
    }
    Ok(text)
}

fn push_header<S: Spelling>(
    text: &mut Vec<u8>,
    file_kind: &[u8],
    names: &Names,
) -> Result<(), NoMemory>
    ensures text { OnOk result (text.new.items ≡ text.old.items ++ printed_header file_kind.now S.KIND names.now) }
    ensures names { OnOk result (AreNames names.now) }
{
    text.extend_from_slice(b"kind ")?;
    text.extend_from_slice(file_kind)?;
    text.extend_from_slice(b"\nsemiring ")?;
    text.extend_from_slice(S::ring_word())?;
    text.extend_from_slice(b"\nvars")?;
    push_names(text, names)?;
    text.push(b'\n')?;
    Ok(())
}

// Each name behind a space.
fn push_names(text: &mut Vec<u8>, names: &Names) -> Result<(), NoMemory>
    ensures text { OnOk result (text.new.items ≡ text.old.items ++ after_spaces names.now) }
    ensures names { OnOk result (AreNames names.now) }
{
    for place in 0..names.len() {
        text.push(b' ')?;
        text.extend_from_slice(names.name(place).as_bytes())?;
    }
    Ok(())
}

fn push_generator<S: Spelling>(text: &mut Vec<u8>, row: &[S]) -> Result<(), NoMemory>
    ensures { OnOk result (text.new.items ≡ text.old.items ++ generator_line S.KIND (numbers S.numbering row.now)) }
{
    let [first, rest @ ..] = row else {
        return Ok(());
    };
    let word: &[u8] = if first.number().is_some() {
        b"point "
    } else {
        b"ray "
    };
    text.extend_from_slice(word)?;
    push_row(text, rest)
}
