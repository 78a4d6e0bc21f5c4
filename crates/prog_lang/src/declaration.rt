//! The declaration of the variables.
ghost use Rattle.std.specs.Prelude.{◌≡◌, ◌≤◌, ◌<◌, true, length, codes, IfOk, IfSome};
ghost use Rattle.trop_text.specs.Name.{is_name};
ghost use Rattle.prog_theory.specs.Limits.{program_limits};
ghost use Rattle.prog_texts.specs.Programs as spec;
ghost use Rattle.prog_reading.specs.Left.{left, source_of, entry_of};
ghost use Rattle.prog_reading.specs.Gives.{Gives};
ghost use Rattle.prog_lang.specs.ReadParts.{names_at};
ghost use Rattle.prog_lang.specs.Naming.{Adds, Declares};

use prog_reading::{At, MOST_VARS, ReadErr, said};
use std::alloc::Global;
use trop_text::{FaultKind, Names, as_name};

// Puts a name behind those before, where there is room and it is not among them.
fn add_name<'a>(
    alloc: Global,
    names: &mut Names,
    name: &str,
    here: At<'a>,
    rest: At<'a>,
) -> Result<Option<At<'a>>, ReadErr<'a>>
    requires is_name { is_name name.now ≡ true }
    requires few { length names.old ≤ 63 }
    ensures adds { Adds names.old name.now here.entry rest.entry result names.new }
    ensures count { IfOk result (λ o. length names.new ≤ 63) }
{
    if MOST_VARS <= names.len() {
        return Err(ReadErr::Wrong(FaultKind::TooManyVars, here));
    }
    if names.position(name).is_some() {
        return Err(ReadErr::Wrong(FaultKind::DuplicateName, here));
    }
    let _ = names.push(alloc, name)?;
    Ok(Some(rest))
}

// One more name, put behind those before, with what is behind it; none where no name follows.
fn next_name<'a>(
    alloc: Global,
    names: &mut Names,
    at: At<'a>,
) -> Result<Option<At<'a>>, ReadErr<'a>>
    requires { length names.old ≤ 63 }
    ensures declares { Declares names.old (left at.entry) result names.new }
    ensures count { IfOk result (λ o. length names.new ≤ 63) }
    ensures source { IfOk result (λ o. IfSome o (λ rest. source_of rest ≡ source_of at.entry)) }
    ensures shorter { IfOk result (λ o. IfSome o (λ rest. length (left rest) < length (left at.entry))) }
{
    let here = at.past();
    let Some((entry, rest)) = here.next() else {
        return Ok(None);
    };
    match as_name(entry.text()) {
        Some(name) => add_name(alloc, names, name, here, rest),
        None => Ok(None),
    }
}

// Names, as far as they go.
fn declared<'a>(alloc: Global, at: At<'a>) -> Result<(Names, At<'a>), ReadErr<'a>>
    ensures gives { Gives (λ x. (x.0, left x.1)) result (names_at (left at.entry)) }
    ensures count { IfOk result (λ x. length x.0 ≤ 63) }
    ensures source { IfOk result (λ x. source_of x.1 ≡ source_of at.entry) }
    ensures shorter { IfOk result (λ x. length (left x.1) ≤ length (left at.entry)) }
{
    let mut names = Names::new(alloc);
    let mut rest = at;
    'names: while let Some(after) = next_name(alloc, &mut names, rest)? {
        rest = after;
    }
    Ok((names, rest))
}

/// `vars`, the names and `;`.
#[tactic(auto, unfolding(trop_grammar::specs::Reading::read_then, trop_grammar::specs::Reading::gives, prog_texts::specs::Programs::declaration_at))]
pub(crate) fn declaration<'a>(alloc: Global, at: At<'a>) -> Result<(Names, At<'a>), ReadErr<'a>>
    ensures gives { Gives (λ x. (x.0, left x.1)) result (spec.declaration_at program_limits (left at.entry)) }
    ensures count { IfOk result (λ x. length x.0 ≤ 63) }
    ensures source { IfOk result (λ x. source_of x.1 ≡ source_of at.entry) }
{
    let rest = said(at, b"vars")?;
    let (names, rest) = declared(alloc, rest)?;
    let rest = said(rest, b";")?;
    Ok((names, rest))
}
