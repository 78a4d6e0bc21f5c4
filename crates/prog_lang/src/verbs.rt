//! What statements begin with.
ghost use Rattle.std.specs.Prelude.{◌≡◌, ◌≤◌, ◌<◌, length, Some, true, IfOk, IfSome};
ghost use Rattle.prog_theory.specs.Limits.{program_limits};
ghost use Rattle.prog_texts.specs.Statements as spec;
ghost use Rattle.prog_reading.specs.Left.{left, source_of, entry_of};
ghost use Rattle.prog_reading.specs.Gives.{Chosen, Begins};
ghost use Rattle.prog_lang.specs.Verbs.{verb_of, is_start};

use prog_reading::{At, Entry, ReadErr, is_one_too_many, variable};
use trop_text::{FaultKind, Names};

/// What a statement begins with.
#[derive(Clone, Copy, Drop)]
pub(crate) enum Verb {
    /// `havoc`
    Havocs,
    /// `assume`
    Assumes,
    /// `assert`
    Asserts,
    /// `if`
    Asks,
    /// `while`
    Loops,
    /// `skip`
    Skips,
    /// The variable that is set, by its coordinate.
    Sets(u32),
}

// Whether a statement may begin with the token.
fn is_start(entry: Entry<'_>) -> bool
    ensures { result ≡ is_start (entry_of entry.entry) }
{
    entry.says(b"havoc")
        || entry.says(b"assume")
        || entry.says(b"assert")
        || entry.says(b"if")
        || entry.says(b"while")
        || entry.says(b"skip")
        || entry.is_variable()
}

// What the token begins, of which the count is judged before the name.
fn judged_verb(names: &Names, entry: Entry<'_>) -> Result<Verb, FaultKind>
    requires names { length names.now ≤ 63 }
    requires begins { is_start (entry_of entry) ≡ true }
    ensures { Chosen verb_of (Some result) (spec.verb program_limits names.now (entry_of entry.entry)) }
{
    if is_one_too_many(entry) {
        return Err(FaultKind::TooManyStatements);
    }
    if entry.says(b"havoc") {
        return Ok(Verb::Havocs);
    }
    if entry.says(b"assume") {
        return Ok(Verb::Assumes);
    }
    if entry.says(b"assert") {
        return Ok(Verb::Asserts);
    }
    if entry.says(b"if") {
        return Ok(Verb::Asks);
    }
    if entry.says(b"while") {
        return Ok(Verb::Loops);
    }
    if entry.says(b"skip") {
        return Ok(Verb::Skips);
    }
    let coordinate = variable(names, entry)?;
    Ok(Verb::Sets(coordinate))
}

/// What the next token begins, with what is behind it; none where it begins no statement.
pub(crate) fn next_verb<'a>(
    names: &Names,
    at: At<'a>,
) -> Result<Option<(Verb, At<'a>)>, ReadErr<'a>>
    requires { length names.now ≤ 63 }
    ensures begins { Begins verb_of (spec.verb program_limits names.now) (left at.entry) result }
    ensures source { IfOk result (λ o. IfSome o (λ x. source_of x.1 ≡ source_of at.entry)) }
    ensures shorter { IfOk result (λ o. IfSome o (λ x. length (left x.1) < length (left at.entry))) }
{
    let here = at.past();
    let Some((entry, rest)) = here.next() else {
        return Ok(None);
    };
    let starts = is_start(entry);
    if !starts {
        return Ok(None);
    }
    match judged_verb(names, entry) {
        Ok(verb) => Ok(Some((verb, rest))),
        Err(what) => Err(ReadErr::Wrong(what, here)),
    }
}
