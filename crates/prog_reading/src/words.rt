//! Single tokens of a program.
ghost use Rattle.std.specs.Prelude.{◌≡◌, ◌≤◌, ◌<◌, length, IfOk, IfSome};
ghost use Rattle.trop_text.specs.declared.fault.FaultKind.TheVariants.{Syntax};
ghost use Rattle.shape_grammar.specs.Steps.{token_past};
ghost use Rattle.prog_theory.specs.Limits.{program_limits};
ghost use Rattle.prog_texts.specs.Words.{skipped};
ghost use Rattle.prog_texts.specs.Judges as spec;
ghost use Rattle.prog_reading.specs.Left.{left, source_of, entry_of};
ghost use Rattle.prog_reading.specs.Gives.{Gives, Settles, IsPassed};

use crate::at::At;
use crate::before::Entry;
use crate::read_err::ReadErr;
use trop_text::{FaultKind, Names, as_name, digits_value};

/// The greatest size of a number in a program, 2^31.
pub const GREATEST_NUMBER: u64 = 1 << 31;

/// The greatest size of a number in a row of a trace file, 2^40.
pub const GREATEST_ENTRY: u64 = 1 << 40;

/// The most variables, statements and atoms of a program.
pub const MOST_VARS: u32 = 63;

const MOST_STATEMENTS: u64 = 400;

const MOST_ATOMS: u64 = 1200;

/// A number that is at most the bound, of digits.
pub fn sized(entry: Entry<'_>, bound: u64) -> Result<u64, FaultKind>
    ensures within { IfOk result (λ n. n ≤ bound) }
    ensures value { result ≡ spec.sized bound (entry_of entry.entry) }
{
    match digits_value(entry.text(), bound) {
        Some(n) => Ok(n),
        None => Err(FaultKind::NumberRange),
    }
}

/// The value of a token of digits, at most the bound, as `number` of `prog_texts/specs/Judges` judges it. Errors:
/// `Syntax` where it is none, `NumberRange` where its value is above the bound.
pub fn number(entry: Entry<'_>, bound: u64) -> Result<u64, FaultKind>
    ensures within { IfOk result (λ n. n ≤ bound) }
    ensures value { result ≡ spec.number bound (entry_of entry.entry) }
{
    if entry.is_digits() {
        sized(entry, bound)
    } else {
        Err(FaultKind::Syntax)
    }
}

/// The coordinate of a variable.
pub fn variable(names: &Names, entry: Entry<'_>) -> Result<u32, FaultKind>
    requires { length names.now ≤ 63 }
    ensures { result ≡ spec.variable names.now (entry_of entry.entry) }
{
    let Some(name) = as_name(entry.text()) else {
        return Err(FaultKind::Syntax);
    };
    match names.position(name) {
        Some(place) => Ok(place + 1),
        None => Err(FaultKind::UnknownName),
    }
}

/// Whether it begins one more statement than there may be.
pub fn is_one_too_many(entry: Entry<'_>) -> bool
    ensures { result ≡ spec.is_one_too_many program_limits (entry_of entry.entry) }
{
    entry.begins_statement() && MOST_STATEMENTS <= entry.before.statements
}

/// Whether it begins one more atom than there may be.
pub fn is_atom_too_many(entry: Entry<'_>) -> bool
    ensures { result ≡ spec.is_atom_too_many program_limits (entry_of entry.entry) }
{
    entry.begins_atom() && MOST_ATOMS <= entry.before.atoms
}

/// What a reader at the place `here` answers by the word of a judge of `prog_texts/specs/Judges` on the token there:
/// its value, with what is behind the token, which is `rest`; or its fault, at the token.
pub fn settle<'a, X>(
    word: Result<X, FaultKind>,
    here: At<'a>,
    rest: At<'a>,
) -> Result<(X, At<'a>), ReadErr<'a>>
    ensures { Settles word here.entry rest.entry result }
{
    match word {
        Ok(x) => Ok((x, rest)),
        Err(what) => Err(ReadErr::Wrong(what, here)),
    }
}

/// Passes the next token, which is this word or sign, as `said` of `prog_texts/specs/Judges` judges it, and gives what
/// is behind it. Ends of lines before it mean nothing. Errors: `Syntax` at any other token, at the end of the input,
/// and behind it.
#[tactic(auto, unfolding(prog_texts::specs::Words::counted, trop_grammar::specs::Reading::token_at, shape_grammar::specs::Steps::token_past))]
pub fn said<'a>(at: At<'a>, text: &[u8]) -> Result<At<'a>, ReadErr<'a>>
    ensures gives { Gives (λ rest. (tt, left rest)) result
        (token_past skipped Syntax (spec.said text.now) (left at.entry)) }
    ensures source { IfOk result (λ rest. source_of rest ≡ source_of at.entry) }
    ensures shorter { IfOk result (λ rest. length (left rest) ≤ length (left at.entry)) }
{
    let here = at.past();
    match here.next() {
        Some((entry, rest)) if entry.says(text) => Ok(rest),
        _ => Err(ReadErr::Wrong(FaultKind::Syntax, here)),
    }
}

/// A number that is at most the bound, with what is behind it.
#[tactic(auto, unfolding(trop_grammar::specs::Reading::token_at, shape_grammar::specs::Steps::token_past))]
pub fn bounded<'a>(at: At<'a>, bound: u64) -> Result<(u64, At<'a>), ReadErr<'a>>
    ensures gives { Gives (λ x. (x.0, left x.1)) result (token_past skipped Syntax (spec.number bound) (left at.entry)) }
    ensures within { IfOk result (λ x. x.0 ≤ bound) }
    ensures source { IfOk result (λ x. source_of x.1 ≡ source_of at.entry) }
    ensures shorter { IfOk result (λ x. length (left x.1) ≤ length (left at.entry)) }
{
    let here = at.past();
    let Some((entry, rest)) = here.next() else {
        return Err(ReadErr::Wrong(FaultKind::Syntax, here));
    };
    settle(number(entry, bound), here, rest)
}

/// What is behind the word, where it is the next token.
pub fn follows<'a>(at: At<'a>, word: &[u8]) -> Option<At<'a>>
    ensures passed { IsPassed word.now (left at.entry) result }
    ensures source { IfSome result (λ rest. source_of rest ≡ source_of at.entry) }
    ensures shorter { IfSome result (λ rest. length (left rest) < length (left at.entry)) }
{
    let (entry, rest) = at.past().next()?;
    if entry.says(word) { Some(rest) } else { None }
}
