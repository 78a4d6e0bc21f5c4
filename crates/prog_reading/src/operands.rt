//! Operands: a number, or a variable with a number added or taken away.
ghost use Rattle.std.specs.Prelude.{◌≡◌, ◌≤◌, length, IfOk, IfSome};
ghost use Rattle.trop_text.specs.declared.fault.FaultKind.TheVariants.{Syntax};
ghost use Rattle.shape_grammar.specs.Steps.{token_past};
ghost use Rattle.prog_theory.specs.Limits.{program_limits};
ghost use Rattle.prog_tree.specs.Terms.{term_of};
ghost use Rattle.prog_texts.specs.Words.{skipped};
ghost use Rattle.prog_texts.specs.Operands as spec;
ghost use Rattle.prog_reading.specs.Left.{left, source_of, entry_of};
ghost use Rattle.prog_reading.specs.Gives.{Gives, Passed, Follows};
ghost use Rattle.prog_reading.specs.Firsts.{first_of, way_of};

use crate::at::At;
use crate::before::Entry;
use crate::read_err::ReadErr;
use crate::words::{GREATEST_NUMBER, bounded, settle, sized, variable};
use prog_tree::Term;
use trop_text::{FaultKind, Names};

/// What an operand begins with.
#[derive(Clone, Copy, Drop)]
pub enum First {
    /// A number.
    Value(u32),
    /// The `-` of a negative number.
    Negative,
    /// A variable, by its coordinate.
    Variable(u32),
}

/// Whether a number is added or taken away.
#[derive(Clone, Copy, Drop)]
enum Way {
    Plus,
    Minus,
}

/// The first token of an operand.
pub fn first_token(names: &Names, entry: Entry<'_>) -> Result<First, FaultKind>
    requires { length names.now ≤ 63 }
    ensures { Passed first_of result (spec.first program_limits names.now (entry_of entry.entry)) }
{
    if entry.is_digits() {
        let n = sized(entry, GREATEST_NUMBER)?;
        return Ok(First::Value(n as u32));
    }
    if entry.says(b"-") {
        return Ok(First::Negative);
    }
    match variable(names, entry) {
        Ok(coordinate) => Ok(First::Variable(coordinate)),
        Err(what) => Err(what),
    }
}

// The sign behind a variable, with what is behind it, where one follows.
fn next_way<'a>(at: At<'a>) -> Option<(Way, At<'a>)>
    ensures way { Follows way_of spec.way (left at.entry) result }
    ensures source { IfSome result (λ x. source_of x.1 ≡ source_of at.entry) }
    ensures shorter { IfSome result (λ x. length (left x.1) ≤ length (left at.entry)) }
{
    let (entry, rest) = at.past().next()?;
    if entry.says(b"+") {
        return Some((Way::Plus, rest));
    }
    if entry.says(b"-") {
        return Some((Way::Minus, rest));
    }
    None
}

// The number behind a sign, added to a variable or taken away.
#[tactic(auto, unfolding(trop_grammar::specs::Reading::read_then, trop_grammar::specs::Reading::gives, prog_texts::specs::Operands::moved_at))]
fn moved<'a>(coord: u32, way: Way, at: At<'a>) -> Result<(Term, At<'a>), ReadErr<'a>>
    ensures gives { Gives (λ x. (term_of x.0, left x.1)) result
        (spec.moved_at program_limits coord (way_of way) (left at.entry)) }
    ensures source { IfOk result (λ x. source_of x.1 ≡ source_of at.entry) }
    ensures shorter { IfOk result (λ x. length (left x.1) ≤ length (left at.entry)) }
{
    let (n, rest) = bounded(at, GREATEST_NUMBER)?;
    let n = n as i64;
    let add = match way {
        Way::Plus => n,
        Way::Minus => -n,
    };
    Ok((Term { coord, add }, rest))
}

// The number behind a `-`, taken away from 0.
#[tactic(auto, unfolding(trop_grammar::specs::Reading::read_then, trop_grammar::specs::Reading::gives, prog_texts::specs::Operands::operand_rest))]
fn negative<'a>(at: At<'a>) -> Result<(Term, At<'a>), ReadErr<'a>>
    ensures gives { Gives (λ x. (term_of x.0, left x.1)) result
        (spec.operand_rest program_limits spec.Negative (left at.entry)) }
    ensures source { IfOk result (λ x. source_of x.1 ≡ source_of at.entry) }
    ensures shorter { IfOk result (λ x. length (left x.1) ≤ length (left at.entry)) }
{
    let (n, rest) = bounded(at, GREATEST_NUMBER)?;
    let add = -(n as i64);
    Ok((Term { coord: 0, add }, rest))
}

// A variable, with what may be added to it.
fn with_sum<'a>(coord: u32, at: At<'a>) -> Result<(Term, At<'a>), ReadErr<'a>>
    ensures gives { Gives (λ x. (term_of x.0, left x.1)) result
        (spec.operand_rest program_limits (spec.Variable coord) (left at.entry)) }
    ensures source { IfOk result (λ x. source_of x.1 ≡ source_of at.entry) }
    ensures shorter { IfOk result (λ x. length (left x.1) ≤ length (left at.entry)) }
{
    match next_way(at) {
        Some((way, rest)) => moved(coord, way, rest),
        None => Ok((Term { coord, add: 0 }, at)),
    }
}

/// The rest of an operand, behind its first token.
#[tactic(auto, unfolding(trop_grammar::specs::Reading::gives, prog_texts::specs::Operands::operand_rest))]
pub fn operand_rest<'a>(first: First, at: At<'a>) -> Result<(Term, At<'a>), ReadErr<'a>>
    ensures gives { Gives (λ x. (term_of x.0, left x.1)) result
        (spec.operand_rest program_limits (first_of first) (left at.entry)) }
    ensures source { IfOk result (λ x. source_of x.1 ≡ source_of at.entry) }
    ensures shorter { IfOk result (λ x. length (left x.1) ≤ length (left at.entry)) }
{
    match first {
        First::Value(n) => {
            let add = i64::from(n);
            Ok((Term { coord: 0, add }, at))
        }
        First::Negative => negative(at),
        First::Variable(coord) => with_sum(coord, at),
    }
}

// What an operand begins with, and what is behind it.
#[tactic(auto, unfolding(trop_grammar::specs::Reading::token_at, shape_grammar::specs::Steps::token_past))]
fn begin<'a>(names: &Names, at: At<'a>) -> Result<(First, At<'a>), ReadErr<'a>>
    requires { length names.now ≤ 63 }
    ensures gives { Gives (λ x. (first_of x.0, left x.1)) result
        (token_past skipped Syntax (spec.first program_limits names.now) (left at.entry)) }
    ensures source { IfOk result (λ x. source_of x.1 ≡ source_of at.entry) }
    ensures shorter { IfOk result (λ x. length (left x.1) ≤ length (left at.entry)) }
{
    let here = at.past();
    let Some((entry, rest)) = here.next() else {
        return Err(ReadErr::Wrong(FaultKind::Syntax, here));
    };
    settle(first_token(names, entry), here, rest)
}

/// An operand.
#[tactic(auto, unfolding(trop_grammar::specs::Reading::read_then))]
pub fn operand<'a>(names: &Names, at: At<'a>) -> Result<(Term, At<'a>), ReadErr<'a>>
    requires { length names.now ≤ 63 }
    ensures gives { Gives (λ x. (term_of x.0, left x.1)) result
        (spec.operand_at program_limits names.now (left at.entry)) }
    ensures source { IfOk result (λ x. source_of x.1 ≡ source_of at.entry) }
    ensures shorter { IfOk result (λ x. length (left x.1) ≤ length (left at.entry)) }
{
    let (first, rest) = begin(names, at)?;
    operand_rest(first, rest)
}
