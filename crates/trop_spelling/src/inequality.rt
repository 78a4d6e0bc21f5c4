//! Inequalities.
ghost use Rattle.std.specs.Prelude.{◌≡◌, ◌+◌, ◌≤◌, ◌^◌, IfOk, length};
ghost use Rattle.trop_theory.specs.Inequalities.{IsIn};
ghost use Rattle.trop_grammar.specs.Reading.{token_at};
ghost use Rattle.trop_text.specs.Pieces.{piece_of, pieces_left, pieces_from, pieces_source, tokens_left};
ghost use Rattle.trop_text.specs.declared.fault.FaultKind.TheVariants.{Syntax};
ghost use Rattle.trop_reading.specs.Gives.{Gives};
ghost use Rattle.trop_spelling.specs.Inequalities as spec;

use crate::terms::{Start, Term, side, side_rest};
use crate::{RingKind, Spelling};
use std::alloc::{AllocError, Global};
use trop_reading::{ReadErr, line_end, says, settle};
use trop_row::{Ineq, Row};
use trop_scalar::Scalar;
use trop_text::{FaultKind, Names, Piece, Pieces};

// Adds a term to the coefficients.
fn add_term<S: Scalar>(row: &mut Row<S>, term: Term<S>)
    ensures { row.new ≡ spec.with_term S.ring row.old term }
{
    let i = term.coordinate;
    if i < row.len() {
        row.set(i, row.get(i).plus(term.coefficient));
    }
}

// The coefficients of n coordinates; terms of one coordinate are added.
fn coefficients<S: Scalar>(alloc: Global, terms: &[Term<S>], n: u32) -> Result<Row<S>, AllocError>
    requires { n ≤ 64 }
    ensures value { IfOk result (λ row. row ≡ spec.coefficients S.ring n terms.now) }
    ensures wide { IfOk result (λ row. length row ≡ n) }
{
    let mut row = Row::bottom(alloc, n)?;
    'terms: for term in terms {
        add_term(&mut row, *term);
    }
    Ok(row)
}

// The inequality of two sides in n coordinates, turned or not.
fn inequality<S: Scalar>(
    alloc: Global,
    turned: bool,
    p: &[Term<S>],
    q: &[Term<S>],
    n: u32,
) -> Result<Ineq<S>, AllocError>
    requires { n ≤ 64 }
    ensures value { IfOk result (λ ineq. ineq ≡ spec.inequality S.ring n turned p.now q.now) }
    ensures wide { IfOk result (λ ineq. IsIn n ineq) }
{
    let left = coefficients(alloc, p, n)?;
    let right = coefficients(alloc, q, n)?;
    if turned {
        Ok(Ineq::new(right, left))
    } else {
        Ok(Ineq::new(left, right))
    }
}

// The order word; true where the inequality is turned.
fn order_mark<S: Spelling>(piece: Piece<'_>) -> Result<bool, FaultKind>
    ensures { result ≡ spec.order_mark S.KIND (piece_of piece.entry) }
{
    match S::KIND {
        RingKind::Max if says(piece, b"<=") => Ok(false),
        RingKind::Max if says(piece, b">=") => Ok(true),
        RingKind::Min if says(piece, b">=") => Ok(false),
        RingKind::Min if says(piece, b"<=") => Ok(true),
        RingKind::Bool if says(piece, b"=>") => Ok(false),
        _ => Err(FaultKind::Syntax),
    }
}

// The order word at the place where a reader stands.
#[tactic(auto, unfolding(trop_grammar::specs::Reading::token_at))]
fn order<'a, S: Spelling>(at: Pieces<'a>) -> Result<(bool, Pieces<'a>), ReadErr<'a>>
    ensures gives { Gives (λ x. (x.0, pieces_left x.1)) result
        (token_at Syntax (spec.order_mark S.KIND) (pieces_left at.entry)) }
    ensures source { IfOk result (λ x. pieces_source x.1 ≡ pieces_source at.entry) }
{
    match at.next() {
        Some((piece, rest)) => settle(order_mark::<S>(piece), at, rest),
        None => Err(ReadErr::Wrong(FaultKind::Syntax, at)),
    }
}

/// The rest of an inequality behind the first token of its left side, of which `start` says what
/// [`side_start`](crate::side_start) found, with the end of its line. It has a coordinate for each name and coordinate
/// 0, and numbers of size at most `bound`.
#[tactic(auto, unfolding(trop_grammar::specs::Reading::read_then, trop_grammar::specs::Reading::gives, crate::specs::Inequalities::inequality_rest_at))]
pub fn inequality_rest<'a, S: Spelling>(
    alloc: Global,
    names: &Names,
    start: Option<Start<S>>,
    at: Pieces<'a>,
    bound: u64,
) -> Result<(Ineq<S>, Pieces<'a>), ReadErr<'a>>
    requires names { length names.now ≤ 63 }
    requires bound { bound ≤ 2 ^ 48 }
    ensures gives { Gives (λ x. (x.0, pieces_left x.1)) result
        (spec.inequality_rest_at S.KIND S.ring S.numbering bound names.now start (pieces_left at.entry)) }
    ensures source { IfOk result (λ x. pieces_source x.1 ≡ pieces_source at.entry) }
    ensures wide { IfOk result (λ x. IsIn (length names.now + 1) x.0) }
    ensures resumes { IfOk result (λ x. pieces_left x.1 ≡ pieces_from (tokens_left x.1) 0) }
{
    let (p, rest) = side_rest(alloc, names, start, at, bound)?;
    let (turned, rest) = order::<S>(rest)?;
    let (q, rest) = side(alloc, names, rest, bound)?;
    let rest = line_end(rest)?;
    let n = names.len() + 1;
    let ineq = inequality(alloc, turned, p.as_slice(), q.as_slice(), n)?;
    Ok((ineq, rest))
}
