//! Elements and rows.
ghost use Rattle.std.specs.Prelude.{◌≡◌, ◌+◌, ◌≤◌, ◌^◌, IfOk, vec_len};
ghost use Rattle.trop_grammar.specs.Reading.{token_at, repeat_at};
ghost use Rattle.trop_text.specs.Pieces.{piece_of, pieces_left, pieces_source};
ghost use Rattle.trop_text.specs.declared.fault.FaultKind.TheVariants.{Syntax};
ghost use Rattle.trop_reading.specs.Gives.{Gives};
ghost use Rattle.trop_spelling.specs.Elements as spec;

use crate::{RingKind, Spelling};
use std::alloc::Global;
use trop_reading::{ReadErr, number, said, says, settle};
use trop_scalar::Scalar;
use trop_text::{FaultKind, Piece, Pieces};

// A number, or, as none, the `-` of a negative number or of `-oo`.
fn max_start<S: Scalar>(piece: Piece<'_>, bound: u64) -> Result<Option<S>, FaultKind>
    requires { bound ≤ 2 ^ 48 }
    ensures { result ≡ spec.max_start S.numbering bound (piece_of piece.entry) }
{
    if says(piece, b"-") {
        return Ok(None);
    }
    let n = number(piece, bound)?;
    Ok(Some(S::of_number(n as i64)))
}

// What may stand behind a `-` in max: `oo` or a number.
fn max_behind<S: Scalar>(piece: Piece<'_>, bound: u64) -> Result<S, FaultKind>
    requires { bound ≤ 2 ^ 48 }
    ensures { result ≡ spec.max_behind S.ring S.numbering bound (piece_of piece.entry) }
{
    if says(piece, b"oo") {
        return Ok(S::zero());
    }
    let n = number(piece, bound)?;
    Ok(S::of_number(-(n as i64)))
}

// A number, `oo`, or, as none, the `-` of a negative number.
fn min_start<S: Scalar>(piece: Piece<'_>, bound: u64) -> Result<Option<S>, FaultKind>
    requires { bound ≤ 2 ^ 48 }
    ensures { result ≡ spec.min_start S.ring S.numbering bound (piece_of piece.entry) }
{
    if says(piece, b"oo") {
        return Ok(Some(S::zero()));
    }
    max_start(piece, bound)
}

// What may stand behind a `-` in min: a number.
fn min_behind<S: Scalar>(piece: Piece<'_>, bound: u64) -> Result<S, FaultKind>
    requires { bound ≤ 2 ^ 48 }
    ensures { result ≡ spec.min_behind S.numbering bound (piece_of piece.entry) }
{
    let n = number(piece, bound)?;
    Ok(S::of_number(-(n as i64)))
}

// `true` or `false`.
fn truth<S: Scalar>(piece: Piece<'_>) -> Result<S, FaultKind>
    ensures { result ≡ spec.truth S.ring (piece_of piece.entry) }
{
    if says(piece, b"true") {
        Ok(S::one())
    } else if says(piece, b"false") {
        Ok(S::zero())
    } else {
        Err(FaultKind::Syntax)
    }
}

// What may stand behind a `-`; in bool no token is one.
#[tactic(auto, unfolding(crate::specs::Elements::behind_minus))]
fn behind_minus<S: Spelling>(piece: Piece<'_>, bound: u64) -> Result<S, FaultKind>
    requires { bound ≤ 2 ^ 48 }
    ensures { result ≡ spec.behind_minus S.KIND S.ring S.numbering bound (piece_of piece.entry) }
{
    match S::KIND {
        RingKind::Max => max_behind(piece, bound),
        RingKind::Min => min_behind(piece, bound),
        RingKind::Bool => Err(FaultKind::Syntax),
    }
}

// The token behind a `-`.
#[tactic(auto, unfolding(trop_grammar::specs::Reading::token_at))]
fn negative<'a, S: Spelling>(at: Pieces<'a>, bound: u64) -> Result<(S, Pieces<'a>), ReadErr<'a>>
    requires { bound ≤ 2 ^ 48 }
    ensures gives { Gives (λ x. (x.0, pieces_left x.1)) result
        (token_at Syntax (spec.behind_minus S.KIND S.ring S.numbering bound) (pieces_left at.entry)) }
    ensures source { IfOk result (λ x. pieces_source x.1 ≡ pieces_source at.entry) }
{
    match at.next() {
        Some((piece, rest)) => settle(behind_minus(piece, bound), at, rest),
        None => Err(ReadErr::Wrong(FaultKind::Syntax, at)),
    }
}

// What stands behind the first token of a number or of `-oo`.
#[tactic(auto, unfolding(trop_grammar::specs::Reading::gives, crate::specs::Elements::behind_at))]
#[inline(always)]
pub(crate) fn element_rest<'a, S: Spelling>(
    start: Option<S>,
    at: Pieces<'a>,
    bound: u64,
) -> Result<(S, Pieces<'a>), ReadErr<'a>>
    requires { bound ≤ 2 ^ 48 }
    ensures gives { Gives (λ x. (x.0, pieces_left x.1)) result
        (spec.behind_at (spec.behind_minus S.KIND S.ring S.numbering bound) start (pieces_left at.entry)) }
    ensures source { IfOk result (λ x. pieces_source x.1 ≡ pieces_source at.entry) }
{
    match start {
        Some(x) => Ok((x, at)),
        None => negative(at, bound),
    }
}

// An element of the semiring of this name.
#[tactic(auto, unfolding(trop_grammar::specs::Reading::token_at, trop_grammar::specs::Reading::read_then, crate::specs::Elements::behind_minus, crate::specs::Elements::element_at))]
pub(crate) fn element<'a, S: Spelling>(
    at: Pieces<'a>,
    bound: u64,
) -> Result<(S, Pieces<'a>), ReadErr<'a>>
    requires { bound ≤ 2 ^ 48 }
    ensures gives { Gives (λ x. (x.0, pieces_left x.1)) result
        (spec.element_at S.KIND S.ring S.numbering bound (pieces_left at.entry)) }
    ensures source { IfOk result (λ x. pieces_source x.1 ≡ pieces_source at.entry) }
{
    let Some((piece, rest)) = at.next() else {
        return Err(ReadErr::Wrong(FaultKind::Syntax, at));
    };
    match S::KIND {
        RingKind::Max => {
            let (start, rest) = settle(max_start(piece, bound), at, rest)?;
            element_rest(start, rest, bound)
        }
        RingKind::Min => {
            let (start, rest) = settle(min_start(piece, bound), at, rest)?;
            element_rest(start, rest, bound)
        }
        RingKind::Bool => settle(truth(piece), at, rest),
    }
}

// A comma and an element, put behind those before.
#[tactic(auto, unfolding(trop_grammar::specs::Reading::gives, trop_grammar::specs::Reading::read_then, crate::specs::Elements::next_entry_at))]
fn next_entry<'a, S: Spelling>(
    row: &mut Vec<S>,
    at: Pieces<'a>,
    bound: u64,
) -> Result<Pieces<'a>, ReadErr<'a>>
    requires { bound ≤ 2 ^ 48 }
    ensures gives { Gives (λ rest. (row.new.items, pieces_left rest)) result
        (spec.next_entry_at S.KIND S.ring S.numbering bound row.old.items (pieces_left at.entry)) }
    ensures source { IfOk result (λ rest. pieces_source rest ≡ pieces_source at.entry) }
    ensures length { IfOk result (λ rest. vec_len row.new ≡ vec_len row.old + 1) }
{
    let rest = said(at, b",")?;
    let (x, rest) = element(rest, bound)?;
    row.push(x)?;
    Ok(rest)
}

// So many elements with a comma before each.
fn more_entries<'a, S: Spelling>(
    row: &mut Vec<S>,
    at: Pieces<'a>,
    count: u32,
    bound: u64,
) -> Result<Pieces<'a>, ReadErr<'a>>
    requires { bound ≤ 2 ^ 48 }
    ensures gives { Gives (λ rest. (row.new.items, pieces_left rest)) result
        (repeat_at (spec.next_entry_at S.KIND S.ring S.numbering bound) count row.old.items (pieces_left at.entry)) }
    ensures source { IfOk result (λ rest. pieces_source rest ≡ pieces_source at.entry) }
    ensures length { IfOk result (λ rest. vec_len row.new ≡ vec_len row.old + count) }
{
    let mut rest = at;
    'entries: for _ in 0..count {
        rest = next_entry(row, rest, bound)?;
    }
    Ok(rest)
}

/// A row of so many elements, whose numbers have size at most `bound`, from `[` to `]`, and what is behind it. For
/// readers that go on there.
#[tactic(auto, unfolding(trop_grammar::specs::Reading::gives, trop_grammar::specs::Reading::read_then, crate::specs::Elements::row_at))]
pub fn row_entries<'a, S: Spelling>(
    alloc: Global,
    at: Pieces<'a>,
    len: u32,
    bound: u64,
) -> Result<(Vec<S>, Pieces<'a>), ReadErr<'a>>
    requires { bound ≤ 2 ^ 48 }
    ensures gives { Gives (λ x. (x.0.items, pieces_left x.1)) result
        (spec.row_at S.KIND S.ring S.numbering bound len (pieces_left at.entry)) }
    ensures source { IfOk result (λ x. pieces_source x.1 ≡ pieces_source at.entry) }
    ensures length { IfOk result (λ x. vec_len x.0 ≡ len) }
{
    let mut row = Vec::with_capacity(alloc, len as usize)?;
    let rest = said(at, b"[")?;
    if len == 0 {
        let rest = said(rest, b"]")?;
        return Ok((row, rest));
    }
    let (x, rest) = element(rest, bound)?;
    row.push(x)?;
    let rest = more_entries(&mut row, rest, len - 1, bound)?;
    let rest = said(rest, b"]")?;
    Ok((row, rest))
}
