//! Terms and sides.
ghost use Rattle.std.specs.Prelude.{◌≡◌, ◌+◌, ◌≤◌, ◌<◌, ◌^◌, IfOk, IfSome, IsTrue, Some, codes, length};
ghost use Rattle.trop_text.specs.Name.{is_name};
ghost use Rattle.trop_text.specs.Names.{AreNames, place_of};
ghost use Rattle.trop_grammar.specs.Reading.{token_at};
ghost use Rattle.trop_grammar.specs.Lists.{separated_step, next_of};
ghost use Rattle.trop_text.specs.Pieces.{piece_of, pieces_left, pieces_source};
ghost use Rattle.trop_text.specs.declared.fault.FaultKind.TheVariants.{Syntax};
ghost use Rattle.trop_reading.specs.Gives.{Gives};
ghost use Rattle.trop_reading.specs.Words as words;
ghost use Rattle.trop_spelling.specs.Elements as elements;
ghost use Rattle.trop_spelling.specs.Inequalities as spec;

use crate::elements::element_rest;
use crate::{RingKind, Spelling};
use std::alloc::{AllocError, Global};
use trop_reading::{ReadErr, is_digits, number, said, says, settle, text_of};
use trop_row::Row;
use trop_scalar::Scalar;
use trop_text::{FaultKind, Names, Piece, Pieces, as_name, is_name};

/// What a term begins with.
#[derive(Clone, Copy, Drop)]
pub enum Start<S> {
    /// A whole constant.
    Constant(S),
    /// The `-` of a constant.
    Minus,
    /// A variable, by its coordinate.
    Variable(u32),
}

/// A coefficient at a coordinate. Coordinate 0 is the constant, the variables follow it.
#[derive(Clone, Copy, Drop)]
pub struct Term<S> {
    /// The coordinate.
    pub coordinate: u32,
    /// The coefficient, which is the zero where the term adds nothing.
    pub coefficient: S,
}

// Whether the name at the place is this one.
fn is_at(names: &Names, place: u32, name: &[u8]) -> bool
    ensures place { IsTrue result → place_of name.now names.now ≡ Some place }
    ensures names { AreNames names.now }
{
    place < names.len() && names.name(place).as_bytes() == name
}

// The place of a name, from 0. The name at the place `near` is looked at first.
#[tactic(auto, using(crate::proofs::NamePlaces::found_name, crate::proofs::NamePlaces::no_name_nowhere))]
fn place_near(names: &Names, name: &[u8], near: u32) -> Option<u32>
    requires { length names.now ≤ 63 }
    ensures place { result ≡ place_of name.now names.now }
    ensures name { IfSome result (λ _. IsTrue (is_name name.now)) }
    ensures within { IfSome result (λ i. i < 63) }
{
    if is_at(names, near, name) {
        return Some(near);
    }
    match as_name(name) {
        Some(name) => names.position(name),
        None => None,
    }
}

// A name of a variable, most likely of the one at the place `near`.
#[tactic(auto, unfolding(crate::specs::Inequalities::variable))]
fn variable<S: Scalar>(names: &Names, near: u32, piece: Piece<'_>) -> Result<Start<S>, FaultKind>
    requires { length names.now ≤ 63 }
    ensures { result ≡ spec.variable names.now (piece_of piece.entry) }
{
    let text = text_of(piece);
    match place_near(names, text, near) {
        Some(place) => Ok(Start::Variable(place + 1)),
        None if is_name(text) => Err(FaultKind::UnknownName),
        None => Err(FaultKind::Syntax),
    }
}

// A number, a `-` or a variable.
#[tactic(auto, unfolding(crate::specs::Inequalities::max_term))]
fn max_term<S: Scalar>(
    names: &Names,
    near: u32,
    piece: Piece<'_>,
    bound: u64,
) -> Result<Start<S>, FaultKind>
    requires names { length names.now ≤ 63 }
    requires bound { bound ≤ 2 ^ 48 }
    ensures { result ≡ spec.max_term S.numbering bound names.now (piece_of piece.entry) }
{
    if says(piece, b"-") {
        return Ok(Start::Minus);
    }
    if !is_digits(piece) {
        return variable(names, near, piece);
    }
    let n = number(piece, bound)?;
    Ok(Start::Constant(S::of_number(n as i64)))
}

// The first token of a term.
#[tactic(auto, unfolding(crate::specs::Inequalities::term_start))]
fn term_start<S: Spelling>(
    names: &Names,
    near: u32,
    piece: Piece<'_>,
    bound: u64,
) -> Result<Start<S>, FaultKind>
    requires names { length names.now ≤ 63 }
    requires bound { bound ≤ 2 ^ 48 }
    ensures { result ≡ spec.term_start S.KIND S.ring S.numbering bound names.now (piece_of piece.entry) }
{
    match S::KIND {
        RingKind::Max => max_term(names, near, piece, bound),
        RingKind::Min if says(piece, b"oo") => Ok(Start::Constant(S::zero())),
        RingKind::Min => max_term(names, near, piece, bound),
        RingKind::Bool if says(piece, b"true") => Ok(Start::Constant(S::one())),
        RingKind::Bool if says(piece, b"false") => Ok(Start::Constant(S::zero())),
        RingKind::Bool => variable(names, near, piece),
    }
}

// The sign between a variable and a number; true for `+`.
fn shift_sign(piece: Piece<'_>) -> Option<bool>
    ensures { result ≡ spec.shift_sign (piece_of piece.entry) }
{
    if says(piece, b"+") {
        Some(true)
    } else if says(piece, b"-") {
        Some(false)
    } else {
        None
    }
}

// The number behind that sign.
fn shift<S: Scalar>(piece: Piece<'_>, up: bool, bound: u64) -> Result<S, FaultKind>
    requires { bound ≤ 2 ^ 48 }
    ensures { result ≡ spec.shift S.numbering bound up (piece_of piece.entry) }
{
    let n = number(piece, bound)? as i64;
    Ok(S::of_number(if up { n } else { -n }))
}

// A number behind the sign, as the coefficient at this coordinate.
#[tactic(auto, unfolding(trop_grammar::specs::Reading::token_at, trop_grammar::specs::Reading::read_then, trop_grammar::specs::Reading::gives, crate::specs::Inequalities::shifted_at))]
fn shifted<'a, S: Scalar>(
    at: Pieces<'a>,
    coordinate: u32,
    up: bool,
    bound: u64,
) -> Result<(Term<S>, Pieces<'a>), ReadErr<'a>>
    requires { bound ≤ 2 ^ 48 }
    ensures gives { Gives (λ x. (x.0, pieces_left x.1)) result
        (spec.shifted_at S.numbering bound coordinate up (pieces_left at.entry)) }
    ensures source { IfOk result (λ x. pieces_source x.1 ≡ pieces_source at.entry) }
{
    let Some((piece, rest)) = at.next() else {
        return Err(ReadErr::Wrong(FaultKind::Syntax, at));
    };
    let (coefficient, rest) = settle(shift(piece, up, bound), at, rest)?;
    let term = Term {
        coordinate,
        coefficient,
    };
    Ok((term, rest))
}

// What may stand behind a variable: a sign and a number, or nothing.
#[tactic(auto, unfolding(trop_grammar::specs::Reading::option_at))]
fn variable_rest<'a, S: Scalar>(
    at: Pieces<'a>,
    coordinate: u32,
    bound: u64,
) -> Result<(Term<S>, Pieces<'a>), ReadErr<'a>>
    requires { bound ≤ 2 ^ 48 }
    ensures gives { Gives (λ x. (x.0, pieces_left x.1)) result
        (spec.shifts_at S.ring S.numbering bound coordinate (pieces_left at.entry)) }
    ensures source { IfOk result (λ x. pieces_source x.1 ≡ pieces_source at.entry) }
{
    if let Some((piece, rest)) = at.next() {
        if let Some(up) = shift_sign(piece) {
            return shifted(rest, coordinate, up, bound);
        }
    }
    let term = Term {
        coordinate,
        coefficient: S::one(),
    };
    Ok((term, at))
}

// The rest of a term in max or min.
#[tactic(auto, unfolding(trop_grammar::specs::Reading::read_then, trop_grammar::specs::Reading::gives, crate::specs::Elements::behind_at, crate::specs::Inequalities::numeric_rest_at))]
fn numeric_rest<'a, S: Spelling>(
    start: Start<S>,
    at: Pieces<'a>,
    bound: u64,
) -> Result<(Term<S>, Pieces<'a>), ReadErr<'a>>
    requires { bound ≤ 2 ^ 48 }
    ensures gives { Gives (λ x. (x.0, pieces_left x.1)) result
        (spec.numeric_rest_at S.ring S.numbering bound (elements.behind_minus S.KIND S.ring S.numbering bound) start
        (pieces_left at.entry)) }
    ensures source { IfOk result (λ x. pieces_source x.1 ≡ pieces_source at.entry) }
{
    let (coefficient, rest) = match start {
        Start::Constant(x) => (x, at),
        Start::Minus => element_rest(None, at, bound)?,
        Start::Variable(i) => return variable_rest(at, i, bound),
    };
    let term = Term {
        coordinate: 0,
        coefficient,
    };
    Ok((term, rest))
}

// A term in bool, which has no more than its first token.
fn truth_term<S: Scalar>(start: Start<S>) -> Term<S>
    ensures { result ≡ spec.truth_term S.ring start }
{
    match start {
        Start::Constant(x) => Term {
            coordinate: 0,
            coefficient: x,
        },
        Start::Minus => Term {
            coordinate: 0,
            coefficient: S::zero(),
        },
        Start::Variable(i) => Term {
            coordinate: i,
            coefficient: S::one(),
        },
    }
}

// The rest of a term.
#[tactic(auto, unfolding(trop_grammar::specs::Reading::gives, crate::specs::Inequalities::term_rest_at))]
fn term_rest<'a, S: Spelling>(
    start: Start<S>,
    at: Pieces<'a>,
    bound: u64,
) -> Result<(Term<S>, Pieces<'a>), ReadErr<'a>>
    requires { bound ≤ 2 ^ 48 }
    ensures gives { Gives (λ x. (x.0, pieces_left x.1)) result
        (spec.term_rest_at S.KIND S.ring S.numbering bound start (pieces_left at.entry)) }
    ensures source { IfOk result (λ x. pieces_source x.1 ≡ pieces_source at.entry) }
{
    match S::KIND {
        RingKind::Max => numeric_rest(start, at, bound),
        RingKind::Min => numeric_rest(start, at, bound),
        RingKind::Bool => Ok((truth_term(start), at)),
    }
}

// A term, most likely of the variable at the place `near`.
#[tactic(auto, unfolding(trop_grammar::specs::Reading::token_at, trop_grammar::specs::Reading::read_then, crate::specs::Inequalities::term_at))]
fn read_term<'a, S: Spelling>(
    names: &Names,
    near: u32,
    at: Pieces<'a>,
    bound: u64,
) -> Result<(Term<S>, Pieces<'a>), ReadErr<'a>>
    requires names { length names.now ≤ 63 }
    requires bound { bound ≤ 2 ^ 48 }
    ensures gives { Gives (λ x. (x.0, pieces_left x.1)) result
        (spec.term_at S.KIND S.ring S.numbering bound names.now (pieces_left at.entry)) }
    ensures source { IfOk result (λ x. pieces_source x.1 ≡ pieces_source at.entry) }
{
    let Some((piece, rest)) = at.next() else {
        return Err(ReadErr::Wrong(FaultKind::Syntax, at));
    };
    let (start, rest) = settle(term_start(names, near, piece, bound), at, rest)?;
    term_rest(start, rest, bound)
}

// The comma before one more term, as true, or the bracket that closes the sum.
fn between_terms(piece: Piece<'_>) -> Result<bool, FaultKind>
    ensures { result ≡ spec.between_terms (piece_of piece.entry) }
{
    if says(piece, b",") {
        Ok(true)
    } else if says(piece, b")") {
        Ok(false)
    } else {
        Err(FaultKind::Syntax)
    }
}

// The place of the variable that mostly follows these terms: the one behind that of the last term.
fn next_place<S: Scalar>(terms: &[Term<S>]) -> u32 {
    match terms {
        [.., last] => last.coordinate,
        [] => 0,
    }
}

// One more term, which is put behind those before, and whether another one follows.
#[tactic(auto, unfolding(trop_grammar::specs::Reading::token_at, trop_grammar::specs::Reading::read_then, trop_grammar::specs::Reading::gives, trop_grammar::specs::Lists::separated_step))]
fn next_term<'a, S: Spelling>(
    terms: &mut Vec<Term<S>>,
    names: &Names,
    at: Pieces<'a>,
    bound: u64,
) -> Result<(bool, Pieces<'a>), ReadErr<'a>>
    requires names { length names.now ≤ 63 }
    requires bound { bound ≤ 2 ^ 48 }
    ensures gives { Gives (λ x. (next_of x.0 terms.new.items, pieces_left x.1)) result
        (separated_step Syntax (spec.term_at S.KIND S.ring S.numbering bound names.now) spec.between_terms
        terms.old.items (pieces_left at.entry)) }
    ensures source { IfOk result (λ x. pieces_source x.1 ≡ pieces_source at.entry) }
{
    let (term, at) = read_term(names, next_place(terms.as_slice()), at, bound)?;
    let Some((piece, rest)) = at.next() else {
        return Err(ReadErr::Wrong(FaultKind::Syntax, at));
    };
    let (more, rest) = settle(between_terms(piece), at, rest)?;
    terms.push(term)?;
    Ok((more, rest))
}

// The terms of a sum, up to the bracket that closes it.
fn terms<'a, S: Spelling>(
    alloc: Global,
    names: &Names,
    at: Pieces<'a>,
    bound: u64,
) -> Result<(Vec<Term<S>>, Pieces<'a>), ReadErr<'a>>
    requires names { length names.now ≤ 63 }
    requires bound { bound ≤ 2 ^ 48 }
    ensures gives { Gives (λ x. (x.0.items, pieces_left x.1)) result
        (spec.terms_at S.KIND S.ring S.numbering bound names.now (pieces_left at.entry)) }
    ensures source { IfOk result (λ x. pieces_source x.1 ≡ pieces_source at.entry) }
{
    let mut terms = Vec::with_capacity(alloc, names.len() as usize + 1)?;
    let mut rest = at;
    'terms: loop {
        let (more, after) = next_term(&mut terms, names, rest, bound)?;
        rest = after;
        if !more {
            return Ok((terms, rest));
        }
    }
}

/// What the first token of a side says: the sum word, as none, or what the one term of the side begins with. A number
/// there is at most `bound`.
pub fn side_start<S: Spelling>(
    names: &Names,
    piece: Piece<'_>,
    bound: u64,
) -> Result<Option<Start<S>>, FaultKind>
    requires names { length names.now ≤ 63 }
    requires bound { bound ≤ 2 ^ 48 }
    ensures { result ≡ spec.side_start S.KIND S.ring S.numbering bound names.now (piece_of piece.entry) }
{
    if says(piece, S::sum_word()) {
        return Ok(None);
    }
    let start = term_start(names, 0, piece, bound)?;
    Ok(Some(start))
}

// The rest of a side: of its one term, or terms in brackets.
#[tactic(auto, unfolding(trop_grammar::specs::Reading::read_then, trop_grammar::specs::Reading::gives, crate::specs::Inequalities::side_rest_at))]
pub(crate) fn side_rest<'a, S: Spelling>(
    alloc: Global,
    names: &Names,
    start: Option<Start<S>>,
    at: Pieces<'a>,
    bound: u64,
) -> Result<(Vec<Term<S>>, Pieces<'a>), ReadErr<'a>>
    requires names { length names.now ≤ 63 }
    requires bound { bound ≤ 2 ^ 48 }
    ensures gives { Gives (λ x. (x.0.items, pieces_left x.1)) result
        (spec.side_rest_at S.KIND S.ring S.numbering bound names.now start (pieces_left at.entry)) }
    ensures source { IfOk result (λ x. pieces_source x.1 ≡ pieces_source at.entry) }
{
    let Some(start) = start else {
        let rest = said(at, b"(")?;
        return terms(alloc, names, rest, bound);
    };
    let (term, rest) = term_rest(start, at, bound)?;
    let mut terms = Vec::new(alloc);
    terms.push(term)?;
    Ok((terms, rest))
}

// A side.
#[tactic(auto, unfolding(trop_grammar::specs::Reading::token_at, trop_grammar::specs::Reading::read_then, crate::specs::Inequalities::side_at))]
pub(crate) fn side<'a, S: Spelling>(
    alloc: Global,
    names: &Names,
    at: Pieces<'a>,
    bound: u64,
) -> Result<(Vec<Term<S>>, Pieces<'a>), ReadErr<'a>>
    requires names { length names.now ≤ 63 }
    requires bound { bound ≤ 2 ^ 48 }
    ensures gives { Gives (λ x. (x.0.items, pieces_left x.1)) result
        (spec.side_at S.KIND S.ring S.numbering bound names.now (pieces_left at.entry)) }
    ensures source { IfOk result (λ x. pieces_source x.1 ≡ pieces_source at.entry) }
{
    let Some((piece, rest)) = at.next() else {
        return Err(ReadErr::Wrong(FaultKind::Syntax, at));
    };
    let (start, rest) = settle(side_start(names, piece, bound), at, rest)?;
    side_rest(alloc, names, start, rest, bound)
}
