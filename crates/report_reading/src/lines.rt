//! One line behind the program.
ghost use Rattle.std.specs.Prelude.{◌≡◌, ◌+◌, ◌≤◌, ◌<◌, ◌∷◌, ◌^◌, IfOk, length};
ghost use Rattle.trop_theory.specs.Vectors.{row_size};
ghost use Rattle.trop_grammar.specs.Reading.{token_at};
ghost use Rattle.trop_text.specs.Pieces.{piece_of, pieces_left};
ghost use Rattle.trop_text.specs.declared.fault.FaultKind.TheVariants.{Syntax};
ghost use Rattle.trop_reading.specs.Gives.{Gives, Passed};
ghost use Rattle.trop_spelling.specs.Inequalities.{inequality_at};
ghost use Rattle.trop_spelling.specs.Parts.{row_line_at};
ghost use Rattle.report_texts.specs.Limits.{greatest_entry, greatest_inv};
ghost use Rattle.report_texts.specs.LineTexts as spec;
ghost use Rattle.report_reading.specs.Places.{place_of};
ghost use Rattle.report_reading.specs.Lines.{line_of, word_of, at_rest_at, assert_rest_at, shut_rest_at, end_rest_at, row_rest_at, inv_rest_at};

use crate::place::Place;
use crate::words::{Label, Number, label_rest, next_digits, next_label_word, next_verdict};
use std::alloc::{AllocError, Global};
use trop_reading::{ReadErr, line_end, says, settle};
use trop_row::{Ineq, Row};
use trop_scalar::Scalar;
use trop_spelling::{Spelling, inequality_rest, row_entries, side_start};
use trop_text::{FaultKind, Names, Piece, Pieces};

// The greatest size of a number in a row, 2^40, and in an inequality, 2^48.
const GREATEST_ENTRY: u64 = 1 << 40;

const GREATEST_INV: u64 = 1 << 48;

// A line.
#[derive(Drop)]
pub(crate) enum Line<'a, S: Scalar> {
    // The block of a point begins.
    At(Number<'a>, Label<'a>),
    // The point has no row.
    Unreachable,
    // A row in normal form, or one that is all the zero.
    Row(Row<S>),
    // An inequality.
    Inv(Ineq<S>),
    // The verdict on the assert with the number, true for proved.
    Assert(Number<'a>, bool),
    // The last `end`.
    Last,
}

// The first word of a line.
#[derive(Clone, Copy)]
pub(crate) enum Word {
    At,
    Unreachable,
    Point,
    Ray,
    Inv,
    Assert,
    End,
}

// The first word of a line.
#[tactic(auto, unfolding(report_texts::specs::LineTexts::line_word))]
fn line_word<S: Scalar>(piece: Piece<'_>) -> Result<Word, FaultKind>
    ensures { Passed (word_of S.ring) result (spec.line_word S.ring (piece_of piece.entry)) }
{
    if says(piece, b"at") {
        Ok(Word::At)
    } else if says(piece, b"unreachable") {
        Ok(Word::Unreachable)
    } else if says(piece, b"point") {
        Ok(Word::Point)
    } else if says(piece, b"ray") {
        Ok(Word::Ray)
    } else if says(piece, b"inv") {
        Ok(Word::Inv)
    } else if says(piece, b"assert") {
        Ok(Word::Assert)
    } else if says(piece, b"end") {
        Ok(Word::End)
    } else {
        Err(FaultKind::Syntax)
    }
}

// The word, where it may stand at the place.
fn admitted<S: Scalar>(place: &Place<S>, word: Word) -> Result<Word, FaultKind>
    ensures { Passed (word_of S.ring) result (spec.admitted (place_of place.now) (word_of S.ring word)) }
{
    match word {
        Word::At => Ok(word),
        Word::Assert => Ok(word),
        Word::End => Ok(word),
        Word::Unreachable => match place.may_shut() {
            Ok(()) => Ok(word),
            Err(what) => Err(what),
        },
        Word::Point => match place.may_row() {
            Ok(()) => Ok(word),
            Err(what) => Err(what),
        },
        Word::Ray => match place.may_row() {
            Ok(()) => Ok(word),
            Err(what) => Err(what),
        },
        Word::Inv => match place.may_inv() {
            Ok(()) => Ok(word),
            Err(what) => Err(what),
        },
    }
}

// The first word of a line that may stand at the place.
fn placed_word<S: Scalar>(place: &Place<S>, piece: Piece<'_>) -> Result<Word, FaultKind>
    ensures { Passed (word_of S.ring) result
        (spec.placed_word S.ring (place_of place.now) (piece_of piece.entry)) }
{
    match line_word::<S>(piece) {
        Ok(word) => admitted(place, word),
        Err(what) => Err(what),
    }
}

// The same at the place where a reader stands.
#[tactic(auto, unfolding(trop_grammar::specs::Reading::token_at))]
fn next_word<'a, S: Scalar>(
    place: &Place<S>,
    at: Pieces<'a>,
) -> Result<(Word, Pieces<'a>), ReadErr<'a>>
    ensures { Gives (λ x. (word_of S.ring x.0, pieces_left x.1)) result
        (token_at Syntax (spec.placed_word S.ring (place_of place.now)) (pieces_left at.entry)) }
{
    let Some((piece, rest)) = at.next() else {
        return Err(ReadErr::Wrong(FaultKind::Syntax, at));
    };
    match placed_word(place, piece) {
        Ok(word) => Ok((word, rest)),
        Err(what) => Err(ReadErr::Wrong(what, at)),
    }
}

// The rest of an `at` line.
#[tactic(auto, unfolding(trop_grammar::specs::Reading::read_then, trop_grammar::specs::Reading::gives))]
fn at_rest<'a, S: Scalar>(at: Pieces<'a>) -> Result<(Line<'a, S>, Pieces<'a>), ReadErr<'a>>
    ensures { Gives (λ x. (line_of x.0, pieces_left x.1)) result (at_rest_at (pieces_left at.entry)) }
{
    let (number, rest) = next_digits(at)?;
    let (word, rest) = next_label_word(rest)?;
    let (label, rest) = label_rest(word, rest)?;
    let rest = line_end(rest)?;
    Ok((Line::At(number, label), rest))
}

// The rest of an `assert` line.
#[tactic(auto, unfolding(trop_grammar::specs::Reading::read_then, trop_grammar::specs::Reading::gives))]
fn assert_rest<'a, S: Scalar>(at: Pieces<'a>) -> Result<(Line<'a, S>, Pieces<'a>), ReadErr<'a>>
    ensures { Gives (λ x. (line_of x.0, pieces_left x.1)) result (assert_rest_at (pieces_left at.entry)) }
{
    let (number, rest) = next_digits(at)?;
    let (proved, rest) = next_verdict(rest)?;
    let rest = line_end(rest)?;
    Ok((Line::Assert(number, proved), rest))
}

// The rest of an `unreachable` line.
#[tactic(auto, unfolding(trop_grammar::specs::Reading::read_then, trop_grammar::specs::Reading::gives))]
fn shut_rest<'a, S: Scalar>(at: Pieces<'a>) -> Result<(Line<'a, S>, Pieces<'a>), ReadErr<'a>>
    ensures { Gives (λ x. (line_of x.0, pieces_left x.1)) result (shut_rest_at (pieces_left at.entry)) }
{
    let rest = line_end(at)?;
    Ok((Line::Unreachable, rest))
}

// The rest of the last line.
#[tactic(auto, unfolding(trop_grammar::specs::Reading::read_then, trop_grammar::specs::Reading::gives))]
fn end_rest<'a, S: Scalar>(at: Pieces<'a>) -> Result<(Line<'a, S>, Pieces<'a>), ReadErr<'a>>
    ensures { Gives (λ x. (line_of x.0, pieces_left x.1)) result (end_rest_at (pieces_left at.entry)) }
{
    let rest = line_end(at)?;
    Ok((Line::Last, rest))
}

// The elements of a row, up to the end of its line.
#[tactic(auto, unfolding(trop_grammar::specs::Reading::read_then, trop_grammar::specs::Reading::gives, trop_spelling::specs::Parts::row_line_at))]
fn entries<'a, S: Spelling>(
    alloc: Global,
    at: Pieces<'a>,
    vars: u32,
) -> Result<(Vec<S>, Pieces<'a>), ReadErr<'a>>
    ensures gives { Gives (λ x. (x.0.items, pieces_left x.1)) result
        (row_line_at S.KIND S.ring S.numbering greatest_entry vars (pieces_left at.entry)) }
    ensures wide { IfOk result (λ x. length x.0.items ≡ vars) }
{
    let (entries, rest) = row_entries(alloc, at, vars, GREATEST_ENTRY)?;
    let rest = line_end(rest)?;
    Ok((entries, rest))
}

// The row of these elements with the first in front, in normal form; where all are the zero, as it is.
fn normal_row<S: Scalar>(alloc: Global, first: S, entries: Vec<S>) -> Result<Row<S>, AllocError>
    requires few { length entries.items ≤ 63 }
    requires sizes { row_size S.ring (first ∷ entries.items) ≤ 2 ^ 60 }
    ensures { IfOk result (λ row. row ≡ spec.normalised S.ring S.numbering (first ∷ entries.items)) }
{
    let mut entries = entries;
    entries.insert(0, first)?;
    let mut row = Row::from_entries(alloc, &entries)?;
    let _finite = row.normalise();
    Ok(row)
}

// The rest of a `point` or `ray` line.
#[tactic(auto, unfolding(trop_grammar::specs::Reading::read_then, trop_grammar::specs::Reading::gives))]
fn row_rest<'a, S: Spelling>(
    alloc: Global,
    first: S,
    vars: u32,
    at: Pieces<'a>,
) -> Result<(Line<'a, S>, Pieces<'a>), ReadErr<'a>>
    requires few { vars ≤ 63 }
    requires first { S.ring.size first ≡ 0 }
    ensures { Gives (λ x. (line_of x.0, pieces_left x.1)) result
        (row_rest_at S.KIND S.ring S.numbering vars first (pieces_left at.entry)) }
{
    let (entries, rest) = entries(alloc, at, vars)?;
    let row = normal_row(alloc, first, entries)?;
    Ok((Line::Row(row), rest))
}

// The rest of an `inv` line.
#[tactic(auto, unfolding(trop_grammar::specs::Reading::token_at, trop_grammar::specs::Reading::read_then, trop_grammar::specs::Reading::gives, trop_spelling::specs::Inequalities::inequality_at))]
fn inv_rest<'a, S: Spelling>(
    alloc: Global,
    names: &Names,
    at: Pieces<'a>,
) -> Result<(Line<'a, S>, Pieces<'a>), ReadErr<'a>>
    requires { length names.now ≤ 63 }
    ensures { Gives (λ x. (line_of x.0, pieces_left x.1)) result
        (inv_rest_at S.KIND S.ring S.numbering names.now (pieces_left at.entry)) }
{
    let Some((piece, rest)) = at.next() else {
        return Err(ReadErr::Wrong(FaultKind::Syntax, at));
    };
    let (start, rest) = settle(side_start(names, piece, GREATEST_INV), at, rest)?;
    let (inv, rest) = inequality_rest(alloc, names, start, rest, GREATEST_INV)?;
    Ok((Line::Inv(inv), rest))
}

// What stands behind the first word of a line.
#[tactic(auto, unfolding(report_texts::specs::LineTexts::line_rest_at))]
fn line_rest<'a, S: Spelling>(
    alloc: Global,
    names: &Names,
    word: Word,
    at: Pieces<'a>,
) -> Result<(Line<'a, S>, Pieces<'a>), ReadErr<'a>>
    requires { length names.now ≤ 63 }
    ensures { Gives (λ x. (line_of x.0, pieces_left x.1)) result
        (spec.line_rest_at S.KIND S.ring S.numbering names.now (word_of S.ring word) (pieces_left at.entry)) }
{
    match word {
        Word::At => at_rest(at),
        Word::Unreachable => shut_rest(at),
        Word::Point => row_rest(alloc, S::one(), names.len(), at),
        Word::Ray => row_rest(alloc, S::zero(), names.len(), at),
        Word::Inv => inv_rest(alloc, names, at),
        Word::Assert => assert_rest(at),
        Word::End => end_rest(at),
    }
}

/// A line that may stand at the place.
#[tactic(auto, unfolding(trop_grammar::specs::Reading::read_then, report_texts::specs::LineTexts::line_at))]
pub(crate) fn read_line<'a, S: Spelling>(
    alloc: Global,
    names: &Names,
    place: &Place<S>,
    at: Pieces<'a>,
) -> Result<(Line<'a, S>, Pieces<'a>), ReadErr<'a>>
    requires { length names.now ≤ 63 }
    ensures gives { Gives (λ x. (line_of x.0, pieces_left x.1)) result
        (spec.line_at S.KIND S.ring S.numbering names.now (place_of place.now) (pieces_left at.entry)) }
{
    let (word, rest) = next_word(place, at)?;
    line_rest(alloc, names, word, rest)
}
