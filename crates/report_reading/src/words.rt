//! Single tokens of a report.
ghost use Rattle.std.specs.Prelude.{◌≡◌, nat_eq};
ghost use Rattle.trop_grammar.specs.Reading.{token_at};
ghost use Rattle.trop_text.specs.Pieces.{piece_of, pieces_left};
ghost use Rattle.trop_text.specs.declared.fault.FaultKind.TheVariants.{Syntax};
ghost use Rattle.trop_reading.specs.Gives.{Gives, Passed};
ghost use Rattle.report_texts.specs.Heads as heads;
ghost use Rattle.report_texts.specs.LineTexts as spec;
ghost use Rattle.report_texts.specs.Progress.{same_point};
ghost use Rattle.prog_graph.specs.Views.{point_of};
ghost use Rattle.report_reading.specs.Words.{number_in, label_word_of, label_of};

use prog_graph::Point;
use trop_reading::{ReadErr, is_digits, says, settle, text_of};
use trop_text::{FaultKind, Piece, Pieces, digits_value};

// A number of any length, by its digits.
#[derive(Clone, Copy)]
pub(crate) struct Number<'a> {
    digits: &'a [u8],
}

impl Number<'_> {
    // Whether it is this number.
    pub(crate) fn is(self, n: u64) -> bool
        ensures { result ≡ nat_eq (number_in self.entry) n }
    {
        digits_value(self.digits, n) == Some(n)
    }
}

// What point a block is of.
#[derive(Clone, Copy)]
pub(crate) enum Label<'a> {
    // Before the statement of this number.
    Statement(Number<'a>),
    // Inside a condition.
    Inner,
    // At the end of the program.
    Exit,
}

impl Label<'_> {
    // Whether it is that of this point.
    pub(crate) fn is(self, point: &Point) -> bool
        ensures { result ≡ same_point (label_of self.entry) (point_of point.now) }
    {
        match (self, point) {
            (Label::Statement(number), Point::Statement(k)) => number.is(*k as u64),
            (Label::Inner, Point::Inner) => true,
            (Label::Exit, Point::Exit) => true,
            _ => false,
        }
    }
}

// The word of a label.
#[derive(Clone, Copy)]
pub(crate) enum LabelWord {
    // `statement`, which has a number behind it.
    Statement,
    // `inner`.
    Inner,
    // `exit`.
    Exit,
}

// Digits of any length.
fn digits<'a>(piece: Piece<'a>) -> Result<Number<'a>, FaultKind>
    ensures { Passed number_in result (heads.digits (piece_of piece.entry)) }
{
    if is_digits(piece) {
        Ok(Number {
            digits: text_of(piece),
        })
    } else {
        Err(FaultKind::Syntax)
    }
}

// Digits of any length at the place where a reader stands.
#[tactic(auto, unfolding(trop_grammar::specs::Reading::token_at))]
pub(crate) fn next_digits<'a>(at: Pieces<'a>) -> Result<(Number<'a>, Pieces<'a>), ReadErr<'a>>
    ensures { Gives (λ x. (number_in x.0, pieces_left x.1)) result (token_at Syntax heads.digits (pieces_left at.entry)) }
{
    let Some((piece, rest)) = at.next() else {
        return Err(ReadErr::Wrong(FaultKind::Syntax, at));
    };
    match digits(piece) {
        Ok(number) => Ok((number, rest)),
        Err(what) => Err(ReadErr::Wrong(what, at)),
    }
}

// The word of a label.
fn label_word(piece: Piece<'_>) -> Result<LabelWord, FaultKind>
    ensures { Passed label_word_of result (spec.label_word (piece_of piece.entry)) }
{
    if says(piece, b"statement") {
        Ok(LabelWord::Statement)
    } else if says(piece, b"inner") {
        Ok(LabelWord::Inner)
    } else if says(piece, b"exit") {
        Ok(LabelWord::Exit)
    } else {
        Err(FaultKind::Syntax)
    }
}

// The word of a label at the place where a reader stands.
#[tactic(auto, unfolding(trop_grammar::specs::Reading::token_at))]
pub(crate) fn next_label_word<'a>(at: Pieces<'a>) -> Result<(LabelWord, Pieces<'a>), ReadErr<'a>>
    ensures { Gives (λ x. (label_word_of x.0, pieces_left x.1)) result
        (token_at Syntax spec.label_word (pieces_left at.entry)) }
{
    let Some((piece, rest)) = at.next() else {
        return Err(ReadErr::Wrong(FaultKind::Syntax, at));
    };
    match label_word(piece) {
        Ok(word) => Ok((word, rest)),
        Err(what) => Err(ReadErr::Wrong(what, at)),
    }
}

// What stands behind the word of a label.
#[tactic(auto, unfolding(trop_grammar::specs::Reading::read_then, trop_grammar::specs::Reading::gives, report_texts::specs::LineTexts::label_rest_at))]
pub(crate) fn label_rest<'a>(
    word: LabelWord,
    at: Pieces<'a>,
) -> Result<(Label<'a>, Pieces<'a>), ReadErr<'a>>
    ensures { Gives (λ x. (label_of x.0, pieces_left x.1)) result
        (spec.label_rest_at (label_word_of word) (pieces_left at.entry)) }
{
    match word {
        LabelWord::Statement => {
            let (number, rest) = next_digits(at)?;
            Ok((Label::Statement(number), rest))
        }
        LabelWord::Inner => Ok((Label::Inner, at)),
        LabelWord::Exit => Ok((Label::Exit, at)),
    }
}

// `proved` or `unknown`.
fn verdict_word(piece: Piece<'_>) -> Result<bool, FaultKind>
    ensures { result ≡ spec.verdict_word (piece_of piece.entry) }
{
    if says(piece, b"proved") {
        Ok(true)
    } else if says(piece, b"unknown") {
        Ok(false)
    } else {
        Err(FaultKind::Syntax)
    }
}

// `proved` or `unknown` at the place where a reader stands.
#[tactic(auto, unfolding(trop_grammar::specs::Reading::token_at))]
pub(crate) fn next_verdict<'a>(at: Pieces<'a>) -> Result<(bool, Pieces<'a>), ReadErr<'a>>
    ensures { Gives (λ x. (x.0, pieces_left x.1)) result (token_at Syntax spec.verdict_word (pieces_left at.entry)) }
{
    match at.next() {
        Some((piece, rest)) => settle(verdict_word(piece), at, rest),
        None => Err(ReadErr::Wrong(FaultKind::Syntax, at)),
    }
}
