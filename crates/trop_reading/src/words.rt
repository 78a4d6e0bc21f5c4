//! Judges of single pieces.
ghost use Rattle.std.specs.Prelude.{◌≡◌, ◌≤◌, IfOk};
ghost use Rattle.trop_grammar.specs.Reading.{token_at};
ghost use Rattle.trop_text.specs.Pieces.{piece_of, pieces_left, pieces_from, pieces_source, tokens_left};
ghost use Rattle.trop_text.specs.declared.fault.FaultKind.TheVariants.{Syntax};
ghost use Rattle.trop_reading.specs.Gives.{Gives, Settles};
ghost use Rattle.trop_reading.specs.Words as spec;

use crate::read_err::ReadErr;
use trop_text::{FaultKind, Piece, Pieces, TokenKind, digits_value};

/// The bytes of a token, and none of an end.
pub fn text_of<'a>(piece: Piece<'a>) -> &'a [u8]
    ensures { result.now ≡ spec.text_of (piece_of piece.entry) }
{
    match piece {
        Piece::Token(token) => token.text,
        Piece::LineEnd(_) | Piece::InputEnd => &[],
    }
}

/// Whether the piece is this word or sign.
pub fn says(piece: Piece<'_>, text: &[u8]) -> bool
    ensures { result ≡ spec.says text.now (piece_of piece.entry) }
{
    text_of(piece) == text
}

/// Whether the piece is a number.
pub fn is_digits(piece: Piece<'_>) -> bool
    ensures { result ≡ spec.is_digits (piece_of piece.entry) }
{
    match piece {
        Piece::Token(token) => token.kind == TokenKind::Digits,
        Piece::LineEnd(_) | Piece::InputEnd => false,
    }
}

/// The value of a piece of digits, at most the bound, as `number` of `specs/Words` judges it. Errors: `Syntax` where
/// the piece is no number, `NumberRange` where its value is above the bound.
#[tactic(auto, unfolding(crate::specs::Words::number))]
pub fn number(piece: Piece<'_>, bound: u64) -> Result<u64, FaultKind>
    ensures within { IfOk result (λ n. n ≤ bound) }
    ensures value { result ≡ spec.number bound (piece_of piece.entry) }
{
    match piece {
        Piece::Token(token) if token.kind == TokenKind::Digits => {
            match digits_value(token.text, bound) {
                Some(n) => Ok(n),
                None => Err(FaultKind::NumberRange),
            }
        }
        _ => Err(FaultKind::Syntax),
    }
}

/// Passes the next piece, which is this word or sign, as `said` of `specs/Words` judges it, and gives what is behind
/// it. Errors: `Syntax` at any other piece, and where none is left.
#[tactic(auto, unfolding(trop_grammar::specs::Reading::token_at))]
pub fn said<'a>(at: Pieces<'a>, text: &[u8]) -> Result<Pieces<'a>, ReadErr<'a>>
    ensures gives { Gives (λ rest. (tt, pieces_left rest)) result
        (token_at Syntax (spec.said text.now) (pieces_left at.entry)) }
    ensures source { IfOk result (λ rest. pieces_source rest ≡ pieces_source at.entry) }
{
    match at.next() {
        Some((piece, rest)) if says(piece, text) => Ok(rest),
        _ => Err(ReadErr::Wrong(FaultKind::Syntax, at)),
    }
}

/// The end of a line.
#[tactic(auto, unfolding(trop_grammar::specs::Reading::token_at))]
pub fn line_end<'a>(at: Pieces<'a>) -> Result<Pieces<'a>, ReadErr<'a>>
    ensures gives { Gives (λ rest. (tt, pieces_left rest)) result (token_at Syntax spec.line_end (pieces_left at.entry)) }
    ensures source { IfOk result (λ rest. pieces_source rest ≡ pieces_source at.entry) }
    ensures resumes { IfOk result (λ rest. pieces_left rest ≡ pieces_from (tokens_left rest) 0) }
{
    match at.next() {
        Some((Piece::LineEnd(_), rest)) => Ok(rest),
        _ => Err(ReadErr::Wrong(FaultKind::Syntax, at)),
    }
}

/// The end of the input.
#[tactic(auto, unfolding(trop_grammar::specs::Reading::token_at))]
pub fn input_end<'a>(at: Pieces<'a>) -> Result<Pieces<'a>, ReadErr<'a>>
    ensures { Gives (λ rest. (tt, pieces_left rest)) result (token_at Syntax spec.input_end (pieces_left at.entry)) }
{
    match at.next() {
        Some((Piece::InputEnd, rest)) => Ok(rest),
        _ => Err(ReadErr::Wrong(FaultKind::Syntax, at)),
    }
}

/// What a reader at the place `at` answers by the word of a judge of `specs/Words` on the piece there: its value, with
/// what is behind the piece, which is `rest`; or its fault, at the piece.
pub fn settle<'a, X>(
    word: Result<X, FaultKind>,
    at: Pieces<'a>,
    rest: Pieces<'a>,
) -> Result<(X, Pieces<'a>), ReadErr<'a>>
    ensures { Settles word at.entry rest.entry result }
{
    match word {
        Ok(x) => Ok((x, rest)),
        Err(what) => Err(ReadErr::Wrong(what, at)),
    }
}
