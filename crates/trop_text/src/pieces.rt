//! Pieces: tokens with the ends of lines and of the input.
ghost use Rattle.std.specs.Prelude.{◌≡◌};

use crate::{Lexer, Token};

/// What a text that is read by lines consists of.
#[derive(Clone, Copy)]
pub enum Piece<'a> {
    /// A token.
    Token(Token<'a>),
    /// The end of a line that has tokens, with the line. Lines without tokens have none.
    LineEnd(u32),
    /// The end of the input, behind the last line.
    InputEnd,
}

/// The pieces that are left of a source.
#[derive(Clone, Copy)]
pub struct Pieces<'a> {
    lexer: Lexer<'a>,
    line: u32,
    ended: bool,
}

impl<'a> Pieces<'a> {
    ghost use Rattle.trop_text.specs.Lexer.{left, source};
    ghost use Rattle.trop_text.specs.Pieces.{pieces_from, pieces_left, tokens_in, AreByLine, tokens_left, pieces_source, GivesPiece, KeepsSource, Resumes};

    /// The pieces of the tokens that a lexer has left, of which the first ones may belong to a line that was begun
    /// before. Line 0 says that none was begun.
    pub fn new(lexer: Lexer<'a>, line: u32) -> Pieces<'a>
        ensures pieces { pieces_left result ≡ pieces_from (left lexer.entry) line }
        ensures same { tokens_in (pieces_left result) ≡ left lexer.entry }
        ensures by_line { AreByLine line (pieces_left result) }
        ensures tokens { tokens_left result ≡ left lexer.entry }
        ensures source { pieces_source result ≡ source lexer.entry }
    {
        Pieces {
            lexer,
            line,
            ended: false,
        }
    }

    /// The next piece with the pieces behind it. `None` where none is left, which is behind the end of the input.
    #[tactic(auto, unfolding(crate::specs::Pieces::pieces_from))]
    // A piece with what follows is long, and callers take it apart at once.
    #[inline(always)]
    pub fn next(self) -> Option<(Piece<'a>, Pieces<'a>)>
        ensures pieces { GivesPiece (pieces_left self.entry) result }
        ensures resumes { Resumes result }
        ensures source { KeepsSource (pieces_source self.entry) result }
    {
        if self.ended {
            return None;
        }
        let mut lexer = self.lexer;
        lexer.skip();
        if self.line != 0 && lexer.is_outside(self.line) {
            return Some((Piece::LineEnd(self.line), Pieces::new(lexer, 0)));
        }
        match lexer.take() {
            Some(token) => Some((Piece::Token(token), Pieces::new(lexer, token.line))),
            None => Some((
                Piece::InputEnd,
                Pieces {
                    lexer,
                    line: 0,
                    ended: true,
                },
            )),
        }
    }

    /// A lexer that has the tokens of these pieces left.
    pub fn lexer(self) -> Lexer<'a>
        ensures tokens { left result ≡ tokens_left self.entry }
        ensures source { source result ≡ pieces_source self.entry }
    {
        self.lexer
    }
}
