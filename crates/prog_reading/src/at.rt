//! A place in a text: the pieces that are left, and what stands before them.
ghost use Rattle.std.specs.Prelude.{◌≡◌, ◌≤◌, ◌+◌, ◌<◌, ◌^◌, length, IfSome};
ghost use Rattle.trop_text.specs.Lexer.{left as tokens_left, source};
ghost use Rattle.trop_text.specs.Pieces.{pieces_left, pieces_from};
ghost use Rattle.shape_grammar.specs.Past.{past};
ghost use Rattle.prog_texts.specs.Words as spec;

use crate::before::{Before, Entry};
use trop_text::{Lexer, Piece, Pieces};

/// The pieces that are left, with what stands before them.
#[derive(Clone, Copy)]
pub struct At<'a> {
    /// The pieces that are still to come.
    pub pieces: Pieces<'a>,
    /// What stands before the first of them. None of its counts comes to 2^64, even if each of the pieces added one.
    pub before: Before<'a>,
    ghost names_fit: { before.names + length (pieces_left pieces) < 2 ^ 64 },
    ghost commas_fit: { before.commas + length (pieces_left pieces) < 2 ^ 64 },
    ghost statements_fit: { before.statements + length (pieces_left pieces) < 2 ^ 64 },
    ghost atoms_fit: { before.atoms + length (pieces_left pieces) < 2 ^ 64 },
}

impl<'a> At<'a> {
    ghost use Rattle.prog_reading.specs.Left.{left, before_of, source_of, GivesEntry};

    /// The beginning of a text, which is what a lexer has left.
    pub fn begin(lexer: Lexer<'a>) -> At<'a>
        ensures left { left result ≡ spec.counted spec.nothing_before (pieces_from (tokens_left lexer.entry) 0) }
        ensures nothing { before_of result.before ≡ spec.nothing_before }
        ensures source { source_of result ≡ source lexer.entry }
    {
        let pieces = Pieces::new(lexer, 0);
        At {
            pieces,
            before: Before::nothing(),
        }
    }

    /// The next piece, and the place behind it.
    #[tactic(auto, unfolding(prog_texts::specs::Words::counted))]
    pub fn next(self) -> Option<(Entry<'a>, At<'a>)>
        ensures entry { GivesEntry (left self.entry) result }
        ensures source { IfSome result (λ x. source_of x.1 ≡ source_of self.entry) }
        ensures shorter { IfSome result (λ x. length (left x.1) < length (left self.entry)) }
    {
        let (piece, pieces) = self.pieces.next()?;
        let entry = Entry {
            piece,
            before: self.before,
        };
        let before = entry.behind();
        Some((entry, At { pieces, before }))
    }

    /// The place of the next token, or of the end of the input.
    pub fn past(self) -> At<'a>
        ensures past { left result ≡ past spec.skipped (left self.entry) }
        ensures source { source_of result ≡ source_of self.entry }
        ensures shorter { length (left result) ≤ length (left self.entry) }
    {
        match self.pieces.next() {
            Some((Piece::LineEnd(_), pieces)) => {
                return At {
                    pieces,
                    before: self.before,
                };
            }
            Some((Piece::Token(_), _)) => return self,
            Some((Piece::InputEnd, _)) => return self,
            None => return self,
        }
    }
}
