//! What ends a list of lines.
ghost use Rattle.std.specs.Prelude.{◌≡◌};
ghost use Rattle.trop_text.specs.Pieces.{piece_of};
ghost use Rattle.trop_files.specs.ListEnds.{ends};

use trop_reading::says;
use trop_text::Piece;

/// What ends a list of lines.
#[derive(Clone, Copy, Debug, PartialEq, Eq)]
pub(crate) enum ListEnd {
    /// The end of the input.
    Input,
    /// The word `and`.
    And,
    /// The word `at`.
    At,
}

impl ListEnd {
    /// Whether the piece ends the list.
    pub(crate) fn is_at(self, piece: Piece<'_>) -> bool
        ensures { result ≡ ends self (piece_of piece.entry) }
    {
        match (self, piece) {
            (ListEnd::Input, Piece::InputEnd) => true,
            (ListEnd::Input, _) => false,
            (ListEnd::And, _) => says(piece, b"and"),
            (ListEnd::At, _) => says(piece, b"at"),
        }
    }
}
