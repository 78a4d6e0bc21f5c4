//! The places of faults.
ghost use Rattle.std.specs.Prelude.{◌≡◌};
ghost use Rattle.trop_text.specs.Lexer.{source};
ghost use Rattle.trop_text.specs.Pieces.{pieces_left};
ghost use Rattle.trop_text.specs.Places as spec;

use crate::{Fault, FaultKind, Lexer, Piece, Pieces};

/// The fault of this kind at the next of these pieces of the lexer's source. A token has its own place; the end of a
/// line stands one past the line's last byte, and the end of the input at the first column of the line after the last.
pub fn fault_before(lexer: &Lexer<'_>, kind: FaultKind, at: Pieces<'_>) -> Fault
    ensures { result ≡ spec.fault_before (source lexer.now) kind (pieces_left at.entry) }
{
    match at.next() {
        Some((Piece::Token(token), _)) => kind.at(token.line, token.column),
        Some((Piece::LineEnd(line), _)) => kind.at(line, lexer.line_end(line)),
        Some((Piece::InputEnd, _)) | None => kind.at(lexer.lines() + 1, 1),
    }
}
