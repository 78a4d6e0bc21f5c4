//! The fault of a program with too many variables.
ghost use Rattle.std.specs.Prelude.{◌≢◌, ◌≤◌, ◌^◌, [], length};
ghost use Rattle.trop_text.specs.Tokens.{tokens_of};
ghost use Rattle.tplib_mixed.specs.Fault.{IsAtFirst};

use trop_text::{Fault, Lexer};

/// The fault of too many variables, in the line of the first token of the bytes.
pub(crate) fn too_many_variables(bytes: &[u8]) -> Fault
    requires short { length bytes.now ≤ 2 ^ 31 }
    requires some { tokens_of bytes.now ≢ [] }
    ensures { IsAtFirst (tokens_of bytes.now) result }
{
    let mut lexer = Lexer::new(bytes);
    match lexer.next() {
        Some(token) => Fault::TooManyVars { line: token.line },
        None => unreachable!(),
    }
}
