//! Refusals with their places.
ghost use Rattle.std.specs.Prelude.{◌≡◌, ◌≤◌, ◌^◌, length};
ghost use Rattle.trop_reading.specs.Gives.{IsPlaced};
ghost use Rattle.trop_text.specs.Lexer.{source};

use crate::read_err::ReadErr;
use trop_text::{Lexer, TextErr, fault_before};

/// The refusal of a part of a lexer's source, with the place where the fault stands in that source.
pub fn part_err(lexer: &Lexer<'_>, e: ReadErr<'_>) -> TextErr
    ensures { IsPlaced (source lexer.now) e.entry result }
{
    match e {
        ReadErr::NoMemory => TextErr::NoMemory,
        ReadErr::Wrong(kind, at) => TextErr::Fault(fault_before(lexer, kind, at)),
    }
}

/// The refusal of a text, with the place where the fault stands in it.
pub fn text_err(bytes: &[u8], e: ReadErr<'_>) -> TextErr
    requires { length bytes.now ≤ 2 ^ 31 }
    ensures { IsPlaced bytes.now e.entry result }
{
    part_err(&Lexer::new(bytes), e)
}
