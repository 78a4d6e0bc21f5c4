//! Refusals with their places.
ghost use Rattle.std.specs.Prelude.{◌≡◌};
ghost use Rattle.trop_text.specs.Lexer.{source};
ghost use Rattle.prog_lang.specs.Outcomes.{IsPlaced};

use prog_reading::ReadErr;
use trop_text::{Lexer, TextErr, fault_before};

/// The refusal of a part of a lexer's source, with the place where the fault stands in that source.
pub(crate) fn placed(lexer: &Lexer<'_>, e: ReadErr<'_>) -> TextErr
    ensures { IsPlaced (source lexer.now) e.entry result }
{
    match e {
        ReadErr::NoMemory => TextErr::NoMemory,
        ReadErr::Wrong(kind, at) => TextErr::Fault(fault_before(lexer, kind, at.pieces)),
    }
}
