//! Why a list was not made lean, as a refusal of the command.
ghost use Rattle.std.specs.Prelude.{◌≡◌};
ghost use Rattle.tplib_lean.specs.Refusals.{refusal_of};

use tplib_reply::{Refusal, Stop};
use trop_lean::LeanErr;

pub fn refusal(e: LeanErr) -> Refusal
    ensures { result ≡ refusal_of e }
{
    match e {
        LeanErr::Rows(turn, count) => Refusal::Limit(Stop::Lean(turn, count)),
        LeanErr::NoMemory => Refusal::NoMemory,
    }
}
