//! The command `analyze` over zones, on the bytes of its input.
ghost use Rattle.std.specs.Prelude.{◌≤◌, ◌^◌, length, IfOk, IfErr};
ghost use Rattle.tplib_reply.specs.Meaning.{IsReply, IsRefused};
ghost use Rattle.tplib_zone.specs.Zone.{zone_meaning};
ghost use Rattle.tplib_zone.specs.Refusals.{IsZoneRefusal};

use crate::report::report_text;
use prog_lang::{AssertRule, read_program};
use std::alloc::Global;
use tplib_reply::{Refusal, Reply};

/// The short report of the family of zones of the program that the bytes spell: for each point of its control graph the
/// bounds of the closed matrix of its zone, and for each assert whether its zone proves the claim, pair by pair of
/// terms. The first `delay` changes of a loop's head are joins. Any other change is a widening: of the bounds that the
/// last widening kept, and at the first one of all bounds, those stay that still hold. `narrow` descending passes
/// follow (Miné, The octagon abstract domain, 2006: difference bound matrices, and why the kept bounds are not closed).
///
/// Errors: the first fault of the bytes as a program; `Range` at the first refused place of the analysis, where a bound
/// has a size above 2^40; want of memory. `Limit` never comes.
pub fn zone_reply(alloc: Global, delay: u32, narrow: u32, bytes: &[u8]) -> Result<Reply, Refusal>
    requires delay { delay ≤ 1000 }
    requires narrow { narrow ≤ 100 }
    requires short { length bytes.now ≤ 2 ^ 31 }
    ensures reply { IfOk result (IsReply (zone_meaning delay narrow) bytes.now) }
    ensures refused { IfErr result (IsRefused (zone_meaning delay narrow) bytes.now) }
    ensures kinds { IfErr result IsZoneRefusal }
{
    let program = read_program(alloc, bytes, AssertRule::Any)?;
    let text = report_text(alloc, &program, delay, narrow)?;
    Ok(Reply { yes: true, text })
}
