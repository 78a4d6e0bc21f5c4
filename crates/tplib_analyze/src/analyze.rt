//! The command `analyze` on the bytes of its input.
ghost use Rattle.std.specs.Prelude.{◌≤◌, ◌^◌, length, IfOk, IfErr};
ghost use Rattle.report_texts.specs.Modes.{InMax, InMin};
ghost use Rattle.tplib_reply.specs.Meaning.{IsReply, IsRefused};
ghost use Rattle.tplib_analyze.specs.Analyze.{analyze_meaning};

use crate::report::report;
use prog_lang::{AssertRule, read_program};
use report_print::print_report;
use report_value::AnyReport;
use std::alloc::Global;
use tplib_reply::{Refusal, Reply};

/// The report of the invariant family, by maximum and sum, of the program that the bytes spell: for each point of its
/// control graph the rows of its cone and the inequalities of its external list, and for each assert whether its cone
/// proves the claim. The first `delay` changes of a loop's head are joins and any other change is a widening; `narrow`
/// descending passes follow (Allamigeon, Gaubert, Goubault, Inferring min and max invariants using max-plus polyhedra,
/// 2008).
///
/// Errors: the first fault of the bytes as a program whose asserts suit the mode; `Limit` or `Range` at the first
/// refused place of the analysis; `Limit` at the first point whose external list stops; want of memory.
pub fn max_reply(alloc: Global, delay: u32, narrow: u32, bytes: &[u8]) -> Result<Reply, Refusal>
    requires delay { delay ≤ 1000 }
    requires narrow { narrow ≤ 100 }
    requires short { length bytes.now ≤ 2 ^ 31 }
    ensures reply { IfOk result (IsReply (analyze_meaning InMax delay narrow) bytes.now) }
    ensures refused { IfErr result (IsRefused (analyze_meaning InMax delay narrow) bytes.now) }
{
    let program = read_program(alloc, bytes, AssertRule::MaxOnly)?;
    let report = report(alloc, program, delay, narrow)?;
    let text = print_report(alloc, &AnyReport::Max(report))?;
    Ok(Reply { yes: true, text })
}

/// The same by minimum and sum.
///
/// Errors: as those of [`max_reply`].
pub fn min_reply(alloc: Global, delay: u32, narrow: u32, bytes: &[u8]) -> Result<Reply, Refusal>
    requires delay { delay ≤ 1000 }
    requires narrow { narrow ≤ 100 }
    requires short { length bytes.now ≤ 2 ^ 31 }
    ensures reply { IfOk result (IsReply (analyze_meaning InMin delay narrow) bytes.now) }
    ensures refused { IfErr result (IsRefused (analyze_meaning InMin delay narrow) bytes.now) }
{
    let program = read_program(alloc, bytes, AssertRule::MinOnly)?;
    let report = report(alloc, program, delay, narrow)?;
    let text = print_report(alloc, &AnyReport::Min(report))?;
    Ok(Reply { yes: true, text })
}
