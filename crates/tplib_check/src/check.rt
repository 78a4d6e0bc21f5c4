//! The command `check` on the bytes of its input.
ghost use Rattle.std.specs.Prelude.{◌≡◌, ◌≤◌, ◌^◌, length, IfOk, IfErr};
ghost use Rattle.tplib_reply.specs.Meaning.{IsReply, IsRefused};
ghost use Rattle.tplib_check.specs.Check.{check_meaning};

use crate::reply::report_reply;
use report_reading::read_report;
use std::alloc::Global;
use tplib_reply::{Refusal, Reply};

/// Whether the report that the bytes spell, whoever wrote it, is inductive: "yes" and the word `inductive`, or "no" and
/// the line of the first condition that fails. It is so found by rows and the graph of the program alone.
///
/// Errors: the first fault of the bytes as a report; want of memory.
pub fn check_reply(alloc: Global, bytes: &[u8]) -> Result<Reply, Refusal>
    requires short { length bytes.now ≤ 2 ^ 31 }
    ensures reply { IfOk result (IsReply check_meaning bytes.now) }
    ensures refused { IfErr result (IsRefused check_meaning bytes.now) }
{
    let report = read_report(alloc, bytes)?;
    let reply = report_reply(alloc, &report)?;
    Ok(reply)
}
