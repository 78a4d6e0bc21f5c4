//! The command `trace` on the bytes of its input.
ghost use Rattle.std.specs.Prelude.{◌≡◌, ◌≤◌, ◌^◌, length, IfOk, IfErr};
ghost use Rattle.tplib_reply.specs.Meaning.{IsReply, IsRefused};
ghost use Rattle.tplib_progs.specs.Trace.{trace_meaning};

use crate::run_text::run_text;
use prog_lang::read_trace_file;
use prog_run::trace;
use std::alloc::Global;
use tplib_reply::{Refusal, Reply};

/// The chosen run of the program that the bytes spell, from its start and by its choices, with at most `turns` steps: a
/// line for each configuration, with the number of the statement that is next, or `exit`, and the numbers of the state;
/// and a line for the end.
///
/// Errors: the first fault of the bytes as a trace file; want of memory.
pub fn trace_reply(alloc: Global, turns: u32, bytes: &[u8]) -> Result<Reply, Refusal>
    requires turns { turns ≤ 10000 }
    requires short { length bytes.now ≤ 2 ^ 31 }
    ensures reply { IfOk result (IsReply (trace_meaning turns) bytes.now) }
    ensures refused { IfErr result (IsRefused (trace_meaning turns) bytes.now) }
{
    let file = read_trace_file(alloc, bytes)?;
    let (start, choices) = (file.start.as_slice(), file.choices.as_slice());
    let traced = trace(alloc, &file.program, start, choices, turns)?;
    let text = run_text(alloc, &traced)?;
    Ok(Reply { yes: true, text })
}
