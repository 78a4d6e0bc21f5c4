//! The answer of each command, by its layer.
ghost use Rattle.std.specs.Prelude.{◌≡◌, ◌≤◌, false, [], ◌^◌, length, IfOk, IfErr};
ghost use Rattle.trop_words.specs.declared.command.Command.{Command};
ghost use Rattle.trop_words.specs.declared.command.Command.TheVariants.{Int};
ghost use Rattle.tplib_cmd.specs.Analyses.{analysis_meaning};
ghost use Rattle.tplib_reply.specs.Meaning.{IsReply, IsRefused};
ghost use Rattle.tplib_cmd.specs.Commands.{IsInRange, reads, meaning_of};

use std::alloc::Global;
use tplib_analyze::{max_reply, min_reply};
use tplib_check::check_reply;
use tplib_cones::{ext_reply, reduce_reply};
use tplib_lean::lean_reply;
use tplib_mixed::mixed_reply;
use tplib_poly::{PairCommand, forget_reply, int_reply, pair_reply, sample_reply};
use tplib_progs::trace_reply;
use tplib_reply::{Refusal, Reply};
use tplib_tangent::tangent_reply;
use tplib_zone::zone_reply;
use trop_words::{Command, Mode};

// The answer of the command to the bytes of its input.
pub(crate) fn answer(alloc: Global, command: Command<'_>, bytes: &[u8]) -> Result<Reply, Refusal>
    requires range { IsInRange command }
    requires input { reads command ≡ false → bytes.now ≡ [] }
    requires short { length bytes.now ≤ 2 ^ 31 }
    ensures reply { IfOk result (IsReply (meaning_of command.entry) bytes.now) }
    ensures refused { IfErr result (IsRefused (meaning_of command.entry) bytes.now) }
{
    match command {
        Command::Reduce => reduce_reply(alloc, bytes),
        Command::Ext => ext_reply(alloc, bytes),
        Command::Tangent => tangent_reply(alloc, bytes),
        Command::Int { lean } => list_answer(alloc, lean, bytes),
        Command::Include => pair_reply(alloc, PairCommand::Include, bytes),
        Command::Equal => pair_reply(alloc, PairCommand::Equal, bytes),
        Command::Join => pair_reply(alloc, PairCommand::Join, bytes),
        Command::Meet => pair_reply(alloc, PairCommand::Meet, bytes),
        Command::Forget { var } => forget_reply(alloc, var, bytes),
        Command::Sample { seed, vars, rows } => sample_reply(alloc, seed, vars, rows),
        Command::Trace { turns } => trace_reply(alloc, turns, bytes),
        Command::Analyze {
            mode,
            delay,
            narrow,
        } => analysis_answer(alloc, mode, delay, narrow, bytes),
        Command::Check => check_reply(alloc, bytes),
    }
}

// The answer of `int`: the external list, whole or lean.
fn list_answer(alloc: Global, lean: bool, bytes: &[u8]) -> Result<Reply, Refusal>
    requires short { length bytes.now ≤ 2 ^ 31 }
    ensures reply { IfOk result (IsReply (meaning_of (Int lean)) bytes.now) }
    ensures refused { IfErr result (IsRefused (meaning_of (Int lean)) bytes.now) }
{
    if lean {
        lean_reply(alloc, bytes)
    } else {
        int_reply(alloc, bytes)
    }
}

// The answer of `analyze` in each mode.
fn analysis_answer(
    alloc: Global,
    mode: Mode,
    delay: u32,
    narrow: u32,
    bytes: &[u8],
) -> Result<Reply, Refusal>
    requires delay { delay ≤ 1000 }
    requires narrow { narrow ≤ 100 }
    requires short { length bytes.now ≤ 2 ^ 31 }
    ensures reply { IfOk result (IsReply (analysis_meaning mode delay narrow) bytes.now) }
    ensures refused { IfErr result (IsRefused (analysis_meaning mode delay narrow) bytes.now) }
{
    match mode {
        Mode::Max => max_reply(alloc, delay, narrow, bytes),
        Mode::Min => min_reply(alloc, delay, narrow, bytes),
        Mode::Mixed => mixed_reply(alloc, delay, narrow, bytes),
        Mode::Zone => zone_reply(alloc, delay, narrow, bytes),
    }
}
