//! The command `analyze` over variables and their opposites, on the bytes of its input.
ghost use Rattle.std.specs.Prelude.{◌≤◌, ◌^◌, length, IfOk, IfErr};
ghost use Rattle.tplib_reply.specs.Meaning.{IsReply, IsRefused};
ghost use Rattle.tplib_mixed.specs.Mixed.{mixed_meaning};

use crate::fault::too_many_variables;
use crate::report::report_text;
use prog_lang::{AssertRule, read_program};
use std::alloc::Global;
use tplib_reply::{Refusal, Reply};

// A variable and its opposite are two coordinates.
const MOST_VARIABLES: u32 = 31;

/// The short report of the invariant family of the program that the bytes spell, over its variables and their
/// opposites, so that its inequalities mix maxima and minima: for each point of its control graph the rows of its cone
/// and the inequalities of its external list, and for each assert whether its cone proves the claim. The first `delay`
/// changes of a loop's head are joins and any other change is a widening; `narrow` descending passes follow
/// (Allamigeon, Gaubert, Goubault, Inferring min and max invariants using max-plus polyhedra, 2008).
///
/// Errors: the first fault of the bytes as a program, or else `TooManyVars` in the line of its first token where it has
/// more than 31 variables; `Limit` or `Range` at the first refused place of the analysis, where an image is judged by
/// its two halves; `Limit` at the first point whose external list stops; want of memory.
pub fn mixed_reply(alloc: Global, delay: u32, narrow: u32, bytes: &[u8]) -> Result<Reply, Refusal>
    requires delay { delay ≤ 1000 }
    requires narrow { narrow ≤ 100 }
    requires short { length bytes.now ≤ 2 ^ 31 }
    ensures reply { IfOk result (IsReply (mixed_meaning delay narrow) bytes.now) }
    ensures refused { IfErr result (IsRefused (mixed_meaning delay narrow) bytes.now) }
{
    let program = read_program(alloc, bytes, AssertRule::Any)?;
    if program.vars() > MOST_VARIABLES {
        return Err(Refusal::Text(too_many_variables(bytes)));
    }
    let text = report_text(alloc, &program, delay, narrow)?;
    Ok(Reply { yes: true, text })
}
