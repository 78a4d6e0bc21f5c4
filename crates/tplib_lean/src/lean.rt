//! The command `int lean=on`: inequalities whose solutions are the combinations of rows, none of which follows from the
//! others.
ghost use Rattle.std.specs.Prelude.{◌≡◌, ◌+◌, ◌≤◌, ◌^◌, length, IfOk, IfErr};
ghost use Rattle.trop_files.specs.FileLimits.{AreFileRows};
ghost use Rattle.tplib_reply.specs.Meaning.{IsReply, IsRefused};
ghost use Rattle.tplib_poly.specs.InRing.{IsRingReply, IsRingRefusal};
ghost use Rattle.tplib_lean.specs.Lean.{lean_ring, lean_meaning};

use crate::print::print_lean;
use crate::refusal::refusal;
use std::alloc::Global;
use tplib_poly::bounds_of;
use tplib_reply::{Refusal, Reply};
use trop_files::{AnyGens, GenFile, Spelling, read_gens};
use trop_hyper::Looks;
use trop_lean::lean;

/// The file of the lean list of the external list of the combinations of the rows that the bytes spell. Behind each
/// inequality stands a comment with a row at which this one is false and all others are true.
///
/// Errors: the first fault of the bytes as a file of generators; `Limit` at the polar where the external list stops, or
/// else at the turn and at the inequalities of the rest where making it lean does; want of memory.
pub fn lean_reply(alloc: Global, bytes: &[u8]) -> Result<Reply, Refusal>
    requires short { length bytes.now ≤ 2 ^ 31 }
    ensures reply { IfOk result (IsReply lean_meaning bytes.now) }
    ensures refused { IfErr result (IsRefused lean_meaning bytes.now) }
{
    match read_gens(alloc, bytes) {
        Ok(AnyGens::Max(file)) => list_reply(alloc, &file),
        Ok(AnyGens::Min(file)) => list_reply(alloc, &file),
        Ok(AnyGens::Bool(file)) => list_reply(alloc, &file),
        Err(e) => Err(Refusal::from(e)),
    }
}

fn list_reply<S: Spelling>(alloc: Global, file: &GenFile<S>) -> Result<Reply, Refusal>
    requires width { file.now.gens.n ≡ length file.now.names + 1 }
    requires rows { AreFileRows S.ring (length file.now.names + 1) file.now.gens.rows }
    ensures reply { IfOk result (λ reply. IsRingReply lean_ring file.now.names S S.KIND S.ring S.numbering
        file.now.gens.rows reply.yes reply.text.items) }
    ensures refused { IfErr result (IsRingRefusal lean_ring file.now.names S S.KIND S.ring S.numbering
        file.now.gens.rows) }
{
    let bounds = bounds_of(alloc, &file.gens)?;
    let list = match lean(alloc, &bounds, &mut Looks::new()) {
        Ok(list) => list,
        Err(e) => return Err(refusal(e)),
    };
    // The slice tells what every list of rows keeps.
    let _slice = list.rows.as_slice();
    let text = print_lean(alloc, &file.names, &list)?;
    Ok(Reply { yes: true, text })
}
