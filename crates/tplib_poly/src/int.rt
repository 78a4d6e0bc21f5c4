//! The command `int`: the inequalities whose solutions are the combinations of rows.
ghost use Rattle.std.specs.Prelude.{◌≡◌, ◌+◌, ◌≤◌, ◌^◌, length, IfOk, IfErr};
ghost use Rattle.trop_files.specs.FileLimits.{AreFileRows};
ghost use Rattle.tplib_reply.specs.Meaning.{IsReply, IsRefused};
ghost use Rattle.tplib_poly.specs.InRing.{IsRingReply, IsRingRefusal};
ghost use Rattle.tplib_poly.specs.Int.{int_ring, int_meaning};

use crate::bounds::bounds_of;
use std::alloc::Global;
use tplib_reply::{Refusal, Reply};
use trop_files::{AnyGens, GenFile, Spelling, print_ineqs, read_gens};

/// The file of the external list of the combinations of the rows that the bytes spell.
///
/// Errors: the first fault of the bytes as a file of generators; `Limit` at the polar where the external list stops;
/// want of memory.
pub fn int_reply(alloc: Global, bytes: &[u8]) -> Result<Reply, Refusal>
    requires short { length bytes.now ≤ 2 ^ 31 }
    ensures reply { IfOk result (IsReply int_meaning bytes.now) }
    ensures refused { IfErr result (IsRefused int_meaning bytes.now) }
{
    match read_gens(alloc, bytes) {
        Ok(AnyGens::Max(file)) => bounds_reply(alloc, &file),
        Ok(AnyGens::Min(file)) => bounds_reply(alloc, &file),
        Ok(AnyGens::Bool(file)) => bounds_reply(alloc, &file),
        Err(e) => Err(Refusal::from(e)),
    }
}

fn bounds_reply<S: Spelling>(alloc: Global, file: &GenFile<S>) -> Result<Reply, Refusal>
    requires width { file.now.gens.n ≡ length file.now.names + 1 }
    requires rows { AreFileRows S.ring (length file.now.names + 1) file.now.gens.rows }
    ensures reply { IfOk result (λ reply. IsRingReply int_ring file.now.names S S.KIND S.ring S.numbering
        file.now.gens.rows reply.yes reply.text.items) }
    ensures refused { IfErr result (IsRingRefusal int_ring file.now.names S S.KIND S.ring S.numbering
        file.now.gens.rows) }
{
    let bounds = bounds_of(alloc, &file.gens)?;
    let text = print_ineqs(alloc, &file.names, &bounds)?;
    Ok(Reply { yes: true, text })
}
