//! The commands on a file of two lists: `op include`, `op equal`, `op join` and `op meet`.
ghost use Rattle.std.specs.Prelude.{◌≡◌, ◌+◌, ◌≤◌, ◌^◌, length, IfOk, IfErr};
ghost use Rattle.trop_files.specs.FileLimits.{AreFileTwo};
ghost use Rattle.trop_files.specs.Views.{two_of};
ghost use Rattle.tplib_reply.specs.Meaning.{IsReply, IsRefused};
ghost use Rattle.tplib_poly.specs.InRing.{IsRingReply, IsRingRefusal};
ghost use Rattle.tplib_poly.specs.Pairs.{pair_ring, pair_meaning};

use crate::cones::cones_reply;
use crate::kept::kept_cone;
use std::alloc::Global;
use tplib_reply::{Refusal, Reply};
use trop_files::{AnyPair, PairFile, Spelling, read_pair};

/// What is asked of two cones.
#[derive(Clone, Copy, Debug, PartialEq, Eq)]
pub enum PairCommand {
    /// Whether the left one lies in the right one.
    Include,
    /// Whether they are equal.
    Equal,
    /// Their join: the least cone that has both.
    Join,
    /// Their meet: what they have in common.
    Meet,
}

/// What the command answers to the combinations of the two lists that the bytes spell.
///
/// Errors: the first fault of the bytes as a file of two lists; `Limit` where the result has too many rows, or at the
/// polar where the external list of the right cone stops, whose inequalities `op meet` takes; want of memory.
pub fn pair_reply(alloc: Global, command: PairCommand, bytes: &[u8]) -> Result<Reply, Refusal>
    requires short { length bytes.now ≤ 2 ^ 31 }
    ensures reply { IfOk result (IsReply (pair_meaning command) bytes.now) }
    ensures refused { IfErr result (IsRefused (pair_meaning command) bytes.now) }
{
    match read_pair(alloc, bytes) {
        Ok(AnyPair::Max(file)) => lists_reply(alloc, command, &file),
        Ok(AnyPair::Min(file)) => lists_reply(alloc, command, &file),
        Ok(AnyPair::Bool(file)) => lists_reply(alloc, command, &file),
        Err(e) => Err(Refusal::from(e)),
    }
}

fn lists_reply<S: Spelling>(
    alloc: Global,
    command: PairCommand,
    file: &PairFile<S>,
) -> Result<Reply, Refusal>
    requires width { file.now.left.n ≡ length file.now.names + 1 }
    requires other_width { file.now.right.n ≡ length file.now.names + 1 }
    requires lists { AreFileTwo S.ring (length file.now.names + 1) (two_of file.now) }
    ensures reply { IfOk result (λ reply. IsRingReply (pair_ring command) file.now.names S S.KIND S.ring S.numbering
        (two_of file.now) reply.yes reply.text.items) }
    ensures refused { IfErr result (IsRingRefusal (pair_ring command) file.now.names S S.KIND S.ring S.numbering
        (two_of file.now)) }
{
    let left = kept_cone(alloc, &file.left)?;
    let right = kept_cone(alloc, &file.right)?;
    cones_reply(alloc, command, &file.names, &left, &right)
}
