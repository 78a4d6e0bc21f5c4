//! The command `tangent` on the bytes of its input.
ghost use Rattle.std.specs.Prelude.{◌≡◌, ◌+◌, ◌≤◌, ◌^◌, length, IfOk, IfErr};
ghost use Rattle.trop_theory.specs.Vectors.{row_size};
ghost use Rattle.trop_theory.specs.Inequalities.{system_size};
ghost use Rattle.trop_files.specs.Sizes.{IsVisible};
ghost use Rattle.trop_files.specs.Views.{at_text_of, IsWideAt};
ghost use Rattle.tplib_reply.specs.Meaning.{IsReply, IsRefused};
ghost use Rattle.tplib_tangent.specs.Tangent.{IsTangentAnswer, IsTangentFile, tangent_meaning};

use crate::row_reply::row_reply;
use std::alloc::{AllocError, Global};
use tplib_reply::{Refusal, Reply};
use trop_files::{AnyAt, AtFile, read_at};
use trop_scalar::Scalar;

/// What the command answers at the row of the file that the bytes spell: where the row is a solution of the file's
/// inequalities, a line for each hyperedge of its tangent hypergraph, the line of its types, and the line that says
/// whether it is extreme; else "no", and the line that names the first inequality that fails. Coordinate 0 is named
/// `0`.
///
/// Errors: the first fault of the bytes as a file of a vector with inequalities; want of memory.
pub fn tangent_reply(alloc: Global, bytes: &[u8]) -> Result<Reply, Refusal>
    requires short { length bytes.now ≤ 2 ^ 31 }
    ensures reply { IfOk result (IsReply tangent_meaning bytes.now) }
    ensures refused { IfErr result (IsRefused tangent_meaning bytes.now) }
{
    let file = read_at(alloc, bytes)?;
    let reply = file_reply(alloc, &file)?;
    Ok(reply)
}

fn file_reply(alloc: Global, file: &AnyAt) -> Result<Reply, AllocError>
    requires width { IsWideAt file.now }
    requires sizes { IsVisible (at_text_of file.now).body }
    ensures { IfOk result (λ reply. IsTangentFile (at_text_of file.now) reply.yes reply.text.items) }
{
    match file {
        AnyAt::Max(file) => at_reply(alloc, file),
        AnyAt::Min(file) => at_reply(alloc, file),
        AnyAt::Bool(file) => at_reply(alloc, file),
    }
}

fn at_reply<S: Scalar>(alloc: Global, file: &AtFile<S>) -> Result<Reply, AllocError>
    requires width { file.now.system.n ≡ length file.now.names + 1 }
    requires wide { length file.now.row ≡ length file.now.names + 1 }
    requires row_size { row_size S.ring file.now.row ≤ 2 ^ 60 }
    requires size { system_size S.ring file.now.system.inequalities ≤ 2 ^ 49 }
    ensures { IfOk result (λ reply. IsTangentAnswer S.ring file.now.names
        (length file.now.names + 1) file.now.system.inequalities file.now.row reply.yes reply.text.items) }
{
    row_reply(alloc, &file.names, &file.system, &file.row)
}
