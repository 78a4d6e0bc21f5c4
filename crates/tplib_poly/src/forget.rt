//! The command `op forget`: what a cone says without one of its variables.
ghost use Rattle.std.specs.Prelude.{◌≡◌, ◌+◌, ◌≤◌, ◌<◌, ◌^◌, length, IfOk, IfErr};
ghost use Rattle.trop_text.specs.Names.{place_of};
ghost use Rattle.trop_spelling.specs.Over.{Holds};
ghost use Rattle.trop_files.specs.Views.{generator_file_of, IsWideGens};
ghost use Rattle.trop_files.specs.FileLimits.{AreFileRows};
ghost use Rattle.tplib_reply.specs.Meaning.{IsReply, IsRefused};
ghost use Rattle.tplib_poly.specs.InRing.{IsRingReply, IsRingRefusal, IsOverReply, IsOverRefusal};
ghost use Rattle.tplib_poly.specs.Forget.{forget_ring, forget_meaning};

use crate::cone_text::cone_text;
use crate::kept::kept_cone;
use crate::refusal::refusal;
use std::alloc::Global;
use tplib_reply::{Refusal, Reply};
use trop_files::{AnyGens, GenFile, Spelling, read_gens};
use trop_text::Fault;

/// The file of the cone that the combinations of the rows are without what they say of the variable: all vectors that
/// agree with one of them outside of it.
///
/// Errors: the first fault of the bytes as a file of generators; behind all of these `UnknownName`, at the line of the
/// variables, where none has the name; `Limit` where the result has too many rows; want of memory.
pub fn forget_reply(alloc: Global, var: &str, bytes: &[u8]) -> Result<Reply, Refusal>
    requires short { length bytes.now ≤ 2 ^ 31 }
    ensures reply { IfOk result (IsReply (forget_meaning var.now) bytes.now) }
    ensures refused { IfErr result (IsRefused (forget_meaning var.now) bytes.now) }
{
    let file = read_gens(alloc, bytes)?;
    match place_in(&file, var) {
        Some(place) => forgotten_file(alloc, &file, place),
        None => Err(Refusal::Text(Fault::UnknownName {
            line: vars_line(&file),
        })),
    }
}

// The place of the variable of this name, from 0.
fn place_in(file: &AnyGens, var: &str) -> Option<u32>
    ensures { result ≡ place_of var.now (generator_file_of file.now).names }
{
    match file {
        AnyGens::Max(file) => file.names.position(var),
        AnyGens::Min(file) => file.names.position(var),
        AnyGens::Bool(file) => file.names.position(var),
    }
}

fn vars_line(file: &AnyGens) -> u32
    ensures { result ≡ (generator_file_of file.now).vars_line }
{
    match file {
        AnyGens::Max(file) => file.vars_line,
        AnyGens::Min(file) => file.vars_line,
        AnyGens::Bool(file) => file.vars_line,
    }
}

fn forgotten_file(alloc: Global, file: &AnyGens, place: u32) -> Result<Reply, Refusal>
    requires width { IsWideGens file.now }
    requires rows { Holds (λ V kind R N xs. AreFileRows R (length (generator_file_of file.now).names + 1) xs)
        (generator_file_of file.now).rows }
    requires place { place < length (generator_file_of file.now).names }
    ensures reply { IfOk result (λ reply. IsOverReply (forget_ring place) (generator_file_of file.now).names
        (generator_file_of file.now).rows reply.yes reply.text.items) }
    ensures refused { IfErr result (IsOverRefusal (forget_ring place) (generator_file_of file.now).names
        (generator_file_of file.now).rows) }
{
    match file {
        AnyGens::Max(file) => forgotten(alloc, file, place),
        AnyGens::Min(file) => forgotten(alloc, file, place),
        AnyGens::Bool(file) => forgotten(alloc, file, place),
    }
}

fn forgotten<S: Spelling>(alloc: Global, file: &GenFile<S>, place: u32) -> Result<Reply, Refusal>
    requires width { file.now.gens.n ≡ length file.now.names + 1 }
    requires rows { AreFileRows S.ring (length file.now.names + 1) file.now.gens.rows }
    requires place { place < length file.now.names }
    ensures reply { IfOk result (λ reply. IsRingReply (forget_ring place) file.now.names S S.KIND S.ring S.numbering
        file.now.gens.rows reply.yes reply.text.items) }
    ensures refused { IfErr result (IsRingRefusal (forget_ring place) file.now.names S S.KIND S.ring S.numbering
        file.now.gens.rows) }
{
    let cone = kept_cone(alloc, &file.gens)?;
    let rest = match cone.forget(alloc, place + 1) {
        Ok(rest) => rest,
        Err(e) => return Err(refusal(e)),
    };
    let text = cone_text(alloc, &file.names, &rest)?;
    Ok(Reply { yes: true, text })
}
