//! The command `reduce`: the canonical list of the combinations of rows.
ghost use Rattle.std.specs.Prelude.{◌≡◌, ◌+◌, ◌≤◌, ◌^◌, length, IfOk, IfErr};
ghost use Rattle.trop_theory.specs.Vectors.{rows_size};
ghost use Rattle.trop_files.specs.Sizes.{AreSmall};
ghost use Rattle.trop_files.specs.Views.{generator_file_of, IsWideGens};
ghost use Rattle.tplib_reply.specs.Meaning.{IsReply, IsRefused};
ghost use Rattle.tplib_cones.specs.Reduce.{IsReduced, IsReducedFile, reduce_meaning};

use std::alloc::{AllocError, Global};
use tplib_reply::{Refusal, Reply};
use trop_files::{AnyGens, GenFile, Spelling, print_gens, read_gens};
use trop_row::reduce;

/// The file of the canonical list of the combinations of the rows that the bytes spell.
///
/// Errors: the first fault of the bytes as a file of generators; want of memory.
pub fn reduce_reply(alloc: Global, bytes: &[u8]) -> Result<Reply, Refusal>
    requires short { length bytes.now ≤ 2 ^ 31 }
    ensures reply { IfOk result (IsReply reduce_meaning bytes.now) }
    ensures refused { IfErr result (IsRefused reduce_meaning bytes.now) }
{
    let file = read_gens(alloc, bytes)?;
    let text = reduced_file(alloc, &file)?;
    Ok(Reply { yes: true, text })
}

fn reduced_file(alloc: Global, file: &AnyGens) -> Result<Vec<u8>, AllocError>
    requires width { IsWideGens file.now }
    requires sizes { AreSmall (generator_file_of file.now).rows }
    ensures { IfOk result (λ text. IsReducedFile (generator_file_of file.now) text.items) }
{
    match file {
        AnyGens::Max(file) => reduced(alloc, file),
        AnyGens::Min(file) => reduced(alloc, file),
        AnyGens::Bool(file) => reduced(alloc, file),
    }
}

fn reduced<S: Spelling>(alloc: Global, file: &GenFile<S>) -> Result<Vec<u8>, AllocError>
    requires width { file.now.gens.n ≡ length file.now.names + 1 }
    requires sizes { rows_size S.ring file.now.gens.rows ≤ 2 ^ 59 }
    ensures { IfOk result (λ text. IsReduced S.KIND S.ring S.numbering file.now.names file.now.gens.rows text.items) }
{
    let answer = reduce(alloc, &file.gens)?;
    print_gens(alloc, &file.names, &answer)
}
