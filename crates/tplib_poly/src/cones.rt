//! Two cones, and what is asked of them.
ghost use Rattle.std.specs.Prelude.{◌≡◌, ◌+◌, ◌≤◌, length, IfOk, IfErr};
ghost use Rattle.trop_theory.specs.Vectors.{rows_size};
ghost use Rattle.trop_cones.specs.Represents.{Represents};
ghost use Rattle.trop_poly.specs.Cones.{InCone};
ghost use Rattle.trop_poly.specs.Sizes.{most_met};
ghost use Rattle.tplib_poly.specs.Cones.{IsConesReply, IsConesRefusal};
ghost use Rattle.tplib_poly.specs.declared.pair.PairCommand.TheVariants.{Include, Equal, Join, Meet};

use crate::compare::{equal_reply, include_reply};
use crate::cone_text::cone_text;
use crate::pair::PairCommand;
use crate::refusal::refusal;
use std::alloc::Global;
use tplib_reply::{Refusal, Reply};
use trop_files::Spelling;
use trop_poly::Poly;
use trop_text::Names;

// What the command answers to the two cones.
pub fn cones_reply<S: Spelling>(
    alloc: Global,
    command: PairCommand,
    names: &Names,
    left: &Poly<S>,
    right: &Poly<S>,
) -> Result<Reply, Refusal>
    requires width { left.now.n ≡ length names.now + 1 }
    requires other_width { right.now.n ≡ length names.now + 1 }
    requires size { rows_size S.ring left.now.rows ≤ most_met }
    requires other_size { rows_size S.ring right.now.rows ≤ most_met }
    requires represented { Represents S.ring right.now.n (InCone S.ring right.now) right.now.rows }
    ensures reply { IfOk result (λ reply. IsConesReply command S.KIND S.ring S.numbering names.now
        (InCone S.ring left.now) (InCone S.ring right.now) reply.yes reply.text.items) }
    ensures refused { IfErr result (IsConesRefusal command S.KIND S.ring S.numbering names.now (InCone S.ring left.now)
        (InCone S.ring right.now)) }
{
    match command {
        PairCommand::Include => include_cones(alloc, names, left, right),
        PairCommand::Equal => equal_cones(alloc, names, left, right),
        PairCommand::Join => join_cones(alloc, names, left, right),
        PairCommand::Meet => meet_cones(alloc, names, left, right),
    }
}

fn include_cones<S: Spelling>(
    alloc: Global,
    names: &Names,
    left: &Poly<S>,
    right: &Poly<S>,
) -> Result<Reply, Refusal>
    requires width { left.now.n ≡ length names.now + 1 }
    requires other_width { right.now.n ≡ length names.now + 1 }
    requires size { rows_size S.ring left.now.rows ≤ most_met }
    requires other_size { rows_size S.ring right.now.rows ≤ most_met }
    ensures reply { IfOk result (λ reply. IsConesReply Include S.KIND S.ring S.numbering names.now
        (InCone S.ring left.now) (InCone S.ring right.now) reply.yes reply.text.items) }
    ensures refused { IfErr result (IsConesRefusal Include S.KIND S.ring S.numbering names.now (InCone S.ring left.now)
        (InCone S.ring right.now)) }
{
    let reply = include_reply(alloc, left, right)?;
    Ok(reply)
}

fn equal_cones<S: Spelling>(
    alloc: Global,
    names: &Names,
    left: &Poly<S>,
    right: &Poly<S>,
) -> Result<Reply, Refusal>
    requires width { left.now.n ≡ length names.now + 1 }
    requires other_width { right.now.n ≡ length names.now + 1 }
    requires size { rows_size S.ring left.now.rows ≤ most_met }
    requires other_size { rows_size S.ring right.now.rows ≤ most_met }
    ensures reply { IfOk result (λ reply. IsConesReply Equal S.KIND S.ring S.numbering names.now
        (InCone S.ring left.now) (InCone S.ring right.now) reply.yes reply.text.items) }
    ensures refused { IfErr result (IsConesRefusal Equal S.KIND S.ring S.numbering names.now (InCone S.ring left.now)
        (InCone S.ring right.now)) }
{
    let reply = equal_reply(alloc, left, right)?;
    Ok(reply)
}

// The file of the join.
fn join_cones<S: Spelling>(
    alloc: Global,
    names: &Names,
    left: &Poly<S>,
    right: &Poly<S>,
) -> Result<Reply, Refusal>
    requires width { left.now.n ≡ length names.now + 1 }
    requires other_width { right.now.n ≡ length names.now + 1 }
    requires size { rows_size S.ring left.now.rows ≤ most_met }
    requires other_size { rows_size S.ring right.now.rows ≤ most_met }
    ensures reply { IfOk result (λ reply. IsConesReply Join S.KIND S.ring S.numbering names.now (InCone S.ring left.now)
        (InCone S.ring right.now) reply.yes reply.text.items) }
    ensures refused { IfErr result (IsConesRefusal Join S.KIND S.ring S.numbering names.now (InCone S.ring left.now)
        (InCone S.ring right.now)) }
{
    let cone = match left.join(alloc, right) {
        Ok(cone) => cone,
        Err(e) => return Err(refusal(e)),
    };
    let text = cone_text(alloc, names, &cone)?;
    Ok(Reply { yes: true, text })
}

// The file of the common part.
fn meet_cones<S: Spelling>(
    alloc: Global,
    names: &Names,
    left: &Poly<S>,
    right: &Poly<S>,
) -> Result<Reply, Refusal>
    requires width { left.now.n ≡ length names.now + 1 }
    requires other_width { right.now.n ≡ length names.now + 1 }
    requires size { rows_size S.ring left.now.rows ≤ most_met }
    requires other_size { rows_size S.ring right.now.rows ≤ most_met }
    requires represented { Represents S.ring right.now.n (InCone S.ring right.now) right.now.rows }
    ensures reply { IfOk result (λ reply. IsConesReply Meet S.KIND S.ring S.numbering names.now (InCone S.ring left.now)
        (InCone S.ring right.now) reply.yes reply.text.items) }
    ensures refused { IfErr result (IsConesRefusal Meet S.KIND S.ring S.numbering names.now (InCone S.ring left.now)
        (InCone S.ring right.now)) }
{
    let cone = match left.meet(alloc, right) {
        Ok(cone) => cone,
        Err(e) => return Err(refusal(e)),
    };
    let text = cone_text(alloc, names, &cone)?;
    Ok(Reply { yes: true, text })
}
