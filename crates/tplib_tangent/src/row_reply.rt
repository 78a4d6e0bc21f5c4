//! What the command answers at a row.
ghost use Rattle.std.specs.Prelude.{◌≡◌, ◌+◌, ◌^◌, ◌<◌, ◌≤◌, ◌++◌, length, codes, decimal, MatchOption, IfOk, IfSome};
ghost use Rattle.trop_theory.specs.Vectors.{row_size};
ghost use Rattle.trop_theory.specs.Inequalities.{Solves, system_size};
ghost use Rattle.tplib_tangent.specs.Tangent.{IsTangentAnswer, IsFirstFailing};

use crate::numbers::push_number;
use crate::solution_text::solution_text;
use std::alloc::{AllocError, Global};
use tplib_reply::Reply;
use trop_row::{Row, System};
use trop_scalar::Scalar;
use trop_text::Names;

/// Whether the row is a solution of the system, and the lines to write then; else the line that names the first
/// inequality that fails.
pub fn row_reply<S: Scalar>(
    alloc: Global,
    names: &Names,
    system: &System<S>,
    row: &Row<S>,
) -> Result<Reply, AllocError>
    requires names { system.now.n ≡ length names.now + 1 }
    requires wide { length row.now ≡ system.now.n }
    requires row_size { row_size S.ring row.now ≤ 2 ^ 60 }
    requires size { system_size S.ring system.now.inequalities ≤ 2 ^ 49 }
    ensures { IfOk result (λ reply. IsTangentAnswer S.ring names.now system.now.n system.now.inequalities row.now
        reply.yes reply.text.items) }
{
    match first_failing(system, row) {
        Some(k) => Ok(Reply {
            yes: false,
            text: failure_text(alloc, k)?,
        }),
        None => Ok(Reply {
            yes: true,
            text: solution_text(alloc, names, system, row)?,
        }),
    }
}

// The place of the first inequality that fails at the row.
fn first_failing<S: Scalar>(system: &System<S>, row: &Row<S>) -> Option<u32>
    requires wide { length row.now ≡ system.now.n }
    requires row_size { row_size S.ring row.now ≤ 2 ^ 60 }
    requires size { system_size S.ring system.now.inequalities ≤ 2 ^ 49 }
    ensures first { MatchOption result (Solves S.ring system.now.n system.now.inequalities row.now)
        (λ k. IsFirstFailing S.ring system.now.inequalities row.now k) }
    ensures room { IfSome result (λ k. k < 2 ^ 31) }
{
    for k in 0..system.len() {
        if !system.get(k).holds(row) {
            return Some(k);
        }
    }
    None
}

// The line that names the inequality at place `k`, from 0.
fn failure_text(alloc: Global, k: u32) -> Result<Vec<u8>, AllocError>
    requires { k < 2 ^ 31 }
    ensures { IfOk result (λ text. text.items ≡ codes "not a solution: inequality " ++ decimal (k + 1) ++ codes "\n") }
{
    let mut text = Vec::from_slice(alloc, b"not a solution: inequality ")?;
    push_number(&mut text, k + 1)?;
    text.push(b'\n')?;
    Ok(text)
}
