//! The block of each point.
ghost use Rattle.std.specs.Prelude.{◌≡◌, ℕ, All, length, IfOk, IfErr, OnOk};
ghost use Rattle.std.specs.List.{AllZip};
ghost use Rattle.trop_theory.specs.MaxPlus.{max_ring};
ghost use Rattle.trop_duality.specs.External.{IsExternal};
ghost use Rattle.prog_theory.specs.Graph.{points};
ghost use Rattle.prog_theory.specs.Named.{nameless};
ghost use Rattle.cone_domain.specs.Values.{coordinates, cone_of};
ghost use Rattle.mixed_theory.specs.Halves.{variables};
ghost use Rattle.short_print.specs.Blocks.{texts_of};
ghost use Rattle.mixed_print.specs.Said.{IsListStop};
ghost use Rattle.mixed_print.specs.Made.{IsBlockOf};
ghost use Rattle.mixed_print.specs.Refusals.{IsBlockRefusal, IsPrintRefusal};

use crate::MixedErr;
use crate::lines::{push_inequalities, push_rows};
use dom_mixed::MixedDomain;
use prog_tree::Program;
use std::alloc::Global;
use trop_poly::PolyErr;
use trop_row::System;
use trop_scalar::MaxInt;
use trop_text::Names;

// The external list of the value at the point. No external list is refused by `Rows`.
fn external(alloc: Global, value: &MixedDomain, point: u32) -> Result<System<MaxInt>, MixedErr>
    ensures width { IfOk result (λ invs. invs.n ≡ coordinates value.now) }
    ensures external { IfOk result (λ invs. IsExternal max_ring (coordinates value.now) (cone_of max_ring value.now)
        invs.inequalities) }
    ensures unstopped { OnOk result ((i k : ℕ) → IsListStop value.now i k → ⊥) }
    ensures refused { IfErr result (IsBlockRefusal value.now point) }
{
    match value.poly().external(alloc) {
        Ok(invs) => Ok(invs),
        Err(PolyErr::Polar(i, rows)) => Err(MixedErr::Polar(point, i, rows)),
        Err(PolyErr::Rows(_)) => unreachable!(),
        Err(PolyErr::NoMemory) => Err(MixedErr::NoMemory),
    }
}

// The block of the point that has this number and this value.
fn block(alloc: Global, names: &Names, value: &MixedDomain, point: u32) -> Result<Vec<u8>, MixedErr>
    requires { variables value.now ≡ length names.now }
    ensures made { IfOk result (λ text. IsBlockOf names.now value.now text.items) }
    ensures refused { IfErr result (IsBlockRefusal value.now point) }
{
    let mut text = Vec::new(alloc);
    let rows = value.poly().rows();
    if rows.len() == 0 {
        text.extend_from_slice(b"unreachable\n")?;
        return Ok(text);
    }
    let invs = external(alloc, value, point)?;
    push_rows(&mut text, rows)?;
    push_inequalities(&mut text, names, &invs)?;
    Ok(text)
}

/// The blocks of points with these values.
pub(crate) fn blocks(
    alloc: Global,
    program: &Program,
    values: &[MixedDomain],
) -> Result<Vec<Vec<u8>>, MixedErr>
    requires points { length values.now ≡ length (points (nameless program.now)) }
    requires vars { All (λ v. variables v ≡ length program.now.names) values.now }
    ensures made { IfOk result (λ blocks. AllZip (IsBlockOf program.now.names) values.now (texts_of blocks.items)) }
    ensures refused { IfErr result (IsPrintRefusal program.now values.now) }
{
    let names = program.names();
    let mut blocks = Vec::new(alloc);
    for q in 0..values.len() {
        let text = block(alloc, names, &values[q], q as u32)?;
        blocks.push(text)?;
    }
    Ok(blocks)
}
