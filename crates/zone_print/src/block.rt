//! The lines of a point.
ghost use Rattle.std.specs.Prelude.{◌≡◌, ◌≤◌, ◌++◌, length, suc, Some, IfOk, OnOk};
ghost use Rattle.zone_theory.specs.Matrices.{Matrix};
ghost use Rattle.zone_theory.specs.Limits.{number, row, limits};
ghost use Rattle.report_texts.specs.Printed.{lines_text};
ghost use Rattle.zone_lists.specs.Zones.{matrix_if, zone_of, empty};
ghost use Rattle.zone_print.specs.Blocks.{limit_text};
ghost use Rattle.zone_print.specs.Reports.{zone_block};

use crate::NoMemory;
use crate::limits::push_limit;
use dom_core::Domain;
use dom_zone::ZoneDomain;
use std::alloc::Global;
use trop_text::Names;

// The line of the bound of the first coordinate less the second, if they differ and have one.
fn push_bound(
    text: &mut Vec<u8>,
    names: &Names,
    zone: &ZoneDomain,
    i: u32,
    j: u32,
) -> Result<(), NoMemory>
    requires some { ¬ zone.now ≡ empty zone.now.vars }
    requires vars { zone.now.vars ≡ length names.now }
    requires row { i ≤ zone.now.vars }
    requires column { j ≤ zone.now.vars }
    ensures { (m : Matrix) → matrix_if zone.now.vars zone.now.bounds ≡ Some m →
        OnOk result (text.new.items ≡ text.old.items ++ lines_text (limit_text names.now) (number i j (m i j))) }
{
    if i == j {
        return Ok(());
    }
    match zone.bound(i, j) {
        None => Ok(()),
        Some(most) => push_limit(text, names, i, j, most),
    }
}

// The lines of the bounds of a coordinate less any other.
fn push_row(text: &mut Vec<u8>, names: &Names, zone: &ZoneDomain, i: u32) -> Result<(), NoMemory>
    requires some { ¬ zone.now ≡ empty zone.now.vars }
    requires vars { zone.now.vars ≡ length names.now }
    requires row { i ≤ zone.now.vars }
    ensures { (m : Matrix) → matrix_if zone.now.vars zone.now.bounds ≡ Some m →
        OnOk result (text.new.items ≡ text.old.items
        ++ lines_text (limit_text names.now) (row m i (suc zone.now.vars))) }
{
    let side = zone.vars() + 1;
    for j in 0..side {
        push_bound(text, names, zone, i, j)?;
    }
    Ok(())
}

// The lines of all bounds.
fn push_bounds(text: &mut Vec<u8>, names: &Names, zone: &ZoneDomain) -> Result<(), NoMemory>
    requires some { ¬ zone.now ≡ empty zone.now.vars }
    requires vars { zone.now.vars ≡ length names.now }
    ensures { (m : Matrix) → matrix_if zone.now.vars zone.now.bounds ≡ Some m →
        OnOk result (text.new.items ≡ text.old.items
        ++ lines_text (limit_text names.now) (limits zone.now.vars m)) }
{
    let side = zone.vars() + 1;
    for i in 0..side {
        push_row(text, names, zone, i)?;
    }
    Ok(())
}

/// The lines of a point with this zone.
pub(crate) fn block(alloc: Global, names: &Names, zone: &ZoneDomain) -> Result<Vec<u8>, NoMemory>
    requires { zone.now.vars ≡ length names.now }
    ensures { IfOk result (λ text. text.items ≡ zone_block names.now (zone_of zone.now)) }
{
    let _vars = zone.vars();
    let mut text = Vec::new(alloc);
    if zone.is_bottom() {
        text.extend_from_slice(b"unreachable\n")?;
        return Ok(text);
    }
    push_bounds(&mut text, names, zone)?;
    Ok(text)
}
