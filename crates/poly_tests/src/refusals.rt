//! Cones over the limit of rows, and the texts of errors.
ghost use Rattle.std.specs.Prelude.{◌≡◌, ◌≤◌, IfOk};
ghost use Rattle.trop_theory.specs.Vectors.{rows_size};
ghost use Rattle.trop_scalar.specs.MaxPlus.{max_ring};

use crate::cones::cone;
use row_examples::same_text;
use std::alloc::{AllocError, Global};
use std::test::Fail;
use trop_dd::DdErr;
use trop_guard::GuardErr;
use trop_lean::LeanErr;
use trop_poly::{Poly, PolyErr};
use trop_scalar::MaxInt;

// The points (k, -k) for the numbers from `low` to before `high`: none of them is a combination of others.
fn stairs(alloc: Global, low: u32, high: u32) -> Result<Poly<MaxInt>, Fail>
    ensures width { IfOk result (λ cone. cone.n ≡ 4) }
    ensures size { IfOk result (λ cone. rows_size max_ring cone.rows ≤ 131070) }
{
    let mut text = String::new(alloc);
    for k in low..high {
        let point = format!(in alloc; "0 {k} -{k} ., ")?;
        text.push_str(point.as_str())?;
    }
    cone(alloc, text.as_str())
}

// How the join with the points of the numbers from 2,000 to before `high` ends.
fn join_at_end(alloc: Global, first: &Poly<MaxInt>, high: u32) -> Result<String, Fail>
    requires width { first.now.n ≡ 4 }
    requires size { rows_size max_ring first.now.rows ≤ 131070 }
{
    let second = stairs(alloc, 2_000, high)?;
    Ok(match first.join(alloc, &second) {
        Ok(joined) => format!(in alloc; "{} rows", joined.rows().len())?,
        Err(err) => format!(in alloc; "{err}")?,
    })
}

#[test]
fn joins_at_the_limit(rt: HostRuntime) -> Result<(), Fail> {
    let alloc = rt.alloc();
    let first = stairs(alloc, 0, 2_000)?;
    let got = join_at_end(alloc, &first, 4_096)?;
    same_text(alloc, "as many as may be", "4096 rows", got.as_str())?;
    let over = "with 0 inequalities there are more than 4096 extreme rows";
    let got = join_at_end(alloc, &first, 4_097)?;
    same_text(alloc, "one more", over, got.as_str())
}

fn poly_text(alloc: Global, err: PolyErr) -> Result<String, AllocError> {
    format!(in alloc; "{err}")
}

fn guard_text(alloc: Global, err: GuardErr) -> Result<String, AllocError> {
    format!(in alloc; "{err}")
}

fn dd_text(alloc: Global, err: DdErr) -> Result<String, AllocError> {
    format!(in alloc; "{err}")
}

fn lean_text(alloc: Global, err: LeanErr) -> Result<String, AllocError> {
    format!(in alloc; "{err}")
}

// Rows, and rows that an external list meets on its way.
#[test]
fn texts_of_errors_of_cones(rt: HostRuntime) -> Result<(), Fail> {
    let alloc = rt.alloc();
    let got = poly_text(alloc, PolyErr::Rows(3))?;
    let rows = "with 3 inequalities there are more than 4096 extreme rows";
    same_text(alloc, "a cone over the limit", rows, got.as_str())?;
    let got = poly_text(alloc, PolyErr::Polar(2, 17))?;
    let polar = "the external list stops at coordinate 2 with 17 rows";
    same_text(alloc, "an external list", polar, got.as_str())?;
    let got = poly_text(alloc, PolyErr::NoMemory)?;
    same_text(alloc, "a cone", "no memory", got.as_str())
}

#[test]
fn texts_of_errors_of_guards(rt: HostRuntime) -> Result<(), Fail> {
    let alloc = rt.alloc();
    let got = guard_text(alloc, GuardErr::Limit)?;
    same_text(
        alloc,
        "a guard over the limit",
        "more than 4096 extreme rows",
        got.as_str(),
    )?;
    let got = guard_text(alloc, GuardErr::NoMemory)?;
    same_text(alloc, "a guard", "no memory", got.as_str())
}

#[test]
fn texts_of_errors_of_descriptions(rt: HostRuntime) -> Result<(), Fail> {
    let alloc = rt.alloc();
    let got = dd_text(alloc, DdErr::Limit(4))?;
    let limit = "the first 4 inequalities have more than 4096 extreme rows";
    same_text(alloc, "a description over the limit", limit, got.as_str())?;
    let got = dd_text(alloc, DdErr::NoMemory)?;
    same_text(alloc, "a description", "no memory", got.as_str())
}

#[test]
fn texts_of_errors_of_lean_lists(rt: HostRuntime) -> Result<(), Fail> {
    let alloc = rt.alloc();
    let got = lean_text(alloc, LeanErr::Rows(2, 3))?;
    let rows = "at turn 2 the first 3 inequalities have more than 4096 extreme rows";
    same_text(alloc, "a turn over the limit", rows, got.as_str())?;
    let got = lean_text(alloc, LeanErr::NoMemory)?;
    same_text(alloc, "a lean list", "no memory", got.as_str())
}
