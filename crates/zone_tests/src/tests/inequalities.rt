// A zone as inequalities; what is wanted was worked by hand.
use super::reading::graph_of;
use dom_core::Domain;
use dom_iter::analyse;
use dom_zone::ZoneDomain;
use std::alloc::Global;
use std::test::Fail;
use trop_row::{Row, System};
use trop_scalar::{MaxInt, Scalar};

// The entries between blanks, `.` for the zero.
fn row_text(alloc: Global, row: &Row<MaxInt>) -> Result<String, Fail> {
    let mut text = String::new(alloc);
    for x in row.as_slice() {
        text = match x.number() {
            Some(n) => format!(in alloc; "{text} {n}")?,
            None => format!(in alloc; "{text} .")?,
        };
    }
    Ok(text)
}

fn system_text(alloc: Global, system: &System<MaxInt>) -> Result<String, Fail> {
    let mut text = String::new(alloc);
    for ineq in system.as_slice() {
        let left = row_text(alloc, ineq.left())?;
        let right = row_text(alloc, ineq.right())?;
        text = format!(in alloc; "{text}{left} <={right};")?;
    }
    Ok(text)
}

// The bounds at (1, 2) and (1, 0) of a zone on two variables, and its inequalities.
fn told(alloc: Global, value: &ZoneDomain) -> Result<String, Fail> {
    if value.vars() != 2 || value.is_bottom() {
        return Ok(format!(in alloc; "no such zone")?);
    }
    let system = system_text(alloc, &value.embed(alloc)?)?;
    match value.bound(1, 2) {
        Some(n) if value.bound(1, 0).is_none() => Ok(format!(in alloc; "{n}, none:{system}")?),
        _ => Ok(format!(in alloc; "other bounds:{system}")?),
    }
}

#[test]
fn a_zone_as_inequalities(rt: HostRuntime) -> Result<(), Fail> {
    let alloc = rt.alloc();
    let text = match graph_of(alloc, b"vars x y; x := y + 2;")? {
        Some(graph) if graph.vars() <= 63 => match analyse::<ZoneDomain>(alloc, &graph, 2, 0) {
            Ok(family) if family.values.len() == 2 => told(alloc, &family.values[1])?,
            _ => format!(in alloc; "no two points")?,
        },
        _ => format!(in alloc; "no program")?,
    };
    assert!(rt; text.as_str() == "2, none: . 0 . <= . . 2; . . 0 <= . -2 .;");
    Ok(())
}
