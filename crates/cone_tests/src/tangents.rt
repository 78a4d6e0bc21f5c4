//! What is told of worked rows in each of the three semirings: their hyperedges, their types, and whether they are extreme.
ghost use Rattle.std.specs.Prelude.{◌≡◌, ◌≤◌, length};
ghost use Rattle.trop_theory.specs.Vectors.{row_size};
ghost use Rattle.trop_theory.specs.Inequalities.{system_size};

use row_examples::{members_text, row_of, same_text, system_of};
use std::alloc::Global;
use std::test::Fail;
use trop_hyper::{Hyper, Looks, Mask};
use trop_row::{Row, System};
use trop_scalar::{Flag, MaxInt, MinInt, Scalar};
use trop_tangent::{first_untrue, is_extreme, is_extreme_in, tangent, types, types_in};

/// A row and what is told of it.
struct Case {
    why: &'static str,
    system: &'static str,
    row: &'static str,
    wanted: &'static str,
}

// x = y.
const EQUAL: &str = ". 0 . . < . . 0 ., . . 0 . < . 0 . .";

// x at most the greater of y and z.
const SPLIT: &str = ". 0 . . < . . 0 0";

const CASES: [Case; 6] = [
    Case {
        why: "a point of x = y",
        system: EQUAL,
        row: "0 0 0 .",
        wanted: "2 edges, types none, extreme false",
    },
    Case {
        why: "the ray of x = y",
        system: EQUAL,
        row: ". 0 0 .",
        wanted: "2 edges, types 1 2, extreme true",
    },
    Case {
        why: "bottom",
        system: EQUAL,
        row: ". . . .",
        wanted: "0 edges, types none, extreme false",
    },
    Case {
        why: "x held by y and z",
        system: SPLIT,
        row: ". 0 0 0",
        wanted: "1 edges, types none, extreme false",
    },
    Case {
        why: "x held by y",
        system: SPLIT,
        row: ". 0 0 .",
        wanted: "1 edges, types 1, extreme true",
    },
    Case {
        why: "x held by nothing",
        system: SPLIT,
        row: ". 0 . .",
        wanted: "no solution",
    },
];

// What the calls without room tell of the row.
fn told<S: Scalar>(alloc: Global, system: &System<S>, row: &Row<S>) -> Result<String, Fail>
    requires wide { length row.now ≡ system.now.n }
    requires row_size { row_size S.ring row.now ≤ 65535 }
    requires size { system_size S.ring system.now.inequalities ≤ 65535 }
{
    if first_untrue(system, row).is_some() {
        return Ok(String::from_str(alloc, "no solution")?);
    }
    let extreme = is_extreme(system, row, &mut Looks::new());
    let found = types(system, row, &mut Looks::new());
    let edges = tangent(alloc, system, row)?.edges().len();
    let types = members_text(alloc, found)?;
    Ok(format!(in alloc; "{edges} edges, types {types}, extreme {extreme}")?)
}

// What the calls with room tell of it.
fn told_in_room<S: Scalar>(alloc: Global, system: &System<S>, row: &Row<S>) -> Result<String, Fail>
    requires wide { length row.now ≡ system.now.n }
    requires row_size { row_size S.ring row.now ≤ 65535 }
    requires size { system_size S.ring system.now.inequalities ≤ 65535 }
{
    if first_untrue(system, row).is_some() {
        return Ok(String::from_str(alloc, "no solution")?);
    }
    let mut room = Hyper::new(alloc, Mask::empty());
    let extreme = is_extreme_in(&mut room, system, row, &mut Looks::new())?;
    let found = types_in(&mut room, system, row, &mut Looks::new())?;
    let edges = room.edges().len();
    let types = members_text(alloc, found)?;
    Ok(format!(in alloc; "{edges} edges, types {types}, extreme {extreme}")?)
}

// That both are what is wanted.
fn is_told<S: Scalar>(alloc: Global, case: &Case) -> Result<(), Fail> {
    let system = system_of::<S>(alloc, 4, case.system)?;
    let row = row_of::<S>(alloc, 4, case.row)?;
    let plain = told(alloc, &system, &row)?;
    same_text(alloc, case.why, case.wanted, plain.as_str())?;
    let roomy = told_in_room(alloc, &system, &row)?;
    same_text(alloc, case.why, case.wanted, roomy.as_str())
}

#[test]
fn types_and_extreme_rows(rt: HostRuntime) -> Result<(), Fail> {
    for case in &CASES {
        is_told::<MaxInt>(rt.alloc(), case)?;
        is_told::<MinInt>(rt.alloc(), case)?;
        is_told::<Flag>(rt.alloc(), case)?;
    }
    Ok(())
}

// The first node that does not reach all types, or is a type and reaches others.
fn first_astray(graph: &Hyper, types: Mask) -> Option<u32> {
    for from in 0..4 {
        if graph.nodes().has(from) {
            let reached = graph.closure(from, &mut Looks::new());
            if !reached.contains(types) || types.has(from) && reached != types {
                return Some(from);
            }
        }
    }
    None
}

// The first such node of the tangent hypergraph at the row.
fn astray_at<S: Scalar>(alloc: Global, case: &Case) -> Result<Option<u32>, Fail> {
    let system = system_of::<S>(alloc, 4, case.system)?;
    let row = row_of::<S>(alloc, 4, case.row)?;
    if first_untrue(&system, &row).is_some() {
        return Ok(None);
    }
    let graph = tangent(alloc, &system, &row)?;
    Ok(first_astray(&graph, types(&system, &row, &mut Looks::new())))
}

// The types of a row are the nodes that all nodes reach.
#[test]
fn types_are_reached_by_all(rt: HostRuntime) -> Result<(), Fail> {
    for case in &CASES {
        assert_eq!(rt;
            astray_at::<MaxInt>(rt.alloc(), case)?,
            None,
            "{}",
            case.why
        );
        assert_eq!(rt;
            astray_at::<MinInt>(rt.alloc(), case)?,
            None,
            "{}",
            case.why
        );
        assert_eq!(rt; astray_at::<Flag>(rt.alloc(), case)?, None, "{}", case.why);
    }
    Ok(())
}

// Rows at which the looks of one inequality are counted.
const LOOKED_AT: [(&str, &str); 5] = [
    ("all entries", "0 0 0 0"),
    ("x held by y and z", ". 0 0 0"),
    ("x held by y", ". 0 0 ."),
    ("a point above z", "0 . . 0"),
    ("the constant alone", "0 . . ."),
];

// The looks that the two searches without room make at one inequality.
fn looks_at<S: Scalar>(alloc: Global, row: &str) -> Result<(u64, u64), Fail> {
    let system = system_of::<S>(alloc, 4, SPLIT)?;
    let row = row_of::<S>(alloc, 4, row)?;
    let (mut looks, mut others) = (Looks::new(), Looks::new());
    if first_untrue(&system, &row).is_none() {
        let _extreme = is_extreme(&system, &row, &mut looks);
        let _types = types(&system, &row, &mut others);
    }
    Ok((looks.count(), others.count()))
}

// That these are from 1 to 25, the most that are promised, and as many of the one search as of the other.
fn few_looks<S: Scalar>(alloc: Global, why: &str, row: &str) -> Result<(), Fail> {
    let (first, second) = looks_at::<S>(alloc, row)?;
    if first >= 1 && first <= 25 && second == first {
        return Ok(());
    }
    Err(Fail::new(format!(in alloc;
        "{why}: wanted from 1 to 25 looks each, got {first} and {second}"
    )?))
}

#[test]
fn looks_at_one_inequality(rt: HostRuntime) -> Result<(), Fail> {
    for (why, row) in &LOOKED_AT {
        few_looks::<MaxInt>(rt.alloc(), why, row)?;
        few_looks::<MinInt>(rt.alloc(), why, row)?;
        few_looks::<Flag>(rt.alloc(), why, row)?;
    }
    Ok(())
}
