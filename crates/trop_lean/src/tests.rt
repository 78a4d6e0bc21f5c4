//! Worked lists in max-plus. Coordinate 0 is that of constants; then come x and y.
ghost use Rattle.std.specs.Prelude.{◌≡◌, ◌≤◌, IfOk, length};
ghost use Rattle.trop_theory.specs.Vectors.{row_size, rows_size};
ghost use Rattle.trop_theory.specs.Inequalities.{IsIn, inequality_size, system_size};
ghost use Rattle.trop_scalar.specs.MaxPlus.{max_ring};

use crate::{certify, lean};
use std::alloc::{AllocError, Global};
use std::test::Fail;
use trop_hyper::Looks;
use trop_row::{Gens, Ineq, Row, System};
use trop_scalar::{MaxInt, Scalar};

// Stands for -oo.
const O: i8 = -128;

fn element(n: i8) -> MaxInt
    ensures { max_ring.size result ≤ 127 }
{
    if n == O {
        MaxInt::zero()
    } else {
        MaxInt::of(i64::from(n))
    }
}

fn row(alloc: Global, numbers: [i8; 3]) -> Result<Row<MaxInt>, AllocError>
    ensures len { IfOk result (λ row. length row ≡ 3) }
    ensures size { IfOk result (λ row. row_size max_ring row ≤ 127) }
{
    let [a, b, c] = numbers;
    let mut entries = Vec::new(alloc);
    entries.push(element(a))?;
    entries.push(element(b))?;
    entries.push(element(c))?;
    Row::from_entries(alloc, entries.as_slice())
}

fn at_most(alloc: Global, left: [i8; 3], right: [i8; 3]) -> Result<Ineq<MaxInt>, AllocError>
    ensures sides { IfOk result (IsIn 3) }
    ensures size { IfOk result (λ p. inequality_size max_ring p ≤ 127) }
{
    Ok(Ineq::new(row(alloc, left)?, row(alloc, right)?))
}

// The external list of the points (-oo, -oo) and (3, 4): x <= y - 1, x <= 3, y <= x + 1, y <= 4.
fn external_list(alloc: Global) -> Result<System<MaxInt>, AllocError>
    ensures n { IfOk result (λ system. system.n ≡ 3) }
    ensures size { IfOk result (λ system. system_size max_ring system.inequalities ≤ 127) }
{
    let mut system = System::new(alloc, 3);
    system.push(at_most(alloc, [O, 0, O], [O, O, -1])?)?;
    system.push(at_most(alloc, [O, 0, O], [3, O, O])?)?;
    system.push(at_most(alloc, [O, O, 0], [O, 1, O])?)?;
    system.push(at_most(alloc, [O, O, 0], [4, O, O])?)?;
    Ok(system)
}

// The rows in this order.
fn three_rows(
    alloc: Global,
    first: [i8; 3],
    second: [i8; 3],
    third: [i8; 3],
) -> Result<Gens<MaxInt>, AllocError>
    ensures n { IfOk result (λ rows. rows.n ≡ 3) }
    ensures size { IfOk result (λ rows. rows_size max_ring rows.rows ≤ 127) }
{
    let mut rows = Gens::new(alloc, 3);
    rows.push(row(alloc, first)?)?;
    rows.push(row(alloc, second)?)?;
    rows.push(row(alloc, third)?)?;
    Ok(rows)
}

#[test]
fn one_of_four_goes(rt: HostRuntime) -> Result<(), Fail> {
    let alloc = rt.alloc();
    let list = lean(alloc, &external_list(alloc)?, &mut Looks::new())?;
    assert_eq!(rt; list.kept.len(), 3);
    assert_eq!(rt; list.rows.len(), 3);
    assert!(rt; *list.kept.get(0).right() == row(alloc, [O, O, -1])?);
    assert!(rt; *list.kept.get(1).right() == row(alloc, [O, 1, O])?);
    assert!(rt; *list.kept.get(2).right() == row(alloc, [4, O, O])?);
    assert!(rt; *list.rows.get(0) == row(alloc, [0, 3, O])?);
    assert!(rt; *list.rows.get(1) == row(alloc, [0, O, 4])?);
    assert!(rt; *list.rows.get(2) == row(alloc, [O, 0, 1])?);
    Ok(())
}

// The list without x <= 3, with its rows in order and with two of them exchanged.
#[test]
fn rows_belong_to_their_inequalities(rt: HostRuntime) -> Result<(), Fail> {
    let alloc = rt.alloc();
    let mut kept = System::new(alloc, 3);
    kept.push(at_most(alloc, [O, 0, O], [O, O, -1])?)?;
    kept.push(at_most(alloc, [O, O, 0], [O, 1, O])?)?;
    kept.push(at_most(alloc, [O, O, 0], [4, O, O])?)?;
    let rows = three_rows(alloc, [0, 3, O], [0, O, 4], [O, 0, 1])?;
    assert!(rt; certify(&kept, &rows));
    let exchanged = three_rows(alloc, [0, O, 4], [0, 3, O], [O, 0, 1])?;
    assert!(rt; !certify(&kept, &exchanged));
    Ok(())
}
