// Copies of lists.
ghost use Rattle.std.specs.Prelude.{◌≡◌, ◌^◌, ◌≤◌, All, IfOk, length};
ghost use Rattle.trop_theory.specs.Inequalities.{IsIn};

use std::alloc::{AllocError, Global};
use trop_pairs::Carried;
use trop_row::{Ineq, Row, System};
use trop_scalar::Scalar;

// The same rows.
pub fn copied_rows<S: Scalar>(alloc: Global, rows: &[Row<S>]) -> Result<Vec<Row<S>>, AllocError>
    ensures { IfOk result (λ copies. copies.items ≡ rows.now) }
{
    let mut copies = Vec::with_capacity(alloc, rows.len())?;
    for row in rows {
        copies.push(row.copy(alloc)?)?;
    }
    Ok(copies)
}

// The same rows with what is carried beside them.
pub fn copied_sides<S: Scalar>(
    alloc: Global,
    sides: &[Carried<S>],
) -> Result<Vec<Carried<S>>, AllocError>
    ensures { IfOk result (λ copies. copies.items ≡ sides.now) }
{
    let mut copies = Vec::with_capacity(alloc, sides.len())?;
    for side in sides {
        copies.push(side.copy(alloc)?)?;
    }
    Ok(copies)
}

// The same numbers.
pub fn copied_numbers(alloc: Global, numbers: &[usize]) -> Result<Vec<usize>, AllocError>
    ensures { IfOk result (λ copies. copies.items ≡ numbers.now) }
{
    Vec::from_slice(alloc, numbers)
}

// The same inequalities.
pub fn copied_system<S: Scalar>(
    alloc: Global,
    n: u32,
    inequalities: &[Ineq<S>],
) -> Result<System<S>, AllocError>
    requires at_least { 1 ≤ n }
    requires at_most { n ≤ 64 }
    requires inside { All (IsIn n) inequalities.now }
    requires room { length inequalities.now ≤ 2 ^ 31 }
    ensures width { IfOk result (λ copies. copies.n ≡ n) }
    ensures inequalities { IfOk result (λ copies. copies.inequalities ≡ inequalities.now) }
{
    let mut copies = System::new(alloc, n);
    for ineq in inequalities {
        copies.push(ineq.copy(alloc)?)?;
    }
    Ok(copies)
}
