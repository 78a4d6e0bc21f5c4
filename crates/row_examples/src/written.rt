//! Rows, inequalities and lists of both that are written as texts.
//!
//! A row is its entries between blanks, each a number, or `.` for the zero. Between the rows of a list stands a comma, and
//! so it does between inequalities; a list of none is the empty text. Between the sides of an inequality stands ` < `: the
//! left side is at most the right side in the order of the semiring. No entry has a size over 65,535.
ghost use Rattle.std.specs.Prelude.{◌≡◌, ◌≤◌, IfOk, length};
ghost use Rattle.trop_theory.specs.Vectors.{row_size, rows_size as size_of_rows};
ghost use Rattle.trop_theory.specs.Inequalities.{IsIn, inequality_size, system_size as size_of_system};

use std::alloc::{AllocError, Global};
use std::test::Fail;
use trop_row::{Gens, Ineq, Row, System, rows_size, system_size};
use trop_scalar::Scalar;

const MOST: u64 = 65_535;

/// The most rows or inequalities that a text writes.
const LINES: u32 = 1_000_000;

fn unread(alloc: Global, what: &str, text: &str) -> Result<Fail, AllocError> {
    Ok(Fail::new(format!(in alloc; "no {what}: {text}")?))
}

fn element<S: Scalar>(word: &str) -> Option<S> {
    if word == "." {
        return Some(S::zero());
    }
    let number = word.parse::<i32>().ok()?;
    Some(S::of_number(i64::from(number)))
}

fn entries_of<S: Scalar>(alloc: Global, text: &str) -> Result<Vec<S>, Fail> {
    let mut entries = Vec::new(alloc);
    for word in text.split(' ') {
        match element::<S>(word) {
            Some(x) => entries.push(x)?,
            None => return Err(unread(alloc, "row", text)?),
        }
    }
    Ok(entries)
}

// The size of the row, found by a list of the row alone.
fn size_of<S: Scalar>(alloc: Global, row: &Row<S>) -> Result<u64, Fail>
    requires { length row.now ≤ 64 }
    ensures { IfOk result (λ size. size ≡ row_size S.ring row.now) }
{
    let mut alone = Vec::new(alloc);
    alone.push(row.copy(alloc)?)?;
    Ok(rows_size(alone.as_slice()))
}

/// The row of `n` entries that the text writes.
pub fn row_of<S: Scalar>(alloc: Global, n: u32, text: &str) -> Result<Row<S>, Fail>
    ensures wide { IfOk result (λ row. length row ≡ n) }
    ensures small { IfOk result (λ row. row_size S.ring row ≤ 65535) }
{
    let entries = entries_of::<S>(alloc, text)?;
    if n > 64 || entries.len() != n as usize {
        return Err(unread(alloc, "row of so many entries", text)?);
    }
    let row = Row::from_entries(alloc, entries.as_slice())?;
    if size_of(alloc, &row)? > MOST {
        return Err(unread(alloc, "small row", text)?);
    }
    Ok(row)
}

/// The rows of `n` entries that the text writes.
pub fn rows_of<S: Scalar>(alloc: Global, n: u32, text: &str) -> Result<Gens<S>, Fail>
    requires at_least { 1 ≤ n }
    requires at_most { n ≤ 64 }
    ensures width { IfOk result (λ gens. gens.n ≡ n) }
    ensures small { IfOk result (λ gens. size_of_rows S.ring gens.rows ≤ 65535) }
{
    let mut gens = Gens::new(alloc, n);
    for part in text.split(", ") {
        if !part.is_empty() && gens.len() < LINES {
            let row = row_of(alloc, gens.n(), part)?;
            gens.push(row)?;
        }
    }
    if gens.n() != n || rows_size(gens.as_slice()) > MOST {
        return Err(unread(alloc, "small rows", text)?);
    }
    Ok(gens)
}

/// The inequality in `n` coordinates that the text writes.
pub fn inequality_of<S: Scalar>(alloc: Global, n: u32, text: &str) -> Result<Ineq<S>, Fail>
    ensures sides { IfOk result (IsIn n) }
    ensures small { IfOk result (λ p. inequality_size S.ring p ≤ 65535) }
{
    match text.split_once(" < ") {
        Some((left, right)) => {
            let left = row_of(alloc, n, left)?;
            let right = row_of(alloc, n, right)?;
            Ok(Ineq::new(left, right))
        }
        None => Err(unread(alloc, "inequality", text)?),
    }
}

/// The system in `n` coordinates that the text writes.
pub fn system_of<S: Scalar>(alloc: Global, n: u32, text: &str) -> Result<System<S>, Fail>
    requires at_least { 1 ≤ n }
    requires at_most { n ≤ 64 }
    ensures width { IfOk result (λ system. system.n ≡ n) }
    ensures small { IfOk result (λ system. size_of_system S.ring system.inequalities ≤ 65535) }
{
    let mut system = System::new(alloc, n);
    for part in text.split(", ") {
        if !part.is_empty() && system.len() < LINES {
            let ineq = inequality_of(alloc, system.n(), part)?;
            system.push(ineq)?;
        }
    }
    if system.n() != n || system_size(system.as_slice()) > MOST {
        return Err(unread(alloc, "small system", text)?);
    }
    Ok(system)
}
