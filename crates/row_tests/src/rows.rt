//! Rows, lists of rows and of inequalities, the canonical list, and the elementary step.
use row_examples::{inequality_of, row_of, row_text, rows_of, rows_text, same_text, span_text};
use std::alloc::Global;
use std::test::Fail;
use trop_row::{Gens, Row, System, member, reduce, step_all};
use trop_scalar::{Flag, MaxInt, MinInt, Scalar};

// That the canonical list of the rows is this.
fn reduces<S: Scalar>(alloc: Global, why: &str, rows: &str, wanted: &str) -> Result<(), Fail> {
    let gens = rows_of::<S>(alloc, 2, rows)?;
    let reduced = reduce(alloc, &gens)?;
    same_text(alloc, why, wanted, rows_text(alloc, &reduced)?.as_str())
}

#[test]
fn canonical_lists(rt: HostRuntime) -> Result<(), Fail> {
    let alloc = rt.alloc();
    let points = "0 0, 0 1, 0 2";
    reduces::<MaxInt>(alloc, "the middle point goes", points, "0 0, 0 2")?;
    reduces::<MinInt>(alloc, "the greater number stands first", points, "0 2, 0 0")?;
    reduces::<Flag>(alloc, "a repeat goes", "0 0, 0 ., 0 0", "0 ., 0 0")
}

// Whether the row is a combination of the points 0 and 2.
fn is_between(alloc: Global, row: &str) -> Result<bool, Fail> {
    let gens = rows_of::<MaxInt>(alloc, 2, "0 0, 0 2")?;
    let row = row_of(alloc, 2, row)?;
    Ok(member(&gens, &row))
}

#[test]
fn combinations_of_two_points(rt: HostRuntime) -> Result<(), Fail> {
    assert_eq!(rt; is_between(rt.alloc(), "0 1")?, true, "between both");
    assert_eq!(rt; is_between(rt.alloc(), "0 3")?, false, "past the second");
    Ok(())
}

// The whole line, cut at 3: the inequality x <= 3.
#[test]
fn step_cuts_the_line(rt: HostRuntime) -> Result<(), Fail> {
    let alloc = rt.alloc();
    let mut units = Gens::<MaxInt>::new(alloc, 2);
    units.push(Row::unit(alloc, 2, 0)?)?;
    units.push(Row::unit(alloc, 2, 1)?)?;
    let ineq = inequality_of(alloc, 2, ". 0 < 3 .")?;
    let cut = step_all(alloc, &units, &ineq)?;
    same_text(
        alloc,
        "the line",
        "0 ., 0 3",
        rows_text(alloc, &cut)?.as_str(),
    )
}

// That a row of 8 entries is made is proved, whatever memory there is.
#[test]
fn rows_of_eight_need_no_memory(rt: HostRuntime) {
    let alloc = rt.alloc();
    let entries = [MaxInt::of(5); 8];
    let row = Row::from_entries(alloc, &entries).unwrap();
    let copy = row.copy(alloc).unwrap();
    assert!(rt; copy == row && copy.len() == 8);
    let unit = Row::<Flag>::unit(alloc, 8, 7).unwrap();
    assert!(rt; unit.get(7).is_set());
}

// The unit row of each coordinate, and its copy.
#[test]
fn units_and_copies(rt: HostRuntime) -> Result<(), Fail> {
    let alloc = rt.alloc();
    for n in 1..12 {
        for i in 0..n {
            let wanted = span_text(alloc, n, i, i + 1)?;
            let copy = Row::<MaxInt>::unit(alloc, n, i)?.copy(alloc)?;
            let got = row_text(alloc, &copy)?;
            same_text(alloc, "a unit row", wanted.as_str(), got.as_str())?;
        }
    }
    Ok(())
}

// That three pushes succeed after `reserve(3)` is proved, whatever memory there is.
#[test]
fn three_rows_after_reserve(rt: HostRuntime) -> Result<(), Fail> {
    let alloc = rt.alloc();
    let (first, second, third) = (
        row_of::<MaxInt>(alloc, 2, ". 0")?,
        row_of(alloc, 2, "0 .")?,
        row_of(alloc, 2, "0 0")?,
    );
    let mut gens = Gens::new(alloc, 2);
    gens.reserve(3)?;
    gens.push(first).unwrap();
    gens.push(second).unwrap();
    gens.push(third).unwrap();
    let got = rows_text(alloc, &gens)?;
    same_text(alloc, "three rows", ". 0, 0 ., 0 0", got.as_str())
}

// The same of inequalities.
#[test]
fn three_inequalities_after_reserve(rt: HostRuntime) -> Result<(), Fail> {
    let alloc = rt.alloc();
    let below = inequality_of::<MaxInt>(alloc, 2, ". 0 < 0 .")?;
    let above = inequality_of(alloc, 2, "0 . < . 0")?;
    let same = below.copy(alloc)?;
    let mut system = System::new(alloc, 2);
    system.reserve(3)?;
    system.push(below).unwrap();
    system.push(above).unwrap();
    system.push(same).unwrap();
    assert_eq!(rt; system.len(), 3);
    Ok(())
}
