//! The double description.
ghost use Rattle.std.specs.Prelude.{◌≤◌, IfOk};
ghost use Rattle.trop_theory.specs.Inequalities.{IsIn, inequality_size};
ghost use Rattle.trop_scalar.specs.MaxPlus.{max_ring};

use row_examples::{inequality_of, rows_text, same_text, span_text, system_of};
use std::alloc::Global;
use std::test::Fail;
use trop_dd::{Dd, DdErr, equal_rows_are_equal_solutions, extreme_rows};
use trop_hyper::Looks;
use trop_row::Ineq;
use trop_scalar::{Flag, MaxInt, MinInt, Scalar};

// x at most y.
const X_BELOW_Y: &str = ". 0 . < . . 0";

// The rows of x at most y: two rays and a point.
const SORTED_PAIRS: &str = ". . 0, . 0 0, 0 . .";

// That the system of x at most y alone, pushed, has these rows, and that looks were counted.
fn pushes<S: Scalar>(alloc: Global) -> Result<(), Fail> {
    let ineq = inequality_of::<S>(alloc, 3, X_BELOW_Y)?;
    let mut looks = Looks::new();
    let mut dd = Dd::<S>::new(alloc, 3)?;
    dd.push(alloc, ineq, &mut looks).map_err(|_| "not pushed")?;
    let got = format!(in alloc;
        "{}; {} inequality, looks {}",
        rows_text(alloc, dd.rows())?,
        dd.system().len(),
        looks.count() > 0
    )?;
    let wanted = format!(in alloc; "{SORTED_PAIRS}; 1 inequality, looks true")?;
    same_text(alloc, "pushed", wanted.as_str(), got.as_str())?;
    let rows = dd.into_rows();
    let got = rows_text(alloc, &rows)?;
    same_text(alloc, "taken out", SORTED_PAIRS, got.as_str())
}

// The same of the system converted.
fn converts<S: Scalar>(alloc: Global) -> Result<(), Fail> {
    let system = system_of::<S>(alloc, 3, X_BELOW_Y)?;
    let mut looks = Looks::new();
    let rows = extreme_rows(alloc, &system, &mut looks).map_err(|_| "not converted")?;
    let got = rows_text(alloc, &rows)?;
    same_text(alloc, "converted", SORTED_PAIRS, got.as_str())
}

#[test]
fn sorted_pairs_in_each_semiring(rt: HostRuntime) -> Result<(), Fail> {
    let alloc = rt.alloc();
    pushes::<MaxInt>(alloc)?;
    pushes::<MinInt>(alloc)?;
    pushes::<Flag>(alloc)?;
    converts::<MaxInt>(alloc)?;
    converts::<MinInt>(alloc)?;
    converts::<Flag>(alloc)?;
    Ok(())
}

#[test]
fn laws_at_a_semiring(_rt: HostRuntime) -> Result<(), Fail> {
    equal_rows_are_equal_solutions::<MaxInt>();
    equal_rows_are_equal_solutions::<MinInt>();
    equal_rows_are_equal_solutions::<Flag>();
    Ok(())
}

// In 32 coordinates: the greatest from `low` to before `middle` is at most the greatest from there to before `high`.
fn group_below(alloc: Global, low: u32, middle: u32, high: u32) -> Result<Ineq<MaxInt>, Fail>
    ensures sides { IfOk result (IsIn 32) }
    ensures size { IfOk result (λ p. inequality_size max_ring p ≤ 65535) }
{
    let left = span_text(alloc, 32, low, middle)?;
    let right = span_text(alloc, 32, middle, high)?;
    let text = format!(in alloc; "{left} < {right}")?;
    inequality_of(alloc, 32, text.as_str())
}

// Groups of 6, 6, 6, 6 and 7 coordinates: the fourth inequality is refused, and the three before it stay with their
// rows.
#[test]
fn refused_push_leaves_all(rt: HostRuntime) -> Result<(), Fail> {
    let alloc = rt.alloc();
    let mut looks = Looks::new();
    let mut dd = Dd::<MaxInt>::new(alloc, 32)?;
    dd.push(alloc, group_below(alloc, 1, 7, 13)?, &mut looks)?;
    dd.push(alloc, group_below(alloc, 7, 13, 19)?, &mut looks)?;
    dd.push(alloc, group_below(alloc, 13, 19, 25)?, &mut looks)?;
    assert_eq!(rt; dd.rows().len(), 1562);
    let refused = dd.push(alloc, group_below(alloc, 19, 25, 32)?, &mut looks);
    assert_eq!(rt; refused, Err(DdErr::Limit(4)));
    assert_eq!(rt; (dd.rows().len(), dd.system().len()), (1562, 3));
    Ok(())
}
