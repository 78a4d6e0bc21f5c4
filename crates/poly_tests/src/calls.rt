//! The first cones, comparisons, and the way to inequalities and back, in each semiring alike.
use crate::cones::{cone, has_rows};
use row_examples::same_text;
use std::alloc::Global;
use std::test::Fail;
use trop_poly::Poly;
use trop_row::system_size;
use trop_scalar::{Flag, MaxInt, MinInt, Scalar};

// The points that the cones below are compared with.
const POINTS: &str = "0 . 0 ., 0 0 . .";

// That the solutions of the external list of the cone are its rows.
fn converts_back<S: Scalar>(alloc: Global) -> Result<(), Fail> {
    let points = cone::<S>(alloc, POINTS)?;
    let system = points.external(alloc)?;
    if system_size(system.as_slice()) > 1_000_000 {
        return Err("large coefficients")?;
    }
    let back = Poly::from_system(alloc, &system)?;
    has_rows(alloc, "there and back", POINTS, &back)
}

// What is told of two cones: whether each lies in the other, whether they are equal, and which rows are outside first.
fn compared<S: Scalar>(alloc: Global, lower: &Poly<S>, upper: &Poly<S>) -> Result<String, Fail> {
    if lower.rows().n() != upper.rows().n() || lower.size() != 0 || upper.size() != 0 {
        return Err("cones of other forms")?;
    }
    let (below, above) = (lower.included(upper), upper.included(lower));
    let (equal, itself) = (lower.equal(upper), lower.equal(lower));
    let text = format!(in alloc; "below {below}, above {above}, equal {equal}, itself {itself}")?;
    Ok(match upper.first_outside(lower) {
        Some(place) => format!(in alloc; "{text}, outside {place}")?,
        None => format!(in alloc; "{text}, outside none")?,
    })
}

// What is told of a cone and one that it lies in, whose first row is outside it.
const BELOW: &str = "below true, above false, equal false, itself true, outside 0";

fn compares<S: Scalar>(alloc: Global) -> Result<(), Fail> {
    let whole = Poly::<S>::whole(alloc, 4)?;
    let points = cone::<S>(alloc, POINTS)?;
    let empty = Poly::<S>::empty(alloc, 4);
    let got = compared(alloc, &points, &whole)?;
    same_text(alloc, "two points and everything", BELOW, got.as_str())?;
    let got = compared(alloc, &empty, &points)?;
    same_text(alloc, "nothing and two points", BELOW, got.as_str())
}

fn is_everything<S: Scalar>(alloc: Global) -> Result<(), Fail> {
    let whole = Poly::<S>::whole(alloc, 4)?;
    let units = ". . . 0, . . 0 ., . 0 . ., 0 . . .";
    has_rows(alloc, "everything", units, &whole)
}

fn calls<S: Scalar>(alloc: Global) -> Result<(), Fail> {
    is_everything::<S>(alloc)?;
    converts_back::<S>(alloc)?;
    compares::<S>(alloc)
}

#[test]
fn calls_in_each_semiring(rt: HostRuntime) -> Result<(), Fail> {
    calls::<MaxInt>(rt.alloc())?;
    calls::<MinInt>(rt.alloc())?;
    calls::<Flag>(rt.alloc())
}

// The greatest number of an entry, signs aside.
#[test]
fn sizes_of_cones(rt: HostRuntime) -> Result<(), Fail> {
    let rows = "0 3 -50 ., 0 7 2 .";
    assert_eq!(rt; cone::<MaxInt>(rt.alloc(), rows)?.size(), 50);
    assert_eq!(rt; cone::<MinInt>(rt.alloc(), rows)?.size(), 50);
    assert_eq!(rt; cone::<Flag>(rt.alloc(), rows)?.size(), 0);
    Ok(())
}
