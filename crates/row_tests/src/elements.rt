//! What each instance answers on a few elements, and sums of products.
use row_examples::{element_text, gap_text, row_of, same_text, span_text};
use std::alloc::Global;
use std::test::Fail;
use trop_scalar::{Flag, MaxInt, MinInt, Scalar};

#[test]
fn elements_in_max(rt: HostRuntime) {
    let (two, five) = (MaxInt::of(2), MaxInt::of(5));
    assert_eq!(rt; two.plus(five).number(), Some(5));
    assert_eq!(rt; two.times(five).number(), Some(7));
    assert_eq!(rt; two.inverse().number(), Some(-2));
    assert_eq!(rt; two.plus(MaxInt::zero()).number(), Some(2));
    assert_eq!(rt; two.times(MaxInt::zero()).number(), None);
    assert_eq!(rt; (two.le(five), five.le(two)), (true, false));
    assert_eq!(rt; MaxInt::default().number(), None);
}

#[test]
fn elements_in_min(rt: HostRuntime) {
    let (two, five) = (MinInt::of(2), MinInt::of(5));
    assert_eq!(rt; two.plus(five).number(), Some(2));
    assert_eq!(rt; two.times(five).number(), Some(7));
    assert_eq!(rt; five.inverse().number(), Some(-5));
    assert_eq!(rt; five.plus(MinInt::zero()).number(), Some(5));
    assert_eq!(rt; MinInt::delta().number(), Some(1));
    assert_eq!(rt; MinInt::of_number(-3).size(), 3);
    assert_eq!(rt; (five.le(two), two.le(five)), (true, false));
    assert_eq!(rt; MinInt::default().number(), None);
}

#[test]
fn elements_in_truth_values(rt: HostRuntime) {
    let (yes, no) = (Flag::one(), Flag::zero());
    assert_eq!(rt;
        (yes.plus(no).is_set(), yes.times(no).is_set()),
        (true, false)
    );
    assert_eq!(rt; (no.le(yes), Flag::default().is_set()), (true, false));
    assert_eq!(rt; yes.number(), Some(0));
}

#[test]
fn sums_of_products(rt: HostRuntime) {
    let coeffs = [MaxInt::of(2), MaxInt::zero(), MaxInt::of(-1)];
    let entries = [MaxInt::of(3), MaxInt::of(9), MaxInt::of(7)];
    assert_eq!(rt;
        MaxInt::sum_of_products(&coeffs, &entries).number(),
        Some(6)
    );
    assert_eq!(rt; MinInt::sum_of_products(&[], &[]).number(), None);
}

// The sum of the products of the entries of two rows.
fn sum_text<S: Scalar>(
    alloc: Global,
    len: u32,
    coeffs: &str,
    entries: &str,
) -> Result<String, Fail> {
    let coeffs = row_of::<S>(alloc, len, coeffs)?;
    let entries = row_of::<S>(alloc, len, entries)?;
    Ok(element_text(alloc, entries.dot(&coeffs))?)
}

// That each of so many products counts: with one coefficient finite the sum is the one, with one the zero it is the one
// where there are others, and with coefficients and entries finite at different places it is the zero.
fn each_counts<S: Scalar>(alloc: Global, len: u32, place: u32) -> Result<(), Fail> {
    let ones = span_text(alloc, len, 0, len)?;
    let only = span_text(alloc, len, place, place.wrapping_add(1))?;
    let others = gap_text(alloc, len, place, place.wrapping_add(1))?;
    let got = format!(in alloc;
        "{} {} {}",
        sum_text::<S>(alloc, len, only.as_str(), ones.as_str())?,
        sum_text::<S>(alloc, len, others.as_str(), ones.as_str())?,
        sum_text::<S>(alloc, len, only.as_str(), others.as_str())?
    )?;
    let what = format!(in alloc; "length {len}, place {place}")?;
    let wanted = if len > 1 { "0 0 ." } else { "0 . ." };
    same_text(alloc, what.as_str(), wanted, got.as_str())
}

// Lengths up to 32.
fn each_length_counts<S: Scalar>(alloc: Global) -> Result<(), Fail> {
    for len in 1..33 {
        for place in 0..len {
            each_counts::<S>(alloc, len, place)?;
        }
    }
    Ok(())
}

#[test]
fn sums_at_each_length(rt: HostRuntime) -> Result<(), Fail> {
    each_length_counts::<MaxInt>(rt.alloc())?;
    each_length_counts::<MinInt>(rt.alloc())?;
    each_length_counts::<Flag>(rt.alloc())?;
    Ok(())
}
