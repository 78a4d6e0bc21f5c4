//! The words of the semirings, and elements, rows and inequalities as they are printed.
ghost use Rattle.std.specs.Prelude.{◌≡◌, ◌∷◌, [], codes, IfOk};

use row_examples::{inequality_of, row_of, same_text};
use std::alloc::Global;
use std::str::from_utf8;
use std::test::Fail;
use trop_scalar::{Flag, MaxInt, MinInt};
use trop_spelling::{RingKind, Spelling, ineq_text, row_text};
use trop_text::Names;

fn is_text(alloc: Global, what: &str, wanted: &str, got: &[u8]) -> Result<(), Fail> {
    same_text(alloc, what, wanted, from_utf8(got).unwrap_or("no text"))
}

// That the elements of so many numbers are printed so, with a blank behind each.
fn prints<S: Spelling>(alloc: Global, len: u32, numbers: &str, wanted: &str) -> Result<(), Fail> {
    let row = row_of::<S>(alloc, len, numbers)?;
    let mut text = Vec::new(alloc);
    for x in row.as_slice() {
        text.extend_from_slice(x.element_text(alloc)?.as_slice())?;
        text.push(b' ')?;
    }
    is_text(alloc, numbers, wanted, text.as_slice())
}

#[test]
fn elements_as_they_are_printed(rt: HostRuntime) -> Result<(), Fail> {
    prints::<MaxInt>(rt.alloc(), 4, "7 0 -10 .", "7 0 -10 -oo ")?;
    prints::<MinInt>(rt.alloc(), 2, "-3 .", "-3 oo ")?;
    prints::<Flag>(rt.alloc(), 2, "0 .", "true false ")
}

// That the words of the semiring, of its sum and of its order are these.
fn has_words<S: Spelling>(alloc: Global, ring: &str, sum: &str, order: &str) -> Result<(), Fail> {
    is_text(alloc, "the semiring", ring, S::ring_word())?;
    is_text(alloc, "the sum", sum, S::sum_word())?;
    is_text(alloc, "the order", order, S::order_word())
}

#[test]
fn semirings_have_their_words(rt: HostRuntime) -> Result<(), Fail> {
    has_words::<MaxInt>(rt.alloc(), "max", "max", "<=")?;
    has_words::<MinInt>(rt.alloc(), "min", "min", ">=")?;
    has_words::<Flag>(rt.alloc(), "bool", "or", "=>")?;
    assert_eq!(rt;
        (MaxInt::KIND, MinInt::KIND, Flag::KIND),
        (RingKind::Max, RingKind::Min, RingKind::Bool)
    );
    Ok(())
}

fn two_names(alloc: Global) -> Result<Names, Fail>
    ensures { IfOk result (λ names. names ≡ codes "x" ∷ codes "y" ∷ []) }
{
    let mut names = Names::new(alloc);
    names.push(alloc, "x")?;
    names.push(alloc, "y")?;
    Ok(names)
}

// That the inequality in x and y is printed so.
fn prints_inequality<S: Spelling>(alloc: Global, text: &str, wanted: &str) -> Result<(), Fail> {
    let names = two_names(alloc)?;
    let ineq = inequality_of::<S>(alloc, 3, text)?;
    is_text(
        alloc,
        text,
        wanted,
        ineq_text(alloc, &names, &ineq)?.as_slice(),
    )
}

#[test]
fn rows_and_inequalities_as_they_are_printed(rt: HostRuntime) -> Result<(), Fail> {
    let alloc = rt.alloc();
    prints_inequality::<MaxInt>(alloc, "-10 6 . < . . -1", "max(-10, x + 6) <= y - 1")?;
    prints_inequality::<MinInt>(alloc, ". . . < 0 0 .", "oo >= min(0, x)")?;
    let row = row_of::<Flag>(alloc, 2, "0 .")?;
    is_text(
        alloc,
        "a row",
        "[true, false]",
        row_text(alloc, &row)?.as_slice(),
    )
}
