// Guards as inequalities.
ghost use Rattle.std.specs.Prelude.{◌≡◌, ◌+◌, ◌^◌, ◌≤◌, ◌<◌, IfOk};
ghost use Rattle.trop_theory.specs.Inequalities.{IsIn};
ghost use Rattle.prog_theory.specs.Within.{IsNumberWithin};
ghost use Rattle.prog_tree.specs.Terms.{term_of};
ghost use Rattle.cone_reports.specs.Sides as sides;

use prog_tree::Term;
use std::alloc::{AllocError, Global};
use trop_row::{Ineq, Row};
use trop_scalar::Numeric;

type NoMemory = AllocError;

// The number of the term at its coordinate, the zero elsewhere.
fn term_row<S: Numeric>(alloc: Global, n: u32, term: &Term) -> Result<Row<S>, NoMemory>
    requires at_most { n ≤ 64 }
    requires fits { term.now.coord < n }
    requires number { IsNumberWithin (2 ^ 31 + 1) (term_of term.now) }
    ensures row { IfOk result (λ row. row ≡ sides.term_side S.ring S.numbering n (term_of term.now)) }
{
    let mut row = Row::bottom(alloc, n)?;
    row.set(term.coord, S::of_number(term.add));
    Ok(row)
}

/// The inequality in `n` coordinates that is true at the vector of a state where the left term is at most the right
/// one.
pub fn guard_inequality<S: Numeric>(
    alloc: Global,
    n: u32,
    left: &Term,
    right: &Term,
) -> Result<Ineq<S>, NoMemory>
    requires at_most { n ≤ 64 }
    requires left_fits { left.now.coord < n }
    requires right_fits { right.now.coord < n }
    requires left_number { IsNumberWithin (2 ^ 31 + 1) (term_of left.now) }
    requires right_number { IsNumberWithin (2 ^ 31 + 1) (term_of right.now) }
    ensures guard { IfOk result (λ ineq. ineq ≡ sides.guard_inequality S.ring S.numbering S.REVERSED n
        (term_of left.now) (term_of right.now)) }
    ensures inside { IfOk result (λ ineq. IsIn n ineq) }
{
    let first = term_row(alloc, n, left)?;
    let second = term_row(alloc, n, right)?;
    if S::REVERSED {
        Ok(Ineq::new(second, first))
    } else {
        Ok(Ineq::new(first, second))
    }
}
