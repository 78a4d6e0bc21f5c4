//! What a call answers where it has a cone or a refusal.
ghost use Rattle.std.specs.Prelude.{◌≡◌, ◌≤◌, length};
ghost use Rattle.trop_theory.specs.Inequalities.{Solves, system_size};
ghost use Rattle.trop_theory.specs.Canonical.{row_limit};
ghost use Rattle.trop_cones.specs.Represents.{Represents};
ghost use Rattle.dom_poly.specs.Kept.{most_kept};
ghost use Rattle.dom_poly.specs.Answers.{at_whole, at_part, IsFitted, IsFittedFrom};
ghost use Rattle.dom_poly.specs.Lists.{IsListed};

use crate::value::PolyDomain;
use dom_core::{At, DomErr};
use trop_poly::{Poly, PolyErr};
use trop_row::System;
use trop_scalar::Numeric;

// The greatest size of a number in the rows of a value.
const MOST_VALUE: u64 = 1 << 40;

// The refusal, as one of the whole.
fn refused_whole(err: PolyErr) -> DomErr
    ensures { result ≡ at_whole err }
{
    match err {
        PolyErr::Rows(_) => DomErr::Limit(At::Whole),
        PolyErr::Polar(i, k) => DomErr::Limit(At::Polar(i, k)),
        PolyErr::NoMemory => DomErr::NoMemory,
    }
}

// The refusal, as one in a part of a widening.
pub(crate) fn refused_part(err: PolyErr) -> DomErr
    ensures { result ≡ at_part err }
{
    match err {
        PolyErr::Rows(k) => DomErr::Limit(At::Kept(k)),
        PolyErr::Polar(i, k) => DomErr::Limit(At::Polar(i, k)),
        PolyErr::NoMemory => DomErr::NoMemory,
    }
}

// The cone as a value without a kept list, where its numbers are small.
fn fitted<S: Numeric>(cone: Poly<S>) -> Result<PolyDomain<S>, DomErr>
    ensures { IsFitted S.ring cone result }
{
    if cone.size() > MOST_VALUE {
        return Err(DomErr::Range(At::Whole));
    }
    Ok(PolyDomain::fresh(cone))
}

// The same of a cone that may be refused.
pub(crate) fn fitted_from<S: Numeric>(
    made: Result<Poly<S>, PolyErr>,
) -> Result<PolyDomain<S>, DomErr>
    ensures { IsFittedFrom S.ring made result }
{
    match made {
        Ok(cone) => fitted(cone),
        Err(err) => Err(refused_whole(err)),
    }
}

// The cone of the solutions of a list as a value that keeps the list, where its numbers are small.
pub(crate) fn fitted_with<S: Numeric>(
    cone: Poly<S>,
    list: System<S>,
) -> Result<PolyDomain<S>, DomErr>
    requires width { list.n ≡ cone.n }
    requires few { length list.inequalities ≤ row_limit }
    requires numbers { system_size S.ring list.inequalities ≤ most_kept }
    requires solutions { Represents S.ring cone.n (Solves S.ring cone.n list.inequalities) cone.rows }
    ensures { IsListed S.ring cone list result }
{
    if cone.size() > MOST_VALUE {
        return Err(DomErr::Range(At::Kept(list.len())));
    }
    Ok(PolyDomain::listed(cone, list))
}
