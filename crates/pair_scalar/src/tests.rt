//! Pairs through generic calls, with answers that were worked out by hand.
ghost use Rattle.std.specs.Prelude.{◌≡◌, [], ◌∷◌, IfOk};
ghost use Rattle.pair_theory.specs.Pairs.{pair_ring};

use crate::Pair;
use std::alloc::{AllocError, Global};
use std::test::Fail;
use trop_row::{Gens, Row, member, reduce};
use trop_scalar::Scalar;

type NoMemory = AllocError;

// A point with one coordinate.
fn point(alloc: Global, x: Pair) -> Result<Row<Pair>, NoMemory>
    ensures { IfOk result (λ row. row ≡ pair_ring.one ∷ x ∷ []) }
{
    Row::from_entries(alloc, &[Pair::one(), x])
}

// The point (0, 5) is the sum of (0, 0) and of (1, 0) times (-1, 5).
#[test]
fn a_pair_in_between_goes(rt: HostRuntime) -> Result<(), Fail> {
    let alloc = rt.alloc();
    let mut gens = Gens::new(alloc, 2);
    gens.push(point(alloc, Pair::of(0, 0))?)?;
    gens.push(point(alloc, Pair::of(0, 5))?)?;
    gens.push(point(alloc, Pair::of(1, 0))?)?;
    let out = reduce(alloc, &gens)?;
    assert_eq!(rt; out.len(), 2);
    assert!(rt; *out.get(0) == point(alloc, Pair::of(0, 0))?);
    assert!(rt; *out.get(1) == point(alloc, Pair::of(1, 0))?);
    assert!(rt; member(&out, &point(alloc, Pair::of(0, 7))?));
    assert!(rt; !member(&out, &point(alloc, Pair::of(1, 1))?));
    Ok(())
}
