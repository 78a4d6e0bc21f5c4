// The rows of a cone after one more inequality.
ghost use Rattle.std.specs.Prelude.{◌≡◌, ◌≤◌, ◌++◌, [], ◌∷◌, true, All, AllPairs, IfOk, IfErr, OnOk, OnErr, MatchOption, length};
ghost use Rattle.trop_theory.specs.Canonical.{RowBelow};
ghost use Rattle.trop_pruning.specs.Judged.{IsSide};
ghost use Rattle.trop_dd.specs.Description.{CountsNew, Describes, IsRefusedBy};
ghost use Rattle.trop_dd.specs.Numbers.{AreNumbers};
ghost use Rattle.trop_dd.specs.Carried.{IsNext, IsNextBy, rows_of, found_rows};
ghost use Rattle.trop_dd.specs.Parts.{IsSplit};
ghost use Rattle.trop_dd.specs.Steps.{AreFound};

use crate::error::DdErr;
use crate::found::Found;
use crate::mixing::try_all;
use crate::settling::{copied_where, rearrange, settle};
use crate::splitting::{Dropped, Kept, Split, split_sides};
use crate::starting::staying;
use std::alloc::Global;
use trop_hyper::{Hyper, Looks, Mask};
use trop_pairs::Carried;
use trop_row::{Ineq, Row, System};
use trop_scalar::Scalar;

// The rows of the smaller cone by their numbers, where those at the places `stay` stay.
fn narrowed<S: Scalar>(
    alloc: Global,
    room: Hyper,
    system: &System<S>,
    ineq: &Ineq<S>,
    sides: &[Carried<S>],
    order: &[usize],
    stay: &[usize],
    kept: &[Kept<S>],
    dropped: &[Dropped<S>],
    looks: &mut Looks,
) -> Result<Found<S>, DdErr>
    requires next { IsNext S.ring system.now.n system.now.inequalities ineq.now sides.now }
    requires numbers { AreNumbers (length sides.now) order.now }
    requires ascending { AllPairs (RowBelow S.ring) (found_rows sides.now [] order.now) }
    requires split { IsSplit S.ring ineq.now sides.now (length sides.now) stay.now kept.now dropped.now }
    ensures found { IfOk result (λ found. AreFound S.ring system.now.n system.now.inequalities ineq.now sides.now
        found.fresh.items found.order.items) }
    ensures described { IfOk result (λ found. Describes S.ring system.now.n (system.now.inequalities ++ ineq.now ∷ [])
        (found_rows sides.now found.fresh.items found.order.items)) }
    ensures counts { IfOk result (λ found. CountsNew S.ring (rows_of sides.now)
        (found_rows sides.now found.fresh.items found.order.items) looks.old looks.new) }
    ensures refused { IfErr result (IsRefusedBy S.ring system.now.n (system.now.inequalities ++ ineq.now ∷ [])) }
    ensures looks { looks.old ≤ looks.new }
{
    let start = staying(alloc, sides.len(), order, stay)?;
    let mut found = Found {
        order: start,
        fresh: Vec::new(alloc),
        room,
    };
    try_all(alloc, system, ineq, sides, kept, dropped, &mut found, looks)?;
    Ok(found)
}

// Brings what is carried beside the rows from a system to the one with one more inequality. It answers copies of the
// rows where they are asked for, and none where the rows are as they were. After a refusal nothing has changed but the
// count of looks.
pub fn narrow<S: Scalar>(
    alloc: Global,
    system: &System<S>,
    ineq: &Ineq<S>,
    sides: &mut Vec<Carried<S>>,
    order: &mut Vec<usize>,
    copies: bool,
    looks: &mut Looks,
) -> Result<Option<Vec<Row<S>>>, DdErr>
    requires next { IsNextBy S.ring system.now.n system.now.inequalities ineq.now sides.old.items order.old.items }
    ensures each { OnOk result (All (IsSide S.ring system.now.n (system.now.inequalities ++ ineq.now ∷ []))
        sides.new.items) }
    ensures numbers { OnOk result (AreNumbers (length sides.new.items) order.new.items) }
    ensures described { OnOk result (Describes S.ring system.now.n (system.now.inequalities ++ ineq.now ∷ [])
        (found_rows sides.new.items [] order.new.items)) }
    ensures rows { IfOk result (λ found. MatchOption found (copies ≡ true →
        found_rows sides.new.items [] order.new.items ≡ found_rows sides.old.items [] order.old.items)
        (λ rows. rows.items ≡ found_rows sides.new.items [] order.new.items)) }
    ensures counts { OnOk result (CountsNew S.ring (found_rows sides.old.items [] order.old.items)
        (found_rows sides.new.items [] order.new.items) looks.old looks.new) }
    ensures refused { IfErr result (IsRefusedBy S.ring system.now.n (system.now.inequalities ++ ineq.now ∷ [])) }
    ensures stays { OnErr result (sides.new.items ≡ sides.old.items) }
    ensures order_stays { OnErr result (order.new.items ≡ order.old.items) }
    ensures looks { looks.old ≤ looks.new }
{
    let mut room = Hyper::new(alloc, Mask::empty());
    let split = split_sides(alloc, &mut room, system, ineq, sides.as_slice(), looks)?;
    let Split {
        additions,
        stay,
        kept,
        dropped,
    } = split;
    if dropped.is_empty() {
        settle(sides, additions.as_slice())?;
        return Ok(None);
    }
    let found = narrowed(
        alloc,
        room,
        system,
        ineq,
        sides.as_slice(),
        order.as_slice(),
        stay.as_slice(),
        kept.as_slice(),
        dropped.as_slice(),
        looks,
    )?;
    let rows = copied_where(
        alloc,
        copies,
        sides.as_slice(),
        found.fresh.as_slice(),
        found.order.as_slice(),
    )?;
    rearrange(alloc, sides, order, additions.as_slice(), found)?;
    Ok(rows)
}
