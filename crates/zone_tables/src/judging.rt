//! Which bounds are out of range.
ghost use Rattle.std.specs.Prelude.{◌↔◌, ◌^◌, IsTrue};
ghost use Rattle.std.specs.Bool.{OnTrue, OnFalse};
ghost use Rattle.zone_tables.specs.Sizes.{AreWithin};
ghost use Rattle.zone_tables.specs.Large.{IsLarge, HasLarge};

/// The greatest size of a bound of a value.
const MOST_BOUND: u128 = 1 << 40;

// Whether the bound is a number of too great a size.
fn is_large(bound: Option<i128>) -> bool
    ensures { IsTrue result ↔ IsLarge bound }
{
    match bound {
        None => false,
        Some(number) => number.unsigned_abs() > MOST_BOUND,
    }
}

/// Whether some number has size above 2^40.
pub fn has_large(bounds: &[Option<i128>]) -> bool
    ensures yes { OnTrue result (HasLarge bounds.now) }
    ensures no { OnFalse result (AreWithin (2 ^ 40) bounds.now) }
{
    for k in 0..bounds.len() {
        if is_large(bounds[k]) {
            return true;
        }
    }
    false
}
