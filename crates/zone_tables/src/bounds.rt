//! Single bounds of a difference: a number, or none.
ghost use Rattle.std.specs.Prelude.{◌≡◌, ◌^◌, ◌<◌, ◌↔◌, IsTrue};
ghost use Rattle.zone_theory.specs.Bounds.{IsAtMost, least, most, plus};
ghost use Rattle.zone_tables.specs.Sizes.{IsWithin};
ghost use Rattle.zone_tables.specs.Kept.{IsBelow, remaining};

// The smaller of two bounds; none is greater than each number.
pub(crate) fn smaller(a: Option<i128>, b: Option<i128>) -> Option<i128>
    ensures { result ≡ least a b }
{
    match a {
        None => b,
        Some(x) => match b {
            None => Some(x),
            Some(y) => Some(x.min(y)),
        },
    }
}

// The greater of two bounds.
pub(crate) fn greater(a: Option<i128>, b: Option<i128>) -> Option<i128>
    ensures { result ≡ most a b }
{
    match a {
        None => None,
        Some(x) => match b {
            None => None,
            Some(y) => Some(x.max(y)),
        },
    }
}

// The sum of two bounds, none where one of them is none.
pub(crate) fn sum(a: Option<i128>, b: Option<i128>) -> Option<i128>
    requires left { IsWithin (2 ^ 120) a }
    requires right { IsWithin (2 ^ 120) b }
    ensures { result ≡ plus a b }
{
    match a {
        None => None,
        Some(x) => match b {
            None => None,
            Some(y) => Some(x + y),
        },
    }
}

/// Whether the bound is a number of at most c.
pub fn is_at_most(bound: Option<i128>, c: i128) -> bool
    ensures { IsTrue result ↔ IsAtMost bound c }
{
    match bound {
        None => false,
        Some(x) => x <= c,
    }
}

// Whether the first bound is as strong as the second.
pub(crate) fn is_below(a: Option<i128>, b: Option<i128>) -> bool
    ensures { IsTrue result ↔ IsBelow a b }
{
    match b {
        None => true,
        Some(c) => is_at_most(a, c),
    }
}

// What stays of a bound where the differences are at most the second.
pub(crate) fn stays(old: Option<i128>, reached: Option<i128>) -> Option<i128>
    ensures { result ≡ remaining old reached }
{
    match old {
        None => None,
        Some(c) => match reached {
            None => None,
            Some(a) => if a <= c { Some(c) } else { None },
        },
    }
}
