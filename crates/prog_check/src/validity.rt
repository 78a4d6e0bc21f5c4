//! Whether the printed inequalities of a point are valid on its cone.
ghost use Rattle.std.specs.Prelude.{◌≡◌, ◌≤◌, ◌<◌, ◌^◌, ℕ, All, IfSome, MatchOption};
ghost use Rattle.trop_theory.specs.Vectors.{rows_size};
ghost use Rattle.trop_theory.specs.Inequalities.{IsValidOn, system_size};
ghost use Rattle.trop_theory.specs.Combinations.{IsCombination};
ghost use Rattle.prog_check.specs.Limits.{most_row, most_coefficient};
ghost use Rattle.prog_check.specs.Firsts.{IsFirstAt};

use cone_claims::is_valid;
use trop_row::{Gens, System};
use trop_scalar::Scalar;

/// The place, from 0, of the first inequality that isn't valid on the cone of the rows.
pub(crate) fn first_invalid<S: Scalar>(list: &System<S>, rows: &Gens<S>) -> Option<u32>
    requires width { list.now.n ≡ rows.now.n }
    requires size { rows_size S.ring rows.now.rows ≤ most_row }
    requires numbers { system_size S.ring list.now.inequalities ≤ most_coefficient }
    ensures first { MatchOption result
        (All (IsValidOn S.ring (IsCombination S.ring rows.now.n rows.now.rows)) list.now.inequalities)
        (IsFirstAt (IsValidOn S.ring (IsCombination S.ring rows.now.n rows.now.rows)) list.now.inequalities) }
    ensures within { IfSome result (λ k. k < 2 ^ 31) }
{
    for k in 0..list.len() {
        if !is_valid(list.get(k), rows) {
            return Some(k);
        }
    }
    None
}
