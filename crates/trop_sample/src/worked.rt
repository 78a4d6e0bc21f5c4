//! The first numbers of the seed 0, worked out.
ghost use Rattle.std.specs.Prelude.{◌≡◌, [], ◌∷◌, Some, None, pos, negsuc};
ghost use Rattle.trop_sample.specs.Draws.{state_after, draw};
ghost use Rattle.trop_sample.specs.Samples.{sample_of};

/// The first numbers of the seed 0: its states, its draws, and the inequality in two variables that they give, the
/// greater of -10 and x + 6 at most y + 1.
pub fn first_numbers()
    ensures states { (state_after 0 1 ≡ 12345) × (state_after 0 2 ≡ 1406932606) × (state_after 0 3 ≡ 654583775) }
    ensures draws { (draw 0 0 ≡ 0) × (draw 0 1 ≡ 21468) × (draw 0 2 ≡ 9988) }
    ensures inequality { sample_of 0 2 1 ≡ (record
        { left = Some (negsuc 9) ∷ Some (pos 6) ∷ None ∷ []; right = None ∷ None ∷ Some (pos 1) ∷ [] }) ∷ [] }
{}
