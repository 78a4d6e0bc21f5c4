//! What holds of the images by operations.
ghost use Rattle.std.specs.Prelude.{◌≡◌};
ghost use Rattle.prog_theory.specs.Edges as edges;
ghost use Rattle.cone_domain.specs.Values as values;
ghost use Rattle.cone_domain.specs.Operations.{IsImage, IsIncluded};

use trop_scalar::Numeric;

/// Images grow with the values: where one value lies in another on as many variables, its image by an operation lies in
/// the image of the other. This is a law, and nothing is done.
pub fn images_grow<S: Numeric>()
    ensures { (op : edges.Op) (v w a b : values.Value S) → v.vars ≡ w.vars → IsIncluded S.ring v w →
        IsImage S.ring S.numbering S.REVERSED op v a → IsImage S.ring S.numbering S.REVERSED op w b →
        IsIncluded S.ring a b }
{}
