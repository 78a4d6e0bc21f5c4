//! The file of a cone.
ghost use Rattle.std.specs.Prelude.{◌≡◌, ◌+◌, length, IfOk};
ghost use Rattle.trop_poly.specs.Cones.{InCone};
ghost use Rattle.tplib_cones.specs.ConeFiles.{IsConeFile};

use std::alloc::{AllocError, Global};
use trop_files::{Spelling, print_gens};
use trop_poly::Poly;
use trop_text::Names;

pub fn cone_text<S: Spelling>(
    alloc: Global,
    names: &Names,
    cone: &Poly<S>,
) -> Result<Vec<u8>, AllocError>
    requires names { cone.now.n ≡ length names.now + 1 }
    ensures { IfOk result (λ text. IsConeFile S.KIND S.ring S.numbering names.now (InCone S.ring cone.now) text.items) }
{
    let text = print_gens(alloc, names, cone.rows())?;
    Ok(text)
}
