//! Texts beside the wanted ones.
ghost use Rattle.std.specs.Prelude.{◌≡◌, OnOk, IsOk};

use std::alloc::Global;
use std::test::Fail;

/// A failure with both texts, and with what they are of, where the text is not the wanted one.
pub fn same_text(alloc: Global, what: &str, wanted: &str, got: &str) -> Result<(), Fail>
    ensures only { OnOk result (wanted.now ≡ got.now) }
    ensures passes { wanted.now ≡ got.now → IsOk result }
{
    if wanted == got {
        return Ok(());
    }
    Err(Fail::new(format!(in alloc; "{what}: wanted {wanted}, got {got}")?))
}
