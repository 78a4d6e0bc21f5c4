//! Names of coordinates in texts.
ghost use Rattle.std.specs.Prelude.{◌≡◌, ◌+◌, ◌<◌, ◌≤◌, ◌++◌, length, codes, OnOk, IsTrue};
ghost use Rattle.tplib_tangent.specs.Tangent.{coordinate_name, names_of};
ghost use Rattle.tplib_tangent.specs.Members.{has_bit};

use std::alloc::AllocError;
use trop_hyper::Mask;
use trop_text::Names;

// The names of the members of the set below `n`, in order, each behind a space.
#[tactic(auto, unfolding(crate::specs::Tangent::names_of))]
pub fn push_members(text: &mut Vec<u8>, names: &Names, set: Mask, n: u32) -> Result<(), AllocError>
    requires coordinates { n ≤ length names.now + 1 }
    requires at_most { n ≤ 64 }
    ensures { OnOk result (text.new.items ≡ text.old.items ++ names_of names.now (has_bit set) n) }
{
    for i in 0..n {
        if set.has(i) {
            text.push(b' ')?;
            push_coordinate(text, names, i)?;
        }
    }
    Ok(())
}

// The name of a coordinate.
fn push_coordinate(text: &mut Vec<u8>, names: &Names, i: u32) -> Result<(), AllocError>
    requires { i < length names.now + 1 }
    ensures { OnOk result (text.new.items ≡ text.old.items ++ coordinate_name names.now i) }
{
    if i == 0 {
        text.push(b'0')?;
        return Ok(());
    }
    text.extend_from_slice(names.name(i - 1).as_bytes())
}
