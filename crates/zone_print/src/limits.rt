//! The line of a bound.
ghost use Rattle.std.specs.Prelude.{◌≡◌, ◌≢◌, ◌≤◌, ◌++◌, codes, length, OnOk};
ghost use Rattle.zone_print.specs.Blocks.{difference_text, limit_text};

use crate::NoMemory;
use itoa::Buffer;
use trop_text::Names;

// The name of a coordinate from 1 on.
fn push_name(text: &mut Vec<u8>, names: &Names, i: u32) -> Result<(), NoMemory>
    requires named { 1 ≤ i }
    requires inside { i ≤ length names.now }
    ensures { OnOk result (text.new.items ≡ text.old.items ++ difference_text names.now i 0) }
{
    text.extend_from_slice(names.name(i - 1).as_bytes())
}

// The first coordinate less the second, one of which is a variable.
fn push_difference(text: &mut Vec<u8>, names: &Names, i: u32, j: u32) -> Result<(), NoMemory>
    requires row { i ≤ length names.now }
    requires column { j ≤ length names.now }
    requires apart { i ≢ j }
    ensures { OnOk result (text.new.items ≡ text.old.items ++ difference_text names.now i j) }
{
    if j == 0 {
        return push_name(text, names, i);
    }
    if i == 0 {
        text.push(b'-')?;
        return push_name(text, names, j);
    }
    push_name(text, names, i)?;
    text.extend_from_slice(b" - ")?;
    push_name(text, names, j)
}

/// Appends the line of the bound that the first coordinate exceeds the second by at most the number.
pub(crate) fn push_limit(
    text: &mut Vec<u8>,
    names: &Names,
    i: u32,
    j: u32,
    most: i64,
) -> Result<(), NoMemory>
    requires row { i ≤ length names.now }
    requires column { j ≤ length names.now }
    requires apart { i ≢ j }
    ensures { OnOk result (text.new.items ≡ text.old.items
        ++ (limit_text names.now (record { high = i; low = j; most = most }) ++ codes "\n")) }
{
    text.extend_from_slice(b"inv ")?;
    push_difference(text, names, i, j)?;
    text.extend_from_slice(b" <= ")?;
    let mut buffer = Buffer::new();
    text.extend_from_slice(buffer.format(most).as_bytes())?;
    text.push(b'\n')?;
    Ok(())
}
