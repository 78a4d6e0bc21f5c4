//! Rows of numbers as text.
ghost use Rattle.std.specs.Prelude.{◌≡◌, ◌++◌, map, OnOk};
ghost use Rattle.std.specs.Fmt.{signed_decimal};
ghost use Rattle.trop_spelling.specs.Printed.{after_commas};
ghost use Rattle.tplib_progs.specs.Lines.{numbers_text};

use itoa::Buffer;
use std::alloc::AllocError;

/// Appends the numbers as a row, `[1, -2]`.
pub(crate) fn push_numbers(text: &mut Vec<u8>, numbers: &[i64]) -> Result<(), AllocError>
    ensures { OnOk result (text.new.items ≡ text.old.items ++ numbers_text numbers.now) }
{
    text.push(b'[')?;
    if let [first, rest @ ..] = numbers {
        push_number(text, *first)?;
        push_rest(text, rest)?;
    }
    text.push(b']')?;
    Ok(())
}

// Each number behind a comma and a space.
fn push_rest(text: &mut Vec<u8>, numbers: &[i64]) -> Result<(), AllocError>
    ensures { OnOk result (text.new.items ≡ text.old.items ++ after_commas (map signed_decimal numbers.now)) }
{
    for n in numbers {
        text.extend_from_slice(b", ")?;
        push_number(text, *n)?;
    }
    Ok(())
}

// The number in decimal.
fn push_number(text: &mut Vec<u8>, n: i64) -> Result<(), AllocError>
    ensures { OnOk result (text.new.items ≡ text.old.items ++ signed_decimal n) }
{
    let mut buffer = Buffer::new();
    text.extend_from_slice(buffer.format(n).as_bytes())
}
