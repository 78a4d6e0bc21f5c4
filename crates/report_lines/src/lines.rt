//! Lines of a word and what it names, and the first line of a point's block.
ghost use Rattle.std.specs.Prelude.{◌≡◌, ◌++◌, decimal, OnOk};
ghost use Rattle.prog_graph.specs.Views.{point_of};
ghost use Rattle.report_texts.specs.Printed.{label_text, word_line};
ghost use Rattle.report_lines.specs.Texts.{point_line};

use crate::NoMemory;
use itoa::Buffer;
use prog_graph::Point;

/// Appends a line of a word and what it names.
pub fn push_word_line(text: &mut Vec<u8>, word: &[u8], value: &[u8]) -> Result<(), NoMemory>
    ensures { OnOk result (text.new.items ≡ text.old.items ++ word_line word.now value.now) }
{
    text.extend_from_slice(word)?;
    text.push(b' ')?;
    text.extend_from_slice(value)?;
    text.push(b'\n')?;
    Ok(())
}

/// Appends a line of a word and a number.
pub fn push_number_line(text: &mut Vec<u8>, word: &[u8], number: u64) -> Result<(), NoMemory>
    ensures { OnOk result (text.new.items ≡ text.old.items ++ word_line word.now (decimal number)) }
{
    let mut buffer = Buffer::new();
    push_word_line(text, word, buffer.format(number).as_bytes())
}

fn push_number(text: &mut Vec<u8>, number: u32) -> Result<(), NoMemory>
    ensures { OnOk result (text.new.items ≡ text.old.items ++ decimal number) }
{
    let mut buffer = Buffer::new();
    text.extend_from_slice(buffer.format(number).as_bytes())
}

// What point it is.
fn push_label(text: &mut Vec<u8>, point: Point) -> Result<(), NoMemory>
    ensures { OnOk result (text.new.items ≡ text.old.items ++ label_text (point_of point)) }
{
    match point {
        Point::Statement(number) => {
            text.extend_from_slice(b"statement ")?;
            push_number(text, number)
        }
        Point::Inner => text.extend_from_slice(b"inner"),
        Point::Exit => text.extend_from_slice(b"exit"),
    }
}

/// Appends the first line of the block of the point that has this number.
pub fn push_point(text: &mut Vec<u8>, number: u32, point: Point) -> Result<(), NoMemory>
    ensures { OnOk result (text.new.items ≡ text.old.items ++ point_line number (point_of point)) }
{
    text.extend_from_slice(b"at ")?;
    push_number(text, number)?;
    text.push(b' ')?;
    push_label(text, point)?;
    text.push(b'\n')?;
    Ok(())
}
