//! Texts with numbers, written without memory.
ghost use Rattle.std.specs.Prelude.{◌≡◌, ◌++◌, ◌≤◌, decimal};
ghost use Rattle.trop_io.specs.Faults.{HasCause};
ghost use Rattle.trop_io.specs.Whole.{WritesAll};

use itoa::Buffer;
use trop_io::{Sink, WriteFault, write_all};

// The words and the number behind them.
pub(crate) fn write_number<E: Sink>(words: &[u8], n: u64, err: &mut E) -> Result<(), WriteFault>
    ensures bytes { WritesAll (E.bytes err.old) (E.bytes err.new) (words.now ++ decimal n) result }
    ensures cause { HasCause (E.faults err.old) (E.faults err.new) result }
{
    write_all(err, words)?;
    let mut buffer = Buffer::new();
    write_all(err, buffer.format(n).as_bytes())
}
