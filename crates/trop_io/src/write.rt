//! Writing the whole of a text to a sink.
ghost use Rattle.std.specs.Prelude.{◌≡◌, ◌≤◌, OnErr};
ghost use Rattle.trop_io.specs.Faults.{HasCause};
ghost use Rattle.trop_io.specs.Whole.{WritesAll};

use crate::Sink;
use thiserror::Error;

/// A write failed before the whole was written: the sink's count of faults rose, and a proper front of the bytes was
/// appended.
#[derive(Clone, Copy, Debug, PartialEq, Eq, Error)]
#[error("write failed")]
pub struct WriteFault;

/// Writes all bytes. It takes no memory. No failed write is tried again: the sink's count of faults is as before, but
/// with the error.
///
/// Errors: [`WriteFault`] only where the sink's count of faults rose in this call.
pub fn write_all<O: Sink>(sink: &mut O, bytes: &[u8]) -> Result<(), WriteFault>
    ensures bytes { WritesAll (O.bytes sink.old) (O.bytes sink.new) bytes.now result }
    ensures cause { HasCause (O.faults sink.old) (O.faults sink.new) result }
{
    let mut done = 0;
    while done < bytes.len() {
        match sink.write(&bytes[done..]) {
            Ok(count) => done += count,
            Err(_) => return Err(WriteFault),
        }
    }
    Ok(())
}
