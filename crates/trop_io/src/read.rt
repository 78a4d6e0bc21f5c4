//! Reading a source to its end.
ghost use Rattle.std.specs.Prelude.{◌≡◌, ◌+◌, ◌^◌, ◌<◌, ◌≤◌};
ghost use Rattle.trop_io.specs.Whole.{ReadsAll, CountsReads};

use crate::Source;
use std::alloc::Global;
use thiserror::Error;

/// Why not all of a source was read. A front of what was left, which may be empty, is taken then, and the rest is left.
#[derive(Clone, Copy, Debug, PartialEq, Eq, Error)]
pub enum ReadAllErr {
    /// A read failed; the source's count of faults rose.
    #[error("read failed")]
    ReadFault,
    /// One byte more than the limit was read, and no further one. No read failed.
    #[error("longer than the limit")]
    TooLong,
    /// Want of memory. No read failed.
    #[error("out of memory")]
    NoMemory,
}

const CHUNK: usize = 4096;

/// Reads all that is left, at most `limit` bytes, by at most `limit + 2` reads. No failed read is tried again: the
/// source's count of faults is as before, but with `ReadFault`.
///
/// Errors: see [`ReadAllErr`]. `TooLong` comes exactly where byte number `limit + 1` was read.
pub fn read_all<I: Source>(
    alloc: Global,
    source: &mut I,
    limit: usize,
) -> Result<Vec<u8>, ReadAllErr>
    requires { limit < 2 ^ 32 }
    ensures bytes { ReadsAll (I.left source.old) (I.left source.new) limit result }
    ensures faults { CountsReads (I.faults source.old) (I.faults source.new) result }
    ensures calls { I.calls source.new ≤ I.calls source.old + (limit + 2) }
{
    let mut all = Vec::new(alloc);
    let mut buf = [0u8; CHUNK];
    loop {
        let room = limit - all.len();
        let want = CHUNK.min(room + 1);
        let count = match source.read(&mut buf[..want]) {
            Ok(count) => count,
            Err(_) => return Err(ReadAllErr::ReadFault),
        };
        if count == 0 {
            return Ok(all);
        }
        if count > room {
            return Err(ReadAllErr::TooLong);
        }
        if all.extend_from_slice(&buf[..count]).is_err() {
            return Err(ReadAllErr::NoMemory);
        }
    }
}
