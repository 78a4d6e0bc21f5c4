//! The line of a status on standard error.
ghost use Rattle.std.specs.Prelude.{◌≡◌};
ghost use Rattle.trop_io.specs.Faults.{HasCause};
ghost use Rattle.trop_io.specs.Whole.{WritesAll};
ghost use Rattle.tplib_cmd.specs.Status.{line_of, is_answered, status_words, status_details};
ghost use Rattle.tplib_cmd.specs.Streams.{IsReported, output_of};

use crate::Status;
use tplib_reply::{write_fault, write_stop};
use trop_io::{Sink, WriteFault, write_all};

/// Writes the line of the status. It takes no memory.
pub(crate) fn report<E: Sink>(status: Status, err: &mut E)
    ensures { IsReported (output_of E.bytes E.faults err.old) (output_of E.bytes E.faults err.new) (line_of status) }
{
    let _ = write_line(status, err);
}

fn write_line<E: Sink>(status: Status, err: &mut E) -> Result<(), WriteFault>
    ensures bytes { WritesAll (E.bytes err.old) (E.bytes err.new) (line_of status) result }
    ensures cause { HasCause (E.faults err.old) (E.faults err.new) result }
{
    if is_answered(status) {
        return Ok(());
    }
    write_all(err, b"tplib: ")?;
    write_all(err, words_of(status))?;
    write_details(status, err)?;
    write_all(err, b"\n")
}

fn is_answered(status: Status) -> bool
    ensures { result ≡ is_answered status }
{
    matches!(status, Status::Done | Status::No)
}

fn words_of(status: Status) -> &'static [u8]
    ensures { result.now ≡ status_words status }
{
    match status {
        Status::Done | Status::No | Status::Text(_) => b"",
        Status::BadWords => b"bad words",
        Status::TooLong => b"input longer than 4194304 bytes",
        Status::Limit(_) => b"limit:",
        Status::Range(_) => b"range:",
        Status::ReadFault => b"read failed",
        Status::WriteFault => b"write failed",
        Status::NoMemory => b"out of memory",
    }
}

fn write_details<E: Sink>(status: Status, err: &mut E) -> Result<(), WriteFault>
    ensures bytes { WritesAll (E.bytes err.old) (E.bytes err.new) (status_details status) result }
    ensures cause { HasCause (E.faults err.old) (E.faults err.new) result }
{
    match status {
        Status::Text(fault) => write_fault(fault, err),
        Status::Limit(stop) | Status::Range(stop) => write_stop(stop, err),
        _ => write_all(err, b""),
    }
}
