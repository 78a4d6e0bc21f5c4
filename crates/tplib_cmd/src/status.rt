//! How a run ends.
ghost use Rattle.std.specs.Prelude.{◌≡◌};
ghost use Rattle.tplib_cmd.specs.Status.{code_of};

use tplib_reply::Stop;
use trop_text::Fault;

/// How a run ends.
#[derive(Clone, Copy, Debug, PartialEq, Eq)]
pub enum Status {
    /// The whole answer was written.
    Done,
    /// The whole answer was written, and it says no.
    No,
    /// The words spell no command.
    BadWords,
    /// The input is not of its format; this is its first fault.
    Text(Fault),
    /// The input has more than 4,194,304 bytes.
    TooLong,
    /// A cone or a list would have too many rows, there.
    Limit(Stop),
    /// A value would have numbers of too great a size, there.
    Range(Stop),
    /// A read of the input failed.
    ReadFault,
    /// A write of the answer failed; a proper front of it was written.
    WriteFault,
    /// An allocation was refused.
    NoMemory,
}

impl Status {
    /// The exit status of the program.
    pub fn code(self) -> u8
        ensures { result ≡ code_of self }
    {
        match self {
            Status::Done => 0,
            Status::No => 1,
            Status::BadWords => 2,
            Status::Text(_) | Status::TooLong => 3,
            Status::Limit(_) => 4,
            Status::Range(_) => 5,
            Status::ReadFault => 6,
            Status::WriteFault => 7,
            Status::NoMemory => 8,
        }
    }
}
