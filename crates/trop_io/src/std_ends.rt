//! The readers and writers of std as sources and sinks: the edge to the system.
ghost use Rattle.std.specs.Prelude.{◌≡◌, ◌<◌, ◌≤◌, ◌+◌, ℕ, List, length, IfOk, IsOk};
ghost use Rattle.std.specs.declared.option.Option.{Option};
ghost use Rattle.std.specs.Io.{ReadsAtMost, WritesAtMost};
ghost use Rattle.std.specs.Io.KnownBytes.{ReadConsumes, WriteAppends};
ghost use Rattle.std.specs.Result.{result_ok};
ghost use Rattle.trop_io.specs.Counted.{Counted, HandsOnRead, HandsOnWrite};
ghost use Rattle.trop_io.specs.Faults.{HasCause};

use crate::{Failed, Sink, Source};
use std::io;
use std::io::{Read, Write};
use std::marker::Model;

/// A reader of std, each of which is one. What a call may answer is a relation, so that the contract of [`StdSource`]
/// can say that an answer of the reader was handed on, and none was made up.
pub trait StdRead {
    /// The bytes that are left, where the reader tells.
    ghost remaining: { Self → Option (List ℕ) };

    /// The reader may give so many bytes, or an error, and go on as that.
    ghost answers: { Self → Option ℕ → Self → Type 0 };

    /// One read.
    fn read_once(&mut self, buf: &mut [u8]) -> io::Result<usize>
        ensures bound { ReadsAtMost result buf.new }
        ensures bytes { ReadConsumes (remaining self.old) (remaining self.new) result buf.new }
        ensures given { answers self.old (result_ok result) self.new };
}

impl<R: Read> StdRead for R {
    ghost remaining = { R.remaining };

    ghost answers = { λ _ _ _. Unit {0} };

    fn read_once(&mut self, buf: &mut [u8]) -> io::Result<usize> {
        self.read(buf)
    }
}

/// A reader of std that counts its errors. It tells what the reader tells.
///
/// Contracts see the reader and the count.
#[derive(Drop)]
pub struct StdSource<R: StdRead> {
    inner: R,
    faults: u64,
}

impl<R: StdRead> Model for StdSource<R> {
    ghost Value = { Counted R };

    ghost view = { λ s. record { end = s.inner; faults = s.faults } };
}

impl<R: StdRead> StdSource<R> {
    /// A source over `inner`, of which no fault is known.
    pub fn new(inner: R) -> Self
        ensures { result ≡ record { end = inner; faults = 0 } }
    {
        StdSource { inner, faults: 0 }
    }
}

impl<R: StdRead> Source for StdSource<R> {
    ghost left = { λ s. R.remaining s.end };

    ghost faults = { λ s. s.faults };

    ghost calls = { λ s. 0 };

    fn read(&mut self, buf: &mut [u8]) -> Result<usize, Failed>
        ensures bound { ReadsAtMost result buf.new }
        ensures bytes { ReadConsumes (R.remaining self.old.end) (R.remaining self.new.end) result buf.new }
        ensures cause { HasCause self.old.faults self.new.faults result }
        ensures calls { 0 ≤ 0 + 1 }
        ensures handed_on { HandsOnRead R.answers self.old self.new result }
    {
        match self.inner.read_once(buf) {
            Ok(count) => Ok(count),
            Err(_) => {
                self.faults = self.faults.saturating_add(1);
                Err(Failed)
            }
        }
    }
}

/// A writer of std, each of which is one. What a call may answer is a relation, as of [`StdRead`].
pub trait StdWrite {
    /// The bytes that it holds, where the writer tells.
    ghost contents: { Self → Option (List ℕ) };

    /// The writer may take so many bytes, or give an error, and go on as that.
    ghost answers: { Self → Option ℕ → Self → Type 0 };

    /// One write.
    fn write_once(&mut self, piece: &[u8]) -> io::Result<usize>
        ensures bound { WritesAtMost result piece.now }
        ensures bytes { WriteAppends (contents self.old) (contents self.new) result piece.now }
        ensures given { answers self.old (result_ok result) self.new };
}

impl<W: Write> StdWrite for W {
    ghost contents = { W.contents };

    ghost answers = { λ _ _ _. Unit {0} };

    fn write_once(&mut self, piece: &[u8]) -> io::Result<usize> {
        self.write(piece)
    }
}

/// A writer of std that counts its errors. It tells what the writer tells. A write that takes no byte of a piece that
/// isn't empty counts as an error, and an empty piece isn't handed on.
///
/// Contracts see the writer and the count.
#[derive(Drop)]
pub struct StdSink<W: StdWrite> {
    inner: W,
    faults: u64,
}

impl<W: StdWrite> Model for StdSink<W> {
    ghost Value = { Counted W };

    ghost view = { λ s. record { end = s.inner; faults = s.faults } };
}

impl<W: StdWrite> StdSink<W> {
    /// A sink over `inner`, of which no fault is known.
    pub fn new(inner: W) -> Self
        ensures { result ≡ record { end = inner; faults = 0 } }
    {
        StdSink { inner, faults: 0 }
    }
}

impl<W: StdWrite> Sink for StdSink<W> {
    ghost bytes = { λ s. W.contents s.end };

    ghost faults = { λ s. s.faults };

    fn write(&mut self, piece: &[u8]) -> Result<usize, Failed>
        ensures bound { WritesAtMost result piece.now }
        ensures some { 0 < length piece.now → IfOk result (λ count. 0 < count) }
        ensures none { length piece.now ≡ 0 → IsOk result }
        ensures bytes { WriteAppends (W.contents self.old.end) (W.contents self.new.end) result piece.now }
        ensures cause { HasCause self.old.faults self.new.faults result }
        ensures handed_on { HandsOnWrite W.answers self.old self.new (length piece.now) result }
    {
        if piece.is_empty() {
            return Ok(0);
        }
        match self.inner.write_once(piece) {
            Ok(count) if count > 0 => Ok(count),
            _ => {
                self.faults = self.faults.saturating_add(1);
                Err(Failed)
            }
        }
    }
}
