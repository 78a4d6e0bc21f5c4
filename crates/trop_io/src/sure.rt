//! A source and a sink that never fail.
ghost use Rattle.std.specs.Prelude.{◌≡◌, ◌<◌, ◌≤◌, ◌+◌, drop, length, Ok, IfOk, IsOk};
ghost use Rattle.std.specs.Prelude.{Some, None};
ghost use Rattle.std.specs.Io.{ReadsAtMost, WritesAtMost};
ghost use Rattle.std.specs.Io.KnownBytes.{ReadConsumes, WriteAppends};
ghost use Rattle.trop_io.specs.Faults.{HasCause};
ghost use Rattle.trop_io.specs.Memory.{SureState, given};

use crate::pieces::give;
use crate::{Failed, Sink, Source};
use std::marker::Model;

/// Bytes in memory that come in pieces, and never a fault.
///
/// Contracts see the bytes that are left and the greatest piece.
#[derive(Drop)]
pub struct SureSource {
    bytes: Vec<u8>,
    taken: usize,
    piece: usize,
}

impl Model for SureSource {
    ghost Value = { SureState };

    ghost view = { λ s. record { left = drop s.taken s.bytes.items; piece = s.piece } };

    ghost invariant = { λ s. (s.taken ≤ length s.bytes.items) × (0 < s.piece) };
}

impl SureSource {
    /// A source of `bytes` that gives at most `piece` of them a read.
    pub fn new(bytes: Vec<u8>, piece: usize) -> Self
        requires { 0 < piece }
        ensures { result ≡ record { left = bytes.items; piece = piece } }
    {
        SureSource {
            bytes,
            taken: 0,
            piece,
        }
    }
}

impl Source for SureSource {
    ghost left = { λ s. Some s.left };

    ghost faults = { λ s. 0 };

    ghost calls = { λ s. 0 };

    fn read(&mut self, buf: &mut [u8]) -> Result<usize, Failed>
        ensures bound { ReadsAtMost result buf.new }
        ensures bytes { ReadConsumes (Some self.old.left) (Some self.new.left) result buf.new }
        ensures cause { HasCause 0 0 result }
        ensures calls { 0 ≤ 0 + 1 }
        ensures answer { result ≡ Ok (given self.old.left self.old.piece (length buf.old)) }
        ensures piece { self.new.piece ≡ self.old.piece }
    {
        let count = give(&self.bytes[self.taken..], self.piece, buf);
        self.taken += count;
        Ok(count)
    }
}

/// A sink that takes each piece whole and forgets it, and never fails.
#[derive(Clone, Copy, Debug)]
pub struct SureSink;

impl SureSink {
    /// The sink, which holds nothing.
    pub fn new() -> Self {
        SureSink
    }
}

impl Sink for SureSink {
    ghost bytes = { λ s. None };

    ghost faults = { λ s. 0 };

    fn write(&mut self, piece: &[u8]) -> Result<usize, Failed>
        ensures bound { WritesAtMost result piece.now }
        ensures some { 0 < length piece.now → IfOk result (λ count. 0 < count) }
        ensures none { length piece.now ≡ 0 → IsOk result }
        ensures bytes { WriteAppends None None result piece.now }
        ensures cause { HasCause 0 0 result }
        ensures whole { result ≡ Ok (length piece.now) }
    {
        Ok(piece.len())
    }
}
