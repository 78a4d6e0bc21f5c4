//! A sink in memory.
ghost use Rattle.std.specs.Prelude.{◌≡◌, ◌<◌, ◌≤◌, ◌-◌, ◌++◌, [], length, take, min, IfOk, IsOk, vec_capacity};
ghost use Rattle.std.specs.Prelude.{Some, None};
ghost use Rattle.std.specs.Io.{WritesAtMost};
ghost use Rattle.std.specs.Io.KnownBytes.{WriteAppends};
ghost use Rattle.trop_io.specs.Faults.{HasCause};
ghost use Rattle.trop_io.specs.Memory.{SinkState, sink_after, sink_answer};

use crate::pieces::take_in;
use crate::{Failed, NoMemory, Sink};
use std::alloc::Global;
use std::marker::Model;

/// A sink in memory with a fixed room, which takes pieces, and whose writes fail by their numbers.
///
/// Contracts see the bytes that it holds, its room, the greatest piece, the numbers of the writes that fail, how many
/// writes were made and how many of them failed. Writes of an empty piece aren't counted.
#[derive(Drop)]
pub struct MemSink {
    bytes: Vec<u8>,
    room: usize,
    piece: usize,
    failing: Vec<u64>,
    calls: u64,
    faults: u64,
}

impl Model for MemSink {
    ghost Value = { SinkState };

    ghost view = { λ s. record {
      bytes = s.bytes.items;
      room = s.room;
      piece = s.piece;
      failing =
          s.failing.items;
      calls = s.calls;
      faults = s.faults;
    } };

    ghost invariant = { λ s. (length s.bytes.items ≤ s.room) × (s.room ≤ vec_capacity s.bytes) × (0 < s.piece) };
}

impl MemSink {
    /// An empty sink that takes its `room` at once, takes at most `piece` bytes a write, and whose writes with the
    /// numbers in `failing`, counted from 1, fail. A write that finds no room left fails too.
    pub fn new(
        alloc: Global,
        room: usize,
        piece: usize,
        failing: Vec<u64>,
    ) -> Result<Self, NoMemory>
        requires { 0 < piece }
        ensures { IfOk result (λ s. s ≡ record {
          bytes = [];
          room = room;
          piece = piece;
          failing =
              failing.items;
          calls = 0;
          faults = 0;
        }) }
    {
        Ok(MemSink {
            bytes: Vec::with_capacity(alloc, room)?,
            room,
            piece,
            failing,
            calls: 0,
            faults: 0,
        })
    }

    /// The bytes that it holds.
    pub fn bytes(&self) -> &[u8]
        ensures { result.now ≡ self.now.bytes }
    {
        &self.bytes
    }
}

impl Sink for MemSink {
    ghost bytes = { λ s. Some s.bytes };

    ghost faults = { λ s. s.faults };

    fn write(&mut self, piece: &[u8]) -> Result<usize, Failed>
        ensures bound { WritesAtMost result piece.now }
        ensures some { 0 < length piece.now → IfOk result (λ count. 0 < count) }
        ensures none { length piece.now ≡ 0 → IsOk result }
        ensures bytes { WriteAppends (Some self.old.bytes) (Some self.new.bytes) result piece.now }
        ensures cause { HasCause self.old.faults self.new.faults result }
        ensures answer { result ≡ sink_answer self.old piece.now }
        ensures after { self.new ≡ sink_after self.old piece.now }
    {
        if piece.is_empty() {
            return Ok(0);
        }
        self.calls = self.calls.saturating_add(1);
        if self.failing.contains(&self.calls) || self.bytes.len() == self.room {
            self.faults = self.faults.saturating_add(1);
            return Err(Failed);
        }
        Ok(take_in(&mut self.bytes, self.room, self.piece, piece))
    }
}
