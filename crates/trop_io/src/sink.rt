//! Sinks of bytes.
ghost use Rattle.std.specs.Prelude.{◌≡◌, ◌<◌, List, ℕ, length, IfOk, IsOk};
ghost use Rattle.std.specs.declared.option.Option.{Option};
ghost use Rattle.std.specs.Io.{WritesAtMost};
ghost use Rattle.std.specs.Io.KnownBytes.{WriteAppends};
ghost use Rattle.trop_io.specs.Faults.{HasCause};

use crate::Failed;

/// Something to write bytes to.
pub trait Sink {
    /// The bytes that it holds, where the sink tells.
    ghost bytes: { Self → Option (List ℕ) };

    /// How many writes have failed, up to the last value of a `u64`.
    ghost faults: { Self → ℕ };

    /// Appends a front of `piece`, and answers how many bytes: at least one, unless the piece is empty.
    /// An empty piece never fails. The count of faults is as before then.
    ///
    /// Errors: [`Failed`] only where the count of faults rose in this call; nothing is appended then.
    fn write(&mut self, piece: &[u8]) -> Result<usize, Failed>
        ensures bound { WritesAtMost result piece.now }
        ensures some { 0 < length piece.now → IfOk result (λ count. 0 < count) }
        ensures none { length piece.now ≡ 0 → IsOk result }
        ensures bytes { WriteAppends (bytes self.old) (bytes self.new) result piece.now }
        ensures cause { HasCause (faults self.old) (faults self.new) result };
}
