//! Sources of bytes.
ghost use Rattle.std.specs.Prelude.{◌≡◌, ◌+◌, ◌≤◌, List, ℕ};
ghost use Rattle.std.specs.declared.option.Option.{Option};
ghost use Rattle.std.specs.Io.{ReadsAtMost};
ghost use Rattle.std.specs.Io.KnownBytes.{ReadConsumes};
ghost use Rattle.trop_io.specs.Faults.{HasCause};

use crate::Failed;

/// Something to read bytes from.
pub trait Source {
    /// The bytes that are left, where the source tells.
    ghost left: { Self → Option (List ℕ) };

    /// How many reads have failed, up to the last value of a `u64`.
    ghost faults: { Self → ℕ };

    /// A count that no read raises by more than one, such as the number of reads made.
    ghost calls: { Self → ℕ };

    /// Reads into the front of `buf`, and answers how many bytes. They are the front of what was left, and the rest is
    /// left.
    /// `Ok(0)` on a buffer that isn't empty means that nothing is left. The count of faults is as before then.
    ///
    /// Errors: [`Failed`] only where the count of faults rose in this call; nothing is taken then.
    fn read(&mut self, buf: &mut [u8]) -> Result<usize, Failed>
        ensures bound { ReadsAtMost result buf.new }
        ensures bytes { ReadConsumes (left self.old) (left self.new) result buf.new }
        ensures cause { HasCause (faults self.old) (faults self.new) result }
        ensures calls { calls self.new ≤ calls self.old + 1 };
}
