//! What gives bytes.

ghost use Rattle.std.specs.Prelude.{ℕ, ◌<◌, List, Option};
ghost use Rattle.std.specs.Io.{ReadsAtMost};
ghost use Rattle.std.specs.Io.KnownBytes.{ReadConsumes};
ghost use Rattle.byte_reader.specs.Faults.{IsFault};

use std::io;

/// A reader of which it is known whether it has failed.
pub trait ByteReader {
    /// The bytes that it has left, where they are known.
    ghost remaining: { Self → Option (List ℕ) };

    /// It has failed.
    ghost has_failed: { Self → Type 0 };

    /// How many calls it answers yet, at most, before it fails.
    ghost calls_left: { Self → ℕ };

    /// What holds of a reader at first and of it now. Each call keeps it.
    ghost follows: { Self → Self → Type 0 };

    /// Reads once, as much as a buffer takes. A call that was interrupted is no fault.
    fn read(&mut self, buffer: &mut [u8]) -> io::Result<usize>
        ensures bound { ReadsAtMost result buffer.new }
        ensures bytes { ReadConsumes (remaining self.old) (remaining self.new) result buffer.new }
        ensures failed { IsFault result → has_failed self.new }
        ensures unfailed { (IsFault result → ⊥) → has_failed self.new → has_failed self.old }
        ensures calls { (IsFault result → ⊥) → calls_left self.new < calls_left self.old }
        ensures kept { (first : Self) → follows first self.old → follows first self.new };
}
