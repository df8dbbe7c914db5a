//! What gets the characters that are printed.

ghost use Rattle.std.specs.Prelude.{ℕ, List, [], Option, OnErr, OnOk};
ghost use Rattle.std.specs.Io.KnownBytes.{Appends};

use std::io;

/// A writer of which it is known whether it has failed.
pub trait Output {
    /// The bytes that it got, where they are known.
    ghost contents: { Self → Option (List ℕ) };

    /// It has failed.
    ghost has_failed: { Self → Type 0 };

    /// Writes bytes, all of them.
    fn put(&mut self, bytes: &[u8]) -> io::Result<()>
        ensures printed { OnOk result (Appends (contents self.old) (contents self.new) bytes.now) }
        ensures failed { OnErr result (has_failed self.new) };

    /// Hands on what it got.
    fn hand_on(&mut self) -> io::Result<()>
        ensures printed { OnOk result (Appends (contents self.old) (contents self.new) []) }
        ensures failed { OnErr result (has_failed self.new) };
}
