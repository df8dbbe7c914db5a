//! A reader of which it is known how many bytes it gave.
ghost use Rattle.std.specs.Prelude.{◌≡◌, ◌<◌, ◌≤◌, false, true};
ghost use Rattle.refusals.specs.declared.faults.TheConstants.{MOST};

use byte_reader::ByteReader;
use refusals::MOST;
use std::io;

/// A reader that is lent, and how many bytes it gave.
#[derive(Drop)]
pub(crate) struct CountedInput<'a, I> {
    pub(crate) from: &'a mut I,
    pub(crate) count: usize,
}

impl<'a, I> CountedInput<'a, I> {
    /// One of which nothing is read.
    pub(crate) fn new(from: &'a mut I) -> CountedInput<'a, I>
        ensures from { result.from ≡ from.entry }
        ensures count { result.count ≡ 0 }
    {
        CountedInput { from, count: 0 }
    }

    /// Whether it gave more bytes than a script may have.
    pub(crate) fn is_too_long(&self) -> bool
        ensures long { result ≡ true → MOST < self.now.count }
        ensures short { result ≡ false → self.now.count ≤ MOST }
    {
        self.count > MOST
    }
}

impl<'a, I: ByteReader> ByteReader for CountedInput<'a, I> {
    ghost use Rattle.std.specs.Prelude.{◌≡◌, ℕ, List, Option};
    ghost use Rattle.script_commands.specs.InputSteps.{HasGiven};

    ghost remaining = { λ it. I.remaining it.from.now };

    ghost has_failed = { λ it. I.has_failed it.from.now };

    ghost calls_left = { λ it. I.calls_left it.from.now };

    ghost follows = { λ first it. (it.from.ghost_name ≡ first.from.ghost_name)
        × ((start : Option (List ℕ)) → HasGiven start (I.remaining first.from.now) first.count
        → HasGiven start (I.remaining it.from.now) it.count) };

    fn read(&mut self, buffer: &mut [u8]) -> io::Result<usize> {
        match self.from.read(buffer) {
            Ok(count) => {
                self.count = self.count.saturating_add(count);
                Ok(count)
            }
            Err(error) => Err(error),
        }
    }
}
