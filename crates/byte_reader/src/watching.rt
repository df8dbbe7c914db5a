//! A reader of the library, and whether it has failed.

ghost use Rattle.std.specs.Prelude.{◌≡◌, false, true};

use crate::readers::ByteReader;
use crate::reading::is_interrupted;
use std::io::{self, ErrorKind, Read};

/// A reader that is lent, and whether a call of it failed. Of 2^64 calls the last one fails.
#[derive(Drop)]
pub struct WatchedReader<'a, R: Read> {
    reader: &'a mut R,
    calls: u64,
    has_failed: bool,
}

impl<'a, R: Read> WatchedReader<'a, R> {
    /// One of which no call was made.
    pub fn new(reader: &'a mut R) -> WatchedReader<'a, R>
        ensures reader { result.reader ≡ reader.entry }
        ensures unfailed { result.has_failed ≡ false }
    {
        WatchedReader {
            reader,
            calls: 0,
            has_failed: false,
        }
    }
}

impl<'a, R: Read> ByteReader for WatchedReader<'a, R> {
    ghost use Rattle.std.specs.Prelude.{◌≡◌, ◌-◌, ◌^◌, true};

    ghost remaining = { λ it. R.remaining it.reader.now };

    ghost has_failed = { λ it. it.has_failed ≡ true };

    ghost calls_left = { λ it. 2 ^ 64 - 1 - it.calls };

    ghost follows = { λ first it. it.reader.ghost_name ≡ first.reader.ghost_name };

    fn read(&mut self, buffer: &mut [u8]) -> io::Result<usize> {
        if self.calls == u64::MAX {
            self.has_failed = true;
            return Err(io::Error::from(ErrorKind::Other));
        }
        self.calls += 1;
        match self.reader.read(buffer) {
            Ok(count) => Ok(count),
            Err(error) => {
                if !is_interrupted(&error) {
                    self.has_failed = true;
                }
                Err(error)
            }
        }
    }
}
