//! Reads that are made again where they are interrupted.

ghost use Rattle.std.specs.Prelude.{◌≡◌, ◌<◌, length, true, OnErr, OnOk};
ghost use Rattle.std.specs.IoError.{error_kind};
ghost use Rattle.std.specs.declared.io.ErrorKind.TheVariants.{Interrupted};
ghost use Rattle.byte_reader.specs.Faults.{ReadsBytes};

use crate::readers::ByteReader;
use std::io::{self, ErrorKind};

/// A reader failed.
#[derive(Clone, Copy, PartialEq, Eq, Debug)]
pub struct ReadFault;

/// Reads bytes into the prefix of a buffer that has room, and answers how many. Where the call is interrupted, it is made again.
pub fn read_bytes<R: ByteReader>(reader: &mut R, buffer: &mut [u8]) -> Result<usize, ReadFault>
    requires { 0 < length buffer.old }
    ensures bytes { ReadsBytes (R.remaining reader.old) (R.remaining reader.new) buffer.new result }
    ensures size { length buffer.new ≡ length buffer.old }
    ensures failed { OnErr result (R.has_failed reader.new) }
    ensures unfailed { OnOk result (R.has_failed reader.new → R.has_failed reader.old) }
    ensures calls { OnOk result (R.calls_left reader.new < R.calls_left reader.old) }
    ensures kept { (first : R) → R.follows first reader.old → R.follows first reader.new }
{
    loop {
        match reader.read(buffer) {
            Ok(count) => return Ok(count),
            Err(error) => {
                if !is_interrupted(&error) {
                    return Err(ReadFault);
                }
            }
        }
    }
}

/// Whether a reader only says that it was interrupted.
pub fn is_interrupted(error: &io::Error) -> bool
    ensures it { result ≡ true → error_kind error.now ≡ Interrupted }
    ensures all { error_kind error.now ≡ Interrupted → result ≡ true }
{
    match error.kind() {
        ErrorKind::Interrupted => true,
        _ => false,
    }
}
