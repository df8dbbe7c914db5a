ghost use Rattle.std.specs.Prelude.{◌≡◌, ℕ, ◌+◌, ◌<◌, List, length, is_ok, if◌then◌else◌, OnOk, OnErr, Some, slice_get, slice_set};
ghost use Rattle.volume_image.specs.Volume.{AreWords, IsVolume, IsDamaged, next_count};

use thiserror::Error;
use word12::{BLOCK, Word};

/// The 256 words of a block.
pub type Block = [Word; BLOCK];

/// A block could not be read or written.
#[derive(Clone, Copy, PartialEq, Eq, Debug, Error)]
#[error("the device failed")]
pub struct DeviceFault;

/// A store of 8 to 4095 blocks of 256 words, whose number no call changes (OS/8 Software Support Manual).
pub trait BlockStore {
    /// The words of each block.
    ghost contents: { Self → List (List ℕ) };

    /// How many reads were made, failed ones too, until the count stays at its greatest value.
    ghost reads: { Self → ℕ };

    /// How many writes were made, failed ones too, until the count stays at its greatest value.
    ghost writes: { Self → ℕ };

    /// How many reads failed.
    ghost failed_reads: { Self → ℕ };

    /// How many writes failed.
    ghost failed_writes: { Self → ℕ };

    /// How many blocks there are. Each has 256 words of twelve bits.
    fn blocks(&self) -> usize
        ensures count { result ≡ length (contents self.now) }
        ensures volume { IsVolume (contents self.now) }
        ensures words { AreWords (contents self.now) };

    /// Reads a block. Where that fails, nothing is changed.
    fn read(&mut self, number: usize, words: &mut Block) -> Result<(), DeviceFault>
        requires { number < length (contents self.old) }
        ensures ok { OnOk result (slice_get (contents self.old) number ≡ Some words.new) }
        ensures err { OnErr result (words.new ≡ words.old) }
        ensures same { contents self.new ≡ contents self.old }
        ensures reads { reads self.new ≡ next_count (reads self.old) }
        ensures writes { writes self.new ≡ writes self.old }
        ensures failed_reads { failed_reads self.new
            ≡ (if is_ok result then failed_reads self.old else failed_reads self.old + 1) }
        ensures failed_writes { failed_writes self.new ≡ failed_writes self.old };

    /// Writes a block. Where that fails, the block has any words.
    fn write(&mut self, number: usize, words: &Block) -> Result<(), DeviceFault>
        requires { number < length (contents self.old) }
        ensures ok { OnOk result (contents self.new ≡ slice_set (contents self.old) number words.now) }
        ensures err { OnErr result (IsDamaged (contents self.old) (contents self.new) number) }
        ensures reads { reads self.new ≡ reads self.old }
        ensures writes { writes self.new ≡ next_count (writes self.old) }
        ensures failed_reads { failed_reads self.new ≡ failed_reads self.old }
        ensures failed_writes { failed_writes
            self.new ≡ (if is_ok result then failed_writes self.old else failed_writes self.old + 1) };
}
