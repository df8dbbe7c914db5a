//! What a reader gave of a script, and is not run yet.

ghost use Rattle.std.specs.Prelude.{◌≡◌, ◌≤◌, ◌<◌, [], length, drop, IfErr};
ghost use Rattle.script8.specs.Items.{WaitsForLines};
ghost use Rattle.refusals.specs.declared.faults.SessionFault.TheVariants as fault;
ghost use Rattle.system_session.specs.ReadSteps.{ReadsPiece};

use byte_reader::ByteReader;
use refusals::{MOST, SessionFault};
use script8::readings::read_piece;
use script8::{lines_left, one_line_wanted};
use std::alloc::Global;

/// The bytes of a script that were read and are not run.
#[derive(Drop)]
pub(crate) struct Pending {
    pub(crate) bytes: Vec<u8>,

    /// How many lines must yet be ended before there is a whole item.
    pub(crate) lines: u32,

    /// How many bytes of the script were read, those with them that are run.
    pub(crate) count: usize,
}

/// What came of the beginning of a text.
#[derive(Clone, Copy)]
pub(crate) enum Begun {
    /// So many bytes are run.
    Ran(usize),

    /// No item, or no whole one, is there, and so many lines are wanted.
    Waiting(u32),
}

impl Pending {
    /// Nothing was read.
    pub(crate) fn new(alloc: Global) -> Pending
        ensures bytes { result.bytes.items ≡ [] }
        ensures lines { (0 < result.lines) × WaitsForLines [] result.lines }
        ensures count { result.count ≡ 0 }
    {
        one_line_wanted();
        Pending {
            bytes: Vec::new(alloc),
            lines: 1,
            count: 0,
        }
    }

    /// Reads once, as much as a piece takes and a script may have, and answers whether that was the reader's end. The reader is
    /// only asked where no whole item is left.
    pub(crate) fn read<R: ByteReader>(
        &mut self,
        reader: &mut R,
        piece: &mut [u8],
    ) -> Result<bool, SessionFault>
        requires piece { 0 < length piece.old }
        requires count { self.old.count < 16777216 }
        requires waits { (0 < self.old.lines) × WaitsForLines self.old.bytes.items self.old.lines }
        ensures read { ReadsPiece 16777216 (R.remaining reader.old) (R.remaining reader.new)
            self.old.bytes.items self.old.count self.new.bytes.items self.new.lines self.new.count result }
        ensures cause { IfErr result (λ e. e ≡ fault.Reader → R.has_failed reader.new) }
        ensures kept { (first : R) → R.follows first reader.old → R.follows first reader.new }
    {
        let room = piece.len().min(MOST - self.count);
        let before = self.bytes.len();
        let is_end = read_piece(reader, &mut piece[..room], &mut self.bytes)?;
        let (_, more) = self.bytes.split_at(before);
        self.count += more.len();
        self.lines = lines_left(self.lines, more);
        Ok(is_end)
    }

    /// Lets go of bytes at the prefix, which are run; so many lines are wanted of the others.
    pub(crate) fn consume(&mut self, bytes: usize, lines: u32)
        requires { bytes ≤ length self.old.bytes.items }
        ensures bytes { self.new.bytes.items ≡ drop bytes self.old.bytes.items }
        ensures lines { self.new.lines ≡ lines }
        ensures count { self.new.count ≡ self.old.count }
    {
        let left = self.bytes.len() - bytes;
        self.bytes.copy_within(bytes.., 0);
        self.bytes.truncate(left);
        self.lines = lines;
    }
}
