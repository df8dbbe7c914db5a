//! The line of a transfer's end.

ghost use Rattle.std.specs.Prelude.{◌≡◌, ◌≤◌, ◌+◌, ◌++◌, length};
ghost use Rattle.arrayvec.specs.ArrayVec.{array_vec_len};
ghost use Rattle.pdp8e.specs.Transfers as spec;

use arrayvec::ArrayVec;
use rk8e::{Moved, SECTOR};
use word12::Word;

/// The line of a transfer's end: drive, way, sector and first cell, both in octal, and how many words. It has at most 27 characters (this
/// project's profile).
pub fn transfer_line(moved: &Moved) -> ArrayVec<u8, 32>
    ensures { result.items ≡ spec.transfer_line moved.now }
{
    let mut line = ArrayVec::new();
    put(&mut line, &[b'R', b'K', b' ', b'0' + moved.drive % 8]);
    put(&mut line, way_text(moved.is_write));
    let high = b'0' + (moved.sector / 0o10000 % 8) as u8;
    let [a, b, c, d] = Word::low(moved.sector).octal4();
    let [field, e, f, g, h] = moved.cell.octal5();
    put(&mut line, &[high, a, b, c, d, b' ', field, e, f, g, h]);
    put(&mut line, words_text(moved.words));
    put(&mut line, b"\n");
    line
}

/// Which way the words were moved.
fn way_text(is_write: bool) -> &'static [u8]
    ensures text { result.now ≡ spec.way_text is_write }
    ensures short { length result.now ≤ 7 }
{
    if is_write { b" write " } else { b" read " }
}

/// How many words were moved: those of a sector, or half as many.
fn words_text(words: u16) -> &'static [u8]
    ensures text { result.now ≡ spec.words_text words }
    ensures short { length result.now ≤ 4 }
{
    if usize::from(words) == SECTOR {
        b" 256"
    } else {
        b" 128"
    }
}

/// Puts bytes after a line, for which there must be room.
fn put(line: &mut ArrayVec<u8, 32>, bytes: &[u8])
    requires { array_vec_len line.old + length bytes.now ≤ 32 }
    ensures items { line.new.items ≡ line.old.items ++ bytes.now }
    ensures len { array_vec_len line.new ≡ array_vec_len line.old + length bytes.now }
{
    line.try_extend_from_slice(bytes).unwrap();
}
