//! What a reader gives, in pieces and to its end.

ghost use Rattle.std.specs.Prelude.{◌≡◌, ◌<◌, [], length, vec_len, IfErr, IfOk, MatchResult, OnErr};
ghost use Rattle.script8.specs.Reading.{ReadsOnce, IsReaderEnd};
ghost use Rattle.script8.specs.ReadSteps.{ReadsWithin};
ghost use Rattle.script8.specs.Reading.{IsReadWithin, IsReadFault, MayReadNoMore};
ghost use Rattle.refusals.specs.declared.faults.SessionFault.TheVariants as fault;

use byte_reader::{ByteReader, WatchedReader, read_bytes};
use refusals::{MOST, SessionFault};
use std::alloc::{AllocError, Global};
use std::io::Read;

/// How many bytes are asked for at once.
pub const PIECE: usize = 65_536;

/// Reads to the reader's end. Of more than `MOST` bytes it takes one more, and answers `Reader`.
pub fn read_all<R: Read>(alloc: Global, reader: &mut R) -> Result<Vec<u8>, SessionFault>
    ensures { MatchResult result
        (λ bytes. IsReadWithin 16777216 (R.remaining reader.old) (R.remaining reader.new) bytes.items)
        (λ fault. IsReadFault 16777216 (R.remaining reader.old) (R.remaining reader.new) fault) }
{
    read_whole(alloc, &mut WatchedReader::new(reader))
}

/// The same of a reader of which it is known whether it has failed.
pub fn read_whole<R: ByteReader>(alloc: Global, reader: &mut R) -> Result<Vec<u8>, SessionFault>
    ensures read { MatchResult result
        (λ bytes. IsReadWithin 16777216 (R.remaining reader.old) (R.remaining reader.new) bytes.items)
        (λ fault. IsReadFault 16777216 (R.remaining reader.old) (R.remaining reader.new) fault) }
    ensures cause { IfErr result (λ e. e ≡ fault.Reader → MayReadNoMore 16777216 (R.has_failed reader.new)
        (R.remaining reader.old) (R.remaining reader.new)) }
    ensures kept { (first : R) → R.follows first reader.old → R.follows first reader.new }
{
    let mut bytes = Vec::new(alloc);
    let at_end = read_within(alloc, reader, &mut bytes)?;
    if at_end {
        return Ok(bytes);
    }
    let at_end = ends(reader)?;
    if at_end {
        return Ok(bytes);
    }
    Err(SessionFault::Reader)
}

/// Reads `MOST` bytes at most, and answers whether the reader ended with them. Where it fails, the bytes that it gave are
/// kept.
fn read_within<R: ByteReader>(
    alloc: Global,
    reader: &mut R,
    bytes: &mut Vec<u8>,
) -> Result<bool, SessionFault>
    requires { bytes.old.items ≡ [] }
    ensures read { ReadsWithin 16777216 (R.remaining reader.old) (R.remaining reader.new) bytes.new.items result }
    ensures cause { IfErr result (λ e. e ≡ fault.Reader → R.has_failed reader.new) }
    ensures kept { (first : R) → R.follows first reader.old → R.follows first reader.new }
{
    let mut piece = zero_bytes(alloc, PIECE)?;
    while bytes.len() < MOST {
        let room = PIECE.min(MOST - bytes.len());
        if read_piece(reader, &mut piece[..room], bytes)? {
            return Ok(true);
        }
    }
    Ok(false)
}

/// Reads once, as much as a piece takes, and answers whether that was the reader's end. A call that is interrupted is made again.
pub fn read_piece<R: ByteReader>(
    reader: &mut R,
    piece: &mut [u8],
    bytes: &mut Vec<u8>,
) -> Result<bool, SessionFault>
    requires piece { 0 < length piece.old }
    ensures read { ReadsOnce (length piece.old) (R.remaining reader.old) (R.remaining reader.new)
        bytes.old.items bytes.new.items result }
    ensures cause { IfErr result (λ e. e ≡ fault.Reader → R.has_failed reader.new) }
    ensures kept { (first : R) → R.follows first reader.old → R.follows first reader.new }
{
    match read_bytes(reader, piece) {
        Ok(0) => Ok(true),
        Ok(count) => {
            bytes.extend_from_slice(&piece[..count])?;
            Ok(false)
        }
        Err(_) => Err(SessionFault::Reader),
    }
}

/// Whether the reader has no byte more; else it takes one more.
pub fn ends<R: ByteReader>(reader: &mut R) -> Result<bool, SessionFault>
    ensures end { IsReaderEnd (R.remaining reader.old) (R.remaining reader.new) result }
    ensures cause { OnErr result (R.has_failed reader.new) }
    ensures kept { (first : R) → R.follows first reader.old → R.follows first reader.new }
{
    let mut byte = [0u8];
    match read_bytes(reader, &mut byte) {
        Ok(0) => Ok(true),
        Ok(_) => Ok(false),
        Err(_) => Err(SessionFault::Reader),
    }
}

pub fn zero_bytes(alloc: Global, count: usize) -> Result<Vec<u8>, AllocError>
    ensures { IfOk result (λ bytes. vec_len bytes ≡ count) }
{
    let bytes = vec![in alloc; 0u8; count]?;
    Ok(bytes)
}
