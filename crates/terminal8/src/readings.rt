//! The bytes of a reader, up to the next key.

ghost use Rattle.std.specs.Prelude.{◌≡◌, ◌<◌, ◌≤◌, ◌+◌, ◌*◌, [], length, IfErr, OnErr, OnOk};
ghost use Rattle.terminal8.specs.KeyReads.{ReadsKey};
ghost use Rattle.terminal8.specs.Papers.{Holds};
ghost use Rattle.terminal8.specs.RunSteps.{FillsBuffer, GivesByte, ReadsByte};
ghost use Rattle.terminal8.specs.declared.outcomes.TerminalFault.TheVariants as fault;

use crate::keyboards::Keyboard;
use crate::outcomes::TerminalFault;
use crate::outputs::Output;
use crate::writing::Paper;
use byte_reader::{ByteReader, read_bytes};
use std::marker::Model;

/// Bytes that were read ahead: those from the place of the next to an end. A contract sees these.
#[derive(Drop)]
pub struct ReadAhead {
    bytes: [u8; READ_AT_ONCE],
    next: usize,
    end: usize,
}

impl Model for ReadAhead {
    ghost use Rattle.std.specs.Prelude.{ℕ, ◌≤◌, List, slice_range};

    ghost Value = { List ℕ };

    ghost view = { λ a. slice_range a.bytes a.next a.end };

    ghost invariant = { λ a. (a.next ≤ a.end) × (a.end ≤ 0o10000) };
}

impl ReadAhead {
    /// None are read ahead.
    pub fn new() -> ReadAhead
        ensures { result ≡ [] }
    {
        ReadAhead {
            bytes: [0; READ_AT_ONCE],
            next: 0,
            end: 0,
        }
    }

    /// Takes the next byte, if there is one.
    #[inline(always)]
    fn take_next(&mut self) -> Option<u8>
        ensures { GivesByte self.old self.new result }
    {
        if self.next == self.end {
            return None;
        }
        let byte = self.bytes[self.next];
        self.next += 1;
        Some(byte)
    }

    /// Reads bytes where none are left, one at least if the reader gives any.
    fn fill<R: ByteReader>(&mut self, reader: &mut R) -> Result<(), TerminalFault>
        requires { self.old ≡ [] }
        ensures bytes { FillsBuffer self.new (R.remaining reader.old) (R.remaining reader.new) result }
        ensures failed { OnErr result (R.has_failed reader.new) }
        ensures size { length self.new ≤ 0o10000 }
        ensures calls { OnOk result (R.calls_left reader.new < R.calls_left reader.old) }
    {
        self.next = 0;
        self.end = 0;
        match read_bytes(reader, &mut self.bytes) {
            Ok(count) => {
                self.end = count;
                Ok(())
            }
            Err(_) => Err(TerminalFault::Reader),
        }
    }
}

/// Strikes bytes up to the first that is a key, and answers it. It answers none where the reader gives no byte before.
pub fn next_key<R: ByteReader, O: Output>(
    keyboard: &mut Keyboard,
    ahead: &mut ReadAhead,
    paper: &mut Paper,
    reader: &mut R,
    writer: &mut O,
) -> Result<Option<u8>, TerminalFault>
    ensures key { ReadsKey keyboard.old keyboard.new ahead.old ahead.new
        (R.remaining reader.old) (R.remaining reader.new) result }
    ensures paper { Holds (O.contents writer.old) (O.contents writer.new) paper.old paper.new result }
    ensures cause { IfErr result (λ e. e ≡ fault.Writer → O.has_failed writer.new) }
    ensures failed { IfErr result (λ e. e ≡ fault.Reader → R.has_failed reader.new) }
{
    loop {
        let Some(byte) = next_byte(ahead, paper, reader, writer)? else {
            return Ok(None);
        };
        if let Some(key) = keyboard.strike(byte) {
            return Ok(Some(key));
        }
    }
}

/// The next byte, of those read ahead or else of a reader, which may keep us waiting. What was printed is handed on
/// before.
#[inline(always)]
fn next_byte<R: ByteReader, O: Output>(
    ahead: &mut ReadAhead,
    paper: &mut Paper,
    reader: &mut R,
    writer: &mut O,
) -> Result<Option<u8>, TerminalFault>
    ensures byte { ReadsByte ahead.old ahead.new (R.remaining reader.old) (R.remaining reader.new) result }
    ensures paper { Holds (O.contents writer.old) (O.contents writer.new) paper.old paper.new result }
    ensures cause { IfErr result (λ e. e ≡ fault.Writer → O.has_failed writer.new) }
    ensures failed { IfErr result (λ e. e ≡ fault.Reader → R.has_failed reader.new) }
    ensures calls { OnOk result (R.calls_left reader.new * 0o10001 + length ahead.new
        < R.calls_left reader.old * 0o10001 + length ahead.old) }
{
    if let Some(byte) = ahead.take_next() {
        return Ok(Some(byte));
    }
    paper.flush(writer)?;
    ahead.fill(reader)?;
    Ok(ahead.take_next())
}

/// The bytes that are read ahead at most.
const READ_AT_ONCE: usize = 0o10000;
