//! What a run puts on paper, kept until it ends: the frames of the punch, the characters of the line printer, and a line of each transfer.

ghost use Rattle.std.specs.Prelude.{◌≡◌, ◌≤◌, length, IfOk};
ghost use Rattle.pdp8e.specs.Papers as spec;
ghost use Rattle.pdp8e.specs.Papers.{new_paper, new_papers};

use crate::machines::Machine;
use crate::transfers::transfer_line;
use rk8e::Moved;
use std::alloc::{AllocError, Global};
use std::marker::Model;

/// The paper of a punch, of a line printer, or of transfers. Where no file gets it, what is put on it is dropped.
#[derive(Drop)]
pub struct Paper {
    bytes: Vec<u8>,
    is_kept: bool,
    is_whole: bool,
}

impl Model for Paper {
    ghost use Rattle.std.specs.Prelude.{◌≡◌, ◌≤◌, length, true, vec_capacity};
    ghost use Rattle.pdp8e.specs.Papers.{PaperState};
    ghost use Rattle.pdp8e.specs.declared.papers.TheConstants.{ROOM};

    ghost Value = { PaperState };

    ghost view = { λ p. record { kept = p.is_kept; bytes = p.bytes.items; whole = p.is_whole } };

    ghost invariant = { λ p. (p.is_kept ≡ true → ROOM ≤ vec_capacity p.bytes) × (length p.bytes.items ≤ ROOM) };
}

impl Paper {
    /// An empty paper, and whether what is put on it is kept. Its room is taken here, and no memory later.
    fn new(alloc: Global, is_kept: bool) -> Result<Paper, AllocError>
        ensures { IfOk result (λ paper. paper ≡ new_paper is_kept) }
    {
        let bytes = if is_kept {
            Vec::with_capacity(alloc, ROOM)?
        } else {
            Vec::new(alloc)
        };
        Ok(Paper {
            bytes,
            is_kept,
            is_whole: true,
        })
    }

    /// The bytes that were put on it: at most 16,777,216.
    pub fn bytes(&self) -> &[u8]
        ensures bytes { result.now ≡ self.now.bytes }
        ensures few { length result.now ≤ 16777216 }
    {
        &self.bytes
    }

    /// Whether no byte was lost for want of room.
    pub fn is_whole(&self) -> bool
        ensures { result ≡ self.now.whole }
    {
        self.is_whole
    }

    /// A byte is put on it, if there is one.
    #[inline]
    fn put(&mut self, byte: Option<u8>)
        ensures { self.new ≡ spec.with_byte_if byte self.old }
    {
        if let Some(byte) = byte {
            self.put_text(&[byte]);
        }
    }

    /// The line of a transfer is put on it, if one ended.
    #[inline]
    fn put_line(&mut self, moved: &Option<Moved>)
        ensures { self.new ≡ spec.with_line_if moved.now self.old }
    {
        if let Some(moved) = moved {
            self.put_text(transfer_line(moved).as_slice());
        }
    }

    /// A text is put on it. Where there is no room for all of it, none is.
    fn put_text(&mut self, text: &[u8])
        ensures { self.new ≡ spec.with_text text.now self.old }
    {
        if !self.is_kept {
            return;
        }
        if text.len() > ROOM - self.bytes.len() {
            self.is_whole = false;
            return;
        }
        match self.bytes.extend_from_slice(text) {
            Ok(()) => {}
            Err(_) => unreachable!(),
        }
    }
}

/// The papers of punch, line printer and transfers.
#[derive(Drop)]
pub struct Papers {
    pub punch: Paper,
    pub printer: Paper,
    pub transfers: Paper,
}

impl Model for Papers {
    ghost use Rattle.pdp8e.specs.Papers.{PapersState};

    ghost Value = { PapersState };

    ghost view = { λ p. record { punch = p.punch; printer = p.printer; transfers = p.transfers } };
}

impl Papers {
    /// Empty papers, and of which what is put on them is kept. Each of those has room for 16,777,216 bytes, which is taken here, and no memory
    /// later.
    pub fn new(
        alloc: Global,
        has_punch: bool,
        has_printer: bool,
        has_transfers: bool,
    ) -> Result<Papers, AllocError>
        ensures { IfOk result (λ papers. papers ≡ new_papers has_punch has_printer has_transfers) }
    {
        let punch = Paper::new(alloc, has_punch)?;
        let printer = Paper::new(alloc, has_printer)?;
        let transfers = Paper::new(alloc, has_transfers)?;
        Ok(Papers {
            punch,
            printer,
            transfers,
        })
    }

    /// How many bytes are on them.
    pub fn len(&self) -> usize
        ensures { result ≡ spec.papers_length self.now }
    {
        self.punch.bytes().len() + self.printer.bytes().len() + self.transfers.bytes().len()
    }

    /// They get what a step left: what the machine punched and printed in it, and the line of the transfer that ended in its beginning. What a
    /// paper has no room for is lost.
    #[inline]
    pub fn put(&mut self, moved: &Option<Moved>, machine: &Machine)
        ensures { self.new ≡ spec.papers_after moved.now machine.now self.old }
    {
        self.punch.put(machine.punched_frame());
        self.printer.put(machine.printed_character());
        self.transfers.put_line(moved);
    }
}

/// So many bytes have room on a paper that keeps them.
const ROOM: usize = 0o100_000_000;
