//! The texts of refusals.
ghost use Rattle.std.specs.Prelude.{◌≡◌, ◌+◌, ◌≤◌, ◌++◌, OnOk, OnErr, IsOk, vec_len, vec_capacity};
ghost use Rattle.arrayvec.specs.ArrayVec.{array_vec_len};
ghost use Rattle.refusals.specs.Faults.{fault_line, fault_text, code_text, asm_fault_text, tape_fault_text, file_fault_text, directory_fault_text};

use crate::SessionFault;
use crate::text_lines::{TextLine, put, put_name, put_number};
use arrayvec::ArrayVec;
use bin_tape::TapeFault;
use os8_dir::{DirFault, FileFault};
use pal_faults::{AsmFault, Code};
use std::alloc::AllocError;

/// Appends the line of a fault, its text and LF (this project's profile). Where the vector has room for 80 bytes, no memory is taken.
pub fn put_fault(fault: SessionFault, out: &mut Vec<u8>) -> Result<(), AllocError>
    ensures ok { OnOk result (out.new.items ≡ out.old.items ++ fault_line fault) }
    ensures err { OnErr result (out.new.items ≡ out.old.items) }
    ensures room { vec_len out.old + 80 ≤ vec_capacity out.old → IsOk result }
    ensures capacity { vec_capacity out.old ≤ vec_capacity out.new }
{
    let mut line = TextLine::new();
    put_text(&mut line, fault);
    put(&mut line, b"\n");
    out.extend_from_slice(line.as_slice())
}

/// Puts the text of a fault into an empty line.
pub fn put_text(line: &mut ArrayVec<u8, 80>, fault: SessionFault)
    requires { array_vec_len line.old ≡ 0 }
    ensures text { line.new.items ≡ line.old.items ++ fault_text fault }
    ensures short { array_vec_len line.new ≤ 50 }
{
    match fault {
        SessionFault::BadLine => put(line, b"? 1 BAD LINE"),
        SessionFault::NoJob => put(line, b"? 2 NO JOB"),
        SessionFault::TooManyJobs => put(line, b"? 3 TOO MANY JOBS"),
        SessionFault::File(file) => put_file_fault(line, file),
        SessionFault::Asm(asm) => put_asm_fault(line, asm),
        SessionFault::Tape(tape) => put_tape_fault(line, tape),
        SessionFault::BadText => put(line, b"? 7 BAD TEXT"),
        SessionFault::Reader => put(line, b"? 8 READER"),
        SessionFault::Writer => put(line, b"? 9 WRITER"),
        SessionFault::Memory => put(line, b"? 10 MEMORY"),
        SessionFault::TooManyBreaks => put(line, b"? 11 TOO MANY BREAKS"),
    }
}

/// Puts the text of a refusal of the file service into an empty line.
fn put_file_fault(line: &mut ArrayVec<u8, 80>, fault: FileFault)
    requires { array_vec_len line.old ≡ 0 }
    ensures text { line.new.items ≡ line.old.items ++ file_fault_text fault }
    ensures short { array_vec_len line.new ≤ 50 }
{
    match fault {
        FileFault::NotFound => put(line, b"? 4.1 NOT FOUND"),
        FileFault::NoRoom(blocks) => {
            put(line, b"? 4.2 NO ROOM ");
            put_number(line, blocks as u64);
        }
        FileFault::DirectoryFull => put(line, b"? 4.3 DIRECTORY FULL"),
        FileFault::Busy(name) => {
            put(line, b"? 4.4 BUSY ");
            put_name(line, name);
        }
        FileFault::BadName => put(line, b"? 4.5 BAD NAME"),
        FileFault::TooLong => put(line, b"? 4.6 TOO LONG"),
        FileFault::TentativeOpen => put(line, b"? 4.7 TENTATIVE OPEN"),
        FileFault::Device => put(line, b"? 4.8 DEVICE"),
        FileFault::Stopped => put(line, b"? 4.9 STOPPED"),
        FileFault::Memory => put(line, b"? 10 MEMORY"),
        FileFault::NothingWritten => put(line, b"? 4.11 NOTHING WRITTEN"),
    }
}

/// Puts the text of a fault of a directory into an empty line (this project's profile).
pub fn put_directory_fault(line: &mut ArrayVec<u8, 80>, fault: DirFault)
    requires { array_vec_len line.old ≡ 0 }
    ensures text { line.new.items ≡ line.old.items ++ directory_fault_text fault }
    ensures short { array_vec_len line.new ≤ 60 }
{
    match fault {
        DirFault::BadLink(number) => {
            put(line, b"? DIRECTORY 1 BAD LINK ");
            put_number(line, number as u64);
        }
        DirFault::BadCount(number) => {
            put(line, b"? DIRECTORY 2 BAD COUNT ");
            put_number(line, number as u64);
        }
        DirFault::EntryPastSegment => put(line, b"? DIRECTORY 3 ENTRY PAST SEGMENT"),
        DirFault::PastVolume => put(line, b"? DIRECTORY 4 PAST VOLUME"),
        DirFault::SameName => put(line, b"? DIRECTORY 5 SAME NAME"),
        DirFault::WrongFirstBlock => put(line, b"? DIRECTORY 6 WRONG FIRST BLOCK"),
        DirFault::MixedInfo => put(line, b"? DIRECTORY 7 MIXED INFO"),
        DirFault::Device => put(line, b"? DIRECTORY 8 DEVICE"),
        DirFault::Memory => put(line, b"? 10 MEMORY"),
    }
}

/// Puts the text of a fault of the assembler into an empty line.
fn put_asm_fault(line: &mut ArrayVec<u8, 80>, fault: AsmFault)
    requires { array_vec_len line.old ≡ 0 }
    ensures text { line.new.items ≡ line.old.items ++ asm_fault_text fault }
    ensures short { array_vec_len line.new ≤ 50 }
{
    match fault {
        AsmFault::At(code, number) => {
            put(line, b"? 5 ");
            put(line, &letters(code));
            put(line, b" ");
            put_number(line, number);
        }
        AsmFault::Memory => put(line, b"? 10 MEMORY"),
    }
}

/// The two letters of a fault of the assembler.
fn letters(code: Code) -> [u8; 2]
    ensures { result ≡ code_text code }
{
    match code {
        Code::IC => *b"IC",
        Code::SY => *b"SY",
        Code::NU => *b"NU",
        Code::UA => *b"UA",
        Code::DT => *b"DT",
        Code::RD => *b"RD",
        Code::IR => *b"IR",
        Code::FD => *b"FD",
        Code::PF => *b"PF",
        Code::NE => *b"NE",
        Code::NW => *b"NW",
    }
}

/// Puts the text of a fault of a tape into an empty line.
fn put_tape_fault(line: &mut ArrayVec<u8, 80>, fault: TapeFault)
    requires { array_vec_len line.old ≡ 0 }
    ensures text { line.new.items ≡ line.old.items ++ tape_fault_text fault }
    ensures short { array_vec_len line.new ≤ 50 }
{
    match fault {
        TapeFault::BadFrame(place) => {
            put(line, b"? 6.1 BAD FRAME ");
            put_number(line, place);
        }
        TapeFault::NoOrigin => put(line, b"? 6.2 NO ORIGIN"),
        TapeFault::CheckSum { found, computed } => {
            put(line, b"? 6.3 CHECK SUM ");
            put(line, &found.octal4());
            put(line, b" ");
            put(line, &computed.octal4());
        }
        TapeFault::NoTrailer => put(line, b"? 6.4 NO TRAILER"),
        TapeFault::Memory => put(line, b"? 10 MEMORY"),
    }
}
