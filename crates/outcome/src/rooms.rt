//! Room for the last line of a command, which is taken before its work is begun, so the line never wants memory.
ghost use Rattle.std.specs.Prelude.{◌≡◌, ◌≤◌, [], vec_len, vec_capacity};
ghost use Rattle.refusals.specs.Faults.{fault_line};
ghost use Rattle.refusals.specs.declared.faults.SessionFault.TheVariants.{Memory};
ghost use Rattle.program_reports.specs.Program.{program_line};

use program_reports::{ProgramLine, put_program};
use refusals::{SessionFault, put_fault};
use std::alloc::{AllocError, Global};

/// The most bytes of a line.
const LINE: usize = 80;

/// Room for a line.
#[derive(Drop)]
pub struct LineRoom {
    bytes: Vec<u8>,
    ghost empty: { bytes.items ≡ [] },
    ghost no_byte: { vec_len bytes ≡ 0 },
    ghost wide: { 80 ≤ vec_capacity bytes },
}

impl LineRoom {
    /// Takes the memory for a line. Where it is refused the answer is that error, and the line of that is `no_memory_line`.
    pub fn new(alloc: Global) -> Result<LineRoom, AllocError> {
        let bytes = Vec::with_capacity(alloc, LINE)?;
        Ok(LineRoom { bytes })
    }

    /// No line.
    pub(crate) fn no_line(self) -> Vec<u8>
        ensures { result.items ≡ [] }
    {
        self.bytes
    }

    /// A line of the program.
    pub(crate) fn program_line(self, line: &ProgramLine) -> Vec<u8>
        ensures { result.items ≡ program_line line.now }
    {
        let mut bytes = self.bytes;
        match put_program(line, &mut bytes) {
            Ok(()) => bytes,
            Err(_) => unreachable!(),
        }
    }

    /// The line of a fault.
    pub(crate) fn fault_line(self, fault: SessionFault) -> Vec<u8>
        ensures { result.items ≡ fault_line fault }
    {
        let mut bytes = self.bytes;
        match put_fault(fault, &mut bytes) {
            Ok(()) => bytes,
            Err(_) => unreachable!(),
        }
    }
}

/// The line of want of memory, for which none is taken.
pub fn no_memory_line() -> &'static [u8]
    ensures { result.now ≡ fault_line Memory }
{
    b"? 10 MEMORY\n"
}
