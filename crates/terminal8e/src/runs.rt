//! A run at a terminal: the keys come from a reader, and a writer gets what is printed.

ghost use Rattle.std.specs.Prelude.{◌≡◌, IfErr};
ghost use Rattle.terminal8.specs.declared.outcomes.TerminalFault.TheVariants as fault;
ghost use Rattle.terminal8e.specs.AnyRun.{RunsProgram};

use crate::machines::TerminalMachine;
use crate::sittings::Sitting;
use byte_reader::ByteReader;
use terminal8::{Absences, Ended, Form, Input, Output, TerminalEnd, TerminalFault};

/// Runs a machine, at most n steps of it, each an instruction or an interrupt, with a printer that ends its character before the next
/// step. A key is looked for only where the program asks for one, and is struck there. What is printed goes to the writer without its
/// top bit, and NUL is left out. Bytes are read some ahead: those that are not struck are no part of the run. Before the reader is
/// asked for bytes, what was printed so far is handed on, and the writer flushed.
///
/// It ends at a HLT, or where the machine stands stopped. It ends where the keys have ended and the machine waits for one for ever, or
/// after n steps. Live keys never end: a look that finds none is made again where the program next asks for one. The answer is
/// `Reader` or `Writer` only where one of these has failed. `absences` gets the IOTs of devices that aren't there, in place of
/// what it had. It takes no memory.
pub fn run_machine<M: TerminalMachine, R: ByteReader, O: Output>(
    machine: &mut M,
    n: u64,
    form: Form,
    input: Input,
    absences: &mut Absences,
    reader: &mut R,
    writer: &mut O,
) -> Result<Ended, TerminalFault>
    ensures runs { RunsProgram M.acts form input n machine.old machine.new
        (R.remaining reader.old) (R.remaining reader.new)
        (O.contents writer.old) (O.contents writer.new) absences.new result }
    ensures cause { IfErr result (λ e. e ≡ fault.Writer → O.has_failed writer.new) }
    ensures failed { IfErr result (λ e. e ≡ fault.Reader → R.has_failed reader.new) }
{
    if !machine.is_running() {
        *absences = Absences::new();
        return Ok(Ended {
            steps: 0,
            why: TerminalEnd::Halt,
        });
    }
    let mut sitting = Sitting::new(&*machine, form, input);
    match sitting.go_on(machine, n, u64::MAX, u64::MAX, reader, writer) {
        Ok(Some(ended)) => {
            *absences = sitting.into_absences();
            Ok(ended)
        }
        Ok(None) => {
            let ended = sitting.end_at_break(&*machine);
            *absences = sitting.into_absences();
            Ok(ended)
        }
        Err(fault) => {
            *absences = sitting.into_absences();
            Err(fault)
        }
    }
}
