//! The 8/E without a disk, and its run at a terminal.

ghost use Rattle.std.specs.Prelude.{◌≡◌, IfErr};
ghost use Rattle.terminal8.specs.declared.outcomes.TerminalFault.TheVariants as fault;
ghost use Rattle.terminal8e.specs.Run.{RunsProgram};

use crate::asking::{absence_at, asks_for_key, is_late, steps_before_look, waits_for_key};
use crate::machines::TerminalMachine;
use crate::runs::run_machine;
use byte_reader::ByteReader;
use cpu8::Stepped;
use cpu8e::Machine;
use terminal8::{Absence, Absences, Ended, Form, Input, Output, TerminalFault};

impl TerminalMachine for Machine {
    ghost use Rattle.terminal8e.specs.Terminal.{terminal_acts};

    ghost acts = { terminal_acts };

    fn is_running(&self) -> bool {
        Machine::is_running(self)
    }

    #[inline]
    fn asks_for_key(&self, since: u64) -> bool {
        asks_for_key(since, self)
    }

    fn waits_for_key(&self) -> bool {
        waits_for_key(self)
    }

    fn strike_key(&mut self, character: u8) {
        self.key(character);
    }

    #[inline]
    fn make_step(&mut self) -> (Stepped, Option<Absence>) {
        let absence = absence_at(self);
        if self.is_busy() {
            self.end_character();
        }
        (self.step(), absence)
    }

    #[inline]
    fn make_quick_steps(&mut self, since: u64, n: u64) -> u64 {
        let most = steps_before_look(since, self, n);
        self.run_unasked(most, is_late(since)) as u64
    }
}

/// Runs an 8/E, at most n steps of it, as `run_machine` does. It takes no memory.
pub fn run<R: ByteReader, O: Output>(
    machine: &mut Machine,
    n: u64,
    form: Form,
    input: Input,
    absences: &mut Absences,
    reader: &mut R,
    writer: &mut O,
) -> Result<Ended, TerminalFault>
    ensures runs { RunsProgram form input n machine.old machine.new
        (R.remaining reader.old) (R.remaining reader.new)
        (O.contents writer.old) (O.contents writer.new) absences.new result }
    ensures cause { IfErr result (λ e. e ≡ fault.Writer → O.has_failed writer.new) }
    ensures failed { IfErr result (λ e. e ≡ fault.Reader → R.has_failed reader.new) }
{
    run_machine(machine, n, form, input, absences, reader, writer)
}
