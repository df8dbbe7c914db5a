//! A whole 8/E at whose keyboard small letters may be struck as capitals, and what it puts on paper.
ghost use Rattle.std.specs.Prelude.{◌≡◌};
ghost use Rattle.drive_files.specs.Consoles as spec;

use cpu8::Stepped;
use pdp8e::{Machine, Papers};
use program_tasks::ConsoleForm;
use terminal8::Absence;
use terminal8e::{TerminalMachine, is_late, steps_before_look};

/// A machine, whether small letters are struck as capitals at its keyboard, and its papers.
#[derive(Drop)]
pub struct Console {
    pub machine: Machine,
    pub has_capitals: bool,

    /// How many steps, modulo 2^64, found a transfer of the disk under way and left none.
    pub transfers: u64,

    /// What its steps punched, and printed on the line printer, and a line of each transfer that ended in them.
    pub papers: Papers,
}

/// A machine at the console, before its first step, with these papers.
pub fn console_with(form: &ConsoleForm, machine: Machine, papers: Papers) -> Console
    ensures { result ≡ spec.console_with form.now machine papers }
{
    Console {
        machine,
        has_capitals: form.has_capitals,
        transfers: 0,
        papers,
    }
}

impl Console {
    /// Whether its program waits for a key.
    pub(crate) fn is_waiting(&self) -> bool
        ensures { result ≡ spec.is_waiting self.now }
    {
        self.machine.asks_for_key(0)
    }

    /// Whether its program waits for a key, and no transfer is under way.
    pub(crate) fn is_at_wait(&self) -> bool
        ensures { result ≡ spec.is_at_wait self.now }
    {
        self.is_waiting() && !self.machine.disk().is_busy()
    }
}

impl TerminalMachine for Console {
    ghost use Rattle.drive_files.specs.Consoles.{console_acts};

    ghost acts = { console_acts };

    fn is_running(&self) -> bool {
        self.machine.is_running()
    }

    #[inline]
    fn asks_for_key(&self, since: u64) -> bool {
        self.machine.asks_for_key(since)
    }

    fn waits_for_key(&self) -> bool {
        self.machine.waits_for_key()
    }

    fn strike_key(&mut self, character: u8) {
        self.machine.key(key_of(self.has_capitals, character));
    }

    #[inline]
    fn make_step(&mut self) -> (Stepped, Option<Absence>) {
        let was_busy = self.machine.disk().is_busy();
        let parts = self.machine.step_by_parts();
        if was_busy && !self.machine.disk().is_busy() {
            self.transfers = self.transfers.wrapping_add(1);
        }
        self.papers.put(&parts.transfer, &self.machine);
        (parts.did, parts.absence)
    }

    #[inline]
    fn make_quick_steps(&mut self, since: u64, n: u64) -> u64 {
        let most = steps_before_look(since, self.machine.processor(), n);
        self.machine.run_unasked(most, is_late(since)) as u64
    }
}

/// The key that is struck for a character, whose top bit stays.
fn key_of(has_capitals: bool, character: u8) -> u8
    ensures { result ≡ spec.key_of has_capitals character }
{
    let letter = character % 0o200;
    if has_capitals && (letter >= b'a' && letter <= b'z') {
        return character - 0o40;
    }
    character
}
