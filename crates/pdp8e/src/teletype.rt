//! The machine at a terminal.

ghost use Rattle.std.specs.Prelude.{◌≡◌};
ghost use Rattle.pdp8e.specs.Absences.{absence_at, absence_of_step};
ghost use Rattle.pdp8e.specs.Asks.{is_ending, is_interrupting, is_at_rest};
ghost use Rattle.pdp8e.specs.Runs.{printing_step, with_printer_done};
ghost use Rattle.pdp8e.specs.Step.{move_in, step};

use crate::Machine;
use cpu8::Stepped;
use rk8e::Moved;
use terminal8::Absence;
use terminal8e::{TerminalMachine, asks_for_key, is_late, steps_before_look, waits_for_key};

impl TerminalMachine for Machine {
    ghost use Rattle.pdp8e.specs.Terminal.{terminal_acts};

    ghost acts = { terminal_acts };

    fn is_running(&self) -> bool {
        self.processor().is_running()
    }

    /// It does where its processor does, but not where a function of the disk ends in the next step, or another device interrupts.
    #[inline]
    fn asks_for_key(&self, since: u64) -> bool {
        asks_for_key(since, self.processor()) && !(is_ending(self) || is_interrupting(self))
    }

    /// It waits where its processor does, and disk and devices are at rest.
    fn waits_for_key(&self) -> bool {
        waits_for_key(self.processor()) && is_at_rest(self)
    }

    fn strike_key(&mut self, character: u8) {
        self.key(character);
    }

    #[inline]
    fn make_step(&mut self) -> (Stepped, Option<Absence>) {
        let parts = self.step_by_parts();
        (parts.did, parts.absence)
    }

    #[inline]
    fn make_quick_steps(&mut self, since: u64, n: u64) -> u64 {
        let most = steps_before_look(since, self.processor(), n);
        self.run_unasked(most, is_late(since)) as u64
    }
}

/// What a step comes to.
#[derive(Clone, Copy)]
pub struct StepParts {
    pub did: Stepped,

    /// What a transfer moved, if one ended in the beginning of the step.
    pub transfer: Option<Moved>,

    /// The IOT of a device that isn't there, if the step was one.
    pub absence: Option<Absence>,
}

impl Machine {
    /// A step, before which the printer ends its character where it is busy. It is made by its parts.
    #[inline]
    pub fn step_by_parts(&mut self) -> StepParts
        ensures state { self.new ≡ (printing_step self.old).0 }
        ensures did { result.did ≡ (printing_step self.old).1 }
        ensures transfer { result.transfer ≡ move_in (with_printer_done self.old) }
        ensures absence { result.absence ≡ absence_at self.old }
    {
        if self.processor().is_busy() {
            self.end_character();
        }
        make_parts(self)
    }
}

/// A step by its parts.
#[inline]
fn make_parts(machine: &mut Machine) -> StepParts
    ensures state { machine.new ≡ (step machine.old).0 }
    ensures did { result.did ≡ (step machine.old).1 }
    ensures transfer { result.transfer ≡ move_in machine.old }
    ensures absence { result.absence ≡ absence_of_step machine.old }
{
    let transfer = machine.begin_step();
    let absence = machine.absence();
    let did = machine.finish_step();
    StepParts {
        did,
        transfer,
        absence,
    }
}

/// Whether a function of the disk ends in the beginning of the next step.
fn is_ending(machine: &Machine) -> bool
    ensures { result ≡ is_ending machine.now.disk }
{
    match machine.disk().least_time() {
        Some(time) => time == 0,
        None => false,
    }
}

/// Whether an interrupt comes in the next step by what a device beside the disk has done by then.
fn is_interrupting(machine: &Machine) -> bool
    ensures { result ≡ is_interrupting machine.now }
{
    let processor = machine.processor();
    processor.interrupts_on()
        && !processor.is_waiting()
        && !processor.is_held_off()
        && machine.will_request()
}

/// Whether no transfer is under way. Where interrupts are on, nor is anything else, and no clock may interrupt.
fn is_at_rest(machine: &Machine) -> bool
    ensures { result ≡ is_at_rest machine.now }
{
    let disk = machine.disk();
    let is_still = disk.least_time().is_none() && machine.are_devices_at_rest();
    !disk.is_busy() && (!machine.processor().interrupts_on() || is_still)
}
