ghost use Rattle.std.specs.Prelude.{◌≡◌, ◌<◌, true, false, None, Some};
ghost use Rattle.rk8e.specs.State.{drive_of, with_drive, with_pack};
ghost use Rattle.rk8e.specs.Transfer.{after_ends};
ghost use Rattle.cpu8e.specs.State.{with_request};
ghost use Rattle.cpu8e.specs.Step.{next_word};
ghost use Rattle.pdp8e.specs.State.{machine_of, new_machine, after_start, key_struck, printer_done, switches_set, with_tape, with_paper, with_clock, IsJoined, is_any_requesting};
ghost use Rattle.pdp8e.specs.State as spec;
ghost use Rattle.pdp8e.specs.Devices.{are_at_rest, are_requesting, devices_ended};
ghost use Rattle.pdp8e.specs.Boot.{booting};
ghost use Rattle.pdp8e.specs.Absences.{absence_in};
ghost use Rattle.pdp8e.specs.Step.{at_beginning, after_beginning, rest_of_step, going_on, is_for_devices, move_in, step};

use crate::devices::Devices;
use core_load::Core;
use cpu8::Stepped;
use cpu8e::Machine as Processor;
use cpu8e::laws::request_stays;
use rk8e::{Disk, Moved, Pack};
use std::marker::Model;
use terminal8::Absence;
use terminal8e::absence_at;
use word12::{Cell, Word};

mod instructions;
mod runs;

/// A PDP-8/E with 0o100000 words of core, a console, an RK8-E disk control with four drives, a PC8-E reader and punch, an LE8 line printer
/// and a DK8-EA clock (Small Computer Handbook).
#[derive(Drop)]
pub struct Machine {
    processor: Processor,
    disk: Disk,
    devices: Devices,
    /// Whether nothing is under way anywhere, and there is no clock.
    is_quiet: bool,
}

impl Model for Machine {
    ghost use Rattle.std.specs.Prelude.{◌≡◌};
    ghost use Rattle.pdp8e.specs.State.{Pdp8e, is_any_requesting};
    ghost use Rattle.pdp8e.specs.State as spec;

    ghost Value = { Pdp8e };

    ghost view = { λ m. record { processor = m.processor; disk = m.disk; devices = m.devices } };

    ghost invariant = { λ m. (m.processor.device_request ≡ is_any_requesting m.disk m.devices)
        × (m.is_quiet ≡ spec.is_quiet m.disk m.devices) };
}

impl Machine {
    /// A machine with this core and this disk, stopped, with all registers and flags of the processor 0. It has no tape to read, no paper
    /// in its line printer, and no clock.
    pub fn new(core: Core, disk: Disk) -> Machine
        ensures { result ≡ new_machine core disk }
    {
        let mut processor = Processor::new(core);
        let devices = Devices::new();
        let is_quiet = join(&mut processor, &disk, &devices);
        Machine {
            processor,
            disk,
            devices,
            is_quiet,
        }
    }

    /// A machine that is to boot from drive 0. The bootstrap is laid over core at 00030 and 00031, a DLAG and a JMP to itself, and the
    /// machine starts there (RK8-E, Small Computer Handbook). It reads sector 0 to the cells from 00000 on.
    pub fn boot(mut core: Core, disk: Disk) -> Machine
        ensures { result ≡ booting core disk }
    {
        core.set(Cell::of(0o30), Word::low(0o6743));
        core.set(Cell::of(0o31), Word::low(0o5031));
        let mut machine = Machine::new(core, disk);
        machine.start(Cell::of(0o30));
        machine
    }

    /// Starts the machine at a cell, and clears disk and devices. Packs, locks, tape, core, MQ and the switches stay, and the clock counts
    /// from there (this project's profile).
    pub fn start(&mut self, cell: Cell)
        ensures { self.new ≡ after_start self.old cell }
    {
        self.processor.start(cell);
        self.disk.clear();
        self.devices.start();
        self.is_quiet = join(&mut self.processor, &self.disk, &self.devices);
    }

    /// A key is struck, of this eight-bit character.
    pub fn key(&mut self, character: u8)
        ensures { self.new ≡ key_struck self.old character }
    {
        self.processor.key(character);
    }

    /// The printer ends a character, if it has one.
    pub fn end_character(&mut self)
        ensures { self.new ≡ printer_done self.old }
    {
        self.processor.end_character();
    }

    /// Sets the switch register.
    pub fn switches(&mut self, word: Word)
        ensures { self.new ≡ switches_set self.old word }
    {
        self.processor.switches(word);
    }

    /// A tape of these frames is put into the reader, in place of what it has (PC8-E, Small Computer Handbook).
    pub fn put_tape(&mut self, frames: Vec<u8>)
        ensures { self.new ≡ with_tape self.old frames.items }
    {
        self.devices.put_tape(frames);
        self.is_quiet = join(&mut self.processor, &self.disk, &self.devices);
    }

    /// Paper is put into the line printer, so that PSKE doesn't skip (LE8, Small Computer Handbook).
    pub fn put_paper(&mut self)
        ensures { self.new ≡ with_paper self.old }
    {
        self.devices.put_paper();
        self.is_quiet = join(&mut self.processor, &self.disk, &self.devices);
    }

    /// There is a clock. It ticks after each so many instructions from here on, or from the next start (DK8-EA, Small Computer Handbook;
    /// that it counts instructions is this project's profile).
    pub fn put_clock(&mut self, period: u64)
        ensures { self.new ≡ with_clock self.old period }
    {
        self.devices.put_clock(period);
        self.is_quiet = join(&mut self.processor, &self.disk, &self.devices);
    }

    /// The frame that the last step punched, if it did.
    #[inline]
    pub fn punched_frame(&self) -> Option<u8>
        ensures { result ≡ self.now.devices.punch.writing }
    {
        self.devices.punched_frame()
    }

    /// The character of seven bits that the last step printed on the line printer, if it did.
    #[inline]
    pub fn printed_character(&self) -> Option<u8>
        ensures { result ≡ self.now.devices.printer.writing }
    {
        self.devices.printed_character()
    }

    /// Whether another device than the disk interrupts after the beginning of the next step, where interrupts are on.
    pub(crate) fn will_request(&self) -> bool
        ensures { result ≡ are_requesting (devices_ended self.now.devices) }
    {
        self.devices.will_request()
    }

    /// Whether nothing of these devices is under way, and no clock may interrupt.
    pub(crate) fn are_devices_at_rest(&self) -> bool
        ensures { result ≡ are_at_rest self.now.devices }
    {
        self.devices.are_at_rest()
    }

    /// The processor with core and console. It sees the request of disk and devices.
    #[inline]
    pub fn processor(&self) -> &Processor
        ensures processor { result.now ≡ self.now.processor }
        ensures request { IsJoined self.now }
    {
        &self.processor
    }

    /// The disk.
    #[inline]
    pub fn disk(&self) -> &Disk
        ensures { result.now ≡ self.now.disk }
    {
        &self.disk
    }

    /// Takes the pack out of a drive, 0 to 3, if it has one. All else stays.
    pub fn take_pack(&mut self, drive: u8) -> Option<Pack>
        ensures pack { result ≡ (drive_of self.old.disk drive).pack }
        ensures state { self.new ≡ machine_of self.old.processor
            (with_drive self.old.disk drive (with_pack (drive_of self.old.disk drive) None)) self.old.devices }
    {
        let pack = self.disk.take_pack(drive);
        self.is_quiet = join(&mut self.processor, &self.disk, &self.devices);
        pack
    }

    /// Puts a pack into a drive, 0 to 3, in place of what it has. All else stays.
    pub fn put_pack(&mut self, drive: u8, pack: Pack)
        ensures { self.new ≡ machine_of self.old.processor
            (with_drive self.old.disk drive (with_pack (drive_of self.old.disk drive) (Some pack))) self.old.devices }
    {
        self.disk.put_pack(drive, pack);
        self.is_quiet = join(&mut self.processor, &self.disk, &self.devices);
    }

    /// All functions of the disk that have no time left end, and what the devices do, as in the beginning of a step. What a transfer moved is
    /// answered (RK8-E, Small Computer Handbook).
    pub fn end_functions(&mut self) -> Option<Moved>
        ensures state { self.new ≡ at_beginning self.old }
        ensures moved { result ≡ (after_ends self.old.disk self.old.processor.base.core).moved }
    {
        let moved = self.disk.end(self.processor.core_mut());
        self.devices.end();
        self.is_quiet = join(&mut self.processor, &self.disk, &self.devices);
        moved
    }

    /// One step: nothing where the machine is stopped. Else what has no time left ends, and then comes an interrupt where a request is
    /// granted, or the instruction at PC in the instruction field (Small Computer Handbook). While nothing is under way on disk and
    /// devices it takes as long as a step of the processor alone.
    #[tactic(auto, unfolding(crate::specs::Step::step))]
    pub fn step(&mut self) -> Stepped
        ensures state { self.new ≡ (step self.old).0 }
        ensures answer { result ≡ (step self.old).1 }
    {
        if !self.processor.is_running() {
            return Stepped::Stopped;
        }
        let _moved = self.begin_step();
        self.go_on()
    }

    /// The beginning of a step: where the machine runs, all functions of the disk that have no time left end. What a transfer moved is
    /// answered. While nothing is under way on disk and devices it does nothing.
    #[inline]
    pub fn begin_step(&mut self) -> Option<Moved>
        ensures state { self.new ≡ after_beginning self.old }
        ensures moved { result ≡ move_in self.old }
    {
        if self.is_quiet {
            return None;
        }
        if !self.processor.is_running() {
            return None;
        }
        self.end_functions()
    }

    /// What the rest of a step does, if it is an IOT of a device that isn't there, and no interrupt. The beginning of the step is made. Disk,
    /// reader, punch, line printer and clock are there (Small Computer Handbook).
    #[inline]
    pub fn absence(&self) -> Option<Absence>
        ensures { result ≡ absence_in self.now }
    {
        if instructions::is_for_devices(self.next_word()) {
            return None;
        }
        absence_at(&self.processor)
    }

    /// The rest of a step: nothing where the machine is stopped, an interrupt, or an instruction.
    pub fn finish_step(&mut self) -> Stepped
        ensures state { self.new ≡ (rest_of_step self.old).0 }
        ensures answer { result ≡ (rest_of_step self.old).1 }
    {
        if !self.processor.is_running() {
            return Stepped::Stopped;
        }
        self.go_on()
    }

    /// A step of the processor alone, by which disk and devices stay as they are.
    #[inline(always)]
    fn step_processor(&mut self) -> Stepped
        requires running { self.old.processor.base.running ≡ true }
        requires quiet { spec.is_quiet self.old.disk self.old.devices ≡ true }
        requires other { is_for_devices (next_word self.old.processor) ≡ false }
        ensures state { self.new ≡ (going_on self.old).0 }
        ensures answer { result ≡ (going_on self.old).1 }
    {
        request_stays();
        self.processor.step()
    }

    /// The step after its beginning. While nothing is under way on disk and devices, most are the processor's alone.
    #[tactic(auto, unfolding(cpu8e::specs::Step::step))]
    fn go_on(&mut self) -> Stepped
        requires { self.old.processor.base.running ≡ true }
        ensures state { self.new ≡ (going_on self.old).0 }
        ensures answer { result ≡ (going_on self.old).1 }
    {
        let word = self.next_word();
        if self.is_quiet && !instructions::is_for_devices(word) {
            return self.step_processor();
        }
        if self.processor.grants_interrupt() {
            return self.processor.step();
        }
        self.execute(word)
    }

    /// The word of the next instruction.
    #[inline(always)]
    fn next_word(&self) -> Word
        ensures value { result ≡ next_word self.now.processor }
        ensures range { result < 0o10000 }
    {
        self.processor.core().get(self.processor.next_cell())
    }
}

/// The processor sees the request of disk and devices. The answer is whether nothing is under way there, and there is no clock.
fn join(processor: &mut Processor, disk: &Disk, devices: &Devices) -> bool
    ensures request { processor.new ≡ with_request processor.old (is_any_requesting disk.now devices.now) }
    ensures quiet { result ≡ spec.is_quiet disk.now devices.now }
{
    processor.request_interrupt(disk.is_requesting() || devices.are_requesting());
    disk.least_time().is_none() && devices.are_idle()
}
