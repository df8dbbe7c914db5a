//! The devices beside console and disk: a PC8-E reader and punch of paper tape, an LE8 line printer and a DK8-EA clock.

ghost use Rattle.std.specs.Prelude.{◌≡◌, ℕ, ◌≤◌, Some};
ghost use Rattle.pdp8e.specs.Devices as spec;
ghost use Rattle.pdp8e.specs.Devices.{new_devices, with_tape, with_paper, with_clock, devices_cleared, devices_started, devices_ended, instructions_after};
ghost use Rattle.pdp8e.specs.Lasting.{DevicesLast};

use std::marker::Model;

mod clocks;
mod instructions;
mod readers;
mod writers;

use clocks::Clock;
pub(crate) use instructions::is_device_word;
use readers::Reader;
use writers::Writer;

/// Reader, punch, line printer and clock (Small Computer Handbook). Nothing here takes memory.
#[derive(Drop)]
pub(crate) struct Devices {
    reader: Reader,
    punch: Writer,
    is_tape_enabled: bool,
    printer: Writer,
    is_printer_enabled: bool,
    has_paper: bool,
    clock: Clock,
}

impl Model for Devices {
    ghost use Rattle.pdp8e.specs.Devices.{DevicesState};

    ghost Value = { DevicesState };

    ghost view = { λ d. record {
      reader = d.reader;
      punch = d.punch;
      tape_enabled = d.is_tape_enabled;
      printer = d.printer;
      printer_enabled = d.is_printer_enabled;
      has_paper = d.has_paper;
      clock = d.clock;
    } };
}

impl Devices {
    /// Devices with no tape to read, no paper and no clock.
    pub(crate) fn new() -> Devices
        ensures { result ≡ new_devices }
    {
        Devices {
            reader: Reader::new(),
            punch: Writer::new(),
            is_tape_enabled: true,
            printer: Writer::new(),
            is_printer_enabled: true,
            has_paper: false,
            clock: Clock::new(),
        }
    }

    /// A tape of these frames is put into the reader.
    pub(crate) fn put_tape(&mut self, frames: Vec<u8>)
        ensures { self.new ≡ with_tape self.old frames.items }
    {
        self.reader.put_tape(frames);
    }

    /// Paper is put into the line printer.
    pub(crate) fn put_paper(&mut self)
        ensures { self.new ≡ with_paper self.old }
    {
        self.has_paper = true;
    }

    /// There is a clock, which ticks after each so many instructions.
    pub(crate) fn put_clock(&mut self, period: u64)
        ensures { self.new ≡ with_clock self.old period }
    {
        self.clock.put(period);
    }

    /// Clears flags and buffers, as CAF does. The tape stays where it is, and the clock goes on.
    pub(crate) fn clear(&mut self)
        ensures { self.new ≡ devices_cleared self.old }
    {
        self.reader.clear();
        self.punch = Writer::new();
        self.is_tape_enabled = true;
        self.printer = Writer::new();
        self.is_printer_enabled = true;
        self.clock.clear();
    }

    /// Clears them, and the clock begins to count anew.
    pub(crate) fn start(&mut self)
        ensures { self.new ≡ devices_started self.old }
    {
        self.clear();
        self.clock.restart();
    }

    /// What comes in the beginning of a step: a frame that was asked for, the end of what was written, and the tick of the clock.
    pub(crate) fn end(&mut self)
        ensures { self.new ≡ devices_ended self.old }
    {
        self.reader.end();
        self.punch.end();
        self.printer.end();
        self.clock.end();
    }

    /// So many instructions pass for the clock.
    pub(crate) fn pass(&mut self, count: u64)
        ensures { self.new ≡ instructions_after self.old count }
    {
        self.clock.pass(count);
    }

    /// A number of instructions in which the clock doesn't tick and nothing else ends, if there is such a number: the clock's time left, or
    /// `most`.
    pub(crate) fn time_left(&self, most: u64) -> Option<u64>
        ensures range { (count : ℕ) → result ≡ Some count → count ≤ most }
        ensures lasts { (count : ℕ) → result ≡ Some count → DevicesLast self.now count }
    {
        if self.reader.is_asked || self.punch.writing.is_some() || self.printer.writing.is_some() {
            return None;
        }
        match self.clock.time_left {
            Some(time) => Some(time.min(most)),
            None => Some(most),
        }
    }

    /// Whether a device requests an interrupt.
    pub(crate) fn are_requesting(&self) -> bool
        ensures { result ≡ spec.are_requesting self.now }
    {
        (self.is_tape_enabled && (self.reader.flag || self.punch.flag))
            || ((self.is_printer_enabled && self.printer.flag)
                || (self.clock.is_enabled && self.clock.flag))
    }

    /// Whether one will do so after the beginning of the next step.
    pub(crate) fn will_request(&self) -> bool
        ensures { result ≡ spec.are_requesting (devices_ended self.now) }
    {
        (self.is_tape_enabled && (self.reader.will_flag() || self.punch.will_flag()))
            || ((self.is_printer_enabled && self.printer.will_flag())
                || (self.clock.is_enabled && self.clock.will_flag()))
    }

    /// Whether nothing ends by itself, and no clock is there.
    pub(crate) fn are_idle(&self) -> bool
        ensures { result ≡ spec.are_idle self.now }
    {
        !self.reader.is_asked
            && self.punch.writing.is_none()
            && self.printer.writing.is_none()
            && self.clock.time_left.is_none()
    }

    /// Whether nothing is under way, and no clock may interrupt.
    pub(crate) fn are_at_rest(&self) -> bool
        ensures { result ≡ spec.are_at_rest self.now }
    {
        !self.reader.is_asked
            && self.punch.writing.is_none()
            && self.printer.writing.is_none()
            && !(self.clock.is_enabled && self.clock.time_left.is_some())
    }

    /// The frame that the last step punched, if it did.
    pub(crate) fn punched_frame(&self) -> Option<u8>
        ensures { result ≡ self.now.punch.writing }
    {
        self.punch.writing
    }

    /// The character that the last step printed on the line printer, if it did.
    pub(crate) fn printed_character(&self) -> Option<u8>
        ensures { result ≡ self.now.printer.writing }
    {
        self.printer.writing
    }
}
