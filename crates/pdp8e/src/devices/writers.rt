//! What writes: the punch, and the line printer.

ghost use Rattle.std.specs.Prelude.{◌≡◌};
ghost use Rattle.pdp8e.specs.Devices.{new_writer, writer_ended};
ghost use Rattle.pdp8e.specs.DeviceInstructions.{writer_row};

use std::marker::Model;

/// A punch or a line printer: what the last step wrote, and the flag.
#[derive(Clone, Copy)]
pub(super) struct Writer {
    pub(super) writing: Option<u8>,
    pub(super) flag: bool,
}

impl Model for Writer {
    ghost use Rattle.pdp8e.specs.Devices.{WriterState};

    ghost Value = { WriterState };

    ghost view = { λ w. record { writing = w.writing; flag = w.flag } };

    ghost inverse = { λ s. record { writing = s.writing; flag = s.flag } };
}

impl Writer {
    /// Nothing is written, and the flag is 0.
    pub(super) fn new() -> Writer
        ensures { result ≡ new_writer }
    {
        Writer {
            writing: None,
            flag: false,
        }
    }

    /// What the last step wrote is done.
    pub(super) fn end(&mut self)
        ensures { self.new ≡ writer_ended self.old }
    {
        if self.writing.is_some() {
            self.writing = None;
            self.flag = true;
        }
    }

    /// Whether the flag is 1 after the beginning of the next step.
    pub(super) fn will_flag(&self) -> bool
        ensures { result ≡ (writer_ended self.now).flag }
    {
        self.flag || self.writing.is_some()
    }

    /// An instruction of this last digit, with this frame or character: 2 makes the flag 0, 4 writes, and 6 does both.
    pub(super) fn do_instruction(&mut self, pulses: u8, character: u8)
        ensures { self.new ≡ writer_row self.old pulses character }
    {
        match pulses {
            2 => self.flag = false,
            4 => self.writing = Some(character),
            6 => {
                self.writing = Some(character);
                self.flag = false;
            }
            _ => {}
        }
    }
}
