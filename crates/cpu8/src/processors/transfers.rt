//! The IOT instructions.

ghost use Rattle.std.specs.Prelude.{◌≡◌, ◌/◌, ◌%◌, ◌<◌, true, bit_or};
ghost use Rattle.cpu8.specs.Transfer.{ion_row, interrupts_row, keyboard_row, printer_row, cdf_row, cif_row, read_row, fields_row, transfer_row};

use super::Processor;
use crate::Stepped;
use crate::decoding::{Device, device_of, field_of, pulses_of};
use crate::outcomes::RAN;
use word12::Word;

impl Processor {
    /// An IOT of this word.
    #[inline(always)]
    pub(super) fn transfer(&mut self, word: Word) -> Stepped
        ensures state { self.new ≡ (transfer_row self.old word).0 }
        ensures answer { result ≡ (transfer_row self.old word).1 }
    {
        match device_of(word) {
            Device::Interrupts => self.control_interrupts(word),
            Device::Keyboard => self.read_keyboard(word),
            Device::Printer => return self.print(word),
            Device::Fields => self.control_fields(word),
            Device::Other => self.advance(),
        }
        RAN
    }

    #[inline(always)]
    pub(super) fn control_interrupts(&mut self, word: Word)
        ensures { self.new ≡ interrupts_row self.old word }
    {
        match pulses_of(word) {
            1 => self.ion(),
            2 => {
                self.advance();
                self.interrupts_on = false;
            }
            _ => self.advance(),
        }
    }

    #[inline(always)]
    fn ion(&mut self)
        ensures { self.new ≡ ion_row self.old }
    {
        self.advance();
        if !self.interrupts_on {
            self.interrupts_on = true;
            self.waiting = true;
        }
    }

    #[inline(always)]
    pub(super) fn read_keyboard(&mut self, word: Word)
        ensures { self.new ≡ keyboard_row self.old word }
    {
        let answer = self.teletype.keyboard(pulses_of(word), self.ac);
        self.skip(answer.skips);
        self.ac = answer.ac;
    }

    #[inline(always)]
    pub(super) fn print(&mut self, word: Word) -> Stepped
        ensures state { self.new ≡ (printer_row self.old word).0 }
        ensures answer { result ≡ (printer_row self.old word).1 }
    {
        let pulses = pulses_of(word);
        let skips = self.teletype.printer_skips(pulses);
        self.skip(skips);
        let printed = self.teletype.printer(pulses, self.ac);
        Stepped::Ran { printed }
    }

    #[inline(always)]
    pub(super) fn control_fields(&mut self, word: Word)
        ensures { self.new ≡ fields_row self.old word }
    {
        let field = field_of(word);
        match pulses_of(word) {
            1 => self.cdf(field),
            2 => self.cif(field),
            3 => {
                self.cif(field);
                self.data_field = field;
            }
            4 => self.read_fields(field),
            _ => self.advance(),
        }
    }

    #[inline(always)]
    pub(super) fn cdf(&mut self, field: u8)
        requires { field < 8 }
        ensures { self.new ≡ cdf_row self.old field }
    {
        self.advance();
        self.data_field = field;
    }

    #[inline(always)]
    fn cif(&mut self, field: u8)
        requires { field < 8 }
        ensures { self.new ≡ cif_row self.old field }
    {
        self.advance();
        self.instruction_buffer = field;
        self.held_off = true;
    }

    #[inline(always)]
    fn read_fields(&mut self, number: u8)
        ensures { self.new ≡ read_row self.old number }
    {
        self.advance();
        match number {
            1 => self.or_into_ac(8 * self.data_field),
            2 => self.or_into_ac(8 * self.instruction_field),
            3 => self.or_into_ac(self.save_field),
            4 => self.restore_fields(),
            _ => {}
        }
    }

    #[inline(always)]
    pub(super) fn or_into_ac(&mut self, bits: u8)
        ensures { self.new ≡ record self.old { ac = bit_or self.old.ac bits } }
    {
        self.ac = self.ac.or(Word::low(u16::from(bits)));
    }

    #[inline(always)]
    fn restore_fields(&mut self)
        ensures { self.new ≡ record self.old {
          instruction_buffer = self.old.save_field / 8;
          data_field = self.old.save_field % 8;
          held_off = true;
        } }
    {
        self.instruction_buffer = self.save_field / 8;
        self.data_field = self.save_field % 8;
        self.held_off = true;
    }
}
