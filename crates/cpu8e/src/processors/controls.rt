//! The instructions 6000 to 6007.

ghost use Rattle.std.specs.Prelude.{◌≡◌, ◌<◌};
ghost use Rattle.cpu8e.specs.State.{save_field};
ghost use Rattle.cpu8e.specs.Control.{caf_row, control_row, flags_word, rtf_row};

use super::Processor;
use crate::base::transfers::pulses_of;
use tty8::Teletype;
use word12::Word;

impl Processor {
    #[inline(always)]
    pub(super) fn control(&mut self, word: Word)
        ensures { self.new ≡ control_row self.old word }
    {
        match pulses_of(word) {
            0 => {
                let on = self.base.interrupts_on;
                self.base.skip(on);
                self.base.interrupts_on = false;
            }
            3 => {
                let requested = self.is_requested();
                self.base.skip(requested);
            }
            4 => {
                let flags = self.flags_word();
                self.base.advance();
                self.base.ac = flags;
            }
            5 => self.restore_flags(),
            7 => self.clear_all_flags(),
            _ => self.base.control_interrupts(word),
        }
    }

    /// The save field, of seven bits.
    #[inline(always)]
    pub(crate) fn save_field(&self) -> u8
        ensures value { result ≡ save_field self.now }
        ensures range { result < 0o200 }
    {
        if self.saved_user_flag {
            0o100 + self.base.save_field
        } else {
            self.base.save_field
        }
    }

    /// What GTF gives.
    fn flags_word(&self) -> Word
        ensures value { result ≡ flags_word self.now }
        ensures range { result < 0o10000 }
    {
        let requested = if self.is_requested() { 0o1000 } else { 0 };
        let on = if self.base.interrupts_on { 0o200 } else { 0 };
        Word::low(0o4000 * u16::from(self.base.l) + requested + on + u16::from(self.save_field()))
    }

    /// RTF.
    fn restore_flags(&mut self)
        ensures { self.new ≡ rtf_row self.old }
    {
        let flags = self.base.ac.get();
        self.base.advance();
        self.base.l = (flags / 0o4000) as u8;
        self.base.instruction_buffer = (flags / 8 % 8) as u8;
        self.base.data_field = (flags % 8) as u8;
        self.base.interrupts_on = true;
        self.base.held_off = true;
        self.user_buffer = flags / 0o100 % 2 == 1;
    }

    /// CAF.
    fn clear_all_flags(&mut self)
        ensures { self.new ≡ caf_row self.old }
    {
        self.base.advance();
        self.base.ac = Word::ZERO;
        self.base.l = 0;
        self.base.interrupts_on = false;
        self.base.teletype = Teletype::new();
        self.user_request = false;
        self.console_enabled = true;
    }
}
