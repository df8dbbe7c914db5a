//! The IOT instructions that are as on the 8/I.

ghost use Rattle.std.specs.Prelude.{◌≡◌, ◌≢◌, ◌<◌, bit_or};
ghost use Rattle.cpu8.specs.Reference.{after_fetch};
ghost use Rattle.cpu8.specs.Decoding.{pulses_of, field_of};
ghost use Rattle.cpu8.specs.Transfer.{interrupts_row, keyboard_row, printer_row, cif_row, fields_row, rmf_row};

use super::Base;
use cpu8::Stepped;
use word12::Word;

impl Base {
    /// ION (6001), IOF (6002), or nothing.
    #[inline(always)]
    pub(crate) fn control_interrupts(&mut self, word: Word)
        ensures { self.new ≡ interrupts_row self.old word }
    {
        self.advance();
        match pulses_of(word) {
            1 if !self.interrupts_on => {
                self.interrupts_on = true;
                self.waiting = true;
            }
            2 => self.interrupts_on = false,
            _ => {}
        }
    }

    #[inline(always)]
    pub(crate) fn read_keyboard(&mut self, word: Word)
        ensures { self.new ≡ keyboard_row self.old word }
    {
        let answer = self.teletype.keyboard(pulses_of(word), self.ac);
        self.skip(answer.skips);
        self.ac = answer.ac;
    }

    #[inline(always)]
    pub(crate) fn print(&mut self, word: Word) -> Stepped
        ensures state { self.new ≡ (printer_row self.old word).0 }
        ensures answer { result ≡ (printer_row self.old word).1 }
    {
        let pulses = pulses_of(word);
        let skips = self.teletype.printer_skips(pulses);
        self.skip(skips);
        let printed = self.teletype.printer(pulses, self.ac);
        Stepped::Ran { printed }
    }

    /// CDF (62N1), CIF (62N2), both, or nothing.
    #[inline(always)]
    pub(crate) fn change_fields(&mut self, word: Word)
        requires { pulses_of word ≢ 4 }
        ensures { self.new ≡ fields_row self.old word }
    {
        let field = field_of(word);
        match pulses_of(word) {
            1 => {
                self.advance();
                self.data_field = field;
            }
            2 => self.cif(field),
            3 => {
                self.cif(field);
                self.data_field = field;
            }
            _ => self.advance(),
        }
    }

    #[inline(always)]
    fn cif(&mut self, field: u8)
        requires { field < 8 }
        ensures { self.new ≡ cif_row self.old field }
    {
        self.advance();
        self.instruction_buffer = field;
        self.held_off = true;
    }

    /// PC is advanced, and these bits are or'ed into AC.
    #[inline(always)]
    pub(crate) fn or_into_ac(&mut self, bits: u8)
        ensures { self.new ≡ record (after_fetch self.old) { ac = bit_or self.old.ac bits } }
    {
        self.advance();
        self.ac = self.ac.or(Word::low(u16::from(bits)));
    }

    /// RMF (6244) without the user buffer.
    #[inline(always)]
    pub(crate) fn restore_fields(&mut self)
        ensures { self.new ≡ rmf_row self.old }
    {
        self.advance();
        self.instruction_buffer = self.save_field / 8;
        self.data_field = self.save_field % 8;
        self.held_off = true;
    }
}

/// The pulses of an IOT: its last octal digit.
#[inline(always)]
pub(crate) fn pulses_of(word: Word) -> u8
    ensures value { result ≡ pulses_of word }
    ensures range { result < 8 }
{
    (word.get() % 0o10) as u8
}

/// The field that an IOT of the memory extension names.
#[inline(always)]
pub(crate) fn field_of(word: Word) -> u8
    ensures value { result ≡ field_of word }
    ensures range { result < 8 }
{
    (word.get() / 0o10 % 0o10) as u8
}
