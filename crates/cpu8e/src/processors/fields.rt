//! The instructions 6200 to 6277.

ghost use Rattle.std.specs.Prelude.{◌≡◌};
ghost use Rattle.cpu8e.specs.Fields.{fields_row, read_row, user_buffer_row};

use super::Processor;
use crate::base::transfers::{field_of, pulses_of};
use word12::Word;

impl Processor {
    #[inline(always)]
    pub(super) fn extend(&mut self, word: Word)
        ensures { self.new ≡ fields_row self.old word }
    {
        if pulses_of(word) == 4 {
            self.read_fields(field_of(word));
        } else {
            self.base.change_fields(word);
        }
    }

    /// The instructions 62N4, by N.
    #[inline(always)]
    fn read_fields(&mut self, number: u8)
        ensures { self.new ≡ read_row self.old number }
    {
        match number {
            0 => {
                self.base.advance();
                self.user_request = false;
            }
            1 => {
                let field = self.base.data_field;
                self.base.or_into_ac(8 * field);
            }
            2 => {
                let field = self.base.instruction_field;
                self.base.or_into_ac(8 * field);
            }
            3 => {
                let saved = self.save_field();
                self.base.or_into_ac(saved);
            }
            4 => {
                self.base.restore_fields();
                self.user_buffer = self.saved_user_flag;
            }
            5 => {
                let requested = self.user_request;
                self.base.skip(requested);
            }
            _ => self.set_user_buffer(number == 7),
        }
    }

    /// CUF or SUF.
    #[inline(always)]
    fn set_user_buffer(&mut self, flag: bool)
        ensures { self.new ≡ user_buffer_row self.old flag }
    {
        self.base.advance();
        self.base.held_off = true;
        self.user_buffer = flag;
    }
}
