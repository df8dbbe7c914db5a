//! The instructions 6030 to 6047.

ghost use Rattle.std.specs.Prelude.{◌≡◌, true, false};
ghost use Rattle.cpu8.specs.Reference.{after_fetch};
ghost use Rattle.cpu8e.specs.Console.{keyboard_row, printer_row};

use super::Processor;
use crate::base::Base;
use crate::base::transfers::pulses_of;
use cpu8::Stepped;
use word12::Word;

impl Processor {
    #[inline(always)]
    pub(super) fn read_keyboard(&mut self, word: Word)
        ensures { self.new ≡ keyboard_row self.old word }
    {
        match pulses_of(word) {
            0 => self.base.clear_keyboard_flag(),
            5 => {
                self.console_enabled = self.base.ac.get() % 2 == 1;
                self.base.advance();
            }
            3 | 7 => self.base.advance(),
            _ => self.base.read_keyboard(word),
        }
    }

    #[inline(always)]
    pub(super) fn print(&mut self, word: Word) -> Stepped
        ensures state { self.new ≡ (printer_row self.old word).0 }
        ensures answer { result ≡ (printer_row self.old word).1 }
    {
        match pulses_of(word) {
            0 => self.base.set_printer_flag(),
            5 => {
                let requests = self.console_enabled && self.base.teletype.requests();
                self.base.skip(requests);
            }
            3 | 7 => self.base.advance(),
            _ => return self.base.print(word),
        }
        Stepped::Ran { printed: None }
    }
}

impl Base {
    /// KCF.
    fn clear_keyboard_flag(&mut self)
        ensures { self.new ≡ record (after_fetch self.old) { teletype = record self.old.teletype { keyboard_flag = false } } }
    {
        self.advance();
        let _answer = self.teletype.keyboard(2, Word::ZERO);
    }

    /// TFL. The Teletype sets its flag where a character ends, so one begins and ends here, with none printed. Where the printer
    /// was busy it is so again.
    fn set_printer_flag(&mut self)
        ensures { self.new ≡ record (after_fetch self.old) { teletype = record self.old.teletype { printer_flag = true } } }
    {
        self.advance();
        let busy = self.teletype.is_busy();
        let _begun = self.teletype.printer(4, Word::ZERO);
        self.teletype.end_character();
        if busy {
            let _again = self.teletype.printer(4, Word::ZERO);
        }
    }
}
