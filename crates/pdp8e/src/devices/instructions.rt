//! The instructions of the four devices.

ghost use Rattle.std.specs.Prelude.{◌≡◌, ◌%◌};
ghost use Rattle.pdp8e.specs.DeviceInstructions as spec;
ghost use Rattle.pdp8e.specs.DeviceInstructions.{reader_row, reader_ac, punch_row, printer_row, devices_row, devices_ac, devices_skip};

use super::{Devices, Reader};
use word12::Word;

/// IOTs of reader, punch, clock and line printer, without their last digit.
const READER: u16 = 0o601;

const PUNCH: u16 = 0o602;

const CLOCK: u16 = 0o613;

const PRINTER: u16 = 0o666;

/// What an instruction answers.
#[derive(Clone, Copy)]
pub(crate) struct DeviceAnswer {
    /// AC after the instruction.
    pub(crate) ac: Word,
    /// Whether the next instruction is skipped.
    pub(crate) skips: bool,
}

/// Whether a word is an IOT of one of them.
#[inline]
pub(crate) fn is_device_word(word: Word) -> bool
    ensures { result ≡ spec.is_device_word word }
{
    let device = word.get() / 8;
    device == READER || device == PUNCH || device == CLOCK || device == PRINTER
}

impl Devices {
    /// The IOT of this word, with this AC.
    pub(crate) fn do_instruction(&mut self, word: Word, ac: Word) -> DeviceAnswer
        ensures state { self.new ≡ devices_row self.old word ac }
        ensures ac { result.ac ≡ devices_ac self.old word ac }
        ensures skips { result.skips ≡ devices_skip self.old word }
    {
        let pulses = (word.get() % 8) as u8;
        let skips = self.skip(word, pulses);
        let answer = self.ac_after(word, pulses, ac);
        self.change_state(word, pulses, ac);
        DeviceAnswer { ac: answer, skips }
    }

    /// What an instruction does to the devices.
    fn change_state(&mut self, word: Word, pulses: u8, ac: Word)
        requires { pulses ≡ word % 8 }
        ensures { self.new ≡ devices_row self.old word ac }
    {
        match word.get() / 8 {
            READER => self.control_reader(pulses),
            PUNCH => self.control_punch(pulses, ac),
            CLOCK => self.clock.do_instruction(pulses, ac),
            _ => self.control_printer(pulses, ac),
        }
    }

    /// Whether an instruction skips.
    fn skip(&self, word: Word, pulses: u8) -> bool
        requires { pulses ≡ word % 8 }
        ensures { result ≡ devices_skip self.now word }
    {
        match word.get() / 8 {
            READER => pulses == 1 && self.reader.flag,
            PUNCH => pulses == 1 && self.punch.flag,
            CLOCK => (pulses == 3 || pulses == 7) && self.clock.flag,
            _ => (pulses == 1 && self.printer.flag) || (pulses == 3 && !self.has_paper),
        }
    }

    /// AC after an instruction.
    fn ac_after(&self, word: Word, pulses: u8, ac: Word) -> Word
        requires { pulses ≡ word % 8 }
        ensures { result ≡ devices_ac self.now word ac }
    {
        if word.get() / 8 == READER {
            return self.reader.ac_after(pulses, ac);
        }
        ac
    }

    /// RPE (6010), RRB (6012), RFC (6014) and RCC (6016).
    fn control_reader(&mut self, pulses: u8)
        ensures { self.new ≡ reader_row self.old pulses }
    {
        match pulses {
            0 => self.is_tape_enabled = true,
            2 => self.reader.flag = false,
            4 | 6 => self.reader.ask(),
            _ => {}
        }
    }

    /// PCE (6020), PCF (6022), PPC (6024) and PLS (6026).
    fn control_punch(&mut self, pulses: u8, ac: Word)
        ensures { self.new ≡ punch_row self.old pulses ac }
    {
        if pulses == 0 {
            self.is_tape_enabled = false;
        } else {
            let frame = (ac.get() % 0o400) as u8;
            self.punch.do_instruction(pulses, frame);
        }
    }

    /// PCLF (6662), PSTB (6664), PSIE (6665), both of the first two (6666), and PCIE (6667).
    fn control_printer(&mut self, pulses: u8, ac: Word)
        ensures { self.new ≡ printer_row self.old pulses ac }
    {
        match pulses {
            5 => self.is_printer_enabled = true,
            7 => self.is_printer_enabled = false,
            _ => {
                let character = (ac.get() % 0o200) as u8;
                self.printer.do_instruction(pulses, character);
            }
        }
    }
}

impl Reader {
    /// AC after an instruction: RRB and RCC or the buffer into it.
    fn ac_after(&self, pulses: u8, ac: Word) -> Word
        ensures { result ≡ reader_ac self.now pulses ac }
    {
        match pulses {
            2 | 6 => ac.or(Word::low(u16::from(self.buffer))),
            _ => ac,
        }
    }
}
