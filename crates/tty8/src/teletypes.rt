ghost use Rattle.std.specs.Prelude.{◌≡◌, ◌<◌};
ghost use Rattle.tty8.specs.Teletype.{TeletypeState, idle, with_flags_clear, with_key, with_character_ended, is_requesting, keyboard_skips, keyboard_ac, keyboard_pulsed, printer_skips, character_of_pulse, printer_pulsed};

use std::marker::Model;
use word12::Word;

mod flags;

/// A Teletype: the keyboard's buffer and flag, the printer's flag, and whether the printer is busy
/// (Small Computer Handbook).
#[derive(Clone, Copy, PartialEq, Eq, Debug)]
pub struct Teletype {
    buffer: u8,
    keyboard_flag: bool,
    printer_flag: bool,
    busy: bool,
}

impl Model for Teletype {
    ghost use Rattle.std.specs.Prelude.{◌<◌};
    ghost use Rattle.tty8.specs.Teletype.{TeletypeState};

    ghost Value = { TeletypeState };

    ghost view = { λ t. record {
      buffer = t.buffer;
      keyboard_flag = t.keyboard_flag;
      printer_flag = t.printer_flag;
      busy = t.busy;
    } };

    ghost inverse = { λ s. record {
      buffer = s.buffer;
      keyboard_flag = s.keyboard_flag;
      printer_flag = s.printer_flag;
      busy = s.busy;
    } };
}

/// What a keyboard instruction answers.
#[derive(Clone, Copy, PartialEq, Eq, Debug)]
pub struct KeyboardAnswer {
    /// AC after the instruction.
    pub ac: Word,
    /// Whether the next instruction is skipped.
    pub skips: bool,
}

impl Teletype {
    /// A Teletype whose buffer is 0, with both flags clear, and not busy.
    pub fn new() -> Teletype
        ensures { result ≡ idle }
    {
        Teletype {
            buffer: 0,
            keyboard_flag: false,
            printer_flag: false,
            busy: false,
        }
    }

    /// A key is struck, of this eight-bit character: it goes to the buffer, also over one that was not read, and sets
    /// the keyboard flag.
    pub fn key(&mut self, character: u8)
        ensures { self.new ≡ with_key self.old character }
    {
        self.buffer = character;
        self.keyboard_flag = true;
    }

    /// The printer ends a character: where it is busy it no longer is, and the printer flag is set. Else nothing
    /// changes.
    pub fn end_character(&mut self)
        ensures { self.new ≡ with_character_ended self.old }
    {
        if self.busy {
            self.printer_flag = true;
            self.busy = false;
        }
    }

    /// Both flags are cleared, and the printer is no longer busy. The keyboard's buffer stays.
    pub fn clear(&mut self)
        ensures { self.new ≡ with_flags_clear self.old }
    {
        let buffer = self.buffer;
        *self = Teletype::new();
        self.buffer = buffer;
    }

    /// A keyboard instruction, 6030 to 6037, of these pulses (the last octal digit; only its three bits count) and
    /// this AC.
    ///
    /// Pulse 1 skips if the keyboard flag is set; 2 clears AC and the flag; 4 ors the buffer into AC bits 4 to 11
    /// (Small Computer Handbook).
    #[inline]
    pub fn keyboard(&mut self, pulses: u8, ac: Word) -> KeyboardAnswer
        ensures state { self.new ≡ keyboard_pulsed self.old pulses }
        ensures ac { result.ac ≡ keyboard_ac self.old pulses ac }
        ensures skips { result.skips ≡ keyboard_skips self.old pulses }
        ensures range { result.ac < 0o10000 }
    {
        let skips = pulses % 2 == 1 && self.keyboard_flag;
        let clears = pulses / 2 % 2 == 1;
        let mut ac = ac;
        if clears {
            ac = Word::ZERO;
            self.keyboard_flag = false;
        }
        if pulses / 4 % 2 == 1 {
            ac = ac.or(Word::low(u16::from(self.buffer)));
        }
        KeyboardAnswer { ac, skips }
    }

    /// Whether a printer instruction, 6040 to 6047, of these pulses skips: pulse 1 does so if the printer flag is set
    /// as the instruction begins (Small Computer Handbook).
    #[inline]
    pub fn printer_skips(&self, pulses: u8) -> bool
        ensures { result ≡ printer_skips self.now pulses }
    {
        pulses % 2 == 1 && self.printer_flag
    }

    /// A printer instruction, 6040 to 6047, of these pulses (the last octal digit; only its three bits count) and
    /// this AC: the character that it prints.
    ///
    /// Pulse 2 clears the printer flag (Small Computer Handbook). Pulse 4 prints AC bits 4 to 11 at once, also where
    /// the printer is busy, and makes it busy (this project's profile).
    #[inline]
    pub fn printer(&mut self, pulses: u8, ac: Word) -> Option<u8>
        ensures state { self.new ≡ printer_pulsed self.old pulses }
        ensures character { result ≡ character_of_pulse pulses ac }
    {
        if pulses / 2 % 2 == 1 {
            self.printer_flag = false;
        }
        let prints = pulses / 4 % 2 == 1;
        if prints {
            self.busy = true;
            Some((ac.get() % 256) as u8)
        } else {
            None
        }
    }

    /// Whether an interrupt is requested: either flag is set.
    #[inline]
    pub fn requests(&self) -> bool
        ensures { result ≡ is_requesting self.now }
    {
        self.keyboard_flag || self.printer_flag
    }
}
