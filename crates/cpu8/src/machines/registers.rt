//! The registers and flags, as a console shows them.

ghost use Rattle.std.specs.Prelude.{◌≡◌, ◌<◌};
ghost use Rattle.word12.specs.declared.sizes.TheConstants.{CORE};
ghost use Rattle.cpu8.specs.State.{next_cell};

use super::Machine;
use word12::{Cell, Word};

impl Machine {
    /// The accumulator.
    #[inline]
    pub fn ac(&self) -> Word
        ensures { result ≡ self.now.ac }
    {
        self.processor.ac
    }

    /// The link, 0 or 1.
    #[inline]
    pub fn l(&self) -> u8
        ensures value { result ≡ self.now.l }
        ensures range { result < 2 }
    {
        self.processor.l
    }

    /// The program counter: an address in the instruction field.
    #[inline]
    pub fn pc(&self) -> Word
        ensures { result ≡ self.now.pc }
    {
        self.processor.pc
    }

    /// The cell of the next instruction: PC in the instruction field.
    #[inline]
    pub fn next_cell(&self) -> Cell
        ensures value { result ≡ next_cell self.now }
        ensures range { result < CORE }
    {
        self.processor.next_cell()
    }

    /// The instruction field, 0 to 7.
    #[inline]
    pub fn instruction_field(&self) -> u8
        ensures value { result ≡ self.now.instruction_field }
        ensures range { result < 8 }
    {
        self.processor.instruction_field
    }

    /// The instruction buffer, 0 to 7: the instruction field from the next JMP or JMS on.
    #[inline]
    pub fn instruction_buffer(&self) -> u8
        ensures value { result ≡ self.now.instruction_buffer }
        ensures range { result < 8 }
    {
        self.processor.instruction_buffer
    }

    /// The data field, 0 to 7.
    #[inline]
    pub fn data_field(&self) -> u8
        ensures value { result ≡ self.now.data_field }
        ensures range { result < 8 }
    {
        self.processor.data_field
    }

    /// The save field, 0 to 63: at the last interrupt, 8 times the instruction field, plus the data field.
    #[inline]
    pub fn save_field(&self) -> u8
        ensures value { result ≡ self.now.save_field }
        ensures range { result < 0o100 }
    {
        self.processor.save_field
    }

    /// The switch register.
    #[inline]
    pub fn switch_register(&self) -> Word
        ensures { result ≡ self.now.switches }
    {
        self.processor.switches
    }

    /// The keyboard's buffer, eight bits.
    #[inline]
    pub fn keyboard_buffer(&self) -> u8
        ensures { result ≡ self.now.teletype.buffer }
    {
        self.processor.teletype.buffer()
    }

    /// Whether the machine runs.
    #[inline]
    pub fn is_running(&self) -> bool
        ensures { result ≡ self.now.running }
    {
        self.processor.running
    }

    /// Whether interrupts are on.
    #[inline]
    pub fn interrupts_on(&self) -> bool
        ensures { result ≡ self.now.interrupts_on }
    {
        self.processor.interrupts_on
    }

    /// Whether interrupts wait for the instruction after ION.
    #[inline]
    pub fn is_waiting(&self) -> bool
        ensures { result ≡ self.now.waiting }
    {
        self.processor.waiting
    }

    /// Whether a CIF or RMF holds interrupts off until the next JMP or JMS.
    #[inline]
    pub fn is_held_off(&self) -> bool
        ensures { result ≡ self.now.held_off }
    {
        self.processor.held_off
    }

    /// The keyboard flag.
    #[inline]
    pub fn keyboard_flag(&self) -> bool
        ensures { result ≡ self.now.teletype.keyboard_flag }
    {
        self.processor.teletype.keyboard_flag()
    }

    /// The printer flag.
    #[inline]
    pub fn printer_flag(&self) -> bool
        ensures { result ≡ self.now.teletype.printer_flag }
    {
        self.processor.teletype.printer_flag()
    }

    /// Whether the printer is printing a character.
    #[inline]
    pub fn is_busy(&self) -> bool
        ensures { result ≡ self.now.teletype.busy }
    {
        self.processor.teletype.is_busy()
    }
}
