//! The registers and flags, as a console shows them.

ghost use Rattle.std.specs.Prelude.{◌≡◌, ◌<◌};
ghost use Rattle.word12.specs.declared.sizes.TheConstants.{CORE};
ghost use Rattle.cpu8.specs.State.{next_cell};
ghost use Rattle.cpu8e.specs.State.{grants_interrupt, save_field};

use super::Machine;
use word12::{Cell, Word};

impl Machine {
    /// The accumulator.
    #[inline]
    pub fn ac(&self) -> Word
        ensures { result ≡ self.now.base.ac }
    {
        self.processor.base.ac
    }

    /// The multiplier quotient.
    #[inline]
    pub fn mq(&self) -> Word
        ensures { result ≡ self.now.mq }
    {
        self.processor.mq
    }

    /// The link, 0 or 1.
    #[inline]
    pub fn l(&self) -> u8
        ensures value { result ≡ self.now.base.l }
        ensures range { result < 2 }
    {
        self.processor.base.l
    }

    /// The program counter: an address in the instruction field.
    #[inline]
    pub fn pc(&self) -> Word
        ensures { result ≡ self.now.base.pc }
    {
        self.processor.base.pc
    }

    /// The cell of the next instruction: PC in the instruction field.
    #[inline]
    pub fn next_cell(&self) -> Cell
        ensures value { result ≡ next_cell self.now.base }
        ensures range { result < CORE }
    {
        self.processor.base.next_cell()
    }

    /// The instruction field, 0 to 7.
    #[inline]
    pub fn instruction_field(&self) -> u8
        ensures value { result ≡ self.now.base.instruction_field }
        ensures range { result < 8 }
    {
        self.processor.base.instruction_field
    }

    /// The instruction buffer, 0 to 7: the instruction field from the next JMP or JMS on.
    #[inline]
    pub fn instruction_buffer(&self) -> u8
        ensures value { result ≡ self.now.base.instruction_buffer }
        ensures range { result < 8 }
    {
        self.processor.base.instruction_buffer
    }

    /// The data field, 0 to 7.
    #[inline]
    pub fn data_field(&self) -> u8
        ensures value { result ≡ self.now.base.data_field }
        ensures range { result < 8 }
    {
        self.processor.base.data_field
    }

    /// The save field, seven bits: at the last interrupt, 64 times the user flag, plus 8 times the instruction field, plus the data
    /// field.
    #[inline]
    pub fn save_field(&self) -> u8
        ensures value { result ≡ save_field self.now }
        ensures range { result < 0o200 }
    {
        self.processor.save_field()
    }

    /// The switch register.
    #[inline]
    pub fn switch_register(&self) -> Word
        ensures { result ≡ self.now.base.switches }
    {
        self.processor.base.switches
    }

    /// The keyboard's buffer, eight bits.
    #[inline]
    pub fn keyboard_buffer(&self) -> u8
        ensures { result ≡ self.now.base.teletype.buffer }
    {
        self.processor.base.teletype.buffer()
    }

    /// Whether the machine runs.
    #[inline]
    pub fn is_running(&self) -> bool
        ensures { result ≡ self.now.base.running }
    {
        self.processor.base.running
    }

    /// Whether interrupts are on.
    #[inline]
    pub fn interrupts_on(&self) -> bool
        ensures { result ≡ self.now.base.interrupts_on }
    {
        self.processor.base.interrupts_on
    }

    /// Whether interrupts wait for the instruction after ION.
    #[inline]
    pub fn is_waiting(&self) -> bool
        ensures { result ≡ self.now.base.waiting }
    {
        self.processor.base.waiting
    }

    /// Whether a CIF or RMF holds interrupts off until the next JMP or JMS.
    #[inline]
    pub fn is_held_off(&self) -> bool
        ensures { result ≡ self.now.base.held_off }
    {
        self.processor.base.held_off
    }

    /// The keyboard flag.
    #[inline]
    pub fn keyboard_flag(&self) -> bool
        ensures { result ≡ self.now.base.teletype.keyboard_flag }
    {
        self.processor.base.teletype.keyboard_flag()
    }

    /// The printer flag.
    #[inline]
    pub fn printer_flag(&self) -> bool
        ensures { result ≡ self.now.base.teletype.printer_flag }
    {
        self.processor.base.teletype.printer_flag()
    }

    /// Whether the printer is printing a character.
    #[inline]
    pub fn is_busy(&self) -> bool
        ensures { result ≡ self.now.base.teletype.busy }
    {
        self.processor.base.teletype.is_busy()
    }

    /// UF: whether the processor is in user mode.
    #[inline]
    pub fn user_flag(&self) -> bool
        ensures { result ≡ self.now.user_flag }
    {
        self.processor.user_flag
    }

    /// UB: the user flag from the next JMP or JMS on.
    #[inline]
    pub fn user_buffer(&self) -> bool
        ensures { result ≡ self.now.user_buffer }
    {
        self.processor.user_buffer
    }

    /// Whether a privileged instruction was met in user mode, and its request not yet cleared.
    #[inline]
    pub fn user_request(&self) -> bool
        ensures { result ≡ self.now.user_request }
    {
        self.processor.user_request
    }

    /// KE: whether the flags of the console request interrupts.
    #[inline]
    pub fn console_enabled(&self) -> bool
        ensures { result ≡ self.now.console_enabled }
    {
        self.processor.console_enabled
    }
    /// Whether a device beside the console requests an interrupt.
    #[inline]
    pub fn device_request(&self) -> bool
        ensures { result ≡ self.now.device_request }
    {
        self.processor.device_request
    }

    /// Whether an interrupt comes in place of the next instruction, if the machine runs.
    #[inline]
    pub fn grants_interrupt(&self) -> bool
        ensures { result ≡ grants_interrupt self.now }
    {
        self.processor.grants_interrupt()
    }
}
