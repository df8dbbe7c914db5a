//! The buffer and the flags, as a console shows them.

ghost use Rattle.std.specs.Prelude.{◌≡◌};

use super::Teletype;

impl Teletype {
    /// The character of the last key, eight bits.
    #[inline]
    pub fn buffer(&self) -> u8
        ensures { result ≡ self.now.buffer }
    {
        self.buffer
    }

    /// Whether a key was struck since the keyboard flag was last cleared.
    #[inline]
    pub fn keyboard_flag(&self) -> bool
        ensures { result ≡ self.now.keyboard_flag }
    {
        self.keyboard_flag
    }

    /// Whether the printer ended a character since the printer flag was last cleared.
    #[inline]
    pub fn printer_flag(&self) -> bool
        ensures { result ≡ self.now.printer_flag }
    {
        self.printer_flag
    }

    /// Whether the printer is printing a character.
    #[inline]
    pub fn is_busy(&self) -> bool
        ensures { result ≡ self.now.busy }
    {
        self.busy
    }
}
