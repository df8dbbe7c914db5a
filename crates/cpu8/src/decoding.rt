//! What an instruction is known by (Small Computer Handbook).

ghost use Rattle.std.specs.Prelude.{◌≡◌, ◌<◌, ◌%◌};
ghost use Rattle.word12.specs.declared.sizes.TheConstants.{PAGE};
ghost use Rattle.tty8.specs.Bits.{has};
ghost use Rattle.cpu8.specs.Decoding.{operation_of, device_of, field_of, is_absent, pulses_of};

use word12::{PAGE, Word};

// Bits of a reference to memory.

/// The reference is indirect.
pub const INDIRECT: u16 = 0o400;

/// The offset is in the current page, else in page zero.
pub const CURRENT_PAGE: u16 = 0o200;

// Bits of an operate instruction. Group 1 has `GROUP_2_OR_3` clear; group 3 has `GROUP_3` set too.

pub const GROUP_2_OR_3: u16 = 0o400;

pub const GROUP_3: u16 = 0o001;

pub const CLA: u16 = 0o200;

// Of group 1.

pub const CLL: u16 = 0o100;

pub const CMA: u16 = 0o040;

pub const CML: u16 = 0o020;

pub const RAR: u16 = 0o010;

pub const RAL: u16 = 0o004;

/// The rotation is done twice.
pub const TWICE: u16 = 0o002;

// Of group 2.

pub const SMA: u16 = 0o100;

pub const SZA: u16 = 0o040;

pub const SNL: u16 = 0o020;

/// The sense of the skip is reversed.
pub const REVERSE: u16 = 0o010;

pub const OSR: u16 = 0o004;

pub const HLT: u16 = 0o002;

/// The operation of an instruction.
#[derive(Clone, Copy)]
pub(crate) enum Operation {
    And,
    Tad,
    Isz,
    Dca,
    Jms,
    Jmp,
    Iot,
    Opr,
}

/// What an IOT is for.
#[derive(Clone, Copy)]
pub(crate) enum Device {
    Interrupts,
    Keyboard,
    Printer,
    Fields,
    Other,
}

/// Whether a word has this bit, one of those above (Small Computer Handbook).
#[inline(always)]
pub fn has(word: Word, bit: u16) -> bool
    requires { 0 < bit }
    ensures { result ≡ has word bit }
{
    word.get() / bit % 2 == 1
}

/// The offset of a reference to memory in its page.
#[inline(always)]
pub(crate) fn offset_of(word: Word) -> u16
    ensures { result ≡ word % PAGE }
{
    word.get() % PAGE
}

/// What an instruction of group 1 adds: one for IAC, else 0.
#[inline(always)]
pub(crate) fn iac_of(word: Word) -> u16
    ensures { result ≡ word % 2 }
{
    word.get() % 2
}

#[inline(always)]
pub(crate) fn operation_of(word: Word) -> Operation
    ensures { result ≡ operation_of word }
{
    match word.get() / 0o1000 {
        0 => Operation::And,
        1 => Operation::Tad,
        2 => Operation::Isz,
        3 => Operation::Dca,
        4 => Operation::Jms,
        5 => Operation::Jmp,
        6 => Operation::Iot,
        _ => Operation::Opr,
    }
}

#[inline(always)]
pub(crate) fn device_of(word: Word) -> Device
    ensures { result ≡ device_of word }
{
    match word.get() / 0o10 % 0o100 {
        0o00 => Device::Interrupts,
        0o03 => Device::Keyboard,
        0o04 => Device::Printer,
        0o20..0o30 => Device::Fields,
        _ => Device::Other,
    }
}

/// Whether it is an IOT of a device that isn't there (Small Computer Handbook).
#[inline(always)]
pub fn is_absent(word: Word) -> bool
    ensures { result ≡ is_absent word }
{
    word.get() / 0o1000 == 6 && matches!(device_of(word), Device::Other)
}

/// The pulses of an IOT: its last octal digit.
#[inline(always)]
pub(crate) fn pulses_of(word: Word) -> u8
    ensures value { result ≡ pulses_of word }
    ensures range { result < 8 }
{
    (word.get() % 0o10) as u8
}

/// The field that an IOT of the extended memory names.
#[inline(always)]
pub(crate) fn field_of(word: Word) -> u8
    ensures value { result ≡ field_of word }
    ensures range { result < 8 }
{
    (word.get() / 0o10 % 0o10) as u8
}
