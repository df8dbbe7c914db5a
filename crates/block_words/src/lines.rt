//! Numbers in the lines that show words.
ghost use Rattle.std.specs.Prelude.{◌≡◌, ◌++◌, decimal, OnOk};
ghost use Rattle.block_words.specs.Lines.{bits_text, six_digits};
ghost use Rattle.word12.specs.Octal.{octal_digit};

use std::alloc::AllocError;
use word12::Word;

/// Appends a number.
pub fn put_number(text: &mut Vec<u8>, number: u64) -> Result<(), AllocError>
    ensures { OnOk result (text.new.items ≡ text.old.items ++ decimal number) }
{
    let mut digits = itoa::Buffer::new();
    text.extend_from_slice(digits.format(number).as_bytes())
}

/// Appends a word of sixteen bits in octal: four digits, or six where it has more than twelve bits.
pub fn put_bits(text: &mut Vec<u8>, bits: u16) -> Result<(), AllocError>
    ensures { OnOk result (text.new.items ≡ text.old.items ++ bits_text bits) }
{
    match Word::new(bits) {
        Some(word) => text.extend_from_slice(&word.octal4()),
        None => text.extend_from_slice(&six_digits(bits)),
    }
}

/// The six octal digits of sixteen bits.
fn six_digits(bits: u16) -> [u8; 6]
    ensures { result ≡ six_digits bits }
{
    [
        digit(bits / 0o100000),
        digit(bits / 0o10000),
        digit(bits / 0o1000),
        digit(bits / 0o100),
        digit(bits / 8),
        digit(bits),
    ]
}

/// The last octal digit of a number.
fn digit(number: u16) -> u8
    ensures { result ≡ octal_digit number }
{
    b'0' + (number % 8) as u8
}
