//! Octal numbers with a given number of digits, as the handbook writes words and cells.
ghost use Rattle.std.specs.Prelude.{◌≡◌, ◌≤◌, ◌<◌, IfSome, length};
ghost use Rattle.word12.specs.Octal.{octal_from, octal_limit, octal_of};

use crate::{Cell, Word};

/// The cell of one octal digit of field and four of address, else nothing.
pub fn octal_cell(digits: &[u8]) -> Option<Cell>
    ensures { result ≡ octal_of 5 digits.now }
{
    let number = octal(digits, 5)?;
    Some(Cell::of(number))
}

/// The word of four octal digits, else nothing.
pub fn octal_word(digits: &[u8]) -> Option<Word>
    ensures { result ≡ octal_of 4 digits.now }
{
    let number = octal(digits, 4)?;
    Some(Word::low(number as u16))
}

/// The number that exactly so many octal digits spell, at most five, else nothing.
pub fn octal(digits: &[u8], count: usize) -> Option<u32>
    requires { count ≤ 5 }
    ensures value { result ≡ octal_of count digits.now }
    ensures range { IfSome result (λ number. number < octal_limit count) }
{
    if digits.len() != count {
        return None;
    }
    octal_value(digits)
}

/// The number of octal digits.
fn octal_value(digits: &[u8]) -> Option<u32>
    requires { length digits.now ≤ 5 }
    ensures value { result ≡ octal_from 0 digits.now }
    ensures range { IfSome result (λ number. number < octal_limit (length digits.now)) }
{
    let mut value = 0;
    for digit in digits {
        match digit {
            b'0'..=b'7' => value = 8 * value + u32::from(digit - b'0'),
            _ => return None,
        }
    }
    Some(value)
}
