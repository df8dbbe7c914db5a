//! The operands of entries: numbers, cells, words, characters and names.
ghost use Rattle.std.specs.Prelude.{◌≡◌, ◌≢◌, ◌≤◌, ◌⊎◌, [], Err, length};
ghost use Rattle.script8.specs.Lines.{name_bytes, number_of, digits_from, within as within_of, steps_of, are_steps, character_of, setting_of};
ghost use Rattle.refusals.specs.declared.faults.SessionFault.TheVariants.{Memory};

use crate::Bytes;
use refusals::SessionFault;
use std::alloc::Global;
use word12::octal;

/// The character of three octal digits, up to 377.
pub(crate) fn character(digits: &[u8]) -> Option<u8>
    ensures { result ≡ character_of digits.now }
{
    let number = within(octal(digits, 3), 0, 255)?;
    Some(number as u8)
}

/// The most steps of an entry.
const MOST_STEPS: u32 = 1_000_000;

/// A number of steps, 1 to 1,000,000.
pub(crate) fn steps(digits: &[u8]) -> Option<u32>
    ensures { result ≡ steps_of digits.now }
{
    within(number(digits), 1, MOST_STEPS)
}

/// Whether an entry that makes steps may be asked for so many: 1 to 1,000,000.
pub fn are_steps(number: u32) -> bool
    ensures { result ≡ are_steps number }
{
    1 <= number && number <= MOST_STEPS
}

/// A decimal number of 1 to 7 digits.
pub(crate) fn number(digits: &[u8]) -> Option<u32>
    ensures { result ≡ number_of digits.now }
{
    if digits.is_empty() || digits.len() > 7 {
        return None;
    }
    digits_value(digits)
}

/// A number, where it is within limits.
pub(crate) fn within(number: Option<u32>, least: u32, most: u32) -> Option<u32>
    ensures { result ≡ within_of least most number }
{
    match number {
        Some(number) if least <= number && number <= most => Some(number),
        _ => None,
    }
}

/// Whether a break is set.
pub(crate) fn setting(word: &[u8]) -> Option<bool>
    ensures { result ≡ setting_of word.now }
{
    if word == b"ON".as_slice() {
        return Some(true);
    }
    if word == b"OFF".as_slice() {
        return Some(false);
    }
    None
}

/// The bytes of a name, of which there is one or more.
pub(crate) fn name(alloc: Global, word: &[u8]) -> Result<Bytes, SessionFault>
    ensures { (result ≡ name_bytes word.now) ⊎ ((result ≡ Err Memory) × (word.now ≢ [])) }
{
    if word.is_empty() {
        return Err(SessionFault::BadLine);
    }
    let items = Vec::from_slice(alloc, word)?;
    Ok(Bytes::new(items))
}

/// The number of decimal digits.
fn digits_value(digits: &[u8]) -> Option<u32>
    requires { length digits.now ≤ 7 }
    ensures { result ≡ digits_from 0 digits.now }
{
    let mut value = 0;
    for digit in digits {
        match digit {
            b'0'..=b'9' => value = 10 * value + u32::from(digit - b'0'),
            _ => return None,
        }
    }
    Some(value)
}
