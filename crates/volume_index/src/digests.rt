//! The digest of a line of an index.
ghost use Rattle.std.specs.Prelude.{◌≡◌};
ghost use Rattle.volume_index.specs.Digests.{digit_value, number_after};
ghost use Rattle.volume_index.specs.Digests as spec;

/// How many hexadecimal digits an MD5 digest has.
const DIGITS: usize = 32;

/// The number that the digest of a line is.
pub(crate) fn digest_of(line: &[u8]) -> u128
    ensures { result ≡ spec.digest_of line.now }
{
    let (_, digits) = line.split_at(line.len().saturating_sub(DIGITS));
    number_of(digits)
}

/// The number that hexadecimal digits are.
fn number_of(digits: &[u8]) -> u128
    ensures { result ≡ number_after 0 digits.now }
{
    let mut number: u128 = 0;
    let mut rest = digits;
    while let [digit, others @ ..] = rest {
        number = with_digit(number, *digit);
        rest = others;
    }
    number
}

/// A number with one more hexadecimal digit.
fn with_digit(number: u128, digit: u8) -> u128
    ensures { result ≡ spec.with_digit number digit }
{
    number
        .wrapping_mul(16)
        .wrapping_add(digit_value(digit) as u128)
}

/// The value of a hexadecimal digit.
fn digit_value(digit: u8) -> u8
    ensures { result ≡ digit_value digit }
{
    if digit < b':' {
        digit % 16
    } else {
        (digit % 16 + 9) % 16
    }
}
