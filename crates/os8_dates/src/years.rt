//! Which eight years a date word means.
ghost use Rattle.std.specs.Prelude.{◌≡◌, ◌≤◌};
ghost use Rattle.os8_dates.specs.Dates.{last_year as last_of};
ghost use Rattle.os8_dates.specs.declared.years.TheConstants.{LEAST_LAST, LAST_YEAR};

use word12::Word;

/// The first year of OS/8's dates (OS/8 Software Support Manual).
pub const FIRST_YEAR: u16 = 1970;

/// The last of the first eight years.
pub const LEAST_LAST: u16 = 1977;

/// The last year that is spelled by four digits.
pub const LAST_YEAR: u16 = 9999;

/// The last of the eight years that the extension gives. OS/8 keeps it in bits 3 and 4 of the word at 07777 of field 0, which a system disk
/// has as the last word of its block 0. It is 0 for 1970 to 1977, 1 for 1978 to 1985, and so on up to 2001 (OS/8 Software Support Manual).
pub fn last_year(word: Word) -> u16
    ensures year { result ≡ last_of word }
    ensures least { LEAST_LAST ≤ result }
    ensures most { result ≤ LAST_YEAR }
{
    LEAST_LAST + 8 * (word.get() / 0o200 % 4)
}
