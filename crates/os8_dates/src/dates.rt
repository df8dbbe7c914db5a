ghost use Rattle.std.specs.Prelude.{◌≡◌, ◌≤◌};
ghost use Rattle.os8_dates.specs.Dates.{is_day, date_in, word_of, days_in, is_leap};
ghost use Rattle.os8_dates.specs.declared.years.TheConstants.{LEAST_LAST, LAST_YEAR};

use crate::years::FIRST_YEAR;
use word12::Word;

/// A day of the calendar: its year, its month from 1 and its day from 1.
#[derive(Clone, Copy, PartialEq, Eq, Debug)]
pub struct Date {
    pub year: u16,
    pub month: u8,
    pub day: u8,
}

/// Whether a month has so many days in a year (the Gregorian calendar).
pub fn is_calendar_day(date: Date) -> bool
    ensures { result ≡ is_day date }
{
    date.day >= 1 && date.day <= days_in(date.year, date.month)
}

/// How many days a month has in a year; 0 where the number is no month's.
pub(crate) fn days_in(year: u16, month: u8) -> u8
    ensures { result ≡ days_in year month }
{
    match month {
        1 | 3 | 5 | 7 | 8 | 10 | 12 => 31,
        4 | 6 | 9 | 11 => 30,
        2 if is_leap(year) => 29,
        2 => 28,
        _ => 0,
    }
}

/// Whether a year has a 29th of February.
pub(crate) fn is_leap(year: u16) -> bool
    ensures { result ≡ is_leap year }
{
    year % 4 == 0 && (year % 100 != 0 || year % 400 == 0)
}

/// The date that a word means among the eight years up to this last one. There is none where it is no day of the calendar, as 0 is
/// not (OS/8 Software Support Manual).
pub fn date_of(word: Word, last: u16) -> Option<Date>
    requires least { LEAST_LAST ≤ last }
    requires most { last ≤ LAST_YEAR }
    ensures { result ≡ date_in last word }
{
    let bits = word.get();
    let date = Date {
        year: last - (last - FIRST_YEAR - bits % 8) % 8,
        month: (bits / 0o400) as u8,
        day: (bits / 8 % 0o40) as u8,
    };
    if is_calendar_day(date) {
        return Some(date);
    }
    None
}

/// The word of a date; none of one that is no day of the calendar, or is before 1970 (OS/8 Software Support Manual).
pub fn date_word(date: Date) -> Option<Word>
    ensures { result ≡ word_of date }
{
    if date.year < FIRST_YEAR || !is_calendar_day(date) {
        return None;
    }
    let month = 0o400 * u16::from(date.month);
    let day = 8 * u16::from(date.day);
    Some(Word::low(month + day + (date.year - FIRST_YEAR) % 8))
}
