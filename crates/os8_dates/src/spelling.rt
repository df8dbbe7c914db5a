//! Dates as they are spelled: the year, the month and the day in digits, with `-` between.
ghost use Rattle.std.specs.Prelude.{◌≡◌, ◌≤◌, ◌<◌, ◌++◌, OnOk, IfSome, Some};
ghost use Rattle.os8_dates.specs.Spelling.{digit, if_day, date_if_numbers, parsed_date, number_of, text_of_date, spelled_date};
ghost use Rattle.os8_dates.specs.declared.years.TheConstants.{LEAST_LAST, LAST_YEAR};

use crate::dates::{Date, date_of, is_calendar_day};
use std::alloc::AllocError;
use std::fmt;
use word12::Word;

/// Appends what a date word means among the eight years up to this last one. It is `-` where the word is 0, and no date is given; a date;
/// or four octal digits where it is no day of the calendar (this project's profile).
pub fn put_date(text: &mut Vec<u8>, word: Word, last: u16) -> Result<(), AllocError>
    requires least { LEAST_LAST ≤ last }
    requires most { last ≤ LAST_YEAR }
    ensures { OnOk result (text.new.items ≡ text.old.items ++ text_of_date last word) }
{
    if word.get() == 0 {
        text.push(b'-')?;
        return Ok(());
    }
    match date_of(word, last) {
        Some(date) => text.extend_from_slice(&spelled_date(date)),
        None => text.extend_from_slice(&word.octal4()),
    }
}

/// A date is shown in digits: four of the year, two of the month and two of the day, with `-` between (this project's profile).
impl fmt::Display for Date {
    ghost output = { λ date. Some (spelled_date date) };

    fn fmt<W: fmt::Write>(&self, f: &mut fmt::Formatter<W>) -> fmt::Result {
        f.write_str(str::from_utf8(&spelled_date(*self)).map_err(|_| fmt::Error)?)
    }
}

/// A date in digits.
fn spelled_date(date: Date) -> [u8; 10]
    ensures { result ≡ spelled_date date }
{
    let month = u16::from(date.month);
    let day = u16::from(date.day);
    [
        digit(date.year / 1000),
        digit(date.year / 100),
        digit(date.year / 10),
        digit(date.year),
        b'-',
        digit(month / 10),
        digit(month),
        b'-',
        digit(day / 10),
        digit(day),
    ]
}

/// The last decimal digit of a number.
fn digit(number: u16) -> u8
    ensures { result ≡ digit number }
{
    b'0' + (number % 10) as u8
}

/// The date that a text spells: four digits of the year, two of the month and two of the day, with `-` between. There is none where it
/// has another form, or is no day of the calendar (this project's profile).
pub fn parse_date(text: &[u8]) -> Option<Date>
    ensures { result ≡ parsed_date text.now }
{
    let [a, b, c, d, first, e, f, second, g, h] = text else {
        return None;
    };
    if *first != b'-' || *second != b'-' {
        return None;
    }
    date_of_numbers(
        number_of(*a, *b),
        number_of(*c, *d),
        number_of(*e, *f),
        number_of(*g, *h),
    )
}

/// The date of these numbers, the year's first two digits and its last ones apart, where all are numbers.
fn date_of_numbers(
    century: Option<u8>,
    year: Option<u8>,
    month: Option<u8>,
    day: Option<u8>,
) -> Option<Date>
    requires { IfSome century (λ number. number < 100) }
    ensures { result ≡ date_if_numbers century year month day }
{
    let date = Date {
        year: 100 * u16::from(century?) + u16::from(year?),
        month: month?,
        day: day?,
    };
    if_day(date)
}

/// A date, if it is a day of the calendar.
fn if_day(date: Date) -> Option<Date>
    ensures { result ≡ if_day date }
{
    if is_calendar_day(date) {
        return Some(date);
    }
    None
}

/// The number that two decimal digits spell.
fn number_of(tens: u8, ones: u8) -> Option<u8>
    ensures number { result ≡ number_of tens ones }
    ensures range { IfSome result (λ number. number < 100) }
{
    if !tens.is_ascii_digit() || !ones.is_ascii_digit() {
        return None;
    }
    Some(10 * (tens - b'0') + (ones - b'0'))
}
