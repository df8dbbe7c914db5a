//! Days by their numbers, and the times of the host's files.
ghost use Rattle.std.specs.Prelude.{◌≡◌, ◌+◌, ◌*◌, ◌<◌, ◌≤◌, OnOk, IfSome, Some};
ghost use Rattle.os8_dates.specs.Days.{date_at, day_after, days_of_months, days_of_years, seconds_of, time_of_word, word_of_time, year_length};
ghost use Rattle.os8_dates.specs.declared.years.TheConstants.{FIRST_YEAR, LAST_YEAR, LEAST_LAST};

use crate::dates::{Date, date_of, date_word, days_in, is_leap};
use crate::years::{FIRST_YEAR, LAST_YEAR};
use word12::Word;

/// How many seconds a day has (POSIX, "Seconds Since the Epoch").
const DAY: u64 = 86_400;

/// The time of a file of the host whose file on a volume has no date, the begin of 1970 (this project's profile).
pub const NO_DATE: u64 = 0;

/// How many seconds there are from the begin of a day to its noon.
const NOON: u64 = 43_200;

/// The time at noon of a day in UTC, in seconds after the begin of 1970. Most of the world has that day then.
pub fn seconds_of(date: Date) -> u64
    ensures { result ≡ seconds_of date }
{
    let years = days_of_years(date.year.saturating_sub(FIRST_YEAR));
    let months = days_of_months(date.year, date.month.saturating_sub(1));
    let days = u64::from(date.day.saturating_sub(1));
    DAY * (years + months + days) + NOON
}

/// The day in UTC of a time, which is given in seconds after the begin of 1970; none after the year 9999.
pub fn date_of_seconds(seconds: u64) -> Option<Date>
    ensures { result ≡ date_at seconds }
{
    let mut left = seconds / DAY;
    let count = LAST_YEAR - FIRST_YEAR + 1;
    for passed in 0..count {
        let length = year_length(FIRST_YEAR + passed);
        if left < length {
            return day_in_year(passed, left);
        }
        left -= length;
    }
    None
}

/// The time of the date that a word means among the eight years up to this last one, as `seconds_of` gives it; none where it is no day.
pub fn time_of_word(word: Word, last: u16) -> Option<u64>
    requires least { LEAST_LAST ≤ last }
    requires most { last ≤ LAST_YEAR }
    ensures { result ≡ time_of_word last word }
{
    match date_of(word, last) {
        Some(date) => Some(seconds_of(date)),
        None => None,
    }
}

/// The word of the day of a time, which is given in seconds after the begin of 1970 in UTC. The time of files with no date has none, and there
/// is none after the year 9999.
pub fn word_of_time(seconds: u64) -> Option<Word>
    ensures { result ≡ word_of_time seconds }
{
    if seconds == NO_DATE {
        return None;
    }
    match date_of_seconds(seconds) {
        Some(date) => date_word(date),
        None => None,
    }
}

/// The day of a year, so many after its first one, of the year so many after 1970.
fn day_in_year(passed: u16, given: u64) -> Option<Date>
    requires year { FIRST_YEAR + passed < 65536 }
    requires day { given < year_length (FIRST_YEAR + passed) }
    ensures day { result ≡ Some (day_after (days_of_years passed + given)) }
    ensures year { IfSome result (λ date. date.year ≡ FIRST_YEAR + passed) }
{
    let year = FIRST_YEAR + passed;
    let mut left = given;
    for months in 0..12u8 {
        let length = u64::from(days_in(year, months + 1));
        if left < length {
            return Some(Date {
                year,
                month: months + 1,
                day: left as u8 + 1,
            });
        }
        left -= length;
    }
    None
}

/// How many days a year has.
fn year_length(year: u16) -> u64
    ensures { result ≡ year_length year }
{
    if is_leap(year) { 366 } else { 365 }
}

/// How many days so many years from 1970 on have.
fn days_of_years(count: u16) -> u64
    requires { FIRST_YEAR + count < 65536 }
    ensures days { result ≡ days_of_years count }
    ensures range { result ≤ 366 * count }
{
    let mut days = 0;
    for passed in 0..count {
        days += year_length(FIRST_YEAR + passed);
    }
    days
}

/// How many days so many months of a year have, from the first on.
fn days_of_months(year: u16, count: u8) -> u64
    requires { count < 255 }
    ensures days { result ≡ days_of_months year count }
    ensures range { result ≤ 31 * count }
{
    let mut days = 0;
    for passed in 0..count {
        days += u64::from(days_in(year, passed + 1));
    }
    days
}
