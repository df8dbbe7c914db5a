//! The days on which files of the host were last changed.
ghost use Rattle.std.specs.Prelude.{◌≡◌};
ghost use Rattle.image_files.specs.Dates as spec;
ghost use Rattle.image_files.specs.Dates.{DatesFile};

use crate::faults::ending_of_image;
use crate::reasons::tell_fault;
use hosts::Host;
use os8_dates::{Date, date_of_seconds, word_of_time};
use outcome::Ending;
use std::alloc::Global;
use word12::Word;

/// A day of a file of the host, from 1970 to 9999.
#[derive(Debug, Drop)]
pub struct FileDay {
    pub word: Word,

    /// Its year, since a word alone means one of each eight.
    pub year: u16,
}

/// The day in UTC on which a file was last changed, where that is asked for. There is none after the year 9999.
pub fn date_of_file<H: Host>(
    host: &mut H,
    alloc: Global,
    name: &str,
    is_asked: bool,
) -> Result<Option<FileDay>, Ending>
    ensures { DatesFile is_asked name.now (H.history host.old) result (H.history host.new) }
{
    if !is_asked {
        return Ok(None);
    }
    match host.time_of(name) {
        Ok(seconds) => Ok(day_of_time(seconds)),
        Err(fault) => {
            tell_fault(host, alloc, name, fault);
            Err(ending_of_image(fault))
        }
    }
}

/// The word of a day, if there is one.
pub fn word_of_day(day: &Option<FileDay>) -> Option<Word>
    ensures { result ≡ spec.word_of_day day.now }
{
    match day {
        Some(day) => Some(day.word),
        None => None,
    }
}

/// The year of a day, if there is one.
pub fn year_of_day(day: &Option<FileDay>) -> Option<u16>
    ensures { result ≡ spec.year_of_day day.now }
{
    match day {
        Some(day) => Some(day.year),
        None => None,
    }
}

/// The day of a time, which is given in seconds after the begin of 1970 in UTC; none where it has no word.
fn day_of_time(seconds: u64) -> Option<FileDay>
    ensures { result ≡ spec.day_of_time seconds }
{
    match word_of_time(seconds) {
        Some(word) => with_year(word, date_of_seconds(seconds)),
        None => None,
    }
}

/// A word with the year of a date, if there is one.
fn with_year(word: Word, date: Option<Date>) -> Option<FileDay>
    ensures { result ≡ spec.with_year word date }
{
    match date {
        Some(date) => Some(FileDay {
            word,
            year: date.year,
        }),
        None => None,
    }
}
