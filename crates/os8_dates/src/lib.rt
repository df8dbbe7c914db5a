//! Dates of files: a date word of OS/8 as a month, a day and a year, and back; and how a date is spelled.
//!
//! A date word has the month in bits 0 to 3 and the day in bits 4 to 8. In bits 9 to 11 it has the year less 1970, modulo 8 (OS/8
//! Software Support Manual). So a word alone means a year of each eight: callers give the last year that it may mean.
#![tactic(auto)]

mod dates;
mod days;
pub mod laws;
mod spelling;
mod years;

pub use dates::{Date, date_of, date_word, is_calendar_day};
pub use days::{NO_DATE, date_of_seconds, seconds_of, time_of_word, word_of_time};
pub use spelling::{parse_date, put_date};
pub use years::{FIRST_YEAR, LAST_YEAR, LEAST_LAST, last_year};
