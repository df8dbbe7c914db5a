//! Dates: what the manual's words mean.

ghost use Rattle.std.specs.Prelude.{◌≤◌};

use os8_dates::laws::{one_year_of_eight, spelled_dates, words_and_dates};
use os8_dates::{date_word, last_year, parse_date, put_date};
use std::alloc::{AllocError, Global};
use std::test::Fail;
use word12::Word;

/// Whether a date word is spelled so.
fn is_spelled(alloc: Global, word: u16, last: u16, wanted: &[u8]) -> Result<bool, AllocError>
    requires least { 1977 ≤ last }
    requires most { last ≤ 9999 }
{
    let mut text = Vec::new(alloc);
    put_date(&mut text, Word::low(word), last)?;
    Ok(text.as_slice() == wanted)
}

/// The word of a date that is spelled so, or 0.
fn word_of(text: &[u8]) -> u16 {
    match parse_date(text) {
        Some(date) => date_word(date).map_or(0, |word| word.get()),
        None => 0,
    }
}

#[test]
fn dates_are_spelled(rt: HostRuntime) -> Result<(), Fail> {
    let later = last_year(Word::low(0o200));
    assert!(rt; is_spelled(rt.alloc(), 0o1544, 1977, b"1974-03-12")?);
    assert!(rt; is_spelled(rt.alloc(), 0o1544, later, b"1982-03-12")?);
    assert!(rt; is_spelled(rt.alloc(), 0, 1977, b"-")?);
    assert!(rt; is_spelled(rt.alloc(), 0o1360, 1977, b"1360")?);
    assert_eq!(rt; word_of(b"1974-03-12"), 0o1544);
    assert_eq!(rt; word_of(b"1974-02-30"), 0);
    words_and_dates();
    one_year_of_eight();
    spelled_dates();
    Ok(())
}
