//! The last of the eight years that the dates of a volume mean.
ghost use Rattle.std.specs.Prelude.{◌≡◌, ◌≤◌};
ghost use Rattle.os8_dates.specs.declared.years.TheConstants.{LAST_YEAR, LEAST_LAST};
ghost use Rattle.volume_image.specs.Volume.{IsVolume};
ghost use Rattle.volume_index.specs.Years as spec;

use os8_dates::{LAST_YEAR, LEAST_LAST, last_year};
use volume_image::{BlockStore, MemoryVolume};
use word12::Word;

/// The year that is given, or else that of a volume's block 0.
pub fn last_in(year: Option<usize>, volume: &MemoryVolume) -> u16
    requires { IsVolume volume.now.blocks }
    ensures value { result ≡ spec.last_in year volume.now.blocks }
    ensures least { LEAST_LAST ≤ result }
    ensures most { result ≤ LAST_YEAR }
{
    let words = volume.block(0);
    last_of(year, words[0o377])
}

/// The year that is given, or else that of a word.
pub fn last_of(year: Option<usize>, word: Word) -> u16
    ensures value { result ≡ spec.last_of year word }
    ensures least { LEAST_LAST ≤ result }
    ensures most { result ≤ LAST_YEAR }
{
    match year {
        Some(year) if usize::from(LEAST_LAST) <= year && year <= usize::from(LAST_YEAR) => {
            year as u16
        }
        _ => last_year(word),
    }
}
