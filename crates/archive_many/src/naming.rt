//! Files that words name, and not only choose as a pattern does, and the names of copies.
ghost use Rattle.std.specs.Prelude.{◌≡◌, ◌||◌, map, option_copied};
ghost use Rattle.archive_many.specs.Naming as spec;

use crate::VolumeFile;
use name_spelling::typed_name;
use os8_dir::Name;

/// Whether one of these words is the name of a file, or it begins at one of these blocks (this project's profile).
pub fn is_named(file: &VolumeFile, words: &[String], places: &[usize]) -> bool
    ensures { result ≡ spec.is_named file.now (map (λ word. word.bytes.items) words.now) places.now }
{
    name_is_among(file.name, words) || place_is_among(file.place, places)
}

/// Whether one of these words is the name.
fn name_is_among(name: Name, words: &[String]) -> bool
    ensures { result ≡ spec.name_is_among name (map (λ word. word.bytes.items) words.now) }
{
    let mut rest = words;
    while let [word, others @ ..] = rest {
        if spells(word.as_bytes(), name) {
            return true;
        }
        rest = others;
    }
    false
}

fn spells(word: &[u8], name: Name) -> bool
    ensures { result ≡ spec.spells word.now name }
{
    match typed_name(word) {
        None => false,
        Some(typed) => typed == name,
    }
}

/// Whether one of these blocks is the place.
fn place_is_among(place: usize, places: &[usize]) -> bool
    ensures { result ≡ spec.place_is_among place places.now }
{
    let mut rest = places;
    while let [other, others @ ..] = rest {
        if *other == place {
            return true;
        }
        rest = others;
    }
    false
}

/// The name that the copy of a file gets: the new one that was typed, if that is one, or else its own (this project's profile).
pub fn copy_name(file: &VolumeFile, new_name: Option<&[u8]>) -> Name
    ensures { result ≡ spec.copy_name (option_copied new_name.entry) file.now.name }
{
    match new_name {
        None => file.name,
        Some(text) => match typed_name(text) {
            None => file.name,
            Some(name) => name,
        },
    }
}
