//! The names beside a file, one of which a new file has until it takes the path.

use crate::files::answer;
use hosts::HostFault;
use std::alloc::{AllocError, Global};
use std::path::Path;
use std::random::RandomSource;

/// How many characters of a file's own name a name beside it has at most, so it is not too long for a folder.
const MOST_OF_NAME: usize = 60;

/// How many characters a name beside a file ends with that nobody can guess: there are 2 to the power of 50 such ends.
const END_LENGTH: usize = 10;

/// The number of characters that are drawn from.
const LETTERS: u8 = 32;

/// The names beside a file, which no file of a user has: `.NAME.pdp8-` and ten characters, in its folder.
#[derive(Drop)]
pub(crate) struct Besides {
    folder: String,
    prefix: String,
    name: String,
}

impl Besides {
    /// Those of a file with this path. All memory that they need is taken here.
    pub(crate) fn new(alloc: Global, path: &str) -> Result<Besides, AllocError> {
        let path = Path::new(path);
        let folder = folder_of(alloc, path)?;
        let mut prefix = String::from_str(alloc, ".")?;
        for it in path.file_name().unwrap_or("").chars().take(MOST_OF_NAME) {
            prefix.push(it)?;
        }
        prefix.push_str(".pdp8-")?;
        let mut name = String::from_str(alloc, folder.as_str())?;
        name.push_str(prefix.as_str())?;
        for _ in 0..END_LENGTH {
            name.push('-')?;
        }
        Ok(Besides {
            folder,
            prefix,
            name,
        })
    }

    /// A name that nobody can guess.
    pub(crate) fn draw<R: RandomSource>(&mut self, rt: &R) -> Result<&str, HostFault> {
        let mut bytes = [0; END_LENGTH];
        answer(rt.fill_bytes(&mut bytes))?;
        for _ in 0..END_LENGTH {
            let _ = self.name.pop();
        }
        for byte in &bytes {
            self.name.push(letter(*byte))?;
        }
        Ok(self.name.as_str())
    }

    /// The name that was drawn last.
    pub(crate) fn last(&self) -> &str {
        self.name.as_str()
    }

    /// The folder of the file, with the slash that ends it, or nothing.
    pub(crate) fn folder(&self) -> &str {
        self.folder.as_str()
    }

    /// Whether a name in the folder is one of these.
    pub(crate) fn has(&self, name: &str) -> bool {
        match name.strip_prefix(self.prefix.as_str()) {
            Some(end) => end.len() == END_LENGTH && end.bytes().all(is_letter),
            None => false,
        }
    }

    /// Whether a name in the folder is one that earlier versions gave: three digits were its end.
    pub(crate) fn has_numbered(&self, name: &str) -> bool {
        match name.strip_prefix(self.prefix.as_str()) {
            Some(end) => end.len() == 3 && end.bytes().all(is_digit),
            None => false,
        }
    }
}

/// The folder of a path, with the slash that ends it, or nothing.
fn folder_of(alloc: Global, path: Path<'_>) -> Result<String, AllocError> {
    let Some(folder) = path.parent() else {
        return Ok(String::new(alloc));
    };
    let mut name = String::from_str(alloc, folder.as_os_str())?;
    if !name.is_empty() && !name.ends_with('/') {
        name.push('/')?;
    }
    Ok(name)
}

/// A small letter or one of the digits 2 to 7, each for eight bytes.
fn letter(byte: u8) -> char {
    let number = byte % LETTERS;
    if number < 26 {
        return char::from(b'a' + number);
    }
    char::from(b'2' + (number - 26))
}

fn is_digit(byte: u8) -> bool {
    byte.is_ascii_digit()
}

fn is_letter(byte: u8) -> bool {
    byte.is_ascii_lowercase() || (byte >= b'2' && byte <= b'7')
}
