//! Packs, and the files that they are read from and saved in.

ghost use Rattle.std.specs.Prelude.{◌≡◌, ℕ, ◌+◌, ◌*◌, ◌%◌, ◌<◌, ◌≤◌, false, length, slice_index, vec_capacity, MatchOption, IfOk, IsOk, OnOk, OnErr};
ghost use Rattle.rk8e.specs.declared.sizes.TheConstants.{PACK, SECTORS};
ghost use Rattle.rk8e.specs.Packs.{file_word, IsFileOf, IsFirstBadWord, ReadsPack};
ghost use Rattle.rk8e.specs.Transfer.{core_read, pack_written};

use crate::controls::Control;
use crate::transfers::{read_words, write_words};
use crate::{PACK, PackFault, SECTORS};
use core_load::Core;
use std::alloc::{AllocError, Global};
use std::marker::Model;
use word12::Word;

/// A pack of an RK05 drive: 6496 sectors of 256 words (RK8-E, Small Computer Handbook).
#[derive(Drop)]
pub struct Pack {
    words: Vec<Word>,
    sectors: usize,
    is_changed: bool,
}

impl Model for Pack {
    ghost use Rattle.rk8e.specs.Packs.{PackState, IsPack};

    ghost Value = { PackState };

    ghost view = { λ p. record {
      words = p.words.items;
      sectors = p.sectors;
      changed = p.is_changed;
    } };

    ghost invariant = { λ p. IsPack p.words.items p.sectors };
}

impl Pack {
    /// The pack of a file: 1 to 6496 sectors of 512 bytes, each word in two of them, the low one first, its top four bits 0. The
    /// sectors past the file's end are zeros. 3,325,952 bytes are taken, for a file of a pack only (this project's profile).
    pub fn from_bytes(alloc: Global, bytes: &[u8]) -> Result<Pack, PackFault>
        ensures { ReadsPack bytes.now result }
    {
        if bytes.is_empty() || bytes.len() % 512 != 0 {
            return Err(PackFault::NotWhole);
        }
        if bytes.len() > 512 * SECTORS {
            return Err(PackFault::TooLarge);
        }
        if let Some(number) = first_bad_word(bytes) {
            return Err(PackFault::BadWord(number));
        }
        let words = words_of(alloc, bytes)?;
        Ok(Pack {
            words,
            sectors: bytes.len() / 512,
            is_changed: false,
        })
    }

    /// Puts the file of the pack in place of what a vector has: the sectors of the file that was read, and all up to the last one
    /// written. Where the vector has room for them, no memory is taken (this project's profile).
    pub fn put_bytes(&self, bytes: &mut Vec<u8>) -> Result<(), AllocError>
        ensures ok { OnOk result (IsFileOf bytes.new.items self.now) }
        ensures err { OnErr result (bytes.new.items ≡ bytes.old.items) }
        ensures room { 512 * self.now.sectors ≤ vec_capacity bytes.old → IsOk result }
    {
        bytes.resize(512 * self.sectors, 0)?;
        put_words(&self.words, bytes);
        Ok(())
    }

    /// Whether a sector was written since the pack was read or marked as saved.
    pub fn is_changed(&self) -> bool
        ensures { result ≡ self.now.changed }
    {
        self.is_changed
    }

    /// Marks the pack as saved.
    pub fn mark_saved(&mut self)
        ensures { self.new ≡ record self.old { changed = false } }
    {
        self.is_changed = false;
    }

    /// Gives the cells of a transfer its sector's words.
    pub(crate) fn read_sector(&self, control: &Control, core: &mut Core)
        ensures { core.new ≡ core_read control.now self.now.words core.old }
    {
        read_words(control, &self.words, core);
    }

    /// Gives the sector of a transfer its cells' words.
    pub(crate) fn write_sector(&mut self, control: &Control, core: &Core)
        ensures { self.new ≡ pack_written control.now self.old core.now }
    {
        let end = control.sector() + 1;
        self.sectors = self.sectors.max(end).min(SECTORS);
        self.is_changed = true;
        write_words(control, core, &mut self.words);
    }
}

/// The number of the first word that has more than twelve bits.
fn first_bad_word(bytes: &[u8]) -> Option<usize>
    requires { length bytes.now % 2 ≡ 0 }
    ensures { MatchOption result ((k : ℕ) → file_word bytes.now k < 0o10000) (IsFirstBadWord bytes.now) }
{
    for number in 0..bytes.len() / 2 {
        if bytes[2 * number + 1] >= 16 {
            return Some(number);
        }
    }
    None
}

/// The words of a pack, from its file; of each just the low twelve bits.
fn words_of(alloc: Global, bytes: &[u8]) -> Result<Vec<Word>, AllocError>
    requires even { length bytes.now % 2 ≡ 0 }
    requires most { length bytes.now ≤ 512 * SECTORS }
    ensures size { IfOk result (λ words. length words.items ≡ PACK) }
    ensures words { IfOk result (λ words. (k : ℕ) → slice_index words.items k ≡ file_word bytes.now k % 0o10000) }
{
    let mut words = zero_words(alloc, PACK)?;
    lay_words(bytes, &mut words);
    Ok(words)
}

/// So many words that are 0.
fn zero_words(alloc: Global, count: usize) -> Result<Vec<Word>, AllocError>
    ensures size { IfOk result (λ words. length words.items ≡ count) }
    ensures zeros { IfOk result (λ words. (k : ℕ) → slice_index words.items k ≡ 0) }
{
    let words = vec![in alloc; Word::ZERO; count]?;
    Ok(words)
}

/// Lays the words of a file over zeros; of each just the low twelve bits.
fn lay_words(bytes: &[u8], words: &mut [Word])
    requires even { length bytes.now % 2 ≡ 0 }
    requires room { length bytes.now ≤ 2 * length words.old }
    requires zeros { (k : ℕ) → slice_index words.old k ≡ 0 }
    ensures { (k : ℕ) → slice_index words.new k ≡ file_word bytes.now k % 0o10000 }
{
    for k in 0..bytes.len() / 2 {
        let low = u16::from(bytes[2 * k]);
        let high = u16::from(bytes[2 * k + 1]);
        words[k] = Word::low(low + 256 * (high % 16));
    }
}

/// Puts words into a file, as many as it has room for.
fn put_words(words: &[Word], bytes: &mut [u8])
    requires even { length bytes.old % 2 ≡ 0 }
    requires most { length bytes.old ≤ 2 * length words.now }
    ensures { (k : ℕ) → 2 * k < length bytes.new → file_word bytes.new k ≡ slice_index words.now k }
{
    for k in 0..bytes.len() / 2 {
        let number = words[k].get();
        bytes[2 * k] = (number % 256) as u8;
        bytes[2 * k + 1] = (number / 256) as u8;
    }
}
