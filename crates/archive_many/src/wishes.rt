//! Which files of a volume the words of a command ask for.
ghost use Rattle.std.specs.Prelude.{◌≡◌, ◌++◌, ◌∷◌, ◌||◌, ℕ, [], map, nat_eq, not, true, false, IfOk, IfSome, OnOk};
ghost use Rattle.archive_many.specs.WishSteps.{KnowsPlaces, has_key};
ghost use Rattle.archive_many.specs.declared.wishes.Wish.TheVariants.{File};
ghost use Rattle.archive_many.specs.Wishing as spec;
ghost use Rattle.archive_many.specs.Wishing.{asked_by_words, wish_of_block, wishes_for_all, wishes_of_word, with_wish};

use crate::choosing::{at_place, choose_files};
use crate::{ChoiceFault, VolumeFile};
use std::alloc::{AllocError, Global};
use std::collections::BTreeSet;

/// What is asked for.
#[derive(Clone, Copy)]
pub enum Wish {
    /// This file of the volume.
    File(VolumeFile),

    /// No file: the word of this place among those given, counted from 0, is neither a name nor a pattern.
    BadWord(usize),

    /// No file: none is like the word of this place.
    NotFound(usize),

    /// No file: none begins at this block.
    Block(usize),
}

/// What is asked for of these files, each file once, where it is asked for first. These are all of them, if that is asked for, those that words
/// choose, and those that begin at blocks.
pub fn wishes_of(
    alloc: Global,
    files: &[VolumeFile],
    is_all: bool,
    words: &[String],
    places: &[usize],
) -> Result<Vec<Wish>, AllocError>
    ensures { IfOk result (λ wishes. wishes.items
        ≡ spec.wishes_of files.now is_all (map (λ word. word.bytes.items) words.now) places.now) }
{
    let asked = all_wishes(alloc, files, is_all, words, places)?;
    once_each(alloc, &asked)
}

/// What is asked for, one after another.
fn all_wishes(
    alloc: Global,
    files: &[VolumeFile],
    is_all: bool,
    words: &[String],
    places: &[usize],
) -> Result<Vec<Wish>, AllocError>
    ensures { IfOk result (λ wishes. wishes.items
        ≡ spec.all_wishes files.now is_all (map (λ word. word.bytes.items) words.now) places.now) }
{
    let mut wishes = Vec::new(alloc);
    add_all(is_all, files, &mut wishes)?;
    add_words(alloc, files, words, &mut wishes)?;
    add_blocks(files, places, &mut wishes)?;
    Ok(wishes)
}

/// The first of these that asks for no file.
pub fn first_unfound(wishes: &[Wish]) -> Option<Wish>
    ensures first { result ≡ spec.first_unfound wishes.now }
    ensures none { IfSome result (λ wish. spec.is_file wish ≡ false) }
{
    let mut rest = wishes;
    while let [wish, others @ ..] = rest {
        if !is_file(wish) {
            return Some(*wish);
        }
        rest = others;
    }
    None
}

fn is_file(wish: &Wish) -> bool
    ensures { result ≡ spec.is_file wish.now }
{
    match wish {
        Wish::File(_) => true,
        Wish::BadWord(_) | Wish::NotFound(_) | Wish::Block(_) => false,
    }
}

fn add(wishes: &mut Vec<Wish>, wish: Wish) -> Result<(), AllocError>
    ensures { OnOk result (wishes.new.items ≡ wishes.old.items ++ wish ∷ []) }
{
    wishes.push(wish)?;
    Ok(())
}

/// Adds all files, if these are asked for.
fn add_all(is_all: bool, files: &[VolumeFile], wishes: &mut Vec<Wish>) -> Result<(), AllocError>
    ensures { OnOk result (wishes.new.items ≡ wishes.old.items ++ wishes_for_all is_all files.now) }
{
    if is_all {
        return add_files(files, wishes);
    }
    Ok(())
}

fn add_files(files: &[VolumeFile], wishes: &mut Vec<Wish>) -> Result<(), AllocError>
    ensures { OnOk result (wishes.new.items ≡ wishes.old.items ++ wishes_for_all true files.now) }
{
    let mut rest = files;
    while let [file, others @ ..] = rest {
        add(wishes, Wish::File(*file))?;
        rest = others;
    }
    Ok(())
}

/// Adds what words ask for.
fn add_words(
    alloc: Global,
    files: &[VolumeFile],
    words: &[String],
    wishes: &mut Vec<Wish>,
) -> Result<(), AllocError>
    ensures { OnOk result (wishes.new.items ≡ wishes.old.items ++ asked_by_words files.now 0 (map (λ word. word.bytes.items) words.now)) }
{
    let mut place: usize = 0;
    let mut rest = words;
    while let [word, others @ ..] = rest {
        add_word(alloc, files, place, word.as_bytes(), wishes)?;
        place += 1;
        rest = others;
    }
    Ok(())
}

/// Adds what the word at a place asks for.
fn add_word(
    alloc: Global,
    files: &[VolumeFile],
    place: usize,
    word: &[u8],
    wishes: &mut Vec<Wish>,
) -> Result<(), AllocError>
    ensures { OnOk result (wishes.new.items ≡ wishes.old.items ++ wishes_of_word files.now place word.now) }
{
    match choose_files(alloc, files, word) {
        Ok(found) => {
            add_files(&found, wishes)?;
            Ok(())
        }
        Err(fault) => match fault {
            ChoiceFault::Memory => Err(AllocError),
            ChoiceFault::BadName => {
                add(wishes, Wish::BadWord(place))?;
                Ok(())
            }
            ChoiceFault::NotFound => {
                add(wishes, Wish::NotFound(place))?;
                Ok(())
            }
        },
    }
}

/// Adds the files that begin at these blocks.
fn add_blocks(
    files: &[VolumeFile],
    blocks: &[usize],
    wishes: &mut Vec<Wish>,
) -> Result<(), AllocError>
    ensures { OnOk result (wishes.new.items ≡ wishes.old.items ++ map (wish_of_block files.now) blocks.now) }
{
    let mut rest = blocks;
    while let [block, others @ ..] = rest {
        add(wishes, wish_at(files, *block))?;
        rest = others;
    }
    Ok(())
}

/// The file that begins at a block, if one does.
fn wish_at(files: &[VolumeFile], block: usize) -> Wish
    ensures { result ≡ wish_of_block files.now block }
{
    match at_place(files, block) {
        Some(file) => Wish::File(file),
        None => Wish::Block(block),
    }
}

/// The same, each file where it is asked for first.
fn once_each(alloc: Global, asked: &[Wish]) -> Result<Vec<Wish>, AllocError>
    ensures { IfOk result (λ wishes. wishes.items ≡ spec.once [] asked.now) }
{
    let mut wishes = Vec::new(alloc);
    let mut places = BTreeSet::new(alloc);
    let mut rest = asked;
    while let [wish, others @ ..] = rest {
        add_new(&mut places, &mut wishes, *wish)?;
        rest = others;
    }
    Ok(wishes)
}

/// Adds what is asked for, unless it is a file that is among them. The set has the first blocks of these.
fn add_new(places: &mut BTreeSet<u64>, wishes: &mut Vec<Wish>, wish: Wish) -> Result<(), AllocError>
    ensures wishes { KnowsPlaces places.old wishes.old.items → OnOk result (wishes.new.items ≡ with_wish wishes.old.items wish) }
    ensures places { KnowsPlaces places.old wishes.old.items → OnOk result (KnowsPlaces places.new wishes.new.items) }
{
    match wish {
        Wish::File(file) => add_file(places, wishes, file),
        Wish::BadWord(place) => {
            add(wishes, Wish::BadWord(place))?;
            Ok(())
        }
        Wish::NotFound(place) => {
            add(wishes, Wish::NotFound(place))?;
            Ok(())
        }
        Wish::Block(block) => {
            add(wishes, Wish::Block(block))?;
            Ok(())
        }
    }
}

/// Adds a file, unless it is among them.
fn add_file(
    places: &mut BTreeSet<u64>,
    wishes: &mut Vec<Wish>,
    file: VolumeFile,
) -> Result<(), AllocError>
    ensures wishes { KnowsPlaces places.old wishes.old.items → OnOk result (wishes.new.items ≡ with_wish wishes.old.items (File file)) }
    ensures places { KnowsPlaces places.old wishes.old.items → OnOk result (KnowsPlaces places.new wishes.new.items) }
{
    if add_place(places, file.place)? {
        add(wishes, Wish::File(file))?;
    }
    Ok(())
}

/// Adds a block to those that are known, and answers whether it is new.
fn add_place(places: &mut BTreeSet<u64>, place: usize) -> Result<bool, AllocError>
    ensures new { IfOk result (λ new. new ≡ not (has_key places.old place)) }
    ensures more { IfOk result (λ new. (q : ℕ) → has_key places.new q ≡ (has_key places.old q || nat_eq place q)) }
{
    let new = places.insert(place as u64)?;
    Ok(new)
}
