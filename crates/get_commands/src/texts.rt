//! The command that prints the texts of several files of the volume in an image file, one after another. No file changes.
ghost use Rattle.std.specs.Prelude.{◌≡◌, ◌++◌, ◌&&◌, not, map, true, IfOk, OnOk};
ghost use Rattle.image_files.specs.Answers.{AreLines};
ghost use Rattle.get_commands.specs.Texts as spec;
ghost use Rattle.get_commands.specs.Texts.{AreAsked, AreSeveral, IsHostName, RefusesWish, ShowsEach, ShowsText, ShowsTexts, ShowsWish, TakesText};

use archive_files::GetForm;
use archive_many::{OpenVolume, VolumeFile, Wish, host_name, wishes_of};
use asked_files::{files_of, put_line, put_word};
use hosts::Host;
use image_files::{end_sound, look_at, open_volume, part_after, print, tell_line};
use os8_files::FileFault;
use outcome::Ending;
use program_tasks::ImageForm;
use std::alloc::{AllocError, Global};

/// Prints the texts of the files of a volume that words, first blocks, or all ask for, each file once. Where they are several, a line
/// with its name stands before each, as `head` prints files (the lines are this project's profile).
pub fn show_texts<H: Host>(
    host: &mut H,
    alloc: Global,
    image: &ImageForm,
    is_all: bool,
    words: &[String],
    places: &[usize],
) -> Result<(), Ending>
    ensures { ShowsTexts image.now is_all (map (λ word. word.bytes.items) words.now) places.now (H.history host.old) result (H.history host.new) }
{
    let bytes = look_at(host, alloc, image)?;
    let volume = open_volume(host, alloc, &bytes)?;
    let wishes = wishes_in(alloc, &volume, is_all, words, places)?;
    let are_several = are_several(alloc, &wishes)?;
    let are_there = show_each(host, alloc, &volume, words, &wishes, are_several)?;
    end_sound(are_there)
}

/// What is asked for of a volume.
fn wishes_in(
    alloc: Global,
    volume: &OpenVolume,
    is_all: bool,
    words: &[String],
    places: &[usize],
) -> Result<Vec<Wish>, Ending>
    ensures { AreAsked is_all (map (λ word. word.bytes.items) words.now) places.now volume.now result }
{
    let files = volume.files(alloc)?;
    let wishes = wishes_of(alloc, &files, is_all, words, places)?;
    Ok(wishes)
}

/// Whether more than one file is chosen.
fn are_several(alloc: Global, wishes: &[Wish]) -> Result<bool, Ending>
    ensures { AreSeveral wishes.now result }
{
    let files = files_of(alloc, wishes)?;
    Ok(files.len() > 1)
}

/// Prints what is asked for, one after another, and answers whether all is there.
fn show_each<H: Host>(
    host: &mut H,
    alloc: Global,
    volume: &OpenVolume,
    words: &[String],
    wishes: &[Wish],
    are_several: bool,
) -> Result<bool, Ending>
    ensures { ShowsEach are_several true true volume.now (map (λ word. word.bytes.items) words.now) wishes.now (H.history host.old) result (H.history host.new) }
{
    let mut is_first = true;
    let mut are_there = true;
    let mut rest = wishes;
    while let [wish, others @ ..] = rest {
        let shown = show_wish(host, alloc, volume, words, wish, are_several, is_first);
        let is_there = part_after(are_there, shown)?;
        is_first = one_without(is_first, is_there);
        are_there = both(are_there, is_there);
        rest = others;
    }
    Ok(are_there)
}

fn both(one: bool, other: bool) -> bool
    ensures { result ≡ (one && other) }
{
    one && other
}

fn one_without(one: bool, other: bool) -> bool
    ensures { result ≡ (one && not other) }
{
    one && !other
}

/// Prints what is asked for, and answers whether it is there.
fn show_wish<H: Host>(
    host: &mut H,
    alloc: Global,
    volume: &OpenVolume,
    words: &[String],
    wish: &Wish,
    are_several: bool,
    is_first: bool,
) -> Result<bool, Ending>
    ensures { ShowsWish are_several is_first volume.now (map (λ word. word.bytes.items) words.now) wish.now (H.history host.old) result (H.history host.new) }
{
    match wish {
        Wish::File(file) => show_text(host, alloc, volume, file, are_several, is_first),
        Wish::BadWord(_) => refuse_wish(host, alloc, words, wish),
        Wish::NotFound(_) => refuse_wish(host, alloc, words, wish),
        Wish::Block(_) => refuse_wish(host, alloc, words, wish),
    }
}

/// Prints a text after the line before it.
fn show_text<H: Host>(
    host: &mut H,
    alloc: Global,
    volume: &OpenVolume,
    file: &VolumeFile,
    are_several: bool,
    is_first: bool,
) -> Result<bool, Ending>
    ensures { ShowsText are_several is_first volume.now file.now (H.history host.old) result (H.history host.new) }
{
    let name = name_of(alloc, file)?;
    let text = text_of(alloc, volume, file)?;
    let bytes = text_with_head(alloc, name.as_str(), &text, are_several, is_first)?;
    print(host, &bytes)?;
    Ok(true)
}

/// The name that a file has on a host.
fn name_of(alloc: Global, file: &VolumeFile) -> Result<String, Ending>
    ensures { IsHostName file.now result }
{
    let name = host_name(alloc, file)?;
    Ok(name)
}

/// The text that a file has on the volume.
fn text_of(alloc: Global, volume: &OpenVolume, file: &VolumeFile) -> Result<Vec<u8>, Ending>
    ensures { TakesText volume.now file.now result }
{
    match volume.get(alloc, file, GetForm::Text) {
        Ok(text) => Ok(text),
        Err(fault) => Err(Ending::Fault(fault)),
    }
}

/// A text after the line before it.
fn text_with_head(
    alloc: Global,
    name: &str,
    text: &[u8],
    are_several: bool,
    is_first: bool,
) -> Result<Vec<u8>, Ending>
    ensures { AreLines (spec.head_of are_several is_first name.now ++ text.now) result }
{
    let mut bytes = Vec::new(alloc);
    if are_several {
        put_head(name, is_first, &mut bytes)?;
    }
    bytes.extend_from_slice(text)?;
    Ok(bytes)
}

/// Appends the line before a text among several.
fn put_head(name: &str, is_first: bool, out: &mut Vec<u8>) -> Result<(), AllocError>
    ensures { OnOk result (out.new.items ≡ out.old.items ++ spec.head_of true is_first name.now) }
{
    out.extend_from_slice(if is_first { b"==> " } else { b"\n==> " })?;
    out.extend_from_slice(name.as_bytes())?;
    out.extend_from_slice(b" <==\n")?;
    Ok(())
}

/// Prints on standard error that a word, or a block, asks for no file.
fn refuse_wish<H: Host>(
    host: &mut H,
    alloc: Global,
    words: &[String],
    wish: &Wish,
) -> Result<bool, Ending>
    ensures { RefusesWish (map (λ word. word.bytes.items) words.now) wish.now (H.history host.old) result (H.history host.new) }
{
    let line = refusal_line(alloc, words, wish)?;
    tell_line(host, &line);
    Ok(false)
}

/// The line of what asks for no file.
fn refusal_line(alloc: Global, words: &[String], wish: &Wish) -> Result<Vec<u8>, Ending>
    ensures { AreLines (spec.refusal_line (map (λ word. word.bytes.items) words.now) wish.now) result }
{
    let mut line = Vec::new(alloc);
    put_refusal(alloc, words, wish, &mut line)?;
    Ok(line)
}

/// Appends the line of what asks for no file.
fn put_refusal(
    alloc: Global,
    words: &[String],
    wish: &Wish,
    out: &mut Vec<u8>,
) -> Result<(), AllocError>
    ensures { OnOk result (out.new.items ≡ out.old.items ++ spec.refusal_line (map (λ word. word.bytes.items) words.now) wish.now) }
{
    match wish {
        Wish::File(_) => Ok(()),
        Wish::BadWord(place) => put_word(alloc, words, *place, FileFault::BadName, out),
        Wish::NotFound(place) => put_word(alloc, words, *place, FileFault::NotFound, out),
        Wish::Block(block) => put_block(alloc, *block, out),
    }
}

/// Appends the line of a block at which no file begins.
fn put_block(alloc: Global, block: usize, out: &mut Vec<u8>) -> Result<(), AllocError>
    ensures { OnOk result (out.new.items ≡ out.old.items ++ spec.block_refusal block) }
{
    let word = format!(in alloc; "--at {block}")?;
    put_line(alloc, word.as_str(), FileFault::NotFound, out)
}
