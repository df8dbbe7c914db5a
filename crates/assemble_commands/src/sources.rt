//! Sources that are read: files of the host, standard input, or files of the volume in an image.
ghost use Rattle.std.specs.Prelude.{◌≡◌, ◌++◌, ◌∷◌, [], true, map, option_copied, OnOk};
ghost use Rattle.archive_files.specs.Asking.{target_of};
ghost use Rattle.assemble_commands.specs.Sources as spec;
ghost use Rattle.assemble_commands.specs.Sources.{AreLent, GetsText, IsAsked, IsText, NamesIf, NamesUnread, ReadsBytes, ReadsEach, ReadsFile, ReadsIf, ReadsSource, RefusesSource};

use crate::clashes::STANDARD;
use archive_files::{ArchiveFault, Asked, GetForm, get};
use hosts::Host;
use image_files::{input_bytes, look_file, refuse_image, tell_note};
use outcome::{Ending, NameNote, Note};
use program_reports::with_line_feeds;
use std::alloc::{AllocError, Global};

/// The texts of sources, of the volume in an image if there is one, which are read in their order. LF ends each line.
pub(crate) fn read_sources<H: Host>(
    host: &mut H,
    alloc: Global,
    volume: Option<&[u8]>,
    names: &[String],
) -> Result<Vec<Vec<u8>>, Ending>
    ensures { ReadsEach (option_copied volume.entry) [] (map (λ name. name.bytes.items) names.now) (H.history host.old) result (H.history host.new) }
{
    let mut texts = Vec::new(alloc);
    let mut rest = names;
    while let [name, others @ ..] = rest {
        let text = read_source(host, alloc, volume, name.as_str())?;
        add(&mut texts, text)?;
        rest = others;
    }
    Ok(texts)
}

fn add(texts: &mut Vec<Vec<u8>>, text: Vec<u8>) -> Result<(), AllocError>
    ensures { OnOk result (texts.new.items ≡ texts.old.items ++ text ∷ []) }
{
    texts.push(text)?;
    Ok(())
}

/// The text of a source.
fn read_source<H: Host>(
    host: &mut H,
    alloc: Global,
    volume: Option<&[u8]>,
    name: &str,
) -> Result<Vec<u8>, Ending>
    ensures { ReadsSource (option_copied volume.entry) name.now (H.history host.old) result (H.history host.new) }
{
    let bytes = read_bytes(host, alloc, volume, name)?;
    source_text(alloc, volume, bytes)
}

/// The text of a source of these bytes. In one of a volume LF ends each line already.
fn source_text(alloc: Global, volume: Option<&[u8]>, bytes: Vec<u8>) -> Result<Vec<u8>, Ending>
    ensures { IsText (spec.source_text (option_copied volume.entry) bytes.items) result }
{
    match volume {
        None => {
            let text = with_line_feeds(alloc, &bytes)?;
            Ok(text)
        }
        Some(_) => Ok(bytes),
    }
}

/// The bytes of a source.
fn read_bytes<H: Host>(
    host: &mut H,
    alloc: Global,
    volume: Option<&[u8]>,
    name: &str,
) -> Result<Vec<u8>, Ending>
    ensures { ReadsBytes (option_copied volume.entry) name.now (H.history host.old) result (H.history host.new) }
{
    match volume {
        None => read_named(host, alloc, name),
        Some(image) => read_member(host, alloc, image, name),
    }
}

/// The bytes of a file of the host, or of standard input.
fn read_named<H: Host>(host: &mut H, alloc: Global, name: &str) -> Result<Vec<u8>, Ending>
    ensures { ReadsIf (spec.is_standard name.now) name.now (H.history host.old) result (H.history host.new) }
{
    if name == STANDARD {
        return input_bytes(host, alloc);
    }
    read_file(host, alloc, name)
}

/// The bytes of a file of the host. One that can't be read is named.
fn read_file<H: Host>(host: &mut H, alloc: Global, name: &str) -> Result<Vec<u8>, Ending>
    ensures { ReadsFile name.now (H.history host.old) result (H.history host.new) }
{
    match look_file(host, alloc, name) {
        Ok(bytes) => Ok(bytes),
        Err(why) => Err(name_unread(host, alloc, name, why)),
    }
}

/// How the command ends where a source is not read for this. It is named.
fn name_unread<H: Host>(host: &mut H, alloc: Global, name: &str, why: Ending) -> Ending
    ensures { NamesUnread name.now why (H.history host.old) result (H.history host.new) }
{
    if !is_unread(&why) {
        return why;
    }
    name_source(host, alloc, name, why)
}

/// How the command ends for this reason, after its source is named.
fn name_source<H: Host>(host: &mut H, alloc: Global, name: &str, why: Ending) -> Ending
    ensures { NamesIf true name.now why (H.history host.old) result (H.history host.new) }
{
    match tell_note(host, alloc, Note::OnName(NameNote::NoSource, name)) {
        Ok(()) => why,
        Err(error) => Ending::from(error),
    }
}

/// Whether a file can't be read, or has too many bytes.
fn is_unread(why: &Ending) -> bool
    ensures { result ≡ spec.is_unread why.now }
{
    match why {
        Ending::Line(_) => true,
        _ => false,
    }
}

/// The text of a file of the volume in an image.
fn read_member<H: Host>(
    host: &mut H,
    alloc: Global,
    image: &[u8],
    name: &str,
) -> Result<Vec<u8>, Ending>
    ensures { spec.ReadsMember image.now name.now (H.history host.old) result (H.history host.new) }
{
    let asked = file_of_name(alloc, name)?;
    text_of(host, alloc, image, name, &asked)
}

/// The file of a name.
fn file_of_name(alloc: Global, name: &str) -> Result<Asked, Ending>
    ensures { IsAsked name.now result }
{
    let text = String::from_str(alloc, name)?;
    Ok(Asked::Name(text))
}

/// The text of a file of the volume in an image, which has this name.
fn text_of<H: Host>(
    host: &mut H,
    alloc: Global,
    image: &[u8],
    name: &str,
    asked: &Asked,
) -> Result<Vec<u8>, Ending>
    ensures { GetsText image.now name.now (target_of asked.now) (H.history host.old) result (H.history host.new) }
{
    match get(alloc, image, asked, GetForm::Text) {
        Ok(text) => Ok(text),
        Err(fault) => Err(refuse_source(host, alloc, name, image.len(), fault)),
    }
}

/// How the command ends if its image, of so many bytes, or a source on its volume is refused. The source is named.
fn refuse_source<H: Host>(
    host: &mut H,
    alloc: Global,
    name: &str,
    size: usize,
    fault: ArchiveFault,
) -> Ending
    ensures { RefusesSource name.now fault size (H.history host.old) result (H.history host.new) }
{
    match tell_note(host, alloc, Note::OnName(NameNote::NoSource, name)) {
        Ok(()) => refuse_image(host, size, fault),
        Err(error) => Ending::from(error),
    }
}

/// Texts as the functions on sources take them.
pub(crate) fn slices_of<'a>(alloc: Global, texts: &'a [Vec<u8>]) -> Result<Vec<&'a [u8]>, Ending>
    ensures { AreLent (map (λ text. text.items) texts.now) result }
{
    let mut lent = Vec::new(alloc);
    let mut rest = texts;
    while let [text, others @ ..] = rest {
        lend(&mut lent, text.as_slice())?;
        rest = others;
    }
    Ok(lent)
}

fn lend<'a>(lent: &mut Vec<&'a [u8]>, text: &'a [u8]) -> Result<(), AllocError>
    ensures { OnOk result (map (λ it. it.now) lent.new.items ≡ map (λ it. it.now) lent.old.items ++ text.now ∷ []) }
{
    lent.push(text)?;
    Ok(())
}

/// Names as the functions on sources take them.
pub(crate) fn names_of<'a>(alloc: Global, words: &'a [String]) -> Result<Vec<&'a str>, Ending>
    ensures { AreLent (map (λ word. word.bytes.items) words.now) result }
{
    let mut lent = Vec::new(alloc);
    let mut rest = words;
    while let [word, others @ ..] = rest {
        lend_name(&mut lent, word.as_str())?;
        rest = others;
    }
    Ok(lent)
}

fn lend_name<'a>(lent: &mut Vec<&'a str>, name: &'a str) -> Result<(), AllocError>
    ensures { OnOk result (map (λ it. it.now) lent.new.items ≡ map (λ it. it.now) lent.old.items ++ name.now ∷ []) }
{
    lent.push(name)?;
    Ok(())
}
