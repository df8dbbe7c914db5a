//! The command that puts one word of an image in place of another.
ghost use Rattle.std.specs.Prelude.{◌≡◌, ◌++◌, OnOk};
ghost use Rattle.image_files.specs.Answers.{AreLines};
ghost use Rattle.block_words.specs.declared.faults.PatchFault.TheVariants.{NoBlock, OtherWord};
ghost use Rattle.change_commands.specs.Patching.{PatchesWord, GivesPatched, RefusesPatch, fault_text, patched_text};

use crate::patch_refusals::refuse_with;
use block_words::{PatchFault, patch, put_bits, put_number};
use hosts::Host;
use image_files::{Image, store};
use outcome::Ending;
use program_tasks::ImageForm;
use std::alloc::{AllocError, Global};
use word12::Word;

/// A word of an image in place of another.
#[derive(Clone, Copy)]
pub struct WordPatch {
    /// The block, and the word's number there, from 0.
    pub block: usize,
    pub number: usize,

    /// The word that stands there, with all sixteen bits that it has in the image.
    pub old: u16,

    pub new: Word,
}

/// Puts a word in place of the one that stands in a block of the volume in an image file, which may be damaged, if that is just so. Its line
/// is printed once the file holds the new image.
pub fn patch_word<H: Host>(
    host: &mut H,
    alloc: Global,
    form: &ImageForm,
    wanted: &WordPatch,
) -> Result<(), Ending>
    ensures { PatchesWord wanted.now form.now (H.history host.old) result (H.history host.new) }
{
    let image = Image::open(host, alloc, form)?;
    let bytes = patched_bytes(host, alloc, wanted, &image.bytes)?;
    let line = patched_line(alloc, wanted)?;
    store(host, alloc, image, &bytes, &line)
}

/// The image with the word in its place.
fn patched_bytes<H: Host>(
    host: &mut H,
    alloc: Global,
    wanted: &WordPatch,
    image: &[u8],
) -> Result<Vec<u8>, Ending>
    ensures { GivesPatched wanted.now image.now (H.history host.old) result (H.history host.new) }
{
    let mut bytes = image.to_vec(alloc)?;
    match patch(
        &mut bytes,
        wanted.block,
        wanted.number,
        wanted.old,
        wanted.new,
    ) {
        Ok(()) => Ok(bytes),
        Err(fault) => Err(refuse_patch(host, alloc, fault)),
    }
}

/// How the command ends if its word is not patched for this.
fn refuse_patch<H: Host>(host: &mut H, alloc: Global, fault: PatchFault) -> Ending
    ensures { RefusesPatch fault (H.history host.old) result (H.history host.new) }
{
    match fault_line(alloc, fault) {
        Ok(line) => refuse_with(host, &line),
        Err(ending) => ending,
    }
}

/// The line for why a word is not patched.
fn fault_line(alloc: Global, fault: PatchFault) -> Result<Vec<u8>, Ending>
    ensures { AreLines (fault_text fault) result }
{
    let mut line = Vec::new(alloc);
    put_fault(fault, &mut line)?;
    Ok(line)
}

fn put_fault(fault: PatchFault, line: &mut Vec<u8>) -> Result<(), AllocError>
    ensures { OnOk result (line.new.items ≡ line.old.items ++ fault_text fault) }
{
    match fault {
        PatchFault::NoBlock(count) => put_no_block(count, line),
        PatchFault::NoWord => line.extend_from_slice(b"? PATCH 2 NO WORD\n"),
        PatchFault::OtherWord(there) => put_other_word(there, line),
    }
}

fn put_no_block(count: usize, line: &mut Vec<u8>) -> Result<(), AllocError>
    ensures { OnOk result (line.new.items ≡ line.old.items ++ fault_text (NoBlock count)) }
{
    line.extend_from_slice(b"? PATCH 1 ONLY ")?;
    put_number(line, count as u64)?;
    line.push(b'\n')?;
    Ok(())
}

fn put_other_word(there: u16, line: &mut Vec<u8>) -> Result<(), AllocError>
    ensures { OnOk result (line.new.items ≡ line.old.items ++ fault_text (OtherWord there)) }
{
    line.extend_from_slice(b"? PATCH 3 OTHER WORD ")?;
    put_bits(line, there)?;
    line.push(b'\n')?;
    Ok(())
}

/// The line of a word that was patched.
fn patched_line(alloc: Global, wanted: &WordPatch) -> Result<Vec<u8>, Ending>
    ensures { AreLines (patched_text wanted.now) result }
{
    let mut line = Vec::new(alloc);
    put_patched(wanted, &mut line)?;
    Ok(line)
}

fn put_patched(wanted: &WordPatch, line: &mut Vec<u8>) -> Result<(), AllocError>
    ensures { OnOk result (line.new.items ≡ line.old.items ++ patched_text wanted.now) }
{
    line.extend_from_slice(b"PATCHED ")?;
    put_number(line, wanted.block as u64)?;
    line.push(b' ')?;
    put_number(line, wanted.number as u64)?;
    line.push(b' ')?;
    put_bits(line, wanted.old)?;
    line.push(b' ')?;
    line.extend_from_slice(&wanted.new.octal4())?;
    line.push(b'\n')?;
    Ok(())
}
