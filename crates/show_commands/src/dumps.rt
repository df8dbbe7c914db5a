//! The command that shows blocks of a volume, whatever its directory says.
ghost use Rattle.std.specs.Prelude.{◌≡◌, ◌+◌, ◌*◌, ◌≤◌, ◌<◌, ◌++◌, length, IfOk, OnOk};
ghost use Rattle.word12.specs.declared.sizes.TheConstants.{BLOCK};
ghost use Rattle.show_commands.specs.Dumping.{Dumps, IsDump, bad_line, bad_lines, block_lines, block_rows, block_text, block_words, form_of, heading, span_or};

use crate::owners::{files_in, owner_in};
use archive_many::VolumeFile;
use block_words::{DumpForm, put_bits, put_number, put_words, word_at};
use hosts::Host;
use image_files::{look_at, print};
use name_spelling::put_name;
use outcome::Ending;
use program_reports::ProgramLine;
use program_tasks::ImageForm;
use std::alloc::{AllocError, Global};
use word12::{BLOCK, Word};

/// Shows blocks of the volume in an image file, which may be damaged. Of each it shows its number, the file that has it, its words of more
/// than twelve bits, and its words with their characters, of sixbit or of a text. They are those from the first to the last that are given,
/// else all.
pub fn dump_blocks<H: Host>(
    host: &mut H,
    alloc: Global,
    form: &ImageForm,
    span: Option<(usize, usize)>,
    is_sixbit: bool,
) -> Result<(), Ending>
    ensures { Dumps span is_sixbit form.now (H.history host.old) result (H.history host.new) }
{
    let image = look_at(host, alloc, form)?;
    let text = dump_of(alloc, span, form_of(is_sixbit), &image)?;
    print(host, &text)
}

/// The lines of the blocks of an image that are wanted. A block that isn't whole is none.
fn dump_of(
    alloc: Global,
    span: Option<(usize, usize)>,
    form: DumpForm,
    image: &[u8],
) -> Result<Vec<u8>, Ending>
    ensures { IsDump span form image.now result }
{
    let count = image.len() / 0o1000;
    let (first, last) = span_or(span, count);
    if last >= count {
        return Err(Ending::Line(ProgramLine::OnlyBlocks(count)));
    }
    let files = files_in(alloc, image)?;
    let mut text = Vec::new(alloc);
    put_blocks(
        alloc,
        form,
        &files,
        image,
        first,
        last - first + 1,
        &mut text,
    )?;
    Ok(text)
}

/// The first and the last of the blocks that are wanted of so many: those that are given, else all.
fn span_or(span: Option<(usize, usize)>, count: usize) -> (usize, usize)
    ensures value { result ≡ span_or span count }
    ensures order { result.0 ≤ result.1 }
{
    match span {
        Some((first, last)) => (first.min(last), last),
        None if count > 0 => (0, count - 1),
        None => (0, 0),
    }
}

/// What stands beside words.
fn form_of(is_sixbit: bool) -> DumpForm
    ensures { result ≡ form_of is_sixbit }
{
    if is_sixbit {
        return DumpForm::Sixbit;
    }
    DumpForm::Text
}

/// Appends the lines of so many blocks.
fn put_blocks(
    alloc: Global,
    form: DumpForm,
    files: &[VolumeFile],
    image: &[u8],
    first: usize,
    count: usize,
    text: &mut Vec<u8>,
) -> Result<(), AllocError>
    requires { 0o1000 * (first + count) ≤ length image.now }
    ensures { OnOk result (text.new.items ≡ text.old.items ++ block_lines form files.now image.now first count) }
{
    for k in 0..count {
        put_block(alloc, form, files, image, first + k, text)?;
    }
    Ok(())
}

/// Appends the lines of a block.
fn put_block(
    alloc: Global,
    form: DumpForm,
    files: &[VolumeFile],
    image: &[u8],
    block: usize,
    text: &mut Vec<u8>,
) -> Result<(), AllocError>
    requires { 0o1000 * block + 0o1000 ≤ length image.now }
    ensures { OnOk result (text.new.items ≡ text.old.items ++ block_text form files.now image.now block) }
{
    put_heading(files, block, text)?;
    put_bad_words(image, block, BLOCK, text)?;
    put_rows(alloc, form, image, block, text)?;
    Ok(())
}

/// Appends the lines of a block's words.
fn put_rows(
    alloc: Global,
    form: DumpForm,
    image: &[u8],
    block: usize,
    text: &mut Vec<u8>,
) -> Result<(), AllocError>
    requires { 0o1000 * block + 0o1000 ≤ length image.now }
    ensures { OnOk result (text.new.items ≡ text.old.items ++ block_rows form image.now block) }
{
    let words = words_of(alloc, image, block)?;
    put_words(text, &words, form)
}

/// Appends the line with a block's number and the file that has it.
fn put_heading(files: &[VolumeFile], block: usize, text: &mut Vec<u8>) -> Result<(), AllocError>
    ensures { OnOk result (text.new.items ≡ text.old.items ++ heading files.now block) }
{
    text.extend_from_slice(b"BLOCK ")?;
    put_number(text, block as u64)?;
    if let Some(name) = owner_in(files, block) {
        text.push(b' ')?;
        put_name(text, name)?;
    }
    text.push(b'\n')?;
    Ok(())
}

/// Appends a line for each of the first words of a block that has more than twelve bits.
fn put_bad_words(
    image: &[u8],
    block: usize,
    count: usize,
    text: &mut Vec<u8>,
) -> Result<(), AllocError>
    requires { 0o1000 * block + 2 * count ≤ length image.now }
    ensures { OnOk result (text.new.items ≡ text.old.items ++ bad_lines image.now block count) }
{
    for k in 0..count {
        put_bad_word(word_at(image, BLOCK * block + k), k, text)?;
    }
    Ok(())
}

/// Appends the line of a word with more than twelve bits, by its number in the block.
fn put_bad_word(bits: u16, number: usize, text: &mut Vec<u8>) -> Result<(), AllocError>
    ensures { OnOk result (text.new.items ≡ text.old.items ++ bad_line bits number) }
{
    if bits < 0o10000 {
        return Ok(());
    }
    text.extend_from_slice(b"BAD WORD ")?;
    put_number(text, number as u64)?;
    text.push(b' ')?;
    put_bits(text, bits)?;
    text.push(b'\n')?;
    Ok(())
}

/// The low twelve bits of each word of a block.
fn words_of(alloc: Global, image: &[u8], block: usize) -> Result<Vec<Word>, AllocError>
    requires { 0o1000 * block + 0o1000 ≤ length image.now }
    ensures words { IfOk result (λ words. words.items ≡ block_words image.now block BLOCK) }
    ensures size { IfOk result (λ words. length words.items ≡ BLOCK) }
{
    let mut words = Vec::new(alloc);
    for k in 0..BLOCK {
        words.push(Word::low(word_at(image, BLOCK * block + k)))?;
    }
    Ok(words)
}
