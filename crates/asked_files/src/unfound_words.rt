//! The lines of the words that ask for no file.
ghost use Rattle.std.specs.Prelude.{◌≡◌, ◌++◌, map, slice_get, IfOk, OnOk, Some};
ghost use Rattle.refusals.specs.Faults.{fault_line};
ghost use Rattle.refusals.specs.declared.faults.SessionFault.TheVariants.{File};
ghost use Rattle.asked_files.specs.UnfoundWords.{refusal_for, refusal_of};

use archive_many::Wish;
use os8_dir::FileFault;
use program_reports::with_prefix;
use refusals::{SessionFault, put_fault};
use shown_text::ShownText;
use std::alloc::{AllocError, Global};

/// Appends the line of the word that asks for this, if it asks for no file.
pub fn put_refusal(
    alloc: Global,
    words: &[String],
    wish: &Wish,
    out: &mut Vec<u8>,
) -> Result<(), AllocError>
    ensures { OnOk result (out.new.items ≡ out.old.items ++ refusal_for (map (λ word. word.bytes.items) words.now) wish.now) }
{
    match wish {
        Wish::File(_) | Wish::Block(_) => Ok(()),
        Wish::BadWord(place) => put_word(alloc, words, *place, FileFault::BadName, out),
        Wish::NotFound(place) => put_word(alloc, words, *place, FileFault::NotFound, out),
    }
}

/// Appends the line of the word at a place.
pub fn put_word(
    alloc: Global,
    words: &[String],
    place: usize,
    why: FileFault,
    out: &mut Vec<u8>,
) -> Result<(), AllocError>
    ensures { OnOk result (out.new.items ≡ out.old.items ++ refusal_of (slice_get (map (λ word. word.bytes.items) words.now) place) why) }
{
    match words.get(place) {
        None => Ok(()),
        Some(word) => put_line(alloc, word.as_str(), why, out),
    }
}

/// Appends the line of a word, which is shown with escapes where it isn't graphic, and why it is refused.
pub fn put_line(
    alloc: Global,
    word: &str,
    why: FileFault,
    out: &mut Vec<u8>,
) -> Result<(), AllocError>
    ensures { OnOk result (out.new.items ≡ out.old.items ++ refusal_of (Some word.now) why) }
{
    let line = fault_text(alloc, why)?;
    let word = ShownText { text: word };
    let prefix = format!(in alloc; "{word}: ")?;
    let lines = with_prefix(alloc, prefix.as_bytes(), &line)?;
    out.extend_from_slice(&lines)?;
    Ok(())
}

fn fault_text(alloc: Global, why: FileFault) -> Result<Vec<u8>, AllocError>
    ensures { IfOk result (λ text. text.items ≡ fault_line (File why)) }
{
    let mut text = Vec::new(alloc);
    put_fault(SessionFault::File(why), &mut text)?;
    Ok(text)
}
