//! Which files an index has.
ghost use Rattle.std.specs.Prelude.{◌≡◌, IfOk};
ghost use Rattle.char_pack.specs.Texts.{text};
ghost use Rattle.archive_files.specs.Getting.{line_feeds};
ghost use Rattle.volume_index.specs.Holding.{holds};
ghost use Rattle.volume_index.specs.Indexing as spec;

use crate::holding::holds;
use crate::kinds::is_text;
use archive_files::GetForm;
use archive_files::parts::content_of_words;
use archive_many::{ChoiceFault, VolumeFile, choose_files};
use file_kind::FileKind;
use os8_dir::Name;
use std::alloc::{AllocError, Global};
use word12::Word;

/// Whether a word chooses the file of a name.
pub(crate) fn is_chosen(
    alloc: Global,
    word: &[u8],
    name: Name,
    place: usize,
    blocks: usize,
) -> Result<bool, AllocError>
    ensures { IfOk result (λ is. is ≡ spec.is_chosen word.now name) }
{
    let file = VolumeFile {
        name,
        place,
        blocks,
    };
    match choose_files(alloc, &[file], word) {
        Ok(_) => Ok(true),
        Err(ChoiceFault::Memory) => Err(AllocError),
        Err(ChoiceFault::BadName) => Ok(false),
        Err(ChoiceFault::NotFound) => Ok(false),
    }
}

/// Whether a file of this kind and these words holds the text that is wanted, if one is.
pub(crate) fn holds_wanted(
    alloc: Global,
    wanted: &Option<String>,
    kind: FileKind,
    words: &[Word],
) -> Result<bool, AllocError>
    ensures { IfOk result (λ is. is ≡ spec.holds_wanted wanted.now kind words.now) }
{
    match wanted {
        None => Ok(true),
        Some(wanted) => {
            if !is_text(kind) {
                return Ok(false);
            }
            text_holds(alloc, wanted.as_bytes(), words)
        }
    }
}

/// Whether bytes stand in the text of a file of these words.
fn text_holds(alloc: Global, part: &[u8], words: &[Word]) -> Result<bool, AllocError>
    ensures { IfOk result (λ is. is ≡ holds part.now (line_feeds (text words.now))) }
{
    match content_of_words(alloc, words, GetForm::Text) {
        Ok(text) => Ok(holds(part, &text)),
        Err(_) => Err(AllocError),
    }
}
