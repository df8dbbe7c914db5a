//! What files hold.
ghost use Rattle.std.specs.Prelude.{◌≡◌, IfOk};
ghost use Rattle.char_pack.specs.Packing.{frames};
ghost use Rattle.file_kind.specs.Kinds.{IsKind};
ghost use Rattle.volume_index.specs.Indexing as spec;

use char_pack::Frames;
use file_kind::{FileKind, KindFault, kind_of};
use std::alloc::{AllocError, Global};
use word12::Word;

/// What a file of these words holds.
pub(crate) fn kind_of_words(alloc: Global, words: &[Word]) -> Result<FileKind, AllocError>
    ensures { IfOk result (IsKind (frames words.now)) }
{
    let frames = frames_of(alloc, words)?;
    match kind_of(alloc, &frames) {
        Ok(kind) => Ok(kind),
        Err(KindFault::Memory) => Err(AllocError),
    }
}

/// The frames of words.
fn frames_of(alloc: Global, words: &[Word]) -> Result<Vec<u8>, AllocError>
    ensures { IfOk result (λ bytes. bytes.items ≡ frames words.now) }
{
    Frames::new(words).collect(alloc)
}

/// Whether a file of this kind is a text.
pub(crate) fn is_text(kind: FileKind) -> bool
    ensures { result ≡ spec.is_text kind }
{
    match kind {
        FileKind::Text => true,
        FileKind::Zeros | FileKind::Core(_) | FileKind::Bin | FileKind::Rim | FileKind::Unknown =>
            false,
    }
}
