ghost use Rattle.std.specs.Prelude.{◌≡◌, IfOk};
ghost use Rattle.char_pack.specs.Packing.{frames};

use char_pack::Frames;
use std::alloc::{AllocError, Global};
use word12::Word;

/// The frames of words.
pub fn frames_of(alloc: Global, words: &[Word]) -> Result<Vec<u8>, AllocError>
    ensures { IfOk result (λ bytes. bytes.items ≡ frames words.now) }
{
    Frames::new(words).collect(alloc)
}
