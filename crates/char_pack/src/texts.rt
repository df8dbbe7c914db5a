ghost use Rattle.std.specs.Prelude.{◌≡◌, IfOk};
ghost use Rattle.char_pack.specs.Texts.{text};

use crate::{Frames, PackFault};
use std::alloc::Global;
use word12::Word;

/// Control Z, which ends a text.
pub const CONTROL_Z: u8 = 0o032;

/// The characters of a text in words that are lent: its frames without their top bit, up to the first control Z or the
/// end (OS/8 Software Support Manual). It takes no memory.
#[derive(Clone, Drop, Debug)]
pub struct Text<'a> {
    frames: Frames<'a>,
}

impl<'a> Text<'a> {
    ghost use Rattle.char_pack.specs.Reading.{text_left};

    /// The text of the words, from its first character on.
    #[tactic(auto, unfolding(crate::specs::Reading::text_left))]
    pub fn new(words: &'a [Word]) -> Text<'a>
        ensures { text_left result ≡ text words.now }
    {
        Text {
            frames: Frames::new(words),
        }
    }
}

impl Iterator for Text<'_> {
    ghost use Rattle.std.specs.Iterator.{YieldsFirst, item_count};
    ghost use Rattle.char_pack.specs.Reading.{text_left};

    type Item = u8;

    ghost next_gives = { YieldsFirst text_left };

    ghost remaining = { item_count text_left };

    fn next(&mut self) -> Option<u8> {
        let character = self.frames.next()? % 0o200;
        if character == CONTROL_Z {
            self.frames = Frames::new(&[]);
            return None;
        }
        Some(character)
    }
}

/// The text of words, as bytes below 0200 (OS/8 Software Support Manual).
pub fn text_of(alloc: Global, words: &[Word]) -> Result<Vec<u8>, PackFault>
    ensures { IfOk result (λ bytes. bytes.items ≡ text words.now) }
{
    let bytes = Text::new(words).collect(alloc)?;
    Ok(bytes)
}
