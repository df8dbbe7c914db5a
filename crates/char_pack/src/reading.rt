ghost use Rattle.std.specs.Prelude.{◌≡◌, ◌+◌, ◌*◌, ◌/◌, ◌<◌, length, slice_index, Some, IfSome};
ghost use Rattle.char_pack.specs.Packing.{frames};

use word12::Word;

/// The number of frames of words: three for each two of them (OS/8 Software Support Manual).
#[inline]
pub fn frame_count(words: &[Word]) -> usize
    ensures frames { result ≡ length (frames words.now) }
    ensures count { result ≡ 3 * (length words.now / 2) }
{
    3 * (words.len() / 2)
}

/// The frame of words at an index, counted from 0 (OS/8 Software Support Manual).
#[inline]
pub fn frame_at(words: &[Word], index: usize) -> u8
    requires { index < 3 * (length words.now / 2) }
    ensures { result ≡ slice_index (frames words.now) index }
{
    let pair = 2 * (index / 3);
    let first = words[pair].get();
    let second = words[pair + 1].get();
    match index % 3 {
        0 => (first % 256) as u8,
        1 => (second % 256) as u8,
        _ => (16 * (first / 256) + second / 256) as u8,
    }
}

/// The frames of words that are lent, first to last (OS/8 Software Support Manual). It takes no memory.
#[derive(Clone, Drop, Debug)]
pub struct Frames<'a> {
    words: &'a [Word],
    /// How many frames came.
    index: usize,
}

impl<'a> Frames<'a> {
    ghost use Rattle.char_pack.specs.Reading.{frames_left};

    /// The frames of the words, from the first on.
    #[tactic(auto, unfolding(crate::specs::Reading::frames_left))]
    pub fn new(words: &'a [Word]) -> Frames<'a>
        ensures { frames_left result ≡ frames words.now }
    {
        Frames { words, index: 0 }
    }
}

impl Iterator for Frames<'_> {
    ghost use Rattle.std.specs.Iterator.{YieldsFirst, item_count, UpTo};
    ghost use Rattle.std.specs.Iterator.SizeHint.{IsWithinCount};
    ghost use Rattle.char_pack.specs.Reading.{frames_left};

    type Item = u8;

    ghost next_gives = { YieldsFirst frames_left };

    ghost remaining = { item_count frames_left };

    fn next(&mut self) -> Option<u8> {
        if self.index >= frame_count(self.words) {
            return None;
        }
        let frame = frame_at(self.words, self.index);
        self.index += 1;
        Some(frame)
    }

    /// The number of frames that are left, as both bounds.
    fn size_hint(&self) -> (usize, Option<usize>)
        ensures least { result.0 ≡ length (frames_left self.now) }
        ensures greatest { result.1 ≡ Some (length (frames_left self.now)) }

        ensures lower { IsWithinCount result.0 (item_count frames_left self.now) }
        ensures upper { IfSome result.1 (UpTo (item_count frames_left self.now)) }
    {
        let left = frame_count(self.words).saturating_sub(self.index);
        (left, Some(left))
    }
}
