//! How a text goes through frames.
ghost use Rattle.std.specs.Prelude.{◌≡◌};
ghost use Rattle.block_scan.specs.Passages as spec;

use char_pack::CONTROL_Z;
use file_kind::{all_zero, is_graphic, is_text_character};

/// What frames are for a text that reaches them.
#[derive(Clone, Copy, PartialEq, Eq, Debug)]
pub enum Passage {
    /// It goes on after them, and has had a graphic character or not.
    Goes(bool),

    /// It ends among them, by a control Z or by zeros up to their end, and has had a graphic character or not.
    Ends(bool),

    /// They are none of a text.
    Breaks,
}

/// What frames are for a text that reaches them, and has had a graphic character or not (OS/8 Software Support Manual; which characters may
/// stand in a text is this project's profile).
pub fn passage_of(seen: bool, frames: &[u8]) -> Passage
    ensures { result ≡ spec.passage seen frames.now }
{
    let mut seen = seen;
    let mut rest = frames;
    while let [frame, others @ ..] = rest {
        let character = *frame % 0o200;
        if character == CONTROL_Z {
            return Passage::Ends(seen);
        }
        if *frame == 0 {
            return end_or_break(seen, all_zero(others));
        }
        if !is_text_character(character) {
            return Passage::Breaks;
        }
        seen = seen || is_graphic(character);
        rest = others;
    }
    Passage::Goes(seen)
}

fn end_or_break(seen: bool, is_end: bool) -> Passage
    ensures { result ≡ spec.end_or_break seen is_end }
{
    if is_end {
        return Passage::Ends(seen);
    }
    Passage::Breaks
}
