//! Texts, by their frames.
ghost use Rattle.std.specs.Prelude.{◌≡◌, ◌&&◌};
ghost use Rattle.file_kind.specs.Texts as spec;

use char_pack::CONTROL_Z;

/// Whether frames are a text. Up to the first control Z, or to zeros at the end, each has a character that may stand in a text, with the top bit or
/// without. One at least is graphic (OS/8 Software Support Manual; which characters may stand there is this project's profile).
pub fn is_text(frames: &[u8]) -> bool
    ensures { result ≡ spec.is_text frames.now }
{
    all_stand(frames) && has_graphic(frames)
}

/// Whether each frame of a text may stand there.
fn all_stand(frames: &[u8]) -> bool
    ensures { result ≡ spec.all_stand frames.now }
{
    let mut rest = frames;
    while let [frame, others @ ..] = rest {
        let character = *frame % 0o200;
        if character == CONTROL_Z {
            return true;
        }
        if *frame == 0 {
            return all_zero(others);
        }
        if !is_text_character(character) {
            return false;
        }
        rest = others;
    }
    true
}

/// Whether frames are all 0.
pub fn all_zero(frames: &[u8]) -> bool
    ensures { result ≡ spec.all_zero frames.now }
{
    let mut rest = frames;
    while let [frame, others @ ..] = rest {
        if *frame != 0 {
            return false;
        }
        rest = others;
    }
    true
}

/// Whether a frame of a text is that of a graphic character.
fn has_graphic(frames: &[u8]) -> bool
    ensures { result ≡ spec.has_graphic frames.now }
{
    let mut rest = frames;
    while let [frame, others @ ..] = rest {
        let character = *frame % 0o200;
        if character == CONTROL_Z {
            return false;
        }
        if is_graphic(character) {
            return true;
        }
        rest = others;
    }
    false
}

/// Whether a character, without its top bit, may stand in a text: it is graphic or a blank, or BEL, TAB, LF, VT, FF, CR or a rubout (this
/// project's profile).
pub fn is_text_character(character: u8) -> bool
    ensures { result ≡ spec.is_text_character character }
{
    matches!(character, 0o07 | 0o11..=0o15 | 0o40..=0o177)
}

/// Whether a character, without its top bit, is seen.
pub fn is_graphic(character: u8) -> bool
    ensures { result ≡ spec.is_graphic character }
{
    matches!(character, 0o41..=0o176)
}

/// Whether the frames of a text have the top bit, as OS/8 keeps them, and each up to the first control Z (OS/8 Software Support Manual). The
/// text itself has none.
pub fn are_marked(frames: &[u8]) -> bool
    ensures { result ≡ spec.are_marked frames.now }
{
    let mut rest = frames;
    while let [frame, others @ ..] = rest {
        if *frame == 0o200 + CONTROL_Z {
            return true;
        }
        if *frame < 0o200 {
            return false;
        }
        rest = others;
    }
    true
}
