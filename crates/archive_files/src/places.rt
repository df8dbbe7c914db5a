ghost use Rattle.std.specs.Prelude.{◌≡◌, ◌+◌, ◌≤◌, ◌++◌, ◌∷◌, [], ℕ, List};
ghost use Rattle.char_pack.specs.Texts.{may_stand};
ghost use Rattle.archive_files.specs.HostTexts.{FindsBad, IsPlaceAfter};

use char_pack::CONTROL_Z;

const LF: u8 = 0o012;

/// The place of a byte in a text.
#[derive(Clone, Copy, PartialEq, Eq, Debug)]
pub struct TextPlace {
    /// The number of its line, from 1. An LF ends a line and belongs to it.
    pub line: usize,
    /// Its number in the line, from 1.
    pub byte: usize,
}

/// The place of the first byte that may not stand in a text, one above 0177 or a control Z (this project's profile). There is
/// none where the bytes can be put as a text.
pub fn bad_text_at(bytes: &[u8]) -> Option<TextPlace>
    ensures { FindsBad bytes.now result }
{
    let mut place = TextPlace { line: 1, byte: 1 };
    let mut rest = bytes;
    while let [byte, others @ ..] = rest {
        if !may_stand(*byte) {
            return Some(place);
        }
        place = place_after(place, *byte);
        rest = others;
    }
    None
}

/// Whether a byte may stand in a text.
fn may_stand(byte: u8) -> bool
    ensures { result ≡ may_stand byte }
{
    byte < 0o200 && byte != CONTROL_Z
}

/// The place after a byte that stands at a place.
fn place_after(place: TextPlace, byte: u8) -> TextPlace
    requires line { place.line + 1 ≤ 18446744073709551615 }
    requires byte { place.byte + 1 ≤ 18446744073709551615 }
    ensures place { (before : List ℕ) → IsPlaceAfter before place
        → IsPlaceAfter (before ++ byte ∷ []) result }
    ensures line { result.line ≤ place.line + 1 }
    ensures byte { result.byte ≤ place.byte + 1 }
{
    if byte == LF {
        return TextPlace {
            line: place.line + 1,
            byte: 1,
        };
    }
    TextPlace {
        line: place.line,
        byte: place.byte + 1,
    }
}
