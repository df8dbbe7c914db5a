//! The words with which a directory begins.
ghost use Rattle.std.specs.Prelude.{◌≡◌, ◌+◌, ◌≤◌, ◌<◌, ◌&&◌, length};
ghost use Rattle.image_kind.specs.Heads.{is_head, minus, twelve_bits};

/// The most entries that a segment has room for: empty ones of two words each.
const MOST_ENTRIES: u16 = 125;

/// The most information words of an entry (this project's profile).
const MOST_INFORMATION: u16 = 10;

/// Whether the first segment of a directory may begin with this byte of a file, on a volume of so many blocks. Then it has at most 125
/// entries, and the first block of files from 7 up to the end. It has a link to one of the blocks 1 to 6 or to none, and at most 10
/// information words (OS/8 Software Support Manual). Of each word the low twelve bits count.
pub fn is_head(bytes: &[u8], at: usize, blocks: u16) -> bool
    requires { at ≤ 4000000 }
    ensures { result ≡ is_head bytes.now at blocks }
{
    if at + 10 > bytes.len() {
        return false;
    }
    let first = twelve_bits(bytes, at + 2);
    minus(twelve_bits(bytes, at)) <= MOST_ENTRIES
        && (first >= 7
            && (first <= blocks
                && (twelve_bits(bytes, at + 4) <= 6
                    && minus(twelve_bits(bytes, at + 8)) <= MOST_INFORMATION)))
}

/// The low twelve bits of the word that begins with a byte.
fn twelve_bits(bytes: &[u8], at: usize) -> u16
    requires { at + 1 < length bytes.now }
    ensures value { result ≡ twelve_bits bytes.now at }
    ensures range { result < 0o10000 }
{
    (u16::from(bytes[at]) + 0o400 * u16::from(bytes[at + 1])) % 0o10000
}

/// Minus a word.
fn minus(word: u16) -> u16
    requires { word < 0o10000 }
    ensures { result ≡ minus word }
{
    (0o10000 - word) % 0o10000
}
