//! L and AC as one number of thirteen bits, 0o10000 times L plus AC, and its rotation.

ghost use Rattle.std.specs.Prelude.{◌≡◌, ◌<◌};
ghost use Rattle.cpu8.specs.Rotation.{thirteen_bits, rotation_left, rotated_right};
ghost use Rattle.cpu8.specs.Operate.{rotation_of};

use cpu8::decoding::{RAL, RAR, TWICE, has};
use word12::Word;

/// One place to the left.
#[inline(always)]
fn ral(number: u16) -> u16
    requires { number < 0o20000 }
    ensures bits { thirteen_bits result ≡ rotation_left (thirteen_bits number) }
    ensures range { result < 0o20000 }
{
    number % 0o10000 * 2 + number / 0o10000
}

/// One place to the right.
#[inline(always)]
fn rar(number: u16) -> u16
    requires { number < 0o20000 }
    ensures bits { thirteen_bits result ≡ rotated_right (thirteen_bits number) }
    ensures range { result < 0o20000 }
{
    number / 2 + number % 2 * 0o10000
}

/// The rotation that a word of group 1 names.
#[inline(always)]
pub(crate) fn rotate(word: Word, number: u16) -> u16
    requires { number < 0o20000 }
    ensures bits { thirteen_bits result ≡ rotation_of word (thirteen_bits number) }
    ensures range { result < 0o20000 }
{
    let twice = has(word, TWICE);
    if has(word, RAR) {
        let once = rar(number);
        if twice { rar(once) } else { once }
    } else if has(word, RAL) {
        let once = ral(number);
        if twice { ral(once) } else { once }
    } else {
        number
    }
}
