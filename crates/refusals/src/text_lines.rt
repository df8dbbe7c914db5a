//! Lines that are built, with no memory taken, before they are appended.
ghost use Rattle.std.specs.Prelude.{◌≡◌, ◌+◌, ◌≤◌, ◌<◌, ◌++◌, [], ◌∷◌, decimal, length};
ghost use Rattle.arrayvec.specs.ArrayVec.{array_vec_len};
ghost use Rattle.os8_dir.specs.Names.{words_of_name};
ghost use Rattle.refusals.specs.Shown.{name_text, shown_code, shown_words};

use arrayvec::ArrayVec;
use os8_dir::Name;
use word12::Word;

/// A line that is built before it is appended. No line of a single answer is longer.
pub type TextLine = ArrayVec<u8, 80>;

/// Puts bytes after a line; there must be room for them.
pub fn put(line: &mut ArrayVec<u8, 80>, bytes: &[u8])
    requires { array_vec_len line.old + length bytes.now ≤ 80 }
    ensures items { line.new.items ≡ line.old.items ++ bytes.now }
    ensures len { array_vec_len line.new ≡ array_vec_len line.old + length bytes.now }
{
    line.try_extend_from_slice(bytes).unwrap();
}

/// Puts a number in decimal, without leading zeros.
pub fn put_number(line: &mut ArrayVec<u8, 80>, number: u64)
    requires { array_vec_len line.old ≤ 60 }
    ensures text { line.new.items ≡ line.old.items ++ decimal number }
    ensures short { array_vec_len line.new ≤ array_vec_len line.old + 20 }
{
    let mut digits = itoa::Buffer::new();
    put(line, digits.format(number).as_bytes());
}

/// Puts the characters of a name, as it is shown.
#[tactic(auto, unfolding(crate::specs::Shown::name_text))]
pub fn put_name(line: &mut ArrayVec<u8, 80>, name: Name)
    requires { array_vec_len line.old ≤ 40 }
    ensures text { line.new.items ≡ line.old.items ++ name_text name }
    ensures short { array_vec_len line.new ≤ array_vec_len line.old + 9 }
{
    let [a, b, c, extension] = name.words();
    put_word(line, a);
    put_word(line, b);
    put_word(line, c);
    if extension != Word::ZERO {
        put(line, b".");
        put_word(line, extension);
    }
}

/// Puts the characters of a word of a name.
fn put_word(line: &mut ArrayVec<u8, 80>, word: Word)
    requires { array_vec_len line.old ≤ 60 }
    ensures text { line.new.items ≡ line.old.items ++ shown_words (word ∷ []) }
    ensures short { array_vec_len line.new ≤ array_vec_len line.old + 2 }
{
    put_code(line, word.get() / 64);
    put_code(line, word.get() % 64);
}

/// Puts the character of a sixbit code.
fn put_code(line: &mut ArrayVec<u8, 80>, code: u16)
    requires short { array_vec_len line.old ≤ 70 }
    requires code { code < 64 }
    ensures text { line.new.items ≡ line.old.items ++ shown_code code }
    ensures short { array_vec_len line.new ≤ array_vec_len line.old + 1 }
{
    match code as u8 {
        0 => {}
        letter @ 1..=0o37 => line.push(letter + 0o100),
        other => line.push(other),
    }
}
