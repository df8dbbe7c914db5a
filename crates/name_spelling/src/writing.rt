ghost use Rattle.std.specs.Prelude.{◌≡◌, ◌<◌, ◌≤◌, ◌+◌, ◌*◌, ◌++◌, true, length, OnOk, All};
ghost use Rattle.arrayvec.specs.ArrayVec.{array_vec_len};
ghost use Rattle.name_spelling.specs.Spelling.{all_zero, with_dot, spelled_code, spelled_codes, text_of, two_codes};

use arrayvec::ArrayVec;
use os8_dir::Name;
use std::alloc::AllocError;
use word12::Word;

/// Begins an escape.
pub(crate) const ESCAPE: u8 = b'_';

/// Appends a name as it is typed. The codes of letters and digits stand as these, each other code as `_` and two octal digits. A dot
/// stands before the extension, and no zeros stand after the last code of either (OS/8 Software Support Manual for the codes; the escape
/// is this project's profile). No character of it means anything to a shell.
pub fn put_name(text: &mut Vec<u8>, name: Name) -> Result<(), AllocError>
    ensures { OnOk result (text.new.items ≡ text.old.items ++ text_of name) }
{
    let mut line = ArrayVec::new();
    put_spelled(&mut line, name);
    text.extend_from_slice(line.as_slice())
}

/// Puts a name after a line as `put_name` appends it: at most 25 characters.
#[tactic(auto, unfolding(crate::specs::Spelling::text_of))]
pub fn put_spelled(line: &mut ArrayVec<u8, 80>, name: Name)
    requires { array_vec_len line.old ≤ 50 }
    ensures text { line.new.items ≡ line.old.items ++ text_of name }
    ensures short { array_vec_len line.new ≤ array_vec_len line.old + 25 }
{
    let [first, second, third, extension] = name.words();
    let [a, b] = two_codes(first);
    let [c, d] = two_codes(second);
    let [e, f] = two_codes(third);
    put_codes(line, &[a, b, c, d, e, f]);
    put_extension(line, &two_codes(extension));
}

/// The two codes of a word.
fn two_codes(word: Word) -> [u8; 2]
    ensures { result ≡ two_codes word }
{
    let bits = word.get();
    [(bits / 0o100) as u8, (bits % 0o100) as u8]
}

/// Puts a dot and an extension, if there is one.
fn put_extension(line: &mut ArrayVec<u8, 80>, codes: &[u8])
    requires few { length codes.now ≡ 2 }
    requires short { array_vec_len line.old ≤ 70 }
    ensures text { line.new.items ≡ line.old.items ++ with_dot codes.now }
    ensures short { array_vec_len line.new ≤ array_vec_len line.old + 7 }
{
    if all_zero(codes) {
        return;
    }
    line.push(b'.');
    put_codes(line, codes);
}

/// Puts codes, but for the zeros after the last that is none.
fn put_codes(line: &mut ArrayVec<u8, 80>, codes: &[u8])
    requires { array_vec_len line.old + 3 * length codes.now ≤ 80 }
    ensures text { line.new.items ≡ line.old.items ++ spelled_codes codes.now }
    ensures short { array_vec_len line.new ≤ array_vec_len line.old + 3 * length codes.now }
{
    let mut rest = codes;
    while let [code, others @ ..] = rest {
        if all_zero(rest) {
            return;
        }
        put_code(line, *code);
        rest = others;
    }
}

/// Whether all codes are 0.
fn all_zero(codes: &[u8]) -> bool
    ensures { result ≡ all_zero codes.now }
{
    let mut rest = codes;
    while let [code, others @ ..] = rest {
        if *code != 0 {
            return false;
        }
        rest = others;
    }
    true
}

/// Puts a code.
fn put_code(line: &mut ArrayVec<u8, 80>, code: u8)
    requires { array_vec_len line.old ≤ 77 }
    ensures text { line.new.items ≡ line.old.items ++ spelled_code code }
    ensures short { array_vec_len line.new ≤ array_vec_len line.old + 3 }
{
    match code {
        1..=26 => line.push(code + 0o100),
        0o60..=0o71 => line.push(code),
        _ => {
            line.push(ESCAPE);
            line.push(b'0' + code / 8 % 8);
            line.push(b'0' + code % 8);
        }
    }
}
