//! The characters of names.
ghost use Rattle.std.specs.Prelude.{◌≡◌, ◌++◌, OnOk};
ghost use Rattle.source_places.specs.Spelling.{codes_of, character_of, name_text, spelt, spelling};

use std::alloc::AllocError;

/// The six characters of the name of a number, with blanks for those that are missing.
pub fn name_text(name: u64) -> [u8; 6]
    ensures { result ≡ name_text name }
{
    let [a, b, c, d, e, f] = codes_of(name);
    [
        character_of(a),
        character_of(b),
        character_of(c),
        character_of(d),
        character_of(e),
        character_of(f),
    ]
}

/// Puts the characters of a name, six at most, by the number that its sixbit codes make (this project's profile).
pub fn put_spelling(text: &mut Vec<u8>, name: u64) -> Result<(), AllocError>
    ensures { OnOk result (text.new.items ≡ text.old.items ++ spelling name) }
{
    let codes = codes_of(name);
    put_characters(text, &codes)
}

/// Puts the characters of sixbit codes but for those that have none.
fn put_characters(text: &mut Vec<u8>, codes: &[u8]) -> Result<(), AllocError>
    ensures { OnOk result (text.new.items ≡ text.old.items ++ spelt codes.now) }
{
    let mut rest = codes;
    while let [code, others @ ..] = rest {
        if *code != 0 {
            text.push(character_of(*code))?;
        }
        rest = others;
    }
    Ok(())
}

/// The sixbit codes of the six characters of a name.
#[tactic(auto, unfolding(crate::specs::Spelling::codes_of))]
fn codes_of(name: u64) -> [u8; 6]
    ensures { result ≡ codes_of name }
{
    let code = |place: u64| (name / place % 0o100) as u8;
    [
        code(0o10000000000),
        code(0o100000000),
        code(0o1000000),
        code(0o10000),
        code(0o100),
        code(1),
    ]
}

/// The character of a sixbit code, a blank where there is none.
fn character_of(code: u8) -> u8
    ensures { result ≡ character_of code }
{
    match code {
        0 => b' ',
        1..0o40 => 0o100 + code,
        _ => code,
    }
}
