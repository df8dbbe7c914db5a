//! One line of a block.
ghost use Rattle.std.specs.Prelude.{◌≡◌, ◌++◌, ◌<◌, ◌∷◌, [], OnOk};
ghost use Rattle.block_words.specs.Rows.{beside, number_text, octals, row, character_text, sixbit_character, sixbit_text, visible_character};

use crate::dumping::DumpForm;
use std::alloc::AllocError;
use word12::Word;

/// Appends the line of words, of which the first has this number.
pub fn put_row(
    text: &mut Vec<u8>,
    number: usize,
    words: &[Word],
    form: DumpForm,
) -> Result<(), AllocError>
    requires { number < 1000 }
    ensures { OnOk result (text.new.items ≡ text.old.items ++ row form number words.now) }
{
    text.extend_from_slice(&number_text(number))?;
    text.push(b':')?;
    put_octals(text, words)?;
    put_beside(text, words, form)?;
    text.push(b'\n')?;
    Ok(())
}

/// A number in three places.
fn number_text(number: usize) -> [u8; 3]
    requires { number < 1000 }
    ensures { result ≡ number_text number }
{
    let hundreds = if number < 100 {
        b' '
    } else {
        b'0' + (number / 100 % 10) as u8
    };
    let tens = if number < 10 {
        b' '
    } else {
        b'0' + (number / 10 % 10) as u8
    };
    [hundreds, tens, b'0' + (number % 10) as u8]
}

/// Appends words in octal, each after a blank.
fn put_octals(text: &mut Vec<u8>, words: &[Word]) -> Result<(), AllocError>
    ensures { OnOk result (text.new.items ≡ text.old.items ++ octals words.now) }
{
    let mut rest = words;
    while let [word, others @ ..] = rest {
        put_octal(text, *word)?;
        rest = others;
    }
    Ok(())
}

/// Appends a word in octal after a blank.
fn put_octal(text: &mut Vec<u8>, word: Word) -> Result<(), AllocError>
    ensures { OnOk result (text.new.items ≡ text.old.items ++ octals (word ∷ [])) }
{
    text.push(b' ')?;
    text.extend_from_slice(&word.octal4())?;
    Ok(())
}

/// Appends what stands beside words.
fn put_beside(text: &mut Vec<u8>, words: &[Word], form: DumpForm) -> Result<(), AllocError>
    ensures { OnOk result (text.new.items ≡ text.old.items ++ beside form words.now) }
{
    match form {
        DumpForm::Words => Ok(()),
        DumpForm::Sixbit => {
            text.extend_from_slice(b"  ")?;
            put_sixbit(text, words)
        }
        DumpForm::Text => {
            text.extend_from_slice(b"  ")?;
            put_characters(text, words)
        }
    }
}

/// Appends the two characters of each word.
fn put_sixbit(text: &mut Vec<u8>, words: &[Word]) -> Result<(), AllocError>
    ensures { OnOk result (text.new.items ≡ text.old.items ++ sixbit_text words.now) }
{
    let mut rest = words;
    while let [word, others @ ..] = rest {
        put_two(text, *word)?;
        rest = others;
    }
    Ok(())
}

/// Appends the two characters of a word.
fn put_two(text: &mut Vec<u8>, word: Word) -> Result<(), AllocError>
    ensures { OnOk result (text.new.items ≡ text.old.items ++ sixbit_text (word ∷ [])) }
{
    let bits = word.get();
    let two = [
        sixbit_character((bits / 0o100) as u8),
        sixbit_character((bits % 0o100) as u8),
    ];
    text.extend_from_slice(&two)?;
    Ok(())
}

/// The character of a code of six bits.
fn sixbit_character(code: u8) -> u8
    requires { code < 0o100 }
    ensures { result ≡ sixbit_character code }
{
    if code < 0o40 { code + 0o100 } else { code }
}

/// Appends the characters of words as a text has them.
fn put_characters(text: &mut Vec<u8>, words: &[Word]) -> Result<(), AllocError>
    ensures { OnOk result (text.new.items ≡ text.old.items ++ character_text words.now) }
{
    let mut rest = words;
    while let [first, second, others @ ..] = rest {
        put_three(text, *first, *second)?;
        rest = others;
    }
    Ok(())
}

/// Appends the three characters of two words.
fn put_three(text: &mut Vec<u8>, first: Word, second: Word) -> Result<(), AllocError>
    ensures { OnOk result (text.new.items ≡ text.old.items ++ character_text (first ∷ second ∷ [])) }
{
    let high = first.get();
    let low = second.get();
    let three = [
        visible_character((high % 0o400) as u8),
        visible_character((low % 0o400) as u8),
        visible_character((16 * (high / 0o400) + low / 0o400) as u8),
    ];
    text.extend_from_slice(&three)?;
    Ok(())
}

/// The character of a frame without its top bit, or a dot where that is none that prints.
fn visible_character(frame: u8) -> u8
    ensures { result ≡ visible_character frame }
{
    let character = frame % 0o200;
    if character >= 0o40 && character < 0o177 {
        character
    } else {
        b'.'
    }
}
