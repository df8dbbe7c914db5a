ghost use Rattle.std.specs.Prelude.{◌≡◌, ◌≤◌, ◌++◌, OnOk, length};
ghost use Rattle.word12.specs.declared.sizes.TheConstants.{BLOCK};
ghost use Rattle.block_words.specs.Rows.{rows};

use crate::rows::put_row;
use std::alloc::AllocError;
use word12::{BLOCK, Word};

/// What stands beside the words of a line.
#[derive(Clone, Copy, PartialEq, Eq, Debug)]
pub enum DumpForm {
    /// Nothing.
    Words,

    /// The two characters of each word in sixbit.
    Sixbit,

    /// The three characters of each two words, as a text has them.
    Text,
}

/// How many lines a block has.
const ROWS: usize = 32;

/// Appends the lines of a block. Each has the decimal number of its first word in the block, eight words in octal, and characters
/// (OS/8 Software Support Manual for both packings; the form of the lines is this project's profile).
pub fn put_block(
    text: &mut Vec<u8>,
    words: &[Word; BLOCK],
    form: DumpForm,
) -> Result<(), AllocError>
    ensures { OnOk result (text.new.items ≡ text.old.items ++ rows form words.now ROWS) }
{
    put_rows(text, words, form, ROWS)
}

/// Appends the lines of 256 words, as `put_block` does.
pub fn put_words(text: &mut Vec<u8>, words: &[Word], form: DumpForm) -> Result<(), AllocError>
    requires { length words.now ≡ BLOCK }
    ensures { OnOk result (text.new.items ≡ text.old.items ++ rows form words.now ROWS) }
{
    put_rows(text, words, form, ROWS)
}

/// Appends the first lines of words, so many of them.
fn put_rows(
    text: &mut Vec<u8>,
    words: &[Word],
    form: DumpForm,
    count: usize,
) -> Result<(), AllocError>
    requires size { length words.now ≡ BLOCK }
    requires count { count ≤ 32 }
    ensures { OnOk result (text.new.items ≡ text.old.items ++ rows form words.now count) }
{
    for number in 0..count {
        put_row(text, 8 * number, &words[8 * number..8 * number + 8], form)?;
    }
    Ok(())
}
