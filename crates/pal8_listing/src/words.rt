//! The words of a listing.
ghost use Rattle.std.specs.Prelude.{◌≡◌, ◌++◌, ◌∷◌, [], IfOk, OnOk};
ghost use Rattle.pal8_listing.specs.Rows.{listed_word, listed_words, words_after, words_here};

use pal8_asm::{Mark, has_indirect_bit};
use std::alloc::{AllocError, Global};
use word12::{Cell, Word};

/// A word of a listing.
#[derive(Clone, Copy)]
pub(crate) struct ListedWord {
    pub(crate) cell: Cell,
    pub(crate) word: Word,
    /// The line of the join in which its statement begins.
    pub(crate) line: u64,
    /// Whether it is a memory reference through a link.
    pub(crate) is_link: bool,
}

/// A word with its mark.
fn listed_word(cell: Cell, word: Word, mark: Mark) -> ListedWord
    ensures { result ≡ listed_word (cell, word) mark }
{
    ListedWord {
        cell,
        word,
        line: mark.line,
        is_link: mark.is_direct && has_indirect_bit(word),
    }
}

/// Puts a word after others.
fn put_word(words: &mut Vec<ListedWord>, word: ListedWord) -> Result<(), AllocError>
    ensures { OnOk result (words.new.items ≡ words.old.items ++ word ∷ []) }
{
    words.push(word)?;
    Ok(())
}

/// Words with their marks.
pub(crate) fn listed_words(
    alloc: Global,
    pairs: &[(Cell, Word)],
    marks: &[Mark],
) -> Result<Vec<ListedWord>, AllocError>
    ensures { IfOk result (λ words. words.items ≡ listed_words pairs.now marks.now) }
{
    let mut words = Vec::new(alloc);
    let mut marks = marks;
    let mut rest = pairs;
    while let [(cell, word), others @ ..] = rest {
        match marks {
            [mark, later @ ..] => {
                put_word(&mut words, listed_word(*cell, *word, *mark))?;
                marks = later;
            }
            [] => return Ok(words),
        }
        rest = others;
    }
    Ok(words)
}

/// The first of these words whose statements begin in a line, and those after them.
pub(crate) fn split_words(words: &[ListedWord], line: u64) -> (&[ListedWord], &[ListedWord])
    ensures here { result.0.now ≡ words_here line words.now }
    ensures after { result.1.now ≡ words_after line words.now }
{
    let mut count = 0;
    let mut rest = words;
    while let [word, others @ ..] = rest {
        if word.line != line {
            return words.split_at(count);
        }
        count += 1;
        rest = others;
    }
    (words, &[])
}
