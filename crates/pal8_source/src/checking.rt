//! The source of a tape that comes back.
ghost use Rattle.std.specs.Prelude.{◌≡◌, IfErr, IfOk, length, option_map};
ghost use Rattle.word12.specs.declared.sizes.TheConstants.{CORE};
ghost use Rattle.pal8_source.specs.Sources.{IsPal8Fault};
ghost use Rattle.pal8_source.specs.Checked.{IsCheckedSource, as_profile};
ghost use Rattle.pal8_source.specs.CheckSteps.{Judges};

use crate::comparing::{first_difference, given_words};
use crate::plain::plain_source;
use crate::{Pal8Fault, pal8_source};
use bin_tape::laws::one_reading;
use pal8_asm::{AsmFault, assemble};
use pal8_places::Options;
use std::alloc::Global;
use tape_source::{ListFault, words_of};
use word12::{Cell, Word};

/// The PAL8 source of a BIN tape, as `pal8_source` makes it, if it comes back: `assemble --pal8` gives each cell then what the tape gives it. In place
/// of one that doesn't, a plain source stands, which has `FIELD`, an origin and an octal number for each word. It comes back for each tape
/// (PAL8, in this project's profile). The faults are those of `pal8_source`.
pub fn checked_source(
    alloc: Global,
    frames: &[u8],
    starts: &[Cell],
    names: &Option<Vec<u8>>,
) -> Result<Vec<u8>, Pal8Fault>
    ensures source { IfOk result (λ text.
        IsCheckedSource frames.now starts.now (option_map (λ names. names.items) names.now) text.items) }
    ensures fault { IfErr result (λ fault.
        IsPal8Fault frames.now starts.now (option_map (λ names. names.items) names.now) fault) }
{
    let text = pal8_source(alloc, frames, starts, names)?;
    let words = words_of(alloc, frames)?;
    one_reading();
    if comes_back(alloc, &words, &text)? {
        return Ok(text);
    }
    let plain = plain_source(alloc, &words)?;
    Ok(plain)
}

/// Whether a text comes back to words of cells. The only fault is want of memory.
fn comes_back(alloc: Global, words: &[Option<Word>], text: &[u8]) -> Result<bool, Pal8Fault>
    requires { length words.now ≡ CORE }
    ensures { Judges words.now text.now result }
{
    match assemble(alloc, as_profile(), text) {
        Ok(pairs) => {
            let given = given_words(alloc, &pairs)?;
            Ok(first_difference(&given, words).is_none())
        }
        Err(AsmFault::At(_, _)) => Ok(false),
        Err(AsmFault::Memory) => Err(Pal8Fault::List(ListFault::Memory)),
    }
}

/// How `assemble --pal8` reads a source, if nothing else is asked for.
fn as_profile() -> Options
    ensures { result ≡ as_profile }
{
    Options {
        is_without_links: false,
        is_without_zero: false,
        is_without_origin: false,
        has_stays: false,
    }
}
