ghost use Rattle.std.specs.Prelude.{◌≡◌, ℕ, List, [], ◌∷◌, Option, None, replicate, slice_index_or, vec_len, IfOk, MatchResult};
ghost use Rattle.std.specs.Bool.{MatchBool};
ghost use Rattle.bin_tape.specs.Map.{IsTable, IsMapOf, IsMapFault};
ghost use Rattle.bin_tape.specs.MapSteps.{HasReadTo, HoldsWords};

use crate::{Tape, TapeFault, TapeReader};
use std::alloc::{AllocError, Global};
use std::marker::Model;
use word12::{CORE, Cell, Word};

/// The words that a BIN tape gives to cells of core.
///
/// A contract sees a list of 0o100000 words or none, by number of their cells.
#[derive(Drop)]
pub struct TapeMap {
    words: Vec<Option<Word>>,
}

impl Model for TapeMap {
    ghost Value = { List (Option ℕ) };

    ghost view = { λ map. map.words.items };

    ghost invariant = { λ map. IsTable map.words.items };
}

impl TapeMap {
    /// Reads a tape, up to its trailer. Where a frame is refused, the answer is the fault of the first such frame.
    ///
    /// Memory is taken once, for the words of core, however long the tape is.
    pub fn read(alloc: Global, frames: &[u8]) -> Result<TapeMap, TapeFault>
        ensures { MatchResult result (λ map. IsMapOf frames.now map) (λ fault. IsMapFault frames.now fault) }
    {
        let mut words = no_words(alloc, CORE)?;
        read_words(frames, &mut words)?;
        Ok(TapeMap { words })
    }

    /// The last word that the tape gives a cell, if it gives it one.
    #[inline]
    pub fn get(&self, cell: Cell) -> Option<Word>
        ensures { result ≡ slice_index_or self.now cell None }
    {
        self.words[cell.index()]
    }
}

fn no_words(alloc: Global, count: usize) -> Result<Vec<Option<Word>>, AllocError>
    ensures words { IfOk result (λ words. words.items ≡ replicate count None) }
    ensures len { IfOk result (λ words. vec_len words ≡ count) }
{
    let words = vec![in alloc; None; count]?;
    Ok(words)
}

/// Reads a tape, and puts the last word of each cell into its place.
fn read_words(frames: &[u8], words: &mut [Option<Word>]) -> Result<(), TapeFault>
    requires size { IsTable words.old }
    requires none { HoldsWords words.old [] }
    ensures { MatchResult result (λ _. IsMapOf frames.now words.new) (λ fault. IsMapFault frames.now fault) }
{
    let mut reader = TapeReader::new();
    let mut rest = frames;
    while let [frame, later @ ..] = rest {
        if take_frame(&mut reader, *frame, words)? {
            return Ok(());
        }
        rest = reader.take_pairs(later, words);
    }
    reader.end()
}

/// Takes one more frame, puts the word that it brings into its place, and answers whether the tape has ended.
fn take_frame(
    reader: &mut TapeReader,
    frame: u8,
    words: &mut [Option<Word>],
) -> Result<bool, TapeFault>
    requires { IsTable words.old }
    ensures { (whole later : List ℕ) → HasReadTo whole (frame ∷ later) reader.old words.old
        → MatchResult result (λ ended. MatchBool ended (IsMapOf whole words.new)
        (HasReadTo whole later reader.new words.new)) (λ fault. IsMapFault whole fault) }
{
    let tape = reader.push(frame)?;
    match tape {
        Tape::Nothing => Ok(false),
        Tape::Word(cell, word) => {
            words[cell.index()] = Some(word);
            Ok(false)
        }
        Tape::End => Ok(true),
    }
}
