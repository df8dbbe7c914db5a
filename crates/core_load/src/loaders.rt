ghost use Rattle.std.specs.Prelude.{◌≡◌, ℕ, List, [], ◌++◌, ◌∷◌, IfOk, MatchResult};
ghost use Rattle.bin_tape.specs.Items.{Item};
ghost use Rattle.bin_tape.specs.Tape.{IsTape};
ghost use Rattle.bin_tape.specs.Fault.{IsFault};
ghost use Rattle.bin_tape.specs.Reading.{IsWhole};
ghost use Rattle.core_load.specs.Load.{LoadsTape, IsOverlaid};
ghost use Rattle.core_load.specs.Steps.{core_with};

use crate::Core;
use bin_tape::laws::{handed_words, longer_tape};
use bin_tape::{TapeFault, TapeReader};
use std::alloc::Global;
use std::marker::Model;
use word12::{Cell, Word};

/// Takes the frames of a BIN tape, and lays its words over core once they are known to be a tape.
#[derive(Drop)]
pub struct Loader {
    reader: TapeReader,
    words: Vec<(Cell, Word)>,
}

impl Model for Loader {
    ghost use Rattle.core_load.specs.Loading.{Loading};

    ghost Value = { Loading };

    ghost view = { λ l. record {
      reader = l.reader;
      words = l.words.items;
    } };
}

impl Loader {
    ghost use Rattle.core_load.specs.Load.{IsFed, FeedsFrames, IsComplete};

    /// A loader of no frame.
    pub fn new(alloc: Global) -> Loader
        ensures { IsFed result [] }
    {
        Loader {
            reader: TapeReader::new(),
            words: Vec::new(alloc),
        }
    }

    /// Takes the next frame. Memory is taken, and can run out, only where the frame shows a word to be no check sum. Then
    /// nothing is taken of the frame. Another fault is answered for good.
    pub fn push(&mut self, frame: u8) -> Result<(), TapeFault>
        ensures { (frames : List ℕ) → IsFed self.old frames
            → FeedsFrames frames (frame ∷ []) self.old self.new result }
    {
        longer_tape();
        let before = self.reader;
        let tape = self.reader.push(frame)?;
        match tape.word() {
            Some(word) => match self.words.reserve(1) {
                Ok(()) => {
                    self.words.push_reserved(word);
                    Ok(())
                }
                Err(refused) => {
                    self.reader = before;
                    Err(TapeFault::from(refused))
                }
            },
            None => Ok(()),
        }
    }

    /// Whether the frames so far are a tape.
    pub fn end(&self) -> Result<(), TapeFault>
        ensures { (frames : List ℕ) → IsFed self.now frames
            → MatchResult result (λ _. IsWhole frames self.now.words) (λ fault. IsFault frames fault) }
    {
        self.reader.end()
    }

    /// Lays the tape over core: each cell that the tape names has the last word that the tape gives it.
    pub fn lay(self, core: &mut Core)
        requires { IsComplete self }
        ensures { (frames : List ℕ) (items : List Item) → IsFed self frames → IsTape frames items
            → IsOverlaid items core.old core.new }
    {
        handed_words();
        lay_words(&self.words, core);
    }
}

/// Lays the words of a tape over core, the last word of a cell winning. On a fault no cell is changed.
pub fn load(alloc: Global, frames: &[u8], core: &mut Core) -> Result<(), TapeFault>
    ensures { LoadsTape frames.now core.old core.new result }
{
    let mut loader = Loader::new(alloc);
    for frame in frames {
        loader.push(*frame)?;
    }
    loader.end()?;
    loader.lay(core);
    Ok(())
}

/// Lays words one after the other.
fn lay_words(words: &[(Cell, Word)], core: &mut Core)
    ensures { core.new ≡ core_with words.now core.old }
{
    for &(cell, word) in words {
        core.set(cell, word);
    }
}
