ghost use Rattle.std.specs.Prelude.{◌≡◌, ℕ, ◌<◌, List, slice_index, slice_set, IfOk, IsOkUnless};
ghost use Rattle.word12.specs.declared.sizes.TheConstants.{CORE};
ghost use Rattle.bin_tape.specs.declared.faults.TapeFault.TheVariants.{Memory};
ghost use Rattle.core_load.specs.Core.{zeros, IsCore};

use bin_tape::TapeFault;
use std::alloc::{AllocError, Global};
use std::marker::Model;
use word12::{CORE, Cell, Word};

/// Core of 0o100000 words: eight fields of 0o10000 (Small Computer Handbook, MC8 extended memory).
#[derive(Drop)]
pub struct Core {
    words: Vec<Word>,
}

impl Model for Core {
    ghost Value = { List ℕ };

    ghost view = { λ core. core.words.items };

    ghost invariant = { λ core. IsCore core.words.items };
}

impl Core {
    /// Core whose words are all 0.
    pub fn new(alloc: Global) -> Result<Core, TapeFault>
        ensures zeros { IfOk result (λ core. core ≡ zeros CORE) }
        ensures memory { IsOkUnless result Memory }
    {
        let words = zero_words(alloc, CORE)?;
        Ok(Core { words })
    }

    /// The word of a cell.
    #[inline]
    pub fn get(&self, cell: Cell) -> Word
        ensures value { result ≡ slice_index self.now cell }
        ensures range { result < 0o10000 }
        ensures size { IsCore self.now }
    {
        let word = self.words[cell.index()];
        let _number = word.get();
        word
    }

    /// Gives a cell a word. The others stay.
    #[inline]
    pub fn set(&mut self, cell: Cell, word: Word)
        ensures value { self.new ≡ slice_set self.old cell word }
        ensures size { IsCore self.new }
    {
        self.words[cell.index()] = word;
    }
}

#[tactic(auto, unfolding(crate::specs::Core::zeros))]
fn zero_words(alloc: Global, count: usize) -> Result<Vec<Word>, AllocError>
    ensures { IfOk result (λ words. words.items ≡ zeros count) }
{
    let words = vec![in alloc; Word::ZERO; count]?;
    Ok(words)
}
