ghost use Rattle.std.specs.Prelude.{◌≡◌, ◌<◌, ◌≤◌, ℕ, ◌+◌, IfOk, IfErr, nat_lt, true, false, List, [], length, get_or};
ghost use Rattle.word12.specs.declared.sizes.TheConstants.{BLOCK};
ghost use Rattle.pal_lex.specs.Reading.{HasRead};
ghost use Rattle.pal_faults.specs.declared.assembling.AsmFault.TheVariants.{Memory};
ghost use Rattle.pal_blocks.specs.Blocks.{blocks_among, blocks_of_each, AreFiles, assembling_turns};
ghost use Rattle.pal_blocks.specs.Progress.{due_of, block_of, IsBlockOf, IsAssembling};
ghost use Rattle.pal_blocks.specs.Turns.{TakesBlock, MakesTarget, MakesNone};
ghost use Rattle.pal_blocks.specs.Steps.{HoldsTape};

use crate::making::make_block;
use crate::passing::pass_block;
use bin_tape::laws::written_tape;
use bin_tape::tape_of;
use char_pack::laws::joined_text;
use char_pack::pack_blocks;
use pal_asm::laws::{has_words, no_lexical_fault, no_word_is_told};
use pal_asm::{AsmFault, Assembler, Pass, begin_second_pass, end_source};
use pal_lex::Lexer;
use pal_lex::laws::source_ends_join;
use std::alloc::Global;
use word12::{Cell, Word};

/// A block of a source, both counted from 0.
#[derive(Clone, Copy, PartialEq, Eq, Debug)]
pub struct Due {
    pub source: usize,
    pub block: usize,
}

/// Files that are assembled as one source. Each block is handed over twice: first all of them in their order, then all
/// of them again. No text of them is kept.
#[derive(Drop)]
pub struct Assembling {
    /// How many blocks each source has.
    blocks: Vec<usize>,
    /// The source that the next block is of. It is the number of sources where all were read twice.
    source: usize,
    /// That block.
    block: usize,
    /// How many characters of it were taken before memory ran out.
    offset: usize,
    /// Whether the blocks are read for the second time.
    again: bool,
    pass: Pass,
    /// What the second pass handed out.
    pairs: Vec<(Cell, Word)>,
}

impl Assembling {
    /// Begins to assemble files, of which each has so many blocks, at least one. It takes no memory.
    pub fn new(alloc: Global, blocks: Vec<usize>) -> Assembling
        ensures { (sources : List (List ℕ)) → 0 < length sources → AreFiles sources
            → blocks.items ≡ blocks_of_each sources
            → IsAssembling sources result (assembling_turns (blocks_among sources)) }
    {
        let lexer = lexer_of(alloc, &blocks);
        Assembling {
            blocks,
            source: 0,
            block: 0,
            offset: 0,
            again: false,
            pass: Pass {
                lexer,
                assembler: Assembler::new(alloc),
                waiting: None,
                is_at_end: false,
            },
            pairs: Vec::new(alloc),
        }
    }

    /// The block that comes next, where at least two turns are left.
    pub fn due(&self) -> Due
        ensures due { result ≡ due_of self.now }
        ensures inside { (sources : List (List ℕ)) (left : ℕ) → IsAssembling sources self.now left → 2 ≤ left
            → IsBlockOf sources result }
    {
        Due {
            source: self.source,
            block: self.block,
        }
    }

    /// Takes the next block, and answers the first fault that is known by it, with its line, 1 and up. At each turn it may be
    /// one of the statements that end in the blocks so far. Once a source was read it may be the `$` that is missing at its end,
    /// and at the last block of the first reading that there is no word. From then on it may be one of a word in the blocks read
    /// again (this project's profile of PAL III). Where memory runs out no turn is taken, and the same block is due again.
    pub fn take(&mut self, alloc: Global, block: &[Word]) -> Result<(), AsmFault>
        requires { length block.now ≡ BLOCK }
        ensures { (sources : List (List ℕ)) (left : ℕ) → IsAssembling sources self.old left → 2 ≤ left
            → block.now ≡ block_of sources (due_of self.old) → TakesBlock sources left result self.new }
    {
        if self.again {
            return self.take_again(block);
        }
        self.take_first(alloc, block)
    }

    /// The words of the file that the sources are assembled to, where one turn is left: the fewest blocks that hold the tape
    /// of their words. The only fault is that memory ran out. Where more turns are left there are no words, and no memory is taken.
    pub fn target(&self, alloc: Global) -> Result<Vec<Word>, AsmFault>
        ensures last { (sources : List (List ℕ)) → IsAssembling sources self.now 1
            → MakesTarget sources result }
        ensures early { (sources : List (List ℕ)) (left : ℕ) → IsAssembling sources self.now left → 2 ≤ left
            → MakesNone result }
    {
        if self.source < count(&self.blocks) {
            return Ok(Vec::new(alloc));
        }
        written_tape();
        has_words();
        tape_words(alloc, &self.pairs)
    }

    /// Takes the next block in the first pass. At the last one the second pass begins.
    fn take_first(&mut self, alloc: Global, block: &[Word]) -> Result<(), AsmFault>
        requires block { length block.now ≡ BLOCK }
        requires first { self.old.again ≡ false }
        ensures { (sources : List (List ℕ)) (left : ℕ) → IsAssembling sources self.old left → 2 ≤ left
            → block.now ≡ block_of sources (due_of self.old) → TakesBlock sources left result self.new }
    {
        joined_text();
        no_lexical_fault();
        source_ends_join();
        no_word_is_told();
        pass_block(&mut self.pass, block, &mut self.offset)?;
        self.offset = 0;
        if follows(self.block, blocks_at(&self.blocks, self.source)) {
            self.block += 1;
            return Ok(());
        }
        self.block = 0;
        let sources = count(&self.blocks);
        if follows(self.source, sources) {
            self.source += 1;
            return end_source(&mut self.pass, !follows(self.source, sources));
        }
        self.source = 0;
        self.again = true;
        let lexer = lexer_of(alloc, &self.blocks);
        begin_second_pass(&mut self.pass, lexer)
    }

    /// Takes the next block in the second pass.
    fn take_again(&mut self, block: &[Word]) -> Result<(), AsmFault>
        requires block { length block.now ≡ BLOCK }
        requires second { self.old.again ≡ true }
        ensures { (sources : List (List ℕ)) (left : ℕ) → IsAssembling sources self.old left → 2 ≤ left
            → block.now ≡ block_of sources (due_of self.old) → TakesBlock sources left result self.new }
    {
        joined_text();
        no_lexical_fault();
        source_ends_join();
        make_block(&mut self.pass, &mut self.pairs, block, &mut self.offset)?;
        self.offset = 0;
        if follows(self.block, blocks_at(&self.blocks, self.source)) {
            self.block += 1;
            return Ok(());
        }
        self.block = 0;
        let sources = count(&self.blocks);
        if follows(self.source, sources) {
            self.source += 1;
            return end_source(&mut self.pass, !follows(self.source, sources));
        }
        self.source = sources;
        Ok(())
    }
}

/// The words of the fewest blocks that hold the tape of pairs; none for no pair.
fn tape_words(alloc: Global, pairs: &[(Cell, Word)]) -> Result<Vec<Word>, AsmFault>
    ensures words { IfOk result (λ words. 0 < length pairs.now → HoldsTape pairs.now words.items) }
    ensures fault { IfErr result (λ fault. fault ≡ Memory) }
{
    if pairs.is_empty() {
        return Ok(Vec::new(alloc));
    }
    let frames = tape_of(alloc, pairs)?;
    let words = pack_blocks(alloc, &frames)?;
    Ok(words)
}

/// How many blocks a source has.
fn blocks_at(blocks: &[usize], source: usize) -> usize
    ensures { result ≡ get_or blocks.now source 0 }
{
    match blocks.get(source) {
        Some(count) => *count,
        None => 0,
    }
}

/// How many sources there are.
fn count(blocks: &[usize]) -> usize
    ensures { result ≡ length blocks.now }
{
    blocks.len()
}

/// Whether another of so many comes after this one, counted from 0.
fn follows(place: usize, count: usize) -> bool
    ensures follows { result ≡ nat_lt (place + 1) count }
    ensures range { result ≡ true → place < 18446744073709551615 }
{
    count > 1 && place < count - 1
}

/// A lexer that has read no byte, for as many sources as there are numbers of blocks.
fn lexer_of(alloc: Global, blocks: &[usize]) -> Lexer
    ensures read { HasRead result 0 [] }
    ensures several { result.may_pause ≡ nat_lt 1 (length blocks.now) }
{
    if blocks.len() > 1 {
        return Lexer::several_without_tokens(alloc);
    }
    Lexer::without_tokens(alloc)
}
