ghost use Rattle.std.specs.Prelude.{◌≡◌, ℕ, List, IfOk, OnOk, ◌++◌};
ghost use Rattle.pal_lex.specs.Text.{text_of};
ghost use Rattle.pal8_pools.specs.Asks.{Ask};
ghost use Rattle.pal8_pools.specs.Cells.{ArePairs};
ghost use Rattle.pal8_pools.specs.Pooled.{Holds};
ghost use Rattle.pal8_asm.specs.Assembling.{Assembles, remainder_of};
ghost use Rattle.pal8_asm.specs.Marks.{AssemblesParts};
ghost use Rattle.pal8_asm.specs.MarkSteps.{ReadsWhole, TakesParts};
ghost use Rattle.pal8_asm.specs.Steps.{AddsPool};

use crate::{AsmFault, Assembler, Mark};
use pal8_places::{Code, Options};
use pal8_pools::Pools;
use std::alloc::{AllocError, Global};
use std::collections::BTreeMap;
use word12::{Cell, Word};

/// Puts the cells that punched words ask for with their values after words.
fn push_pool(pairs: &mut Vec<(Cell, Word)>, pools: &Pools) -> Result<(), AllocError>
    ensures { (asks punched : List Ask) → Holds pools.now asks punched → OnOk result (AddsPool asks punched pairs.old.items pairs.new.items) }
{
    let mut cells = pools.cells();
    while let Some(pair) = cells.next() {
        pairs.push(pair)?;
    }
    Ok(())
}

/// What a text is assembled to, with what a listing shows beside it.
#[derive(Drop)]
pub struct Parts {
    /// The punched words with their cells, in the order of the source, and then each cell that they ask for with its value, by rising cell.
    pub pairs: Vec<(Cell, Word)>,
    /// How many of these are words.
    pub word_count: usize,
    /// The marks of the words, in the same order.
    pub marks: Vec<Mark>,
    /// The source's own names, by the numbers that their six sixbit codes make, with their last values.
    pub names: BTreeMap<u64, Word>,
}

/// A text that was read, with what it is assembled to.
#[derive(Drop)]
struct Whole {
    assembler: Assembler,
    pairs: Vec<(Cell, Word)>,
    word_count: usize,
}

/// Reads and assembles a text.
fn read_whole(alloc: Global, options: Options, text: &[u8]) -> Result<Whole, AsmFault>
    ensures { ReadsWhole options (text_of text.now) result }
{
    let mut assembler = Assembler::new(alloc, options);
    let end = match assembler.read(alloc, text) {
        Ok(end) => end,
        Err(fault) => return Err(fault),
    };
    let mut made = match assembler.words(alloc) {
        Ok(made) => made,
        Err(fault) => return Err(fault),
    };
    if made.pairs.is_empty() {
        return Err(AsmFault::At(Code::NW, end));
    }
    let word_count = made.pairs.len();
    push_pool(&mut made.pairs, &made.pools)?;
    Ok(Whole {
        assembler,
        pairs: made.pairs,
        word_count,
    })
}

/// Assembles a source, which is the bytes of a host's text: CR, form feed, NUL and rubout are as if they weren't there, and LF ends a line.
/// It is read by these options. The answer is its punched words with their cells, in the order of the source, and then each cell that they ask for
/// with its value, by rising cell.
///
/// Its fault is the first of this order. First come those of its statements, by places and names, up to the `$`, and then NE, with the place of the
/// text's end. Then come those of its words, punched or not: UA, DZ, II, RL, IR for a link, or PE or ZE where a page has no cell left.
/// Then comes the first clash of a punched word with a pool's cell, at the later of the two statements. Last comes NW, with the place of the `$`. It takes time in proportion to
/// the bytes, except that a name is found by halving (PAL8, the assembler of OS/8, in this project's profile).
pub fn assemble(alloc: Global, options: Options, text: &[u8]) -> Result<Vec<(Cell, Word)>, AsmFault>
    ensures { Assembles options (text_of text.now) result }
{
    match read_whole(alloc, options, text) {
        Ok(whole) => Ok(whole.pairs),
        Err(fault) => Err(fault),
    }
}

/// Assembles a source as [`assemble`] does, with the same faults. Each punched word has a mark then, and each of the source's own names its last value.
pub fn assemble_parts(alloc: Global, options: Options, text: &[u8]) -> Result<Parts, AsmFault>
    ensures { AssemblesParts options (text_of text.now) result }
{
    match read_whole(alloc, options, text) {
        Ok(whole) => {
            let parts = parts_of(alloc, whole)?;
            Ok(parts)
        }
        Err(fault) => Err(fault),
    }
}

/// The parts of a text that was read.
fn parts_of(alloc: Global, whole: Whole) -> Result<Parts, AllocError>
    ensures { IfOk result (λ parts. TakesParts (remainder_of whole.assembler) whole.pairs.items whole.word_count parts) }
{
    let marks = whole.assembler.marks(alloc)?;
    let names = whole.assembler.last_values(alloc)?;
    Ok(Parts {
        pairs: whole.pairs,
        word_count: whole.word_count,
        marks,
        names,
    })
}
