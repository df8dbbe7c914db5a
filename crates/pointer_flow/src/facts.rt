//! What the words of a program show before any of it is reached.

ghost use Rattle.std.specs.Prelude.{◌≡◌, ◌/◌, ◌<◌, ℕ, ◌&&◌, not, List, Some, min, IfOk, IfSome, length, replicate, vec_len, slice_index_or};
ghost use Rattle.word12.specs.declared.sizes.TheConstants.{CORE, PAGE};
ghost use Rattle.flow8.specs.Flow.{word_in};
ghost use Rattle.pointer_flow.specs.Programs.{is_auto_index, program_of};
ghost use Rattle.pointer_flow.specs.Returns.{argument_count, increment_count, is_increment, is_reference_through};
ghost use Rattle.pointer_flow.specs.Steps.{CountsOne, cell_in_page, counts_after, is_open_in, moves_first, takes_by_first};
ghost use Rattle.pointer_flow.specs.Tables.{AreFacts};

use crate::cells::{is_auto_index, word_at};
use crate::handler_cells::handler_flags;
use cpu8::decoding::{INDIRECT, has};
use flow8::referred_cell;
use source_notes::is_reference;
use std::alloc::{AllocError, Global};
use word12::{CORE, Cell, PAGE, Word};

/// A count of more than this is kept as one more.
pub(crate) const MOST_MOVES: u8 = 3;

/// A direct ISZ, 2000 to 2377, without its page bit and its offset.
const DIRECT_ISZ: u16 = 4;

/// The words of a program, and what they show of subroutines and handlers.
#[derive(Drop)]
pub(crate) struct Facts<'w> {
    /// One or none for each cell of core.
    pub words: &'w [Option<Word>],
    /// A flag for each cell that was said to be no instruction.
    pub data_flags: &'w [bool],
    /// For each cell, how many direct ISZ of its page move it on, 0 to 4.
    pub increments: Vec<u8>,
    /// For each cell, how many references of its page go through it, 0 to 4.
    pub arguments: Vec<u8>,
    /// A flag for each cell that holds the entry of a handler.
    pub handlers: Vec<bool>,
    ghost sized: { (length words.now ≡ CORE) × (length data_flags.now ≡ CORE) × (vec_len increments ≡ CORE)
        × (vec_len arguments ≡ CORE) × (vec_len handlers ≡ CORE) },
}

impl<'w> Facts<'w> {
    pub fn new(
        alloc: Global,
        words: &'w [Option<Word>],
        data_flags: &'w [bool],
        handlers: &[Cell],
    ) -> Result<Facts<'w>, AllocError>
        requires words { length words.now ≡ CORE }
        requires data_flags { length data_flags.now ≡ CORE }
        ensures { (starts : List ℕ) → IfOk result (λ facts. AreFacts (program_of words.now data_flags.now starts handlers.now)
            facts.words.now facts.data_flags.now facts.increments.items facts.arguments.items facts.handlers.items) }
    {
        let flags = handler_flags(alloc, words, handlers)?;
        let mut increments = no_counts(alloc, CORE)?;
        let mut arguments = no_counts(alloc, CORE)?;
        count_all(words, &mut increments, &mut arguments);
        Ok(Facts {
            words,
            data_flags,
            increments,
            arguments,
            handlers: flags,
        })
    }

    /// The word that the tape gives a cell, if it gives it one.
    pub fn word(&self, cell: Cell) -> Option<Word>
        ensures { result ≡ word_in self.now.words.now cell }
    {
        word_at(self.words, cell)
    }

    /// Whether no instruction may stand in a cell.
    pub fn is_shut(&self, cell: Cell) -> bool
        ensures { result ≡ not (is_open_in self.now.words.now self.now.data_flags.now cell) }
    {
        !self.is_open(cell)
    }

    /// Whether an instruction may stand in a cell.
    fn is_open(&self, cell: Cell) -> bool
        ensures { result ≡ is_open_in self.now.words.now self.now.data_flags.now cell }
    {
        word_at(self.words, cell).is_some() && !self.data_flags[cell.index()]
    }
}

fn no_counts(alloc: Global, count: usize) -> Result<Vec<u8>, AllocError>
    ensures { IfOk result (λ counts. counts.items ≡ replicate count 0) }
{
    let counts = vec![in alloc; 0u8; count]?;
    Ok(counts)
}

/// Counts, for each cell, the references of its page that move it on or go through it.
fn count_all(words: &[Option<Word>], increments: &mut [u8], arguments: &mut [u8])
    requires words { length words.now ≡ CORE }
    requires increments { increments.old ≡ replicate CORE 0 }
    requires arguments { arguments.old ≡ replicate CORE 0 }
    ensures increments { (cell : ℕ) → cell < CORE
        → slice_index_or increments.new cell 0 ≡ min 4 (increment_count (word_in words.now) cell) }
    ensures arguments { (cell : ℕ) → cell < CORE
        → slice_index_or arguments.new cell 0 ≡ min 4 (argument_count (word_in words.now) cell) }
{
    for number in 0u32..CORE as u32 {
        count_cell(words, increments, arguments, Cell::of(number));
    }
}

/// Counts the reference of a cell, if it names a cell of its page.
fn count_cell(words: &[Option<Word>], increments: &mut [u8], arguments: &mut [u8], cell: Cell)
    requires words { length words.now ≡ CORE }
    requires increments { length increments.old ≡ CORE }
    requires arguments { length arguments.old ≡ CORE }
    ensures increments { (first : ℕ) → first < CORE → CountsOne (moves_first (word_in words.now) first cell)
        (slice_index_or increments.old first 0) (slice_index_or increments.new first 0) }
    ensures arguments { (first : ℕ) → first < CORE → CountsOne (takes_by_first (word_in words.now) first cell)
        (slice_index_or arguments.old first 0) (slice_index_or arguments.new first 0) }
{
    let Some(word) = word_at(words, cell) else {
        return;
    };
    let Some(named) = cell_in_page(cell, word) else {
        return;
    };
    count_if(increments, named, is_increment(word));
    count_if(arguments, named, is_argument(word, named));
}

/// The cell that a reference of this word in a cell names, if that is one of its page.
fn cell_in_page(cell: Cell, word: Word) -> Option<Cell>
    ensures value { result ≡ cell_in_page cell word }
    ensures range { IfSome result (λ named. named < CORE) }
{
    let named = referred_cell(cell, word);
    if is_reference(cell.address(), word) && page_number(named) == page_number(cell) {
        Some(named)
    } else {
        None
    }
}

/// The number of a cell's page among all pages of core.
fn page_number(cell: Cell) -> usize
    ensures { result ≡ cell / PAGE }
{
    cell.index() / PAGE as usize
}

/// Counts one more, up to 4, if it counts.
fn count_if(counts: &mut [u8], cell: Cell, is_counted: bool)
    requires { length counts.old ≡ CORE }
    ensures { counts.new ≡ counts_after counts.old cell is_counted }
{
    if is_counted {
        counts[cell.index()] = counts[cell.index()].min(MOST_MOVES) + 1;
    }
}

/// Whether a word is a reference through a cell that is no auto-index.
fn is_argument(word: Word, named: Cell) -> bool
    ensures { result ≡ (is_reference_through (Some word) && not (is_auto_index named)) }
{
    is_reference_through(word) && !is_auto_index(named)
}

/// Whether a word is a direct ISZ.
fn is_increment(word: Word) -> bool
    ensures { result ≡ is_increment (Some word) }
{
    word.get() / 0o400 == DIRECT_ISZ
}

/// Whether a word is AND, TAD, ISZ or DCA through a pointer.
fn is_reference_through(word: Word) -> bool
    ensures { result ≡ is_reference_through (Some word) }
{
    word.get() < 0o4000 && has(word, INDIRECT)
}
