//! The flow through known pointers, by walks over the states of a program.

ghost use Rattle.std.specs.Prelude.{◌≡◌, ◌<◌, ◌↔◌, ℕ, [], false, true, is_some, IfOk, OnOk, length, slice_index_or, vec_len};
ghost use Rattle.word12.specs.declared.sizes.TheConstants.{CORE};
ghost use Rattle.flow8.specs.Flow.{word_in};
ghost use Rattle.pointer_flow.specs.Flow.{IsCandidate, IsInFlow, IsKnown, IsLeftOut};
ghost use Rattle.pointer_flow.specs.Levels.{AreWritersBy};
ghost use Rattle.pointer_flow.specs.Programs.{Program, program_of};
ghost use Rattle.pointer_flow.specs.Questions.{AnswersWriter, IsReturnCell};
ghost use Rattle.pointer_flow.specs.Steps.{IsFlaggedIn, is_written_zero, unwritten_word};
ghost use Rattle.pointer_flow.specs.Tables.{AreFacts, GivesPointers, IsFlowOf, IsSetOf};

use crate::cells::{cell_at, no_flags, no_words, word_at};
use crate::facts::Facts;
use crate::returns::return_writers;
use crate::rules::Rules;
use crate::state_sets::StateSet;
use crate::states::{STATES, State};
use crate::walks::reach;
use crate::writes::first_writers;
use std::alloc::{AllocError, Global};
use std::marker::Model;
use word12::{CORE, Cell, Word};

/// What a program reaches through its known pointers.
///
/// A contract sees its tables.
#[derive(Drop)]
pub struct Flow<'w> {
    pub(crate) facts: Facts<'w>,
    /// The states of the flow.
    pub(crate) states: StateSet,
    /// The words of the known pointers.
    pub(crate) known_words: Vec<Option<Word>>,
    /// For each cell the lowest one that may write it, of all that is reached through pointers that nothing direct writes.
    pub(crate) writers: Vec<Option<Cell>>,
    /// And the lowest one that may store a return in it.
    pub(crate) return_writers: Vec<Option<Cell>>,
}

/// The lowest writers of each cell, of all that is reached through pointers that nothing direct writes.
#[derive(Drop)]
struct Writers {
    all: Vec<Option<Cell>>,
    /// Those alone that store a return.
    returns: Vec<Option<Cell>>,
}

impl<'w> Model for Flow<'w> {
    ghost use Rattle.std.specs.Prelude.{◌≡◌, length};
    ghost use Rattle.word12.specs.declared.sizes.TheConstants.{CORE};
    ghost use Rattle.pointer_flow.specs.Tables as spec;

    ghost Value = { spec.FlowTables };

    ghost view = { λ flow. record {
      words = flow.facts.words.now;
      data_flags = flow.facts.data_flags.now;
      increments = flow.facts.increments.items;
      arguments = flow.facts.arguments.items;
      handlers = flow.facts.handlers.items;
      reached = flow.states.bits.items;
      known = flow.known_words.items;
      writers = flow.writers.items;
      returns = flow.return_writers.items;
    } };

    ghost invariant = { λ flow. (length flow.known_words.items ≡ CORE) × (length flow.writers.items ≡ CORE)
        × (length flow.return_writers.items ≡ CORE) };
}

/// The flow of a program that starts at these cells, over the words that a tape gives the 0o100000 cells of core. A flag says that a cell
/// holds no instruction, and some cells are said to hold the entry of a device handler (this project's reading of a program's flow).
///
/// Memory is asked for three tables of 2,949,120 bits, one list of as many states, and some of as many entries as core has cells.
pub fn pointer_flow<'w>(
    alloc: Global,
    words: &'w [Option<Word>],
    data_flags: &'w [bool],
    starts: &[Cell],
    handlers: &[Cell],
) -> Result<Flow<'w>, AllocError>
    requires words { length words.now ≡ CORE }
    requires data_flags { length data_flags.now ≡ CORE }
    ensures { IfOk result (λ flow. IsFlowOf (program_of words.now data_flags.now starts.now handlers.now) flow) }
{
    let facts = Facts::new(alloc, words, data_flags, handlers)?;
    let mut waiting = Vec::with_capacity(alloc, STATES)?;
    let candidates = candidate_pointers(alloc, &facts, starts, &mut waiting)?;
    let wide = wide_writers(alloc, &facts, &candidates, starts, &mut waiting)?;
    let writers = wide.all;
    let return_writers = wide.returns;
    let known_words = unwritten_words(alloc, &candidates, &writers)?;
    let no_skip_cells = written_zeros(alloc, words, &writers)?;
    let states = flow_states(
        alloc,
        &facts,
        &known_words,
        &no_skip_cells,
        starts,
        &mut waiting,
    )?;
    Ok(Flow {
        facts,
        states,
        known_words,
        writers,
        return_writers,
    })
}

/// The words of the pointers that nothing writes of what is reached through no pointer.
fn candidate_pointers(
    alloc: Global,
    facts: &Facts<'_>,
    starts: &[Cell],
    waiting: &mut Vec<State>,
) -> Result<Vec<Option<Word>>, AllocError>
    requires { waiting.old.items ≡ [] }
    ensures none { OnOk result (waiting.new.items ≡ []) }
    ensures size { IfOk result (λ pointers. vec_len pointers ≡ CORE) }
    ensures candidates { (p : Program) → AreFacts p facts.now.words.now facts.now.data_flags.now facts.now.increments.items facts.now.arguments.items facts.now.handlers.items
        → p.starts ≡ starts.now
        → IfOk result (λ pointers. GivesPointers pointers.items (IsCandidate p)) }
{
    let pointers = no_words(alloc, CORE)?;
    let no_skip_cells = no_flags(alloc, CORE)?;
    let writers = writers_by(alloc, facts, &pointers, &no_skip_cells, starts, waiting)?;
    let candidates = unwritten_words(alloc, facts.words, &writers)?;
    Ok(candidates)
}

/// For each cell the lowest one that writes it, and that stores a return in it, of what is reached through these pointers.
fn wide_writers(
    alloc: Global,
    facts: &Facts<'_>,
    candidates: &[Option<Word>],
    starts: &[Cell],
    waiting: &mut Vec<State>,
) -> Result<Writers, AllocError>
    requires waiting { waiting.old.items ≡ [] }
    requires candidates { length candidates.now ≡ CORE }
    ensures none { OnOk result (waiting.new.items ≡ []) }
    ensures size { IfOk result (λ writers. vec_len writers.all ≡ CORE) }
    ensures returns_size { IfOk result (λ writers. vec_len writers.returns ≡ CORE) }
    ensures writers { (p : Program) → AreFacts p facts.now.words.now facts.now.data_flags.now facts.now.increments.items facts.now.arguments.items facts.now.handlers.items
        → p.starts ≡ starts.now
        → GivesPointers candidates.now (IsCandidate p)
        → IfOk result (λ writers. (cell : ℕ) → cell < CORE → AnswersWriter p cell (word_in writers.all.items cell)) }
    ensures returns { (p : Program) → AreFacts p facts.now.words.now facts.now.data_flags.now facts.now.increments.items facts.now.arguments.items facts.now.handlers.items
        → p.starts ≡ starts.now
        → GivesPointers candidates.now (IsCandidate p)
        → IfOk result (λ writers. (cell : ℕ) → cell < CORE
        → (is_some (word_in writers.returns.items cell) ≡ true) ↔ IsReturnCell p cell) }
{
    let no_skip_cells = no_flags(alloc, CORE)?;
    let rules = Rules {
        facts: &*facts,
        pointers: &*candidates,
        no_skip_cells: &no_skip_cells,
    };
    let reached = reach(alloc, &rules, starts, waiting)?;
    let all = first_writers(alloc, &rules, &reached)?;
    let returns = return_writers(alloc, &rules, &reached)?;
    Ok(Writers { all, returns })
}

/// For each cell the lowest one that writes it, of what is reached through these pointers, where no ISZ skips into some cells.
fn writers_by(
    alloc: Global,
    facts: &Facts<'_>,
    pointers: &[Option<Word>],
    no_skip_cells: &[bool],
    starts: &[Cell],
    waiting: &mut Vec<State>,
) -> Result<Vec<Option<Cell>>, AllocError>
    requires waiting { waiting.old.items ≡ [] }
    requires pointers { length pointers.now ≡ CORE }
    requires no_skip_cells { length no_skip_cells.now ≡ CORE }
    ensures none { OnOk result (waiting.new.items ≡ []) }
    ensures size { IfOk result (λ writers. vec_len writers ≡ CORE) }
    ensures writers { (p : Program) → AreFacts p facts.now.words.now facts.now.data_flags.now facts.now.increments.items facts.now.arguments.items facts.now.handlers.items
        → p.starts ≡ starts.now
        → IfOk result (λ writers. AreWritersBy p pointers.now no_skip_cells.now writers.items) }
{
    let rules = Rules {
        facts: &*facts,
        pointers: &*pointers,
        no_skip_cells: &*no_skip_cells,
    };
    let reached = reach(alloc, &rules, starts, waiting)?;
    let writers = first_writers(alloc, &rules, &reached)?;
    Ok(writers)
}

/// What is reached through the known pointers, where no ISZ skips into some cells.
fn flow_states(
    alloc: Global,
    facts: &Facts<'_>,
    known_words: &[Option<Word>],
    no_skip_cells: &[bool],
    starts: &[Cell],
    waiting: &mut Vec<State>,
) -> Result<StateSet, AllocError>
    requires waiting { waiting.old.items ≡ [] }
    requires known_words { length known_words.now ≡ CORE }
    requires no_skip_cells { length no_skip_cells.now ≡ CORE }
    ensures { (p : Program) → AreFacts p facts.now.words.now facts.now.data_flags.now facts.now.increments.items facts.now.arguments.items facts.now.handlers.items
        → p.starts ≡ starts.now
        → GivesPointers known_words.now (IsKnown p) → ((cell : ℕ) → IsFlaggedIn no_skip_cells.now cell ↔ IsLeftOut p cell)
        → IfOk result (λ table. IsSetOf table.bits.items (IsInFlow p)) }
{
    let rules = Rules {
        facts: &*facts,
        pointers: &*known_words,
        no_skip_cells: &*no_skip_cells,
    };
    let states = reach(alloc, &rules, starts, waiting)?;
    Ok(states)
}

/// The words, without 0, of the cells that have no writer.
fn unwritten_words(
    alloc: Global,
    words: &[Option<Word>],
    writers: &[Option<Cell>],
) -> Result<Vec<Option<Word>>, AllocError>
    requires words { length words.now ≡ CORE }
    requires writers { length writers.now ≡ CORE }
    ensures size { IfOk result (λ unwritten. vec_len unwritten ≡ CORE) }
    ensures words { IfOk result (λ unwritten. (cell : ℕ) → cell < CORE
        → word_in unwritten.items cell ≡ unwritten_word (word_in words.now cell) (word_in writers.now cell)) }
{
    let mut unwritten = Vec::with_capacity(alloc, CORE)?;
    for number in 0u32..CORE as u32 {
        let cell = Cell::of(number);
        unwritten.push(unwritten_word(word_at(words, cell), &cell_at(writers, cell)))?;
    }
    Ok(unwritten)
}

fn unwritten_word(word: Option<Word>, writer: &Option<Cell>) -> Option<Word>
    ensures { result ≡ unwritten_word word writer.now }
{
    let given = word?;
    if given.get() == 0 || writer.is_some() {
        return None;
    }
    Some(given)
}

/// A flag for each cell that has the word 0 and a writer.
fn written_zeros(
    alloc: Global,
    words: &[Option<Word>],
    writers: &[Option<Cell>],
) -> Result<Vec<bool>, AllocError>
    requires words { length words.now ≡ CORE }
    requires writers { length writers.now ≡ CORE }
    ensures size { IfOk result (λ flags. vec_len flags ≡ CORE) }
    ensures cells { IfOk result (λ flags. (cell : ℕ) → cell < CORE
        → slice_index_or flags.items cell false ≡ is_written_zero (word_in words.now cell) (word_in writers.now cell)) }
{
    let mut flags = Vec::with_capacity(alloc, CORE)?;
    for number in 0u32..CORE as u32 {
        let cell = Cell::of(number);
        flags.push(is_written_zero(word_at(words, cell), &cell_at(writers, cell)))?;
    }
    Ok(flags)
}

fn is_written_zero(word: Option<Word>, writer: &Option<Cell>) -> bool
    ensures { result ≡ is_written_zero word writer.now }
{
    match word {
        Some(word) => word.get() == 0 && writer.is_some(),
        None => false,
    }
}
