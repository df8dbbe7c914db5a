ghost use Rattle.std.specs.Prelude.{◌≡◌, [], ◌∷◌, length, IfOk, OnOk, option_to_list, vec_len};
ghost use Rattle.word12.specs.declared.sizes.TheConstants.{CORE};
ghost use Rattle.flow8.specs.Flow.{IsFlow};
ghost use Rattle.flow8.specs.FlowSteps.{AreUnmarked, MarksCells, cells_after};

use crate::exits;
use std::alloc::{AllocError, Global};
use word12::{CORE, Cell, Word};

/// The cells with instructions that a program reaches from these starts, over the words that a tape gives the 0o100000 cells of
/// core: one flag for each cell. Memory is asked for the flags, and for a list of cells, at most one entry for each.
pub fn flow(alloc: Global, words: &[Option<Word>], starts: &[Cell]) -> Result<Vec<bool>, AllocError>
    requires { length words.now ≡ CORE }
    ensures { IfOk result (λ reached. IsFlow words.now starts.now reached.items) }
{
    let mut reached = no_cells(alloc, CORE)?;
    reach(alloc, words, &mut reached, starts)?;
    Ok(reached)
}

/// No cell is marked yet.
#[tactic(auto, using(crate::proofs::FlowLemmas::none_marked))]
fn no_cells(alloc: Global, count: usize) -> Result<Vec<bool>, AllocError>
    ensures none { IfOk result (λ reached. AreUnmarked reached.items) }
    ensures size { IfOk result (λ reached. vec_len reached ≡ count) }
{
    let reached = vec![in alloc; false; count]?;
    Ok(reached)
}

/// Marks what a program reaches.
fn reach(
    alloc: Global,
    words: &[Option<Word>],
    reached: &mut [bool],
    starts: &[Cell],
) -> Result<(), AllocError>
    requires words { length words.now ≡ CORE }
    requires reached { length reached.old ≡ CORE }
    requires none { AreUnmarked reached.old }
    ensures { OnOk result (IsFlow words.now starts.now reached.new) }
{
    let mut waiting = Vec::new(alloc);
    mark_starts(words, reached, &mut waiting, starts)?;
    while let Some(cell) = waiting.pop() {
        mark_exits(words, reached, &mut waiting, cell)?;
    }
    Ok(())
}

/// Marks the cells at which a program starts.
fn mark_starts(
    words: &[Option<Word>],
    reached: &mut [bool],
    waiting: &mut Vec<Cell>,
    starts: &[Cell],
) -> Result<(), AllocError>
    requires words { length words.now ≡ CORE }
    requires reached { length reached.old ≡ CORE }
    ensures { OnOk result (MarksCells words.now reached.old reached.new waiting.old.items waiting.new.items
        starts.now) }
{
    for start in starts {
        mark(words, reached, waiting, *start)?;
    }
    Ok(())
}

/// Marks the cells at which a program goes on after an instruction.
fn mark_exits(
    words: &[Option<Word>],
    reached: &mut [bool],
    waiting: &mut Vec<Cell>,
    cell: Cell,
) -> Result<(), AllocError>
    requires words { length words.now ≡ CORE }
    requires reached { length reached.old ≡ CORE }
    ensures { OnOk result (MarksCells words.now reached.old reached.new waiting.old.items waiting.new.items
        (cells_after words.now cell)) }
{
    let Some(word) = words[cell.index()] else {
        return Ok(());
    };
    let (first, second) = exits(cell, word);
    mark_exit(words, reached, waiting, first)?;
    mark_exit(words, reached, waiting, second)?;
    Ok(())
}

/// Marks a cell, if there is one.
fn mark_exit(
    words: &[Option<Word>],
    reached: &mut [bool],
    waiting: &mut Vec<Cell>,
    cell: Option<Cell>,
) -> Result<(), AllocError>
    requires words { length words.now ≡ CORE }
    requires reached { length reached.old ≡ CORE }
    ensures { OnOk result (MarksCells words.now reached.old reached.new waiting.old.items waiting.new.items
        (option_to_list cell)) }
{
    match cell {
        Some(cell) => mark(words, reached, waiting, cell),
        None => Ok(()),
    }
}

/// Marks a cell, which then waits, unless it is marked or the tape gives it no word.
fn mark(
    words: &[Option<Word>],
    reached: &mut [bool],
    waiting: &mut Vec<Cell>,
    cell: Cell,
) -> Result<(), AllocError>
    requires words { length words.now ≡ CORE }
    requires reached { length reached.old ≡ CORE }
    ensures { OnOk result (MarksCells words.now reached.old reached.new waiting.old.items waiting.new.items
        (cell ∷ [])) }
{
    if words[cell.index()].is_none() || reached[cell.index()] {
        return Ok(());
    }
    waiting.push(cell)?;
    reached[cell.index()] = true;
    Ok(())
}
