//! Who refers to a cell, found without a search.

ghost use Rattle.std.specs.Prelude.{◌≡◌, ℕ, ◌∷◌, ◌++◌, Bool, IfOk, OnOk, List, None, length, replicate};
ghost use Rattle.word12.specs.Octal.{octal5};
ghost use Rattle.word12.specs.declared.sizes.TheConstants.{CORE};
ghost use Rattle.flow8.specs.Flow.{word_in};
ghost use Rattle.source_notes.specs.Notes.{cells_line, is_flagged, note_lines, some_cells};
ghost use Rattle.source_notes.specs.Referrers.{cells_below};
ghost use Rattle.source_notes.specs.Steps.{AreUnlinked, first_with, next_with};
ghost use Rattle.source_notes.specs.Tables.{AreChains, IsChain, names_by};

use crate::references::{Kind, cell_named_by};
use std::alloc::{AllocError, Global};
use word12::{CORE, Cell, Word};

/// How many cells a comment has at most.
const MOST_CELLS: usize = 8;

/// For each cell the lowest of those that refer to it, and for each of these the next higher one.
#[derive(Drop)]
pub(crate) struct Chains {
    first: Vec<Option<Cell>>,
    next: Vec<Option<Cell>>,
}

/// The cells whose instructions refer to each cell in this way.
pub(crate) fn chains_of(
    alloc: Global,
    words: &[Option<Word>],
    code: &[bool],
    kind: Kind,
) -> Result<Chains, AllocError>
    requires words { length words.now ≡ CORE }
    requires code { length code.now ≡ CORE }
    ensures { IfOk result (λ chains. AreChains (names_by kind (word_in words.now) (is_flagged code.now))
        chains.first.items chains.next.items) }
{
    let mut first = no_cells(alloc, CORE)?;
    let mut next = no_cells(alloc, CORE)?;
    link_all(&mut first, &mut next, words, code, kind);
    Ok(Chains { first, next })
}

fn no_cells(alloc: Global, count: usize) -> Result<Vec<Option<Cell>>, AllocError>
    ensures { IfOk result (λ cells. cells.items ≡ replicate count None) }
{
    let cells = vec![in alloc; None; count]?;
    Ok(cells)
}

/// Links the cells that refer to each cell, where none is linked before: from the highest down, and so chains rise.
fn link_all(
    first: &mut [Option<Cell>],
    next: &mut [Option<Cell>],
    words: &[Option<Word>],
    code: &[bool],
    kind: Kind,
)
    requires words { length words.now ≡ CORE }
    requires code { length code.now ≡ CORE }
    requires first { AreUnlinked first.old }
    requires next { AreUnlinked next.old }
    ensures { AreChains (names_by kind (word_in words.now) (is_flagged code.now)) first.new next.new }
{
    for number in (0u32..CORE as u32).rev() {
        let cell = Cell::of(number);
        link(first, next, cell, cell_named_by(words, code, kind, cell));
    }
}

/// Puts a cell before the others that refer to the one that it names, if it names one.
fn link(first: &mut [Option<Cell>], next: &mut [Option<Cell>], cell: Cell, named: Option<Cell>)
    requires first { length first.old ≡ CORE }
    requires next { length next.old ≡ CORE }
    ensures first { first.new ≡ first_with named cell first.old }
    ensures next { next.new ≡ next_with named cell first.old next.old }
{
    if let Some(named) = named {
        next[cell.index()] = first[named.index()];
        first[named.index()] = Some(cell);
    }
}

impl Chains {
    /// Appends a comment line of these words and the cells that refer to a cell, if there are any.
    pub(crate) fn put_line(
        &self,
        text: &mut Vec<u8>,
        words: &[u8],
        cell: Cell,
    ) -> Result<(), AllocError>
        requires first { length self.now.first.items ≡ CORE }
        requires next { length self.now.next.items ≡ CORE }
        ensures { (names : ℕ → ℕ → Bool) → AreChains names self.now.first.items self.now.next.items
            → OnOk result (text.new.items ≡ text.old.items
            ++ note_lines (cells_line words.now (cells_below (names cell) CORE))) }
    {
        put_chain(text, words, &self.next, self.first[cell.index()])
    }
}

/// Appends a comment line of these words and the cells of a chain from the first on, if there is one.
fn put_chain(
    text: &mut Vec<u8>,
    words: &[u8],
    next: &[Option<Cell>],
    first: Option<Cell>,
) -> Result<(), AllocError>
    requires { length next.now ≡ CORE }
    ensures { (cells : List ℕ) → IsChain next.now first cells
        → OnOk result (text.new.items ≡ text.old.items ++ note_lines (cells_line words.now cells)) }
{
    if first.is_none() {
        return Ok(());
    }
    text.push(b'/')?;
    text.extend_from_slice(words)?;
    put_cells(text, next, first)?;
    text.extend_from_slice(b"\r\n")?;
    Ok(())
}

/// Appends the cells of a chain from the first on, eight at most, and `..` where there are more.
fn put_cells(
    text: &mut Vec<u8>,
    next: &[Option<Cell>],
    first: Option<Cell>,
) -> Result<(), AllocError>
    requires { length next.now ≡ CORE }
    ensures { (cells : List ℕ) → IsChain next.now first cells
        → OnOk result (text.new.items ≡ text.old.items ++ some_cells 8 cells) }
{
    let mut rest = first;
    for _put in 0..MOST_CELLS {
        let Some(cell) = rest else {
            return Ok(());
        };
        put_cell(text, cell)?;
        rest = next[cell.index()];
    }
    if rest.is_some() {
        text.extend_from_slice(b" ..")?;
    }
    Ok(())
}

/// Appends a cell after a blank, its field first.
fn put_cell(text: &mut Vec<u8>, cell: Cell) -> Result<(), AllocError>
    ensures { OnOk result (text.new.items ≡ text.old.items ++ 0o40 ∷ octal5 cell) }
{
    text.push(b' ')?;
    text.extend_from_slice(&cell.octal5())?;
    Ok(())
}
