//! Who refers to a cell, found without a search.

ghost use Rattle.std.specs.Prelude.{◌≡◌, ℕ, ◌*◌, ◌/◌, ◌<◌, ◌++◌, Bool, IfOk, OnOk, List, None, length, replicate, slice_index_or};
ghost use Rattle.word12.specs.declared.sizes.TheConstants.{CORE};
ghost use Rattle.source_notes.specs.Notes.{cells_line, note_lines, some_cells};
ghost use Rattle.source_notes.specs.Referrers.{cells_below};
ghost use Rattle.pointer_notes.specs.References.{lowest};
ghost use Rattle.pointer_notes.specs.Steps.{AreUnlinked, first_with, half_of, next_with, view_in};
ghost use Rattle.pointer_notes.specs.Tables.{AreChains, IsChain, halves, names_by};

use crate::answers::Views;
use crate::comments::{MOST_CELLS, put_cell};
use crate::references::{Kind, node_cell};
use std::alloc::{AllocError, Global};
use word12::{CORE, Cell};

/// Two numbers for each cell: twice its own for what its word names, and the next one for where it leads.
const NODES: usize = 2 * CORE;

/// For each cell the lowest number that refers to it, and for each of these the next higher one.
#[derive(Drop)]
pub(crate) struct Chains {
    first: Vec<Option<u16>>,
    next: Vec<Option<u16>>,
}

/// The cells whose instructions refer to each cell in this way.
pub(crate) fn chains_of(alloc: Global, views: &Views<'_>, kind: Kind) -> Result<Chains, AllocError>
    ensures { IfOk result (λ chains. AreChains (names_by kind (view_in views.now)) chains.first.items chains.next.items) }
{
    let mut first = no_nodes(alloc, CORE)?;
    let mut next = no_nodes(alloc, NODES)?;
    link_all(&mut first, &mut next, views, kind);
    Ok(Chains { first, next })
}

fn no_nodes(alloc: Global, count: usize) -> Result<Vec<Option<u16>>, AllocError>
    ensures { IfOk result (λ nodes. nodes.items ≡ replicate count None) }
{
    let nodes = vec![in alloc; None; count]?;
    Ok(nodes)
}

/// Links the numbers that refer to each cell, where none is linked before: from the highest down, and so chains rise.
fn link_all(first: &mut [Option<u16>], next: &mut [Option<u16>], views: &Views<'_>, kind: Kind)
    requires first { AreUnlinked first.old CORE }
    requires next { AreUnlinked next.old (2 * CORE) }
    ensures { AreChains (names_by kind (view_in views.now)) first.new next.new }
{
    for number in (0u32..NODES as u32).rev() {
        let node = number as u16;
        link(first, next, node, node_cell(views, kind, node));
    }
}

/// Puts a number before the others that refer to the cell for which it stands, if it stands for one.
fn link(first: &mut [Option<u16>], next: &mut [Option<u16>], node: u16, named: Option<Cell>)
    requires first { length first.old ≡ CORE }
    requires next { length next.old ≡ 2 * CORE }
    ensures first { first.new ≡ first_with named node first.old }
    ensures next { next.new ≡ next_with named node first.old next.old }
{
    if let Some(named) = named {
        next[usize::from(node)] = first[named.index()];
        first[named.index()] = Some(node);
    }
}

impl Chains {
    /// Appends a comment line of these words and the cells that refer to a cell, if there are any.
    pub(crate) fn put_line(
        &self,
        text: &mut Vec<u8>,
        words: &[u8],
        cell: Cell,
    ) -> Result<(), AllocError>
        requires first { length self.now.first.items ≡ CORE }
        requires next { length self.now.next.items ≡ 2 * CORE }
        ensures { (names : ℕ → ℕ → Bool) → AreChains names self.now.first.items self.now.next.items
            → OnOk result (text.new.items ≡ text.old.items
            ++ note_lines (cells_line words.now (cells_below (names cell) CORE))) }
    {
        put_chain(text, words, &self.next, first_of(&self.first, cell))?;
        Ok(())
    }

    /// The lowest cell that refers to a cell.
    pub(crate) fn lowest(&self, cell: Cell) -> Option<Cell>
        requires { length self.now.first.items ≡ CORE }
        ensures { (names : ℕ → ℕ → Bool) → AreChains names self.now.first.items self.now.next.items
            → result ≡ lowest (cells_below (names cell) CORE) }
    {
        half_of(self.first[cell.index()])
    }
}

/// The lowest number that refers to a cell.
fn first_of(first: &[Option<u16>], cell: Cell) -> Option<u16>
    requires { length first.now ≡ CORE }
    ensures value { result ≡ slice_index_or first.now cell None }
    ensures range { cell < CORE }
{
    first[cell.index()]
}

/// The cell of a number.
fn half_of(node: Option<u16>) -> Option<Cell>
    ensures { result ≡ half_of node }
{
    match node {
        Some(node) => Some(cell_of(node)),
        None => None,
    }
}

fn cell_of(node: u16) -> Cell
    ensures { result ≡ node / 2 }
{
    Cell::of(u32::from(node / 2))
}

/// Appends a comment line of these words and the cells of a chain from the first on, if there is one.
fn put_chain(
    text: &mut Vec<u8>,
    words: &[u8],
    next: &[Option<u16>],
    first: Option<u16>,
) -> Result<(), AllocError>
    requires { length next.now ≡ 2 * CORE }
    ensures { (nodes : List ℕ) → IsChain next.now first nodes
        → OnOk result (text.new.items ≡ text.old.items ++ note_lines (cells_line words.now (halves nodes))) }
{
    if first.is_none() {
        return Ok(());
    }
    text.push(b'/')?;
    text.extend_from_slice(words)?;
    put_nodes(text, next, first)?;
    text.extend_from_slice(b"\r\n")?;
    Ok(())
}

/// The number after one in its chain.
fn next_of(next: &[Option<u16>], node: u16) -> Option<u16>
    requires { length next.now ≡ 2 * CORE }
    ensures { result ≡ slice_index_or next.now node None }
{
    next[usize::from(node)]
}

/// Appends the cells of a chain from the first on, eight at most, and `..` where there are more.
fn put_nodes(text: &mut Vec<u8>, next: &[Option<u16>], first: Option<u16>) -> Result<(), AllocError>
    requires { length next.now ≡ 2 * CORE }
    ensures { (nodes : List ℕ) → IsChain next.now first nodes
        → OnOk result (text.new.items ≡ text.old.items ++ some_cells 8 (halves nodes)) }
{
    let mut rest = first;
    for _put in 0..MOST_CELLS {
        let Some(node) = rest else {
            return Ok(());
        };
        put_cell(text, cell_of(node))?;
        rest = next_of(next, node);
    }
    if rest.is_some() {
        text.extend_from_slice(b" ..")?;
    }
    Ok(())
}
