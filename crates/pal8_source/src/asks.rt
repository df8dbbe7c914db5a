ghost use Rattle.std.specs.Prelude.{◌≡◌, ◌+◌, ◌<◌, ◌≤◌, ◌&&◌, not, ℕ, IfOk, None, Some, length, slice_index_or, vec_len};
ghost use Rattle.word12.specs.declared.sizes.TheConstants.{CORE, PAGE};
ghost use Rattle.pal8_source.specs.Pools.{asks_of, can_be, cell_from_end, is_after, is_in_pool, is_in_turn, is_new, is_word, later_ask, lowest, own_ask, refers};
ghost use Rattle.pal8_source.specs.Pools as spec;
ghost use Rattle.flow8.specs.Flow.{word_in};
ghost use Rattle.pal8_source.specs.Steps.{SameAsks, asks_in, size_in};

use crate::programs::Program;
use std::alloc::{AllocError, Global};
use std::marker::Model;
use word12::{Cell, FIELD, PAGE, Word};

/// The pages of core.
pub const PAGES: usize = 0o400;

/// What refers first to the cells of a page, from its last one down: of the own page, and of others. A contract sees both by the number of the cell
/// from the end.
#[derive(Drop)]
pub struct Asks {
    own: Vec<Option<Cell>>,
    later: Vec<Option<Cell>>,
}

impl Model for Asks {
    ghost use Rattle.std.specs.Prelude.{◌≡◌, length};
    ghost use Rattle.word12.specs.declared.sizes.TheConstants.{PAGE};
    ghost use Rattle.pal8_source.specs.Steps.{AskLists};

    ghost Value = { AskLists };

    ghost view = { λ a. record { own = a.own.items; later = a.later.items } };

    ghost invariant = { λ a. (length a.own.items ≡ PAGE) × (length a.later.items ≡ PAGE) };
}

/// What refers first to the cells of a page, where the pools of the pages have so many cells.
pub fn asks_of(
    alloc: Global,
    program: &Program<'_>,
    sizes: &[usize],
    page: usize,
) -> Result<Asks, AllocError>
    requires { page < 0o400 }
    ensures { IfOk result (λ asks. SameAsks (asks_in asks) (asks_of program.now (size_in sizes.now) page)) }
{
    let own = own_asks(alloc, program, page, PAGE as usize)?;
    let later = later_asks(alloc, program, sizes, page, PAGE as usize)?;
    Ok(Asks { own, later })
}

/// What refers first to the last cells of a page, so many, of the page itself.
fn own_asks(
    alloc: Global,
    program: &Program<'_>,
    page: usize,
    count: usize,
) -> Result<Vec<Option<Cell>>, AllocError>
    requires page { page < 0o400 }
    requires count { count ≤ PAGE }
    ensures size { IfOk result (λ asks. vec_len asks ≡ count) }
    ensures asks { IfOk result (λ asks. (k : ℕ) → k < count
        → slice_index_or asks.items k None ≡ own_ask program.now (cell_from_end page k)) }
{
    let mut asks = Vec::with_capacity(alloc, count)?;
    for k in 0..count {
        asks.push(own_ask(program, cell_from_end(page, k)))?;
    }
    Ok(asks)
}

/// The same of other pages.
fn later_asks(
    alloc: Global,
    program: &Program<'_>,
    sizes: &[usize],
    page: usize,
    count: usize,
) -> Result<Vec<Option<Cell>>, AllocError>
    requires page { page < 0o400 }
    requires count { count ≤ PAGE }
    ensures size { IfOk result (λ asks. vec_len asks ≡ count) }
    ensures asks { IfOk result (λ asks. (k : ℕ) → k < count
        → slice_index_or asks.items k None ≡ later_ask program.now (size_in sizes.now) (cell_from_end page k)) }
{
    let mut asks = Vec::with_capacity(alloc, count)?;
    for k in 0..count {
        asks.push(later_ask(program, sizes, cell_from_end(page, k)))?;
    }
    Ok(asks)
}

/// The lowest instruction of a cell's own page that refers to it.
#[tactic(auto, unfolding(crate::specs::Pools::own_ask))]
pub fn own_ask(program: &Program<'_>, cell: Cell) -> Option<Cell>
    ensures { result ≡ own_ask program.now cell }
{
    let page = cell.index() / PAGE as usize;
    lowest_own(program, cell, PAGE as usize * page, PAGE as usize)
}

/// The lowest instruction of so many cells that refers to this one.
fn lowest_own(program: &Program<'_>, cell: Cell, first: usize, count: usize) -> Option<Cell>
    requires { first + count ≤ CORE }
    ensures { result ≡ lowest (refers program.now cell) first count }
{
    for k in 0..count {
        let from = Cell::of((first + k) as u32);
        if program.refers(cell, from) {
            return Some(from);
        }
    }
    None
}

/// The lowest instruction of another page of the field that refers to a cell, outside of the pools of the pages, which have so many cells each.
#[tactic(auto, unfolding(crate::specs::Pools::later_ask))]
pub fn later_ask(program: &Program<'_>, sizes: &[usize], cell: Cell) -> Option<Cell>
    ensures { result ≡ later_ask program.now (size_in sizes.now) cell }
{
    if cell.address().get() >= PAGE {
        return None;
    }
    let field = FIELD as usize * cell.field() as usize;
    lowest_outside(
        program,
        sizes,
        cell,
        field + PAGE as usize,
        FIELD as usize - PAGE as usize,
    )
}

/// The lowest instruction of so many cells, outside of pools, that refers to this one.
fn lowest_outside(
    program: &Program<'_>,
    sizes: &[usize],
    cell: Cell,
    first: usize,
    count: usize,
) -> Option<Cell>
    requires { first + count ≤ CORE }
    ensures { result ≡ lowest (λ from. not (is_in_pool (size_in sizes.now) from) && refers program.now cell from) first count }
{
    for k in 0..count {
        let from = Cell::of((first + k) as u32);
        if is_ask(program, sizes, cell, from) {
            return Some(from);
        }
    }
    None
}

/// Whether an instruction outside of pools refers to a cell.
fn is_ask(program: &Program<'_>, sizes: &[usize], cell: Cell, from: Cell) -> bool
    ensures { result ≡ (not (is_in_pool (size_in sizes.now) from) && refers program.now cell from) }
{
    !is_in_pool(sizes, from) && program.refers(cell, from)
}

/// Whether a cell is a pool's, where the pools of the pages have so many cells each.
pub fn is_in_pool(sizes: &[usize], cell: Cell) -> bool
    ensures { result ≡ is_in_pool (size_in sizes.now) cell }
{
    let page = cell.index() / PAGE as usize;
    let size = match sizes.get(page) {
        Some(size) => *size,
        None => 0,
    };
    size >= PAGE as usize - cell.index() % PAGE as usize
}

/// The first of both, where only what stands before a cell counts on the own page.
fn first_ask(start: usize, own: Option<Cell>, later: Option<Cell>) -> Option<Cell>
    ensures { result ≡ spec.first_ask start own later }
{
    match own {
        Some(from) if from.index() < start => Some(from),
        _ => later,
    }
}

/// Whether a cell, the one of this number from the end of a page, can be in a pool of n cells.
pub fn can_be(program: &Program<'_>, asks: &Asks, page: usize, n: usize, k: usize) -> bool
    requires page { page < 0o400 }
    requires n { n ≤ PAGE }
    requires k { k < n }
    ensures { result ≡ can_be program.now (asks_in asks.now) page n k (word_in program.now.words (cell_from_end page k)) }
{
    let cell = cell_from_end(page, k);
    match program.words[cell.index()] {
        Some(word) => {
            !program.exempt[cell.index()]
                && is_in_turn(asks, page, n, k)
                && is_new(program, page, word, k)
        }
        None => false,
    }
}

/// Whether a cell is referred to, for the first time after the one above it.
fn is_in_turn(asks: &Asks, page: usize, n: usize, k: usize) -> bool
    requires page { page < 0o400 }
    requires n { n ≤ PAGE }
    requires k { k < n }
    ensures { result ≡ is_in_turn (asks_in asks.now) page n k }
{
    let ask = ask_of(asks, page, n, k);
    if k == 0 {
        return ask.is_some();
    }
    is_after(ask_of(asks, page, n, k - 1), ask)
}

/// What refers to a cell for the first time, where the pool has n cells.
fn ask_of(asks: &Asks, page: usize, n: usize, k: usize) -> Option<Cell>
    requires page { page < 0o400 }
    requires n { n ≤ PAGE }
    requires k { k < n }
    ensures { result ≡ spec.ask_of (asks_in asks.now) page n k }
{
    let start = PAGE as usize * page + PAGE as usize - n;
    first_ask(start, asks.own[k], asks.later[k])
}

fn is_after(first: Option<Cell>, later: Option<Cell>) -> bool
    ensures { result ≡ is_after first later }
{
    match first {
        Some(first) => is_above(first, later),
        None => false,
    }
}

fn is_above(first: Cell, later: Option<Cell>) -> bool
    ensures { result ≡ is_after (Some first) later }
{
    match later {
        Some(later) => first.index() < later.index(),
        None => false,
    }
}

/// Whether none of the last k cells of a page has this word.
fn is_new(program: &Program<'_>, page: usize, word: Word, k: usize) -> bool
    requires page { page < 0o400 }
    requires k { k ≤ PAGE }
    ensures { result ≡ is_new program.now page word k }
{
    let mut differs = true;
    for j in 0..k {
        let held = program.words[cell_from_end(page, j).index()];
        differs = differs && !is_word(held, word);
    }
    differs
}

fn is_word(held: Option<Word>, word: Word) -> bool
    ensures { result ≡ is_word held word }
{
    match held {
        Some(held) => held == word,
        None => false,
    }
}

/// The cells of a page from its last one down.
fn cell_from_end(page: usize, k: usize) -> Cell
    requires page { page < 0o400 }
    requires k { k < PAGE }
    ensures value { result ≡ cell_from_end page k }
    ensures range { result < CORE }
{
    Cell::of((PAGE as usize * page + (PAGE as usize - 1) - k) as u32)
}
