ghost use Rattle.std.specs.Prelude.{◌≡◌, ◌<◌, ◌≤◌, ℕ, IfOk, if◌then◌else◌, length, vec_len};
ghost use Rattle.word12.specs.declared.sizes.TheConstants.{CORE, PAGE};
ghost use Rattle.source_notes.specs.Notes.{is_flagged};
ghost use Rattle.pal8_source.specs.Pools.{can_all_be, greatest, is_in_pool, is_page_zero, is_pooled, size_by, upper_size};
ghost use Rattle.pal8_source.specs.Steps.{asks_in, size_in};

use crate::asks::{Asks, PAGES, asks_of, can_be, is_in_pool};
use crate::programs::Program;
use std::alloc::{AllocError, Global};
use word12::{CORE, Cell, PAGE};

/// The pages of a field.
const FIELD_PAGES: usize = 0o40;

/// Which cells are a pool's, one flag for each cell of core.
pub fn pooled_cells(alloc: Global, program: &Program<'_>) -> Result<Vec<bool>, AllocError>
    ensures size { IfOk result (λ flags. vec_len flags ≡ CORE) }
    ensures flags { IfOk result (λ flags. (cell : ℕ) → cell < CORE
        → is_flagged flags.items cell ≡ is_pooled program.now cell) }
{
    let upper = upper_sizes(alloc, program, PAGES)?;
    let sizes = all_sizes(alloc, program, &upper, PAGES)?;
    let pooled = flags_of(alloc, &sizes)?;
    Ok(pooled)
}

/// Which cells are a pool's, where the pools of the pages have so many cells each.
fn flags_of(alloc: Global, sizes: &[usize]) -> Result<Vec<bool>, AllocError>
    ensures size { IfOk result (λ flags. vec_len flags ≡ CORE) }
    ensures flags { IfOk result (λ flags. (cell : ℕ) → cell < CORE
        → is_flagged flags.items cell ≡ is_in_pool (size_in sizes.now) cell) }
{
    let mut flags = Vec::with_capacity(alloc, CORE)?;
    for number in 0u32..CORE as u32 {
        flags.push(is_in_pool(sizes, Cell::of(number)))?;
    }
    Ok(flags)
}

/// How many cells the pools of the first pages have that are no page zero.
fn upper_sizes(alloc: Global, program: &Program<'_>, pages: usize) -> Result<Vec<usize>, AllocError>
    requires { pages ≤ 0o400 }
    ensures size { IfOk result (λ sizes. vec_len sizes ≡ pages) }
    ensures sizes { IfOk result (λ sizes. (page : ℕ) → page < pages
        → size_in sizes.items page ≡ upper_size program.now page) }
{
    let mut sizes = Vec::with_capacity(alloc, pages)?;
    for page in 0..pages {
        let size = upper_size(alloc, program, page)?;
        sizes.push(size)?;
    }
    Ok(sizes)
}

/// How many cells the pool of a page has, if it is no page zero.
fn upper_size(alloc: Global, program: &Program<'_>, page: usize) -> Result<usize, AllocError>
    requires { page < 0o400 }
    ensures { IfOk result (λ size. size ≡ upper_size program.now page) }
{
    if page % FIELD_PAGES == 0 {
        return Ok(0);
    }
    size_by(alloc, program, &[], page)
}

/// How many the pools of the first pages have, where those of the pages that are no page zero have so many.
fn all_sizes(
    alloc: Global,
    program: &Program<'_>,
    upper: &[usize],
    pages: usize,
) -> Result<Vec<usize>, AllocError>
    requires pages { pages ≤ 0o400 }
    requires upper { length upper.now ≡ pages }
    ensures size { IfOk result (λ sizes. vec_len sizes ≡ pages) }
    ensures sizes { IfOk result (λ sizes. (page : ℕ) → page < pages
        → size_in sizes.items page ≡ (if is_page_zero page then size_by program.now (size_in upper.now) page else size_in upper.now page)) }
{
    let mut sizes = Vec::with_capacity(alloc, pages)?;
    for page in 0..pages {
        let size = size_of(alloc, program, upper, page)?;
        sizes.push(size)?;
    }
    Ok(sizes)
}

/// How many the pool of a page has.
fn size_of(
    alloc: Global,
    program: &Program<'_>,
    upper: &[usize],
    page: usize,
) -> Result<usize, AllocError>
    requires page { page < 0o400 }
    requires upper { page < length upper.now }
    ensures { IfOk result (λ size. size
        ≡ (if is_page_zero page then size_by program.now (size_in upper.now) page else size_in upper.now page)) }
{
    if page % FIELD_PAGES == 0 {
        return size_by(alloc, program, upper, page);
    }
    Ok(upper[page])
}

/// How many cells the pool of a page has, where those of other pages have so many.
fn size_by(
    alloc: Global,
    program: &Program<'_>,
    sizes: &[usize],
    page: usize,
) -> Result<usize, AllocError>
    requires { page < 0o400 }
    ensures { IfOk result (λ size. size ≡ size_by program.now (size_in sizes.now) page) }
{
    let asks = asks_of(alloc, program, sizes, page)?;
    Ok(greatest_size(program, &asks, page, PAGE as usize))
}

/// The greatest number of cells, up to this one, that a page's pool can have.
fn greatest_size(program: &Program<'_>, asks: &Asks, page: usize, most: usize) -> usize
    requires page { page < 0o400 }
    requires most { most ≤ PAGE }
    ensures { result ≡ greatest (λ n. can_all_be program.now (asks_in asks.now) page n n) most }
{
    let mut size = 0;
    for k in 0..most {
        if can_all_be(program, asks, page, k + 1) {
            size = k + 1;
        }
    }
    size
}

/// Whether the last n cells of a page can be a pool of n cells.
fn can_all_be(program: &Program<'_>, asks: &Asks, page: usize, n: usize) -> bool
    requires page { page < 0o400 }
    requires n { n ≤ PAGE }
    ensures { result ≡ can_all_be program.now (asks_in asks.now) page n n }
{
    let mut can = true;
    for k in 0..n {
        can = can && can_be(program, asks, page, n, k);
    }
    can
}
