//! The cells that were fetched, the most often fetched first.

ghost use Rattle.std.specs.Prelude.{◌≡◌, ◌++◌, IfOk, OnOk, length};
ghost use Rattle.word12.specs.declared.sizes.TheConstants.{CORE};
ghost use Rattle.profile8.specs.Profile.{AreFetched, count_of};
ghost use Rattle.profile8.specs.CellSteps.{AreSorted, cells_below, if_fetched};

use std::alloc::{AllocError, Global};
use word12::{CORE, Cell};

/// The cells that were fetched: those of more fetches first, of as many the lower first.
pub(crate) fn fetched_cells(alloc: Global, counts: &[u64]) -> Result<Vec<Cell>, AllocError>
    requires { length counts.now ≡ CORE }
    ensures { IfOk result (λ cells. AreFetched counts.now cells.items) }
{
    let mut cells = rising_cells(alloc, counts)?;
    sort(&mut cells, counts)?;
    Ok(cells)
}

/// The cells that were fetched, the lowest first.
fn rising_cells(alloc: Global, counts: &[u64]) -> Result<Vec<Cell>, AllocError>
    ensures { IfOk result (λ cells. cells.items ≡ cells_below counts.now CORE) }
{
    let mut cells = Vec::new(alloc);
    for number in 0..CORE as u32 {
        put_fetched(&mut cells, counts, Cell::of(number))?;
    }
    Ok(cells)
}

/// Appends a cell, if it was fetched.
fn put_fetched(cells: &mut Vec<Cell>, counts: &[u64], cell: Cell) -> Result<(), AllocError>
    ensures { OnOk result (cells.new.items ≡ cells.old.items ++ if_fetched counts.now cell) }
{
    if count_of(counts, cell) > 0 {
        cells.push(cell)?;
    }
    Ok(())
}

/// Puts cells of more fetches before others, and those of as many in the order that they have.
fn sort(cells: &mut Vec<Cell>, counts: &[u64]) -> Result<(), AllocError>
    ensures { OnOk result (AreSorted counts.now cells.old.items cells.new.items) }
{
    cells.sort_by_key(|cell| u64::MAX - count_of(counts, *cell))?;
    Ok(())
}

/// How often a cell was fetched.
pub(crate) fn count_of(counts: &[u64], cell: Cell) -> u64
    ensures { result ≡ count_of counts.now cell }
{
    match counts.get(cell.index()) {
        Some(count) => *count,
        None => 0,
    }
}
