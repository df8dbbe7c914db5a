//! The cells of a tape that were never fetched.

ghost use Rattle.std.specs.Prelude.{◌≡◌, ◌<◌, ◌++◌, OnOk, length};
ghost use Rattle.word12.specs.declared.sizes.TheConstants.{CORE};
ghost use Rattle.profile8.specs.Profile.{begins, ends, is_flagged, is_never, never_lines, never_text};
ghost use Rattle.profile8.specs.TextSteps.{bound_text, end_text};

use crate::texts::put_cell;
use std::alloc::AllocError;
use word12::{CORE, Cell, FIELD};

/// Puts the lines of the runs of cells that the tape gives a word and that were never fetched.
pub(crate) fn put_unfetched(
    text: &mut Vec<u8>,
    counts: &[u64],
    given: &[bool],
) -> Result<(), AllocError>
    requires counts { length counts.now ≡ CORE }
    requires given { length given.now ≡ CORE }
    ensures { OnOk result (text.new.items
        ≡ text.old.items ++ never_lines (is_never counts.now (is_flagged given.now)) CORE) }
{
    for cell in 0..CORE {
        put_bounds(text, counts, given, cell)?;
    }
    Ok(())
}

/// Puts a cell where a run begins or ends with it.
fn put_bounds(
    text: &mut Vec<u8>,
    counts: &[u64],
    given: &[bool],
    cell: usize,
) -> Result<(), AllocError>
    requires counts { length counts.now ≡ CORE }
    requires given { length given.now ≡ CORE }
    requires cell { cell < CORE }
    ensures { OnOk result (text.new.items
        ≡ text.old.items ++ never_text (is_never counts.now (is_flagged given.now)) cell) }
{
    let is_last = ends(counts, given, cell);
    put_bound(
        text,
        begins(counts, given, cell),
        is_last,
        Cell::of(cell as u32),
    )?;
    put_end(text, is_last)?;
    Ok(())
}

/// Puts a cell that a run begins or ends with.
fn put_bound(
    text: &mut Vec<u8>,
    is_first: bool,
    is_last: bool,
    cell: Cell,
) -> Result<(), AllocError>
    ensures { OnOk result (text.new.items ≡ text.old.items ++ bound_text is_first is_last cell) }
{
    if is_first {
        text.extend_from_slice(b"NEVER ")?;
        put_cell(text, cell)?;
        return Ok(());
    }
    if is_last {
        text.extend_from_slice(b" TO ")?;
        put_cell(text, cell)?;
        return Ok(());
    }
    Ok(())
}

/// Ends the line of a run after its last cell.
fn put_end(text: &mut Vec<u8>, is_last: bool) -> Result<(), AllocError>
    ensures { OnOk result (text.new.items ≡ text.old.items ++ end_text is_last) }
{
    if is_last {
        text.push(b'\n')?;
    }
    Ok(())
}

/// Whether a run begins with a cell.
fn begins(counts: &[u64], given: &[bool], cell: usize) -> bool
    requires counts { length counts.now ≡ CORE }
    requires given { length given.now ≡ CORE }
    requires cell { cell < CORE }
    ensures { result ≡ begins (is_never counts.now (is_flagged given.now)) cell }
{
    is_never(counts, given, cell) && (cell % FIELD == 0 || !is_never(counts, given, cell - 1))
}

/// Whether a run ends with a cell.
fn ends(counts: &[u64], given: &[bool], cell: usize) -> bool
    requires counts { length counts.now ≡ CORE }
    requires given { length given.now ≡ CORE }
    requires cell { cell < CORE }
    ensures { result ≡ ends (is_never counts.now (is_flagged given.now)) cell }
{
    is_never(counts, given, cell)
        && (cell % FIELD == FIELD - 1 || !is_never(counts, given, cell + 1))
}

/// Whether the tape gives a cell a word that was never fetched.
fn is_never(counts: &[u64], given: &[bool], cell: usize) -> bool
    requires counts { length counts.now ≡ CORE }
    requires given { length given.now ≡ CORE }
    requires cell { cell < CORE }
    ensures { result ≡ is_never counts.now (is_flagged given.now) cell }
{
    given[cell] && counts[cell] == 0
}
