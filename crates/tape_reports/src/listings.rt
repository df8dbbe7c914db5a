//! The lines of the cells to which a tape gives a word.
ghost use Rattle.std.specs.Prelude.{◌≡◌, ℕ, ◌++◌, List, Option, IfOk, OnOk, MatchResult};
ghost use Rattle.bin_tape.specs.Map.{IsMapOf};
ghost use Rattle.word12.specs.declared.sizes.TheConstants.{CORE};
ghost use Rattle.tape_reports.specs.Listing.{cell_line, line_of, lines_below};
ghost use Rattle.tape_reports.specs.Lists.{IsListed, IsListingFault};

use bin_tape::TapeMap;
use refusals::SessionFault;
use std::alloc::{AllocError, Global};
use word12::{CORE, Cell, Word};

/// The lines of the cells to which the frames of a BIN tape give a word, `F AAAA WWWW` each (this project's profile). They stand by rising field
/// and address, with the last word that it gives the cell.
pub fn tape_lines(alloc: Global, frames: &[u8]) -> Result<Vec<u8>, SessionFault>
    ensures { MatchResult result (λ text. IsListed frames.now text.items)
        (λ fault. IsListingFault frames.now fault) }
{
    let map = TapeMap::read(alloc, frames)?;
    let text = listing(alloc, &map)?;
    Ok(text)
}

/// The lines of the cells that have a word, by rising cell.
pub(crate) fn listing(alloc: Global, map: &TapeMap) -> Result<Vec<u8>, AllocError>
    ensures { IfOk result (λ text. (frames : List ℕ) → (of : IsMapOf frames map.now)
        → text.items ≡ lines_below of.items CORE) }
{
    let mut text = Vec::new(alloc);
    for number in 0..CORE as u32 {
        let cell = Cell::of(number);
        put_cell(&mut text, cell, map.get(cell))?;
    }
    Ok(text)
}

/// Appends the line of a cell, if it has a word.
fn put_cell(text: &mut Vec<u8>, cell: Cell, word: Option<Word>) -> Result<(), AllocError>
    ensures { OnOk result (text.new.items ≡ text.old.items ++ line_of word cell) }
{
    match word {
        Some(word) => put_line(text, cell, word),
        None => Ok(()),
    }
}

/// Appends the line of a cell with its word.
fn put_line(text: &mut Vec<u8>, cell: Cell, word: Word) -> Result<(), AllocError>
    ensures { OnOk result (text.new.items ≡ text.old.items ++ cell_line cell word) }
{
    let [a, b, c, d] = cell.address().octal4();
    let [e, f, g, h] = word.octal4();
    let line = [
        b'0' + cell.field(),
        b' ',
        a,
        b,
        c,
        d,
        b' ',
        e,
        f,
        g,
        h,
        b'\n',
    ];
    text.extend_from_slice(&line)?;
    Ok(())
}
