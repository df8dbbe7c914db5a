ghost use Rattle.std.specs.Prelude.{◌≡◌, ◌+◌, ◌*◌, ◌/◌, ◌%◌, ◌<◌, ◌≤◌, ◌++◌, ◌∷◌, ℕ, [], List, IfOk, None, false, length, replicate};
ghost use Rattle.word12.specs.declared.sizes.TheConstants.{CORE, FIELD};
ghost use Rattle.pal8_pools.specs.Asks.{Ask, count};
ghost use Rattle.pal8_pools.specs.Pooled.{Holds, is_cell_of};
ghost use Rattle.pal8_pools.specs.Clashes.{AreMarks, OthersStay, cell_if, lower, lowest_clash, with_word};
ghost use Rattle.pal8_pools.specs.ClashSteps.{IsLowestIn, is_clash};

use crate::Pools;
use crate::laws::pool_is_page_end;
use std::alloc::{AllocError, Global};
use std::marker::Model;
use word12::{CORE, Cell};

/// The cells that have words.
#[derive(Drop)]
pub struct WordCells {
    marks: Vec<bool>,
}

impl Model for WordCells {
    ghost use Rattle.std.specs.Prelude.{◌≡◌, List, Bool, length};
    ghost use Rattle.word12.specs.declared.sizes.TheConstants.{CORE};

    ghost Value = { List Bool };

    ghost view = { λ w. w.marks.items };

    ghost invariant = { λ w. length w.marks.items ≡ CORE };
}

/// The page of a cell in its field.
fn page_of(cell: Cell) -> u8
    ensures value { result ≡ cell % FIELD / 0o200 }
    ensures range { result < 0o40 }
{
    (cell.address().get() / 0o200) as u8
}

fn no_marks(alloc: Global, count: usize) -> Result<Vec<bool>, AllocError>
    ensures { IfOk result (λ marks. marks.items ≡ replicate count false) }
{
    let marks = vec![in alloc; false; count]?;
    Ok(marks)
}

/// Whether a cell is a word's and a pool's.
fn is_clash(marks: &[bool], pools: &Pools, cell: usize) -> bool
    requires cell { cell < CORE }
    requires marks { length marks.now ≡ CORE }
    ensures { (words : List (ℕ × ℕ)) (asks punched : List Ask) → AreMarks marks.now words → Holds pools.now asks punched
        → result ≡ is_clash words asks cell }
{
    marks[cell] && pools.is_taken(Cell::of(cell as u32))
}

/// The lowest of these cells that is a word's and a pool's.
fn lowest_among(marks: &[bool], pools: &Pools, first: usize, end: usize) -> Option<Cell>
    requires end { end ≤ CORE }
    requires marks { length marks.now ≡ CORE }
    ensures { (words : List (ℕ × ℕ)) (asks punched : List Ask) → AreMarks marks.now words → Holds pools.now asks punched
        → IsLowestIn words asks first end result }
{
    let mut at = first;
    while at < end {
        if is_clash(marks, pools, at) {
            return Some(Cell::of(at as u32));
        }
        at += 1;
    }
    None
}

/// The lower of two cells, if there is one.
fn lower(one: Option<Cell>, other: Option<Cell>) -> Option<Cell>
    ensures { result ≡ lower one other }
{
    match one {
        None => other,
        Some(first) => match other {
            None => Some(first),
            Some(second) => {
                if second.index() < first.index() {
                    Some(second)
                } else {
                    Some(first)
                }
            }
        },
    }
}

/// A cell, if it is a pool's.
fn if_taken(pools: &Pools, cell: Cell) -> Option<Cell>
    ensures { (asks punched : List Ask) → Holds pools.now asks punched → result ≡ cell_if (is_cell_of asks asks cell) cell }
{
    if pools.is_taken(cell) {
        Some(cell)
    } else {
        None
    }
}

impl WordCells {
    /// No cell has a word. It takes 32 KiB.
    pub fn new(alloc: Global) -> Result<WordCells, AllocError>
        ensures { IfOk result (λ w. AreMarks w []) }
    {
        let marks = no_marks(alloc, CORE)?;
        Ok(WordCells { marks })
    }

    /// The lowest cell of a page that is a word's and a pool's, where none was before, and so many values were asked of the page.
    fn lowest_on(&self, pools: &Pools, field: u8, page: u8, asked: usize) -> Option<Cell>
        requires field { field < 8 }
        requires page { page < 0o40 }
        ensures { (words : List (ℕ × ℕ)) (before after punched : List Ask) → AreMarks self.now words
            → Holds pools.now after punched
            → ((c : ℕ) → is_clash words before c ≡ false) → asked ≡ count before field page
            → IsLowestIn words after (FIELD * field + 0o200 * page) (FIELD * field + 0o200 * page + 0o200) result }
    {
        pool_is_page_end();
        if pools.count(field, page) == asked {
            return None;
        }
        let first = 0o10000 * usize::from(field) + 0o200 * usize::from(page);
        lowest_among(&self.marks, pools, first, first + 0o200)
    }

    /// The lowest cell that is a word's and a pool's, after a word of this cell has asked, where none was before.
    fn lowest_near(&self, pools: &Pools, cell: Cell, own: usize, zero: usize) -> Option<Cell>
        ensures { (words : List (ℕ × ℕ)) (before after punched : List Ask) → AreMarks self.now words → Holds pools.now after punched
            → OthersStay (cell / FIELD) (cell % FIELD / 0o200) before after → lowest_clash before words ≡ None
            → own ≡ count before (cell / FIELD) (cell % FIELD / 0o200) → zero ≡ count before (cell / FIELD) 0
            → result ≡ lowest_clash after words }
    {
        pool_is_page_end();
        let field = cell.field();
        let page = page_of(cell);
        let on_zero = self.lowest_on(pools, field, 0, zero);
        let on_own = self.lowest_on(pools, field, page, own);
        lower(on_zero, on_own)
    }

    /// Puts a word at a cell, if it is punched. Its literals and links have asked the pools already. Before that, so many values were asked of its
    /// page, and so many of page zero of its field. It answers the lowest cell that is a punched word's and a pool's, where none was before. It takes
    /// no memory.
    pub fn put(
        &mut self,
        pools: &Pools,
        cell: Cell,
        is_punched: bool,
        own: usize,
        zero: usize,
    ) -> Option<Cell>
        ensures marks { (words : List (ℕ × ℕ)) (word : ℕ) → AreMarks self.old words
            → AreMarks self.new (with_word is_punched cell word words) }
        ensures clash { (words : List (ℕ × ℕ)) (word : ℕ) (before after punched : List Ask) → AreMarks self.old words
            → Holds pools.now after punched → OthersStay (cell / FIELD) (cell % FIELD / 0o200) before after → lowest_clash before words ≡ None
            → own ≡ count before (cell / FIELD) (cell % FIELD / 0o200) → zero ≡ count before (cell / FIELD) 0
            → result ≡ lowest_clash after (with_word is_punched cell word words) }
    {
        let near = self.lowest_near(pools, cell, own, zero);
        if !is_punched {
            return near;
        }
        let at = if_taken(pools, cell);
        self.marks[cell.index()] = true;
        lower(near, at)
    }
}
