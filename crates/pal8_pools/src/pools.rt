ghost use Rattle.std.specs.Prelude.{◌≡◌, ◌+◌, ◌-◌, ◌*◌, ◌<◌, ◌≤◌, ◌↔◌, ℕ, [], List, IfOk, length, replicate, true, false};
ghost use Rattle.pal8_pools.specs.Asks.{Ask, count};
ghost use Rattle.pal8_pools.specs.Cells.{ArePairs, IsTaken, pairs_left};
ghost use Rattle.pal8_pools.specs.Pooled.{Answers, Holds, MakesRoom, has_room};
ghost use Rattle.pal8_pools.specs.Steps.{Makes, Puts, with_mark};

use crate::ranks::rank_in;
use crate::{Cells, PoolFault};
use std::alloc::{AllocError, Global};
use std::marker::Model;
use word12::{CORE, Cell, Word};

/// The pages of core.
const PAGES: usize = 0o400;

/// The pools of all pages: the values that are asked of each, and the cells that hold them.
#[derive(Drop)]
pub struct Pools {
    values: Vec<u64>,
    counts: Vec<u8>,
    punched: Vec<bool>,
}

impl Model for Pools {
    ghost use Rattle.pal8_pools.specs.Pooled.{HasSizes, PoolTable, table_code};

    ghost Value = { PoolTable };

    ghost coded = { table_code };

    ghost view = { λ pools. record {
      values = pools.values.items;
      counts = pools.counts.items;
      punched = pools.punched.items;
    } };

    ghost invariant = { λ pools. HasSizes pools.values.items pools.counts.items pools.punched.items };
}

impl Pools {
    /// Pools of which nothing is asked yet. It takes no memory.
    pub fn new(alloc: Global) -> Pools
        ensures { Holds result [] [] }
    {
        Pools {
            values: Vec::new(alloc),
            counts: Vec::new(alloc),
            punched: Vec::new(alloc),
        }
    }

    /// Makes room: so many asks, and all later ones, then take no memory. It takes 289 KiB once, and nothing for no ask.
    pub fn room(&mut self, alloc: Global, asks: usize) -> Result<(), AllocError>
        ensures { MakesRoom asks self.old self.new result }
    {
        if asks == 0 {
            return Ok(());
        }
        self.make(alloc)?;
        Ok(())
    }

    /// Asks a page (0 to 037) of a field (0 to 7) for a cell with this value, and gives the cell's address in its field. Each
    /// ask of that value in that stay gets the same cell. A page has 0200 cells: it answers `Full` where they hold others.
    pub fn ask(
        &mut self,
        alloc: Global,
        field: u8,
        page: u8,
        value: Word,
        stay: u32,
        punched: bool,
    ) -> Result<Word, PoolFault>
        requires field { field < 8 }
        requires page { page < 0o40 }
        ensures { (asks words : List Ask) → Holds self.old asks words
            → Answers (record { field = field; page = page; value = value; stay = stay }) punched asks words
            self.old self.new result }
    {
        self.make(alloc)?;
        self.put(field, page, value, stay, punched)
    }

    /// Whether the cell is that of an ask, whether a punched word's or not.
    pub fn is_taken(&self, cell: Cell) -> bool
        ensures { (asks words : List Ask) → Holds self.now asks words → (result ≡ true) ↔ IsTaken asks cell }
    {
        if self.counts.is_empty() {
            return false;
        }
        let number = cell.index();
        0o177 - number % 0o200 < usize::from(self.counts[number / 0o200])
    }

    /// How many different values, each with its stay, are asked of a page (0 to 037) of a field (0 to 7). It takes no memory.
    pub fn count(&self, field: u8, page: u8) -> usize
        requires field { field < 8 }
        requires page { page < 0o40 }
        ensures { (asks words : List Ask) → Holds self.now asks words → result ≡ count asks field page }
    {
        if self.counts.is_empty() {
            return 0;
        }
        usize::from(self.counts[0o40 * usize::from(field) + usize::from(page)])
    }

    /// The cells that punched words ask for, with their values, by rising cell.
    pub fn cells(&self) -> Cells<'_>
        ensures { (asks words : List Ask) → Holds self.now asks words
            → ArePairs asks words (pairs_left result) }
    {
        Cells {
            values: &self.values,
            counts: &self.counts,
            punched: &self.punched,
            at: 0,
        }
    }

    /// Makes the table, where it isn't made.
    fn make(&mut self, alloc: Global) -> Result<(), AllocError>
        ensures { Makes self.old self.new result }
    {
        if self.counts.is_empty() {
            let values = no_values(alloc, CORE)?;
            let counts = no_counts(alloc, PAGES)?;
            let punched = no_marks(alloc, CORE)?;
            self.values = values;
            self.counts = counts;
            self.punched = punched;
        }
        Ok(())
    }

    /// Asks where there is room.
    fn put(
        &mut self,
        field: u8,
        page: u8,
        value: Word,
        stay: u32,
        punched: bool,
    ) -> Result<Word, PoolFault>
        requires field { field < 8 }
        requires page { page < 0o40 }
        requires room { has_room self.old ≡ true }
        ensures { (asks words : List Ask) → Holds self.old asks words
            → Puts (record { field = field; page = page; value = value; stay = stay }) punched asks words
            self.old self.new result }
    {
        let number = 0o40 * usize::from(field) + usize::from(page);
        match rank_in(
            &mut self.values,
            &mut self.counts,
            number,
            item_of(value, stay),
        ) {
            Some(rank) => {
                mark(&mut self.punched, 0o200 * number + 0o177, rank, punched);
                Ok(Word::low(0o200 * u16::from(page) + 0o177 - rank as u16))
            }
            None => Err(PoolFault::Full),
        }
    }
}

/// A value with its stay.
fn item_of(value: Word, stay: u32) -> u64
    ensures value { result ≡ value + 0o10000 * stay }
    ensures small { value < 0o10000 }
{
    u64::from(value.get()) + 0o10000 * u64::from(stay)
}

/// Marks the cell of this rank on the page with this last cell, if it is asked for by a punched word.
fn mark(marks: &mut [bool], last: usize, rank: usize, is_punched: bool)
    requires rank { rank ≤ last }
    requires last { last < length marks.old }
    ensures { marks.new ≡ with_mark is_punched marks.old (last - rank) }
{
    if is_punched {
        marks[last - rank] = true;
    }
}

fn no_values(alloc: Global, count: usize) -> Result<Vec<u64>, AllocError>
    ensures { IfOk result (λ values. values.items ≡ replicate count 0) }
{
    let values = vec![in alloc; 0; count]?;
    Ok(values)
}

fn no_counts(alloc: Global, count: usize) -> Result<Vec<u8>, AllocError>
    ensures { IfOk result (λ counts. counts.items ≡ replicate count 0) }
{
    let counts = vec![in alloc; 0; count]?;
    Ok(counts)
}

fn no_marks(alloc: Global, count: usize) -> Result<Vec<bool>, AllocError>
    ensures { IfOk result (λ marks. marks.items ≡ replicate count false) }
{
    let marks = vec![in alloc; false; count]?;
    Ok(marks)
}
