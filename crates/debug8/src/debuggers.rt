ghost use Rattle.std.specs.Prelude.{◌≡◌, ◌+◌, ◌<◌, ◌≤◌, ◌++◌, [], IfOk, IsOkUnless, slice_index, vec_len, vec_capacity, false};
ghost use Rattle.word12.specs.declared.sizes.TheConstants.{CORE};
ghost use Rattle.cpu8.specs.State.{after_deposit};
ghost use Rattle.cpu8.specs.Go.{IsGo, after, characters_of};
ghost use Rattle.debug8.specs.Breaks.{SetsBreak, break_cleared, no_breaks};
ghost use Rattle.debug8.specs.declared.faults.DebugFault.TheVariants.{Memory};

use crate::DebugFault;
use cpu8::laws::unset_breaks;
use cpu8::{Gone, Machine};
use std::alloc::{AllocError, Global};
use std::marker::Model;
use word12::{CORE, Cell, Word};

/// Breaks at cells of core, at most 64 of them (this project's profile).
#[derive(Drop)]
pub struct Debugger {
    breaks: Vec<bool>,
    count: usize,
}

impl Model for Debugger {
    ghost use Rattle.std.specs.Prelude.{◌≡◌, ◌≤◌, List, Bool, length};
    ghost use Rattle.word12.specs.declared.sizes.TheConstants.{CORE};
    ghost use Rattle.debug8.specs.Breaks.{count_breaks};

    ghost Value = { List Bool };

    ghost view = { λ d. d.breaks.items };

    ghost invariant = { λ d. (length d.breaks.items ≡ CORE)
        × (d.count ≡ count_breaks d.breaks.items) × (d.count ≤ 64) };
}

const MOST_BREAKS: usize = 64;

impl Debugger {
    /// A debugger with no break. It takes all its memory here, a flag for each of the 0o100000 cells.
    pub fn new(alloc: Global) -> Result<Debugger, DebugFault>
        ensures breaks { IfOk result (λ d. d ≡ no_breaks CORE) }
        ensures memory { IsOkUnless result Memory }
    {
        let breaks = no_breaks_in(alloc, CORE)?;
        Ok(Debugger { breaks, count: 0 })
    }

    /// Sets a break at a cell. A cell that has one keeps it. A cell that has none is refused one where there are 64
    /// already (this project's profile). It takes no memory.
    pub fn set_break(&mut self, cell: Cell) -> Result<(), DebugFault>
        ensures { SetsBreak self.old cell self.new result }
    {
        if self.breaks[cell.index()] {
            return Ok(());
        }
        if self.count == MOST_BREAKS {
            return Err(DebugFault::TooManyBreaks);
        }
        self.breaks[cell.index()] = true;
        self.count += 1;
        Ok(())
    }

    /// Takes the break of a cell away, if it has one. The others stay. It takes no memory.
    pub fn clear_break(&mut self, cell: Cell)
        ensures { self.new ≡ break_cleared self.old cell }
    {
        if self.breaks[cell.index()] {
            self.breaks[cell.index()] = false;
            self.count -= 1;
        }
    }

    /// Lets a machine make steps, each an instruction or an interrupt (Small Computer Handbook), up to a HLT, an
    /// unassigned word or a break. It makes at most n of them, and none where it stands stopped. A break isn't tested
    /// before the first step. With `quick` the printer ends its character before each step that finds it busy (this
    /// project's profile). What is printed is appended, for which the caller made room: a go takes no memory.
    pub fn go(&self, machine: &mut Machine, n: usize, quick: bool, printed: &mut Vec<u8>) -> Gone
        requires room { vec_len printed.old + n ≤ vec_capacity printed.old }
        ensures steps { IsGo quick self.now machine.old n result.steps result.why }
        ensures state { machine.new ≡ after quick result.steps machine.old }
        ensures printed { printed.new.items ≡ printed.old.items ++ characters_of quick result.steps machine.old }
        ensures capacity { vec_capacity printed.new ≡ vec_capacity printed.old }
    {
        if self.count == 0 {
            unset_breaks();
            return machine.run(n, quick, &[], printed);
        }
        machine.run(n, quick, &self.breaks, printed)
    }

    /// A go that minds no breaks, and leaves the printer alone.
    pub fn step(machine: &mut Machine, n: usize, printed: &mut Vec<u8>) -> Gone
        requires room { vec_len printed.old + n ≤ vec_capacity printed.old }
        ensures steps { IsGo false [] machine.old n result.steps result.why }
        ensures state { machine.new ≡ after false result.steps machine.old }
        ensures printed { printed.new.items ≡ printed.old.items ++ characters_of false result.steps machine.old }
        ensures capacity { vec_capacity printed.new ≡ vec_capacity printed.old }
    {
        machine.run(n, false, &[], printed)
    }

    /// The word of a cell of a machine, as EXAM at the console shows it (Small Computer Handbook).
    pub fn examine(machine: &Machine, cell: Cell) -> Word
        ensures word { result ≡ slice_index machine.now.core cell }
        ensures range { result < 0o10000 }
    {
        machine.core().get(cell)
    }

    /// Gives a cell of a machine a word, as DEP at the console does (Small Computer Handbook). Its other cells, its
    /// registers and its flags stay.
    pub fn deposit(machine: &mut Machine, cell: Cell, word: Word)
        ensures { machine.new ≡ after_deposit machine.old cell word }
    {
        machine.core_mut().set(cell, word);
    }
}

#[tactic(auto, unfolding(crate::specs::Breaks::no_breaks))]
fn no_breaks_in(alloc: Global, cells: usize) -> Result<Vec<bool>, AllocError>
    ensures { IfOk result (λ breaks. breaks.items ≡ no_breaks cells) }
{
    let breaks = vec![in alloc; false; cells]?;
    Ok(breaks)
}
