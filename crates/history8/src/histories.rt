ghost use Rattle.std.specs.Prelude.{◌≡◌, ◌+◌, ◌-◌, ◌^◌, ◌<◌, ◌≤◌, ◌∷◌, [], true, length, option_map, slice_index, vec_capacity, IfOk, OnOk, OnErr};
ghost use Rattle.word12.specs.declared.sizes.TheConstants.{CORE};
ghost use Rattle.core_load.specs.Core.{zeros};
ghost use Rattle.cpu8.specs.State.{State, new_machine};
ghost use Rattle.cpu8.specs.Go.{printing_step};
ghost use Rattle.history8.specs.Changes.{Key, Deposit, Switches, Start, Step};
ghost use Rattle.history8.specs.History as past;
ghost use Rattle.history8.specs.History.{new_history, machine_of, characters_of, characters_after, state_after, with_change, without, up_to_step};
ghost use Rattle.history8.specs.Stops.{LeastBack, at_break};
ghost use Rattle.history8.specs.Checkpoints.{AreCheckpoints, first_state};
ghost use Rattle.history8.specs.CheckpointSteps.{AreWithin};
ghost use Rattle.history8.specs.Entries.{AreSome, IsPlace, changes_of, is_no_step, oldest, with_entry};

use crate::checkpoints::{self, Checkpoint, MOST, SPACING, forget_later};
use crate::entries::{Entry, make_change, make_step};
use crate::journals::Journal;
use crate::lists::{changes_to_step, end_of, steps_in};
use crate::replays::{Replay, STRETCH, make_again};
use crate::searches;
use crate::stops::Stop;
use crate::watches::{Breaks, Each, Watch};
use core_load::Core;
use cpu8::{Machine, Stepped};
use std::alloc::{AllocError, Global};
use std::marker::Model;
use word12::{Cell, Word};

mod runs;

/// A machine with its history. A contract sees the machine that it began with, and the changes since, the newest first.
#[derive(Drop)]
pub struct History {
    alloc: Global,
    machine: Machine,
    journal: Journal,
    checkpoints: Vec<Checkpoint>,
    /// After so many changes a checkpoint is due.
    due: usize,
    /// Room for what steps print that are made again.
    spare: Vec<u8>,
    /// Makes changes again in search of a place.
    second: Machine,
}

impl Model for History {
    ghost use Rattle.std.specs.Prelude.{◌≤◌, vec_len, vec_capacity};
    ghost use Rattle.history8.specs.History as spec;
    ghost use Rattle.history8.specs.Entries.{changes_of};
    ghost use Rattle.history8.specs.Checkpoints.{first_state};
    ghost use Rattle.history8.specs.Keeping.{Keeps};
    ghost use Rattle.history8.specs.declared.checkpoints.TheConstants.{MOST};
    ghost use Rattle.history8.specs.declared.replays.TheConstants.{STRETCH};

    ghost Value = { spec.History };

    ghost view = { λ h. record {
      first = first_state h.checkpoints.items;
      changes = changes_of h.journal.entries.items;
    } };

    ghost invariant = { λ h. Keeps h.journal.entries.items h.checkpoints.items h.machine h.journal.count h.journal.characters.items
        × (vec_len h.checkpoints ≤ MOST) × (MOST ≤ vec_capacity h.checkpoints) × (STRETCH ≤ vec_capacity h.spare) };
}

impl History {
    /// A history of no change, of a machine with no words that stands stopped.
    pub fn new(alloc: Global) -> Result<History, AllocError>
        ensures { IfOk result (λ h. h ≡ new_history (new_machine (zeros CORE))) }
    {
        let machine = Machine::new(new_core(alloc)?);
        let second = Machine::new(new_core(alloc)?);
        let mut checkpoints = Vec::with_capacity(alloc, MOST)?;
        let spare = Vec::with_capacity(alloc, STRETCH)?;
        let core = new_core(alloc)?;
        checkpoints.push_reserved(checkpoints::first_of(core, &machine));
        Ok(History {
            alloc,
            machine,
            journal: Journal::new(alloc),
            checkpoints,
            due: SPACING,
            spare,
            second,
        })
    }

    /// Forgets all changes, and goes on with this machine. It takes no memory.
    pub fn begin(&mut self, machine: Machine)
        ensures { self.new ≡ new_history machine }
    {
        checkpoints::keep_first(&mut self.checkpoints, &machine);
        self.journal = Journal::new(self.alloc);
        self.due = SPACING;
        self.machine = machine;
    }

    /// The machine as it is now.
    #[inline]
    pub fn machine(&self) -> &Machine
        ensures { result.now ≡ machine_of self.now }
    {
        &self.machine
    }

    /// Ends the history, and gives the machine away as it is now.
    pub fn into_machine(self) -> Machine
        ensures { result ≡ machine_of self }
    {
        self.machine
    }

    /// The characters, of eight bits, that the changes printed.
    #[inline]
    pub fn printed_characters(&self) -> &[u8]
        ensures { result.now ≡ characters_of self.now }
    {
        &self.journal.characters
    }

    /// How many changes were made.
    #[inline]
    pub fn change_count(&self) -> usize
        ensures { result ≡ length self.now.changes }
    {
        self.journal.count
    }

    /// How many of them are steps.
    pub fn step_count(&self) -> usize
        ensures { result ≡ past.step_count self.now.changes }
    {
        steps_in(&self.journal.entries, self.journal.count)
    }

    /// A step. Before it a quick printer ends its character (this project's profile). Nothing is changed where memory is refused.
    pub fn step(&mut self, quick: bool) -> Result<Stepped, AllocError>
        requires room { length self.old.changes + 1 < 2 ^ 64 }
        ensures ok { OnOk result (self.new ≡ with_change (Step quick) self.old) }
        ensures answer { IfOk result (λ did. did ≡ (printing_step quick (machine_of self.old)).1) }
        ensures err { OnErr result (self.new ≡ self.old) }
    {
        self.journal.reserve(1)?;
        let did = make_step(&mut self.machine, quick);
        let again = did;
        self.journal.note_step(quick, did);
        self.keep_checkpoint();
        Ok(again)
    }

    /// A key of this eight-bit character is struck. Nothing is changed where memory is refused.
    pub fn key(&mut self, character: u8) -> Result<(), AllocError>
        requires room { length self.old.changes + 1 < 2 ^ 64 }
        ensures ok { OnOk result (self.new ≡ with_change (Key character) self.old) }
        ensures err { OnErr result (self.new ≡ self.old) }
    {
        self.change(Entry::Key(character))
    }

    /// A cell is given a word, as by DEP at the console. Nothing is changed where memory is refused.
    pub fn deposit(&mut self, cell: Cell, word: Word) -> Result<(), AllocError>
        requires room { length self.old.changes + 1 < 2 ^ 64 }
        ensures ok { OnOk result (self.new ≡ with_change (Deposit cell word) self.old) }
        ensures err { OnErr result (self.new ≡ self.old) }
    {
        self.change(Entry::Deposit { cell, word })
    }

    /// The switches are set. Nothing is changed where memory is refused.
    pub fn switches(&mut self, word: Word) -> Result<(), AllocError>
        requires room { length self.old.changes + 1 < 2 ^ 64 }
        ensures ok { OnOk result (self.new ≡ with_change (Switches word) self.old) }
        ensures err { OnErr result (self.new ≡ self.old) }
    {
        self.change(Entry::Switches(word))
    }

    /// The machine is started at a cell. Nothing is changed where memory is refused.
    pub fn start(&mut self, cell: Cell) -> Result<(), AllocError>
        requires room { length self.old.changes + 1 < 2 ^ 64 }
        ensures ok { OnOk result (self.new ≡ with_change (Start cell) self.old) }
        ensures err { OnErr result (self.new ≡ self.old) }
    {
        self.change(Entry::Start(cell))
    }

    /// Goes back so many changes, or to the first machine where there are fewer. It takes no memory.
    pub fn back(&mut self, count: usize)
        ensures { self.new ≡ without count self.old }
    {
        let target = self.journal.count.saturating_sub(count);
        if target == self.journal.count {
            return;
        }
        let _left = forget_later(&mut self.checkpoints, target);
        let replay = remake_machine(
            &mut self.machine,
            &self.checkpoints,
            &self.journal.entries,
            target,
            &mut self.spare,
        );
        self.journal.cut(replay.place, replay.characters);
        self.due = due_after(&self.checkpoints);
    }

    /// Goes back to where so many steps were made and the next one is due. What was done between the two stays. Where fewer steps
    /// were made nothing changes.
    pub fn back_to_step(&mut self, steps: usize)
        ensures { self.new ≡ up_to_step steps self.old }
    {
        let left = self.changes_to_step(steps);
        self.back(self.change_count().saturating_sub(left));
    }

    /// How many changes there are up to where so many steps were made and the next one is due.
    fn changes_to_step(&self, steps: usize) -> usize
        ensures { result ≡ length (past.changes_to_step steps self.now.changes) }
    {
        changes_to_step(&self.journal.entries, self.journal.count, steps)
    }

    /// How many changes there are to go back, one at least, to the last step before the present of which a condition holds: none
    /// where it holds of no step. The history stays as it is.
    pub fn last_where<S: Stop>(&mut self, stop: &S) -> Option<usize>
        ensures history { self.new ≡ self.old }
        ensures last { LeastBack (S.condition stop.now) self.old result }
    {
        self.last(&Each { stop })
    }

    /// The same of the last step that came to a break. It takes the time of a go.
    pub fn last_break(&mut self, breaks: &[bool]) -> Option<usize>
        ensures history { self.new ≡ self.old }
        ensures last { LeastBack (at_break breaks.now) self.old result }
    {
        self.last(&Breaks { flags: breaks })
    }
}

impl History {
    /// Makes a change that is no step. Nothing is changed where memory is refused.
    fn change(&mut self, entry: Entry) -> Result<(), AllocError>
        requires no_step { is_no_step entry ≡ true }
        requires room { length self.old.changes + 1 < 2 ^ 64 }
        ensures ok { OnOk result (self.new ≡ record self.old { changes = with_entry entry self.old.changes }) }
        ensures err { OnErr result (self.new ≡ self.old) }
    {
        self.journal.reserve(0)?;
        let again = entry;
        make_change(&mut self.machine, entry);
        self.journal.note_change(again);
        self.keep_checkpoint();
        Ok(())
    }

    /// How many changes there are to go back to the last step of which a condition holds.
    fn last<W: Watch>(&mut self, watch: &W) -> Option<usize>
        ensures history { self.new ≡ self.old }
        ensures last { LeastBack (W.condition watch.now) self.old result }
    {
        let found = searches::last_place(
            &mut self.second,
            &self.checkpoints,
            &self.journal.entries,
            self.journal.count,
            watch,
            &mut self.spare,
        );
        changes_since(self.journal.count, found)
    }

    /// Keeps a checkpoint where one is due.
    fn keep_checkpoint(&mut self)
        ensures { self.new ≡ self.old }
    {
        if self.journal.count < self.due {
            return;
        }
        checkpoints::keep_checkpoint(
            self.alloc,
            &mut self.checkpoints,
            &self.machine,
            end_of(&self.journal.entries, self.journal.count),
            self.journal.characters.len(),
        );
        self.due = self.journal.count.saturating_add(SPACING);
    }
}

/// A machine becomes again what it was after so many changes, by the newest checkpoint, which is not after them.
fn remake_machine(
    machine: &mut Machine,
    checkpoints: &[Checkpoint],
    entries: &[Entry],
    target: usize,
    spare: &mut Vec<u8>,
) -> Replay
    requires checkpoints { AreCheckpoints entries.now (first_state checkpoints.now) checkpoints.now }
    requires some { AreSome entries.now }
    requires target { target ≤ length (changes_of entries.now) }
    requires within { AreWithin target checkpoints.now }
    requires room { STRETCH ≤ vec_capacity spare.old }
    ensures place { IsPlace entries.now result.place.count result.place.entry result.place.steps }
    ensures count { result.place.count ≡ target }
    ensures machine { machine.new ≡ state_after (oldest target (changes_of entries.now)) (first_state checkpoints.now) }
    ensures characters { result.characters ≡ length (characters_after (oldest target (changes_of entries.now)) (first_state checkpoints.now)) }
    ensures room { vec_capacity spare.new ≡ vec_capacity spare.old }
{
    let newest = &checkpoints[checkpoints.len() - 1];
    newest.restore(machine);
    let replay = make_again(machine, entries, newest.place, target, spare);
    Replay {
        place: replay.place,
        characters: newest.characters + replay.characters,
    }
}

/// Core with no words.
fn new_core(alloc: Global) -> Result<Core, AllocError>
    ensures { IfOk result (λ core. core ≡ zeros CORE) }
{
    match Core::new(alloc) {
        Ok(core) => Ok(core),
        Err(_) => Err(AllocError),
    }
}

/// After how many changes the next checkpoint is due.
fn due_after(checkpoints: &[Checkpoint]) -> usize {
    match checkpoints.last() {
        Some(newest) => newest.place.count.saturating_add(SPACING),
        None => SPACING,
    }
}

/// How many changes were made since there were so many, if there were.
fn changes_since(count: usize, place: Option<usize>) -> Option<usize>
    ensures { result ≡ option_map (λ p. count - p) place }
{
    match place {
        Some(place) => Some(count.saturating_sub(place)),
        None => None,
    }
}
