//! Copies of a machine, kept on the way of its history.

ghost use Rattle.std.specs.Prelude.{◌≡◌, ◌⊎◌, ℕ, ◌+◌, ◌<◌, ◌≤◌, ◌∷◌, [], length, slice_index, take, IfSome, MatchOption, vec_len, vec_capacity};
ghost use Rattle.history8.specs.CheckpointSteps.{KeepsCheckpoint, LosesOne, counts_of, first_checkpoint};

use crate::replays::Place;
use core_load::Core;
use cpu8::{Machine, Processor};
use std::alloc::Global;
use std::marker::Model;
use word12::{CORE, Cell};

/// A machine as it was at a place of its history.
#[derive(Drop)]
pub(crate) struct Checkpoint {
    pub(crate) place: Place,
    /// How many characters were printed before it.
    pub(crate) characters: usize,
    core: Core,
    registers: Processor,
}

impl Model for Checkpoint {
    ghost use Rattle.cpu8.specs.State.{with_core};
    ghost use Rattle.history8.specs.Checkpoints as spec;

    ghost Value = { spec.Checkpoint };

    ghost view = { λ c. record {
      count = c.place.count;
      entry = c.place.entry;
      steps = c.place.steps;
      characters = c.characters;
      state = with_core c.registers c.core;
    } };
}

/// The most checkpoints that are kept: with 0o100000 words each, 65,536,000 bytes in all.
pub(crate) const MOST: usize = 1000;

/// So many changes are between a checkpoint and the next one.
pub(crate) const SPACING: usize = 0o1000000;

/// The newest checkpoints that stay when an older one has to go.
const NEWEST: usize = 64;

impl Checkpoint {
    /// The machine becomes what it was, with all of its registers, flags and core.
    pub(crate) fn restore(&self, machine: &mut Machine)
        ensures { machine.new ≡ self.now.state }
    {
        copy_words(&self.core, machine.core_mut());
        machine.set_registers(self.registers);
    }
}

/// Keeps a checkpoint of a machine. Where there are as many as may be, or memory is refused, an older one goes. Where none
/// can go, none is kept.
pub(crate) fn keep_checkpoint(
    alloc: Global,
    checkpoints: &mut Vec<Checkpoint>,
    machine: &Machine,
    place: Place,
    characters: usize,
)
    requires most { vec_len checkpoints.old ≤ MOST }
    requires room { MOST ≤ vec_capacity checkpoints.old }
    ensures most { vec_len checkpoints.new ≤ MOST }
    ensures room { vec_capacity checkpoints.new ≡ vec_capacity checkpoints.old }
    ensures checkpoints { KeepsCheckpoint checkpoints.old.items checkpoints.new.items
        (record { count = place.count; entry = place.entry; steps = place.steps; characters = characters; state = machine.now }) }
{
    if let Some(core) = core_for_checkpoint(alloc, checkpoints) {
        let checkpoint = copy_of(core, machine, place, characters);
        checkpoints.push_reserved(checkpoint);
    }
}

/// A checkpoint of a machine in this core, whatever its words are.
pub(crate) fn copy_of(core: Core, machine: &Machine, place: Place, characters: usize) -> Checkpoint
    ensures { result ≡ record { count = place.count; entry = place.entry; steps = place.steps; characters = characters; state = machine.now } }
{
    let mut copy = core;
    copy_words(machine.core(), &mut copy);
    Checkpoint {
        place,
        characters,
        core: copy,
        registers: machine.registers(),
    }
}

/// The checkpoint of a machine before all changes, in this core.
pub(crate) fn first_of(core: Core, machine: &Machine) -> Checkpoint
    ensures { result ≡ first_checkpoint machine.now }
{
    copy_of(core, machine, START, 0)
}

/// All checkpoints go, and that of a machine before all changes takes the place of the first.
pub(crate) fn keep_first(checkpoints: &mut Vec<Checkpoint>, machine: &Machine)
    requires some { 0 < vec_len checkpoints.old }
    ensures items { checkpoints.new.items ≡ first_checkpoint machine.now ∷ [] }
    ensures capacity { vec_capacity checkpoints.new ≡ vec_capacity checkpoints.old }
{
    let Checkpoint {
        place: _,
        characters: _,
        core,
        registers: _,
    } = checkpoints.remove(0);
    checkpoints.clear();
    checkpoints.push_reserved(first_of(core, machine));
}

/// The place before all changes.
const START: Place = Place {
    count: 0,
    entry: 0,
    steps: 0,
};

/// Core for one checkpoint more, and a place for it: new, or that of an older one, which goes.
fn core_for_checkpoint(alloc: Global, checkpoints: &mut Vec<Checkpoint>) -> Option<Core>
    requires { vec_len checkpoints.old ≤ MOST }
    ensures room { MatchOption result (checkpoints.new.items ≡ checkpoints.old.items)
        (λ _. vec_len checkpoints.new < MOST) }
    ensures most { vec_len checkpoints.new ≤ MOST }
    ensures capacity { vec_capacity checkpoints.new ≡ vec_capacity checkpoints.old }
    ensures checkpoints { IfSome result (λ _. (checkpoints.new.items ≡ checkpoints.old.items)
        ⊎ LosesOne checkpoints.old.items checkpoints.new.items) }
{
    if checkpoints.len() >= MOST {
        return core_of_older(checkpoints, NEWEST);
    }
    match Core::new(alloc) {
        Ok(core) => Some(core),
        Err(_) => core_of_older(checkpoints, 1),
    }
}

/// The core of an older checkpoint, which goes: none of so many newest.
fn core_of_older(checkpoints: &mut Vec<Checkpoint>, newest: usize) -> Option<Core>
    requires some { 0 < newest }
    requires most { vec_len checkpoints.old ≤ MOST }
    ensures room { MatchOption result (checkpoints.new.items ≡ checkpoints.old.items)
        (λ _. vec_len checkpoints.new < MOST) }
    ensures most { vec_len checkpoints.new ≤ MOST }
    ensures capacity { vec_capacity checkpoints.new ≡ vec_capacity checkpoints.old }
    ensures checkpoints { IfSome result (λ _. (checkpoints.new.items ≡ checkpoints.old.items)
        ⊎ LosesOne checkpoints.old.items checkpoints.new.items) }
{
    let index = dispensable_checkpoint(checkpoints, newest)?;
    let Checkpoint {
        place: _,
        characters: _,
        core,
        registers: _,
    } = checkpoints.remove(index);
    Some(core)
}

/// The number of the checkpoint without which the least gap is left, the oldest of such. It is not the first, and none of
/// so many newest.
fn dispensable_checkpoint(checkpoints: &[Checkpoint], newest: usize) -> Option<usize>
    requires { 0 < newest }
    ensures { IfSome result (λ index. (0 < index) × (index + newest < length checkpoints.now)) }
{
    let mut found = None;
    let mut least = usize::MAX;
    let end = checkpoints.len().saturating_sub(newest);
    for index in 1..end {
        let before = &checkpoints[index - 1];
        let after = &checkpoints[index + 1];
        let gap = after.place.count.saturating_sub(before.place.count);
        if gap < least {
            least = gap;
            found = Some(index);
        }
    }
    found
}

/// Forgets the first checkpoint that comes after so many changes and those after it, but never the first of all. The answer is
/// how many are left.
pub(crate) fn forget_later(checkpoints: &mut Vec<Checkpoint>, count: usize) -> usize
    requires { 0 < vec_len checkpoints.old }
    ensures some { 0 < result }
    ensures items { checkpoints.new.items ≡ take result checkpoints.old.items }
    ensures within { (k : ℕ) → 0 < k → k < result → slice_index (counts_of checkpoints.old.items) k ≤ count }
    ensures less { vec_len checkpoints.new ≤ vec_len checkpoints.old }
    ensures capacity { vec_capacity checkpoints.new ≡ vec_capacity checkpoints.old }
{
    let left = first_later(checkpoints, count);
    checkpoints.truncate(left);
    left
}

/// The number of the first checkpoint but one that comes after so many changes: their number where none does.
fn first_later(checkpoints: &[Checkpoint], count: usize) -> usize
    requires { 0 < length checkpoints.now }
    ensures some { 0 < result }
    ensures less { result ≤ length checkpoints.now }
    ensures within { (k : ℕ) → 0 < k → k < result → slice_index (counts_of checkpoints.now) k ≤ count }
{
    for left in 1..checkpoints.len() {
        let checkpoint = &checkpoints[left];
        if checkpoint.place.count > count {
            return left;
        }
    }
    checkpoints.len()
}

/// Gives core the words of another.
fn copy_words(from: &Core, to: &mut Core)
    ensures { to.new ≡ from.now }
{
    for number in 0..CORE {
        let cell = Cell::of(number as u32);
        to.set(cell, from.get(cell));
    }
}
