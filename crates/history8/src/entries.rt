//! Changes of a machine, as a history keeps them.

ghost use Rattle.std.specs.Prelude.{◌≡◌, ◌<◌, ◌++◌, true, [], length, vec_len, vec_capacity};
ghost use Rattle.cpu8.specs.Go.{printing_step, character_of};
ghost use Rattle.history8.specs.Changes.{ready};
ghost use Rattle.history8.specs.History.{state_after, step_count};
ghost use Rattle.history8.specs.Entries.{is_no_step, with_entry};

use cpu8::{Machine, Stepped};
use word12::{Cell, Word};

/// One change, or several steps.
#[derive(Clone, Copy)]
pub(crate) enum Entry {
    /// So many steps. Before each a quick printer ends its character.
    Steps { quick: bool, count: usize },
    /// A key of this eight-bit character is struck.
    Key(u8),
    /// A cell is given a word.
    Deposit { cell: Cell, word: Word },
    /// The switches are set.
    Switches(Word),
    /// The machine is started at a cell.
    Start(Cell),
}

/// How many steps an entry is.
pub(crate) fn step_count_of(entry: Entry) -> usize
    ensures { result ≡ step_count (with_entry entry []) }
{
    match entry {
        Entry::Steps { count, .. } => count,
        _ => 0,
    }
}

/// How many changes an entry is.
pub(crate) fn change_count_of(entry: Entry) -> usize
    ensures { result ≡ length (with_entry entry []) }
{
    match entry {
        Entry::Steps { count, .. } => count,
        _ => 1,
    }
}

/// Makes a change that is no step.
pub(crate) fn make_change(machine: &mut Machine, entry: Entry)
    ensures { is_no_step entry ≡ true → machine.new ≡ state_after (with_entry entry []) machine.old }
{
    match entry {
        Entry::Steps { .. } => {}
        Entry::Key(character) => machine.key(character),
        Entry::Deposit { cell, word } => machine.core_mut().set(cell, word),
        Entry::Switches(word) => machine.switches(word),
        Entry::Start(cell) => machine.start(cell),
    }
}

/// A quick printer ends its character, as it does before a step.
#[inline]
pub(crate) fn end_character(machine: &mut Machine, quick: bool)
    ensures { machine.new ≡ ready quick machine.old }
{
    if quick && machine.is_busy() {
        machine.end_character();
    }
}

/// A step, before which a quick printer ends its character.
#[inline]
pub(crate) fn make_step(machine: &mut Machine, quick: bool) -> Stepped
    ensures state { machine.new ≡ (printing_step quick machine.old).0 }
    ensures answer { result ≡ (printing_step quick machine.old).1 }
{
    end_character(machine, quick);
    machine.step()
}

/// How many characters a step printed, 0 or 1.
pub(crate) fn character_count(did: Stepped) -> usize
    ensures { result ≡ length (character_of did) }
{
    match did {
        Stepped::Ran { printed: Some(_) } => 1,
        _ => 0,
    }
}

/// Adds the character that a step printed, if it printed one, for which there is room.
#[inline]
pub(crate) fn push_character(characters: &mut Vec<u8>, did: Stepped)
    requires { vec_len characters.old < vec_capacity characters.old }
    ensures items { characters.new.items ≡ characters.old.items ++ character_of did }
    ensures capacity { vec_capacity characters.new ≡ vec_capacity characters.old }
{
    if let Stepped::Ran {
        printed: Some(character),
    } = did
    {
        characters.push_reserved(character);
    }
}
