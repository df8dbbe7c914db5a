//! What was done with a machine, and what it printed.

ghost use Rattle.std.specs.Prelude.{◌≡◌, ◌+◌, ◌^◌, ◌<◌, ◌≤◌, ◌++◌, ◌∷◌, [], true, length, take, OnOk, vec_len, vec_capacity};
ghost use Rattle.cpu8.specs.Go.{character_of};
ghost use Rattle.history8.specs.Changes.{Step};
ghost use Rattle.history8.specs.History.{steps_before};
ghost use Rattle.history8.specs.Entries.{AreSome, IsPlace, changes_of, changes_to, is_no_step, with_entry};
ghost use Rattle.history8.specs.EntrySteps.{KeepsPlaces};

use crate::entries::{Entry, push_character};
use crate::lists::{add_steps, cut_entries};
use crate::replays::Place;
use cpu8::Stepped;
use std::alloc::{AllocError, Global};

/// The changes of a machine, and what they printed.
#[derive(Drop)]
pub(crate) struct Journal {
    pub(crate) entries: Vec<Entry>,
    /// How many changes these are.
    pub(crate) count: usize,
    /// The characters that they printed, of eight bits.
    pub(crate) characters: Vec<u8>,
}

impl Journal {
    /// A journal of no change.
    pub(crate) fn new(alloc: Global) -> Journal
        ensures entries { result.entries.items ≡ [] }
        ensures count { result.count ≡ 0 }
        ensures characters { result.characters.items ≡ [] }
    {
        Journal {
            entries: Vec::new(alloc),
            count: 0,
            characters: Vec::new(alloc),
        }
    }

    /// Makes room for one entry more, and so many characters.
    pub(crate) fn reserve(&mut self, characters: usize) -> Result<(), AllocError>
        ensures entries { self.new.entries.items ≡ self.old.entries.items }
        ensures count { self.new.count ≡ self.old.count }
        ensures characters { self.new.characters.items ≡ self.old.characters.items }
        ensures entry_room { OnOk result (vec_len self.new.entries < vec_capacity self.new.entries) }
        ensures character_room { OnOk result (vec_len self.new.characters + characters ≤ vec_capacity self.new.characters) }
    {
        self.entries.reserve(1)?;
        self.characters.reserve(characters)
    }

    /// Notes a change that is no step, for which there is room.
    pub(crate) fn note_change(&mut self, entry: Entry)
        requires no_step { is_no_step entry ≡ true }
        requires room { vec_len self.old.entries < vec_capacity self.old.entries }
        requires count { self.old.count + 1 < 2 ^ 64 }
        requires some { AreSome self.old.entries.items }
        ensures changes { changes_of self.new.entries.items ≡ with_entry entry (changes_of self.old.entries.items) }
        ensures some { AreSome self.new.entries.items }
        ensures places { KeepsPlaces self.old.entries.items self.new.entries.items (length (changes_of self.old.entries.items)) }
        ensures count { self.new.count ≡ self.old.count + 1 }
        ensures characters { self.new.characters.items ≡ self.old.characters.items }
    {
        self.entries.push_reserved(entry);
        self.count += 1;
    }

    /// Notes a step that did this, for which there is room.
    pub(crate) fn note_step(&mut self, quick: bool, did: Stepped)
        requires room { vec_len self.old.entries < vec_capacity self.old.entries }
        requires character_room { vec_len self.old.characters < vec_capacity self.old.characters }
        requires count { self.old.count + 1 < 2 ^ 64 }
        requires length { self.old.count ≡ length (changes_of self.old.entries.items) }
        requires some { AreSome self.old.entries.items }
        ensures changes { changes_of self.new.entries.items ≡ Step quick ∷ changes_of self.old.entries.items }
        ensures some { AreSome self.new.entries.items }
        ensures places { KeepsPlaces self.old.entries.items self.new.entries.items (length (changes_of self.old.entries.items)) }
        ensures count { self.new.count ≡ self.old.count + 1 }
        ensures characters { self.new.characters.items ≡ self.old.characters.items ++ character_of did }
    {
        push_character(&mut self.characters, did);
        self.note_steps(quick, 1);
    }

    /// Notes so many steps, for which there is room. What they printed is noted already.
    pub(crate) fn note_steps(&mut self, quick: bool, steps: usize)
        requires room { vec_len self.old.entries < vec_capacity self.old.entries }
        requires count { self.old.count + steps < 2 ^ 64 }
        requires length { self.old.count ≡ length (changes_of self.old.entries.items) }
        requires some { AreSome self.old.entries.items }
        ensures changes { changes_of self.new.entries.items ≡ steps_before quick steps (changes_of self.old.entries.items) }
        ensures some { AreSome self.new.entries.items }
        ensures places { KeepsPlaces self.old.entries.items self.new.entries.items (length (changes_of self.old.entries.items)) }
        ensures count { self.new.count ≡ self.old.count + steps }
        ensures characters { self.new.characters.items ≡ self.old.characters.items }
    {
        add_steps(&mut self.entries, quick, steps);
        self.count += steps;
    }

    /// Takes away what comes after a place, before which so many characters were printed.
    pub(crate) fn cut(&mut self, place: Place, characters: usize)
        requires place { IsPlace self.old.entries.items place.count place.entry place.steps }
        requires some { AreSome self.old.entries.items }
        ensures changes { changes_of self.new.entries.items ≡ changes_to self.old.entries.items place.entry place.steps }
        ensures some { AreSome self.new.entries.items }
        ensures places { KeepsPlaces self.old.entries.items self.new.entries.items place.count }
        ensures count { self.new.count ≡ place.count }
        ensures characters { self.new.characters.items ≡ take characters self.old.characters.items }
    {
        self.characters.truncate(characters);
        cut_entries(&mut self.entries, place);
        self.count = place.count;
    }
}
