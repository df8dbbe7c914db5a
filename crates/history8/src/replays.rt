//! Changes of a history that are made again.

ghost use Rattle.std.specs.Prelude.{◌≡◌, ◌+◌, ◌^◌, ◌≤◌, ◌<◌, length, vec_capacity};
ghost use Rattle.history8.specs.Entries.{AreSome, IsPlace, changes_of};
ghost use Rattle.history8.specs.EntrySteps.{MakesAgain, NextHasMore};
ghost use Rattle.history8.specs.Steps.{FindsNext};

use crate::entries::{Entry, make_change};
use crate::watches::{Breaks, Watch};
use cpu8::Machine;

/// A place in a history: after so many whole entries, and so many steps of the next one.
#[derive(Clone, Copy)]
pub(crate) struct Place {
    /// How many changes are before it.
    pub(crate) count: usize,
    /// How many whole entries are before it.
    pub(crate) entry: usize,
    /// How many steps of the next entry are, 0 where that has none.
    pub(crate) steps: usize,
}

/// How far changes were made again.
#[derive(Clone, Copy)]
pub(crate) struct Replay {
    pub(crate) place: Place,
    /// How many characters they printed.
    pub(crate) characters: usize,
}

/// The most steps that are made again at once. There is room for as many characters.
pub(crate) const STRETCH: usize = 0o200000;

/// Makes changes again from a place on, up to that with so many changes before it.
pub(crate) fn make_again(
    machine: &mut Machine,
    entries: &[Entry],
    from: Place,
    target: usize,
    spare: &mut Vec<u8>,
) -> Replay
    requires target { target ≤ length (changes_of entries.now) }
    requires before { from.count ≤ target }
    requires place { IsPlace entries.now from.count from.entry from.steps }
    requires some { AreSome entries.now }
    requires room { STRETCH ≤ vec_capacity spare.old }
    ensures place { IsPlace entries.now result.place.count result.place.entry result.place.steps }
    ensures count { result.place.count ≡ target }
    ensures made { MakesAgain entries.now from.count target machine.old machine.new result.characters }
    ensures few { from.count + result.characters ≤ target }
    ensures room { vec_capacity spare.new ≡ vec_capacity spare.old }
{
    let none = Breaks { flags: &[] };
    let mut replay = Replay {
        place: from,
        characters: 0,
    };
    while replay.place.count < target {
        let (more, _is_met) = make_part(machine, entries, replay.place, target, &none, spare);
        replay = Replay {
            place: more.place,
            characters: replay.characters + more.characters,
        };
    }
    replay
}

/// The next change, or some of the next steps: none after one of which a condition holds. The answer is also whether it holds of the
/// last of them.
pub(crate) fn make_part<W: Watch>(
    machine: &mut Machine,
    entries: &[Entry],
    from: Place,
    target: usize,
    watch: &W,
    spare: &mut Vec<u8>,
) -> (Replay, bool)
    requires target { target ≤ length (changes_of entries.now) }
    requires before { from.count < target }
    requires place { IsPlace entries.now from.count from.entry from.steps }
    requires some { AreSome entries.now }
    requires room { STRETCH ≤ vec_capacity spare.old }
    ensures place { IsPlace entries.now result.0.place.count result.0.place.entry result.0.place.steps }
    ensures further { from.count < result.0.place.count }
    ensures within { result.0.place.count ≤ target }
    ensures made { MakesAgain entries.now from.count result.0.place.count machine.old machine.new result.0.characters }
    ensures few { from.count + result.0.characters ≤ result.0.place.count }
    ensures found { FindsNext (W.condition watch.now) entries.now from.count result.0.place.count machine.old result.1 }
    ensures room { vec_capacity spare.new ≡ vec_capacity spare.old }
{
    let place = without_whole_entry(entries, from);
    let next = entries[place.entry];
    match next {
        Entry::Steps { quick, count } => {
            let left = count - place.steps;
            let due = target - place.count;
            let most = left.min(due).min(STRETCH);
            spare.clear();
            let steps = watch.make_steps(machine, quick, most, spare);
            let replay = Replay {
                place: after_steps(place, steps.count),
                characters: spare.len(),
            };
            (replay, steps.is_met)
        }
        _ => {
            make_change(machine, next);
            let replay = Replay {
                place: after_change(place),
                characters: 0,
            };
            (replay, false)
        }
    }
}

/// The same place with no step of the next entry before it, where all of them are.
fn without_whole_entry(entries: &[Entry], place: Place) -> Place
    requires place { IsPlace entries.now place.count place.entry place.steps }
    requires before { place.count < length (changes_of entries.now) }
    requires some { AreSome entries.now }
    ensures place { IsPlace entries.now result.count result.entry result.steps }
    ensures count { result.count ≡ place.count }
    ensures entry { result.entry < length entries.now }
    ensures more { NextHasMore entries.now result.entry result.steps }
{
    entry_within(entries, place);
    let next = entries[place.entry];
    match next {
        Entry::Steps { count, .. } => {
            if count == place.steps {
                return entry_after(place);
            }
            place
        }
        _ => place,
    }
}

/// A place that is not the last has a next entry.
fn entry_within(entries: &[Entry], place: Place)
    requires place { IsPlace entries.now place.count place.entry place.steps }
    requires before { place.count < length (changes_of entries.now) }
    ensures { place.entry < length entries.now }
{
    let (_entries, _place) = (entries, place);
}

/// The place after the next entry.
fn entry_after(place: Place) -> Place
    requires { place.entry + 1 < 2 ^ 64 }
    ensures count { result.count ≡ place.count }
    ensures entry { result.entry ≡ place.entry + 1 }
    ensures steps { result.steps ≡ 0 }
{
    Place {
        count: place.count,
        entry: place.entry + 1,
        steps: 0,
    }
}

/// The place after so many steps more of the next entry.
fn after_steps(place: Place, steps: usize) -> Place
    requires count { place.count + steps < 2 ^ 64 }
    requires steps { place.steps + steps < 2 ^ 64 }
    ensures count { result.count ≡ place.count + steps }
    ensures entry { result.entry ≡ place.entry }
    ensures steps { result.steps ≡ place.steps + steps }
{
    Place {
        count: place.count + steps,
        entry: place.entry,
        steps: place.steps + steps,
    }
}

/// The place after an entry that is no step.
fn after_change(place: Place) -> Place
    requires count { place.count + 1 < 2 ^ 64 }
    requires entry { place.entry + 1 < 2 ^ 64 }
    ensures count { result.count ≡ place.count + 1 }
    ensures entry { result.entry ≡ place.entry + 1 }
    ensures steps { result.steps ≡ 0 }
{
    Place {
        count: place.count + 1,
        entry: place.entry + 1,
        steps: 0,
    }
}
