//! Lists of entries.

ghost use Rattle.std.specs.Prelude.{◌≡◌, ◌+◌, ◌^◌, ◌<◌, length, vec_len, vec_capacity};
ghost use Rattle.history8.specs.History.{step_count, steps_before, changes_to_step};
ghost use Rattle.history8.specs.Entries.{AreSome, IsFixedPlace, IsPlace, changes_of, changes_to};
ghost use Rattle.history8.specs.EntrySteps.{EndsInSteps, KeepsPlaces};

use crate::entries::{Entry, change_count_of, step_count_of};
use crate::replays::Place;

/// Adds so many steps, for which there is room, to those of the last entry or as a new one.
pub(crate) fn add_steps(entries: &mut Vec<Entry>, quick: bool, steps: usize)
    requires room { vec_len entries.old < vec_capacity entries.old }
    requires count { length (changes_of entries.old.items) + steps < 2 ^ 64 }
    requires some { AreSome entries.old.items }
    ensures changes { changes_of entries.new.items ≡ steps_before quick steps (changes_of entries.old.items) }
    ensures some { AreSome entries.new.items }
    ensures places { KeepsPlaces entries.old.items entries.new.items (length (changes_of entries.old.items)) }
{
    if steps == 0 {
        return;
    }
    if let Some(count) = last_steps(entries, quick) {
        let last = entries.len() - 1;
        entries[last] = Entry::Steps {
            quick,
            count: count + steps,
        };
        return;
    }
    entries.push_reserved(Entry::Steps {
        quick,
        count: steps,
    });
}

/// How many steps the last entry is, if it is such steps.
fn last_steps(entries: &[Entry], quick: bool) -> Option<usize>
    ensures { EndsInSteps entries.now quick result }
{
    if entries.is_empty() {
        return None;
    }
    let entry = entries[entries.len() - 1];
    if let Entry::Steps {
        quick: is_quick,
        count,
    } = entry
    {
        if is_quick == quick {
            return Some(count);
        }
    }
    None
}

/// The place after all entries, which are so many changes.
pub(crate) fn end_of(entries: &[Entry], count: usize) -> Place
    requires count { count ≡ length (changes_of entries.now) }
    requires some { AreSome entries.now }
    ensures place { IsFixedPlace entries.now result.count result.entry result.steps }
    ensures count { result.count ≡ count }
{
    if entries.is_empty() {
        return Place {
            count,
            entry: 0,
            steps: 0,
        };
    }
    let last = entries.len() - 1;
    let entry = entries[last];
    match entry {
        Entry::Steps { count: steps, .. } => Place {
            count,
            entry: last,
            steps,
        },
        _ => Place {
            count,
            entry: last + 1,
            steps: 0,
        },
    }
}

/// Takes the changes after a place away.
pub(crate) fn cut_entries(entries: &mut Vec<Entry>, place: Place)
    requires place { IsPlace entries.old.items place.count place.entry place.steps }
    requires some { AreSome entries.old.items }
    ensures changes { changes_of entries.new.items ≡ changes_to entries.old.items place.entry place.steps }
    ensures some { AreSome entries.new.items }
    ensures places { KeepsPlaces entries.old.items entries.new.items place.count }
{
    if place.steps == 0 {
        entries.truncate(place.entry);
        return;
    }
    let entry = entries[place.entry];
    if let Entry::Steps { quick, .. } = entry {
        entries[place.entry] = Entry::Steps {
            quick,
            count: place.steps,
        };
        entries.truncate(place.entry + 1);
    }
}

/// How many steps entries are, which are so many changes.
pub(crate) fn steps_in(entries: &[Entry], count: usize) -> usize
    requires { count ≡ length (changes_of entries.now) }
    ensures { result ≡ step_count (changes_of entries.now) }
{
    let _count = count;
    let mut steps = 0;
    for entry in entries {
        steps += step_count_of(*entry);
    }
    steps
}

/// How many of so many changes there are up to where so many steps were made and the next one is due.
pub(crate) fn changes_to_step(entries: &[Entry], count: usize, steps: usize) -> usize
    requires { count ≡ length (changes_of entries.now) }
    ensures { result ≡ length (changes_to_step steps (changes_of entries.now)) }
{
    let _count = count;
    let mut changes = 0;
    let mut before = 0;
    for entry in entries {
        let more = step_count_of(*entry);
        if more > steps - before {
            return changes + (steps - before);
        }
        before += more;
        changes += change_count_of(*entry);
    }
    changes
}
