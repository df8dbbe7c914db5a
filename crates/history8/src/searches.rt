//! The way back to a step of which a condition holds.

ghost use Rattle.std.specs.Prelude.{◌≡◌, ◌<◌, ◌≤◌, length, vec_capacity};
ghost use Rattle.history8.specs.Checkpoints.{AreCheckpoints, first_state};
ghost use Rattle.history8.specs.Entries.{AreSome, IsPlace, changes_of};
ghost use Rattle.history8.specs.Steps.{IsLastPlace, IsLastOf, newest_of};

use crate::checkpoints::Checkpoint;
use crate::entries::Entry;
use crate::replays::{Place, STRETCH, make_part};
use crate::watches::Watch;
use cpu8::Machine;

/// The number of changes after which a condition held last, before there were so many of them. The machine is left anywhere.
pub(crate) fn last_place<W: Watch>(
    machine: &mut Machine,
    checkpoints: &[Checkpoint],
    entries: &[Entry],
    count: usize,
    watch: &W,
    spare: &mut Vec<u8>,
) -> Option<usize>
    requires count { count ≡ length (changes_of entries.now) }
    requires checkpoints { AreCheckpoints entries.now (first_state checkpoints.now) checkpoints.now }
    requires some { AreSome entries.now }
    requires room { STRETCH ≤ vec_capacity spare.old }
    ensures place { IsLastPlace (W.condition watch.now) entries.now (first_state checkpoints.now) count result }
    ensures room { vec_capacity spare.new ≡ vec_capacity spare.old }
{
    let mut end = count.saturating_sub(1);
    let mut left = checkpoints.len();
    while left > 0 {
        left -= 1;
        let checkpoint = &checkpoints[left];
        checkpoint.restore(machine);
        if let Some(place) = last_after(machine, entries, checkpoint.place, end, watch, spare) {
            return Some(place);
        }
        end = end.min(checkpoint.place.count);
    }
    None
}

/// The same of the changes after a place, up to so many in all. They are made in parts, each twice as long as the one before until the
/// condition holds. So a break that is met often is not looked for by long runs, which look through all breaks before they begin.
fn last_after<W: Watch>(
    machine: &mut Machine,
    entries: &[Entry],
    from: Place,
    end: usize,
    watch: &W,
    spare: &mut Vec<u8>,
) -> Option<usize>
    requires place { IsPlace entries.now from.count from.entry from.steps }
    requires end { end ≤ length (changes_of entries.now) }
    requires some { AreSome entries.now }
    requires room { STRETCH ≤ vec_capacity spare.old }
    ensures place { IsLastOf (W.condition watch.now) entries.now from.count end machine.old result }
    ensures room { vec_capacity spare.new ≡ vec_capacity spare.old }
{
    let mut place = from;
    let mut found = None;
    let mut most = FEW;
    while place.count < end {
        let target = end.min(place.count.saturating_add(most));
        let (part, is_met) = make_part(machine, entries, place, target, watch, spare);
        found = newest_of(is_met, part.place.count, found);
        most = next_size(most, is_met);
        place = part.place;
    }
    found
}

/// The first part of a search has at most so many changes.
const FEW: usize = 0o1000;

/// How many changes the next part has at most: few again where the condition held, else twice as many.
fn next_size(most: usize, is_met: bool) -> usize
    requires { 0 < most }
    ensures { 0 < result }
{
    if is_met { FEW } else { most.saturating_mul(2) }
}

/// The place that was found last: this one where the condition holds there.
fn newest_of(is_met: bool, place: usize, found: Option<usize>) -> Option<usize>
    ensures { result ≡ newest_of is_met place found }
{
    if is_met { Some(place) } else { found }
}
