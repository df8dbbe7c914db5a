//! The blocks that two sound entries claim.
ghost use Rattle.std.specs.Prelude.{◌≡◌, ℕ, ◌+◌, ◌-◌, ◌<◌, ◌≤◌, ◌++◌, ◌&&◌, [], codes, false, not, nat_le, nat_lt, if◌then◌else◌, length, slice_index, IfOk, OnOk};
ghost use Rattle.archive_survey.specs.Lines.{claims, count_runs, extent_text, run_length as length_of_run, run_lines};
ghost use Rattle.archive_survey.specs.Steps.{count_after, is_two as is_two_of, findings_by};

use crate::Part;
use crate::judging::Verdict;
use crate::lines::put_twice;
use std::alloc::AllocError;

/// Counts a claim more of each block of a range, up to two.
fn claim_range(from: usize, to: usize, counts: &mut [u8])
    requires order { from ≤ to }
    requires within { to ≤ length counts.old }
    ensures inside { (k : ℕ) → from ≤ k → k < to
        → slice_index counts.new k ≡ count_after 1 (slice_index counts.old k) }
    ensures before { (k : ℕ) → k < from → slice_index counts.new k ≡ slice_index counts.old k }
    ensures following { (k : ℕ) → to ≤ k → slice_index counts.new k ≡ slice_index counts.old k }
{
    for block in from..to {
        counts[block] = if counts[block] == 0 { 1 } else { 2 };
    }
}

/// Counts a claim more of each block of an extent, up to two.
fn claim_extent(place: u32, size: u32, counts: &mut [u8])
    ensures { (k : ℕ) → k < length counts.old → slice_index counts.new k
        ≡ count_after (if nat_le place k && nat_lt k (place + size) then 1 else 0) (slice_index counts.old k) }
{
    let end = ((u64::from(place) + u64::from(size)) as usize).min(counts.len());
    let from = (place as usize).min(end);
    claim_range(from, end, counts);
}

/// Counts the report of a part as a claim of its blocks.
pub(crate) fn claim(verdict: Verdict, part: &Part, counts: &mut [u8])
    ensures { (k : ℕ) → k < length counts.old → slice_index counts.new k
        ≡ count_after (claims (findings_by verdict part.now) k) (slice_index counts.old k) }
{
    match verdict {
        Verdict::Nothing | Verdict::Unsound(_) => {}
        Verdict::Sound => match part {
            Part::Segment { .. } | Part::Fault(_) => {}
            Part::File { place, size, .. } | Part::Empty { place, size } => {
                claim_extent(*place, *size, counts);
            }
        },
    }
}

/// Whether a block has two claims.
fn is_two(counts: &[u8], block: usize) -> bool
    requires { block < length counts.now }
    ensures { result ≡ is_two_of counts.now block }
{
    counts[block] > 1
}

/// How many blocks have two claims one after the other, from a block on.
fn run_length(counts: &[u8], block: usize) -> usize
    requires { block ≤ length counts.now }
    ensures { result ≡ length_of_run (is_two_of counts.now) (length counts.now - block) block }
{
    let mut place = block;
    while place < counts.len() && is_two(counts, place) {
        place += 1;
    }
    place - block
}

/// Appends the line of the run that begins at a block, where one does, and gives how many that are.
fn put_run(
    counts: &[u8],
    block: usize,
    before: bool,
    two: bool,
    out: &mut Vec<u8>,
) -> Result<usize, AllocError>
    requires { block ≤ length counts.now }
    ensures line { OnOk result (out.new.items ≡ out.old.items ++ (if two && not before
        then codes "TWICE " ++ extent_text block
        (length_of_run (is_two_of counts.now) (length counts.now - block) block)
        else [])) }
    ensures count { IfOk result (λ runs. runs ≡ (if two && not before then 1 else 0)) }
    ensures one { IfOk result (λ runs. runs ≤ 1) }
{
    if !two || before {
        return Ok(0);
    }
    put_twice(block, run_length(counts, block), out)?;
    Ok(1)
}

/// Appends the lines of the runs of blocks that have two claims, and gives how many they are.
pub(crate) fn put_runs(counts: &[u8], out: &mut Vec<u8>) -> Result<usize, AllocError>
    ensures lines { OnOk result (out.new.items ≡ out.old.items
        ++ run_lines (is_two_of counts.now) false (length counts.now) 0) }
    ensures count { IfOk result (λ runs. runs
        ≡ count_runs (is_two_of counts.now) false (length counts.now) 0) }
    ensures most { IfOk result (λ runs. runs ≤ length counts.now) }
{
    let mut runs = 0;
    let mut before = false;
    for block in 0..counts.len() {
        let two = is_two(counts, block);
        let begun = put_run(counts, block, before, two, out)?;
        runs += begun;
        before = two;
    }
    Ok(runs)
}
