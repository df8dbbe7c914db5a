//! The counts of one step.

ghost use Rattle.std.specs.Prelude.{◌≡◌, ◌+◌, ◌^◌, ◌<◌, IfOk, length, slice_index_or, vec_len};
ghost use Rattle.word12.specs.declared.sizes.TheConstants.{CORE};
ghost use Rattle.cpu8.specs.State.{next_cell};
ghost use Rattle.cpu8.specs.Fetches.{is_fetch};
ghost use Rattle.terminal8.specs.Terminal.{next, after_step};
ghost use Rattle.profile8.specs.Counts.{AreZero};
ghost use Rattle.profile8.specs.CountSteps.{counts_with};

use cpu8::Stepped;
use std::alloc::{AllocError, Global};
use terminal8::Terminal;
use word12::{CORE, Cell};

/// The counts of no steps: 0 for each of the 0o100000 cells of core. Where memory is refused the answer is that error.
pub fn no_counts(alloc: Global) -> Result<Vec<u64>, AllocError>
    ensures size { IfOk result (λ counts. vec_len counts ≡ CORE) }
    ensures zero { IfOk result (λ counts. AreZero counts.items) }
{
    let counts = zeros(alloc, CORE)?;
    Ok(counts)
}

/// So many zeros.
#[tactic(auto, using(crate::proofs::CountLemmas::zeros_are))]
fn zeros(alloc: Global, count: usize) -> Result<Vec<u64>, AllocError>
    ensures size { IfOk result (λ counts. vec_len counts ≡ count) }
    ensures zero { IfOk result (λ counts. AreZero counts.items) }
{
    let counts = vec![in alloc; 0; count]?;
    Ok(counts)
}

/// A step of a terminal. The count of the cell whose word it fetches rises by one.
#[inline(always)]
pub(crate) fn count_step(terminal: &mut Terminal<'_>, counts: &mut [u64]) -> Stepped
    requires since { terminal.old.since + 1 < 2 ^ 64 }
    requires size { length counts.old ≡ CORE }
    requires room { slice_index_or counts.old (next_cell terminal.old.machine) 0 + 1 < 2 ^ 64 }
    ensures state { terminal.new ≡ next terminal.old }
    ensures answer { result ≡ (after_step terminal.old).1 }
    ensures counts { counts.new
        ≡ counts_with counts.old (next_cell terminal.old.machine) (is_fetch (after_step terminal.old).1) }
    ensures cell { next_cell terminal.old.machine < CORE }
{
    let cell = terminal.machine().next_cell();
    let did = terminal.step();
    let again = did;
    count_word(counts, cell, is_fetch(again));
    did
}

/// The count of a cell rises by one, if its word was fetched.
#[inline(always)]
pub fn count_word(counts: &mut [u64], cell: Cell, fetched: bool)
    requires size { length counts.old ≡ CORE }
    requires room { slice_index_or counts.old cell 0 + 1 < 2 ^ 64 }
    ensures { counts.new ≡ counts_with counts.old cell fetched }
{
    if fetched {
        counts[cell.index()] += 1;
    }
}

/// Whether a step that did this fetched a word: it was no interrupt, and the machine didn't stand stopped (Small Computer Handbook).
#[inline(always)]
pub fn is_fetch(did: Stepped) -> bool
    ensures { result ≡ is_fetch did }
{
    match did {
        Stepped::Stopped | Stepped::Interrupted => false,
        _ => true,
    }
}
