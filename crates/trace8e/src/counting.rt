//! The counts of one step.

ghost use Rattle.std.specs.Prelude.{◌≡◌, ◌+◌, ◌^◌, ◌<◌, length, slice_index_or};
ghost use Rattle.word12.specs.declared.sizes.TheConstants.{CORE};
ghost use Rattle.cpu8.specs.State.{next_cell};
ghost use Rattle.cpu8.specs.Fetches.{is_fetch};
ghost use Rattle.pdp8e.specs.Papers.{papers_after};
ghost use Rattle.pdp8e.specs.Terminal.{next, after_step, move_at};
ghost use Rattle.profile8.specs.CountSteps.{counts_with};

use cpu8::Stepped;
use pdp8e::laws::step_has_parts;
use pdp8e::{Papers, Terminal};
use profile8::{count_word, is_fetch};

/// A step of a terminal. The count of the cell whose word it fetches rises by one. What it leaves is put on paper.
#[inline(always)]
pub(crate) fn count_step(
    terminal: &mut Terminal<'_>,
    counts: &mut [u64],
    papers: &mut Papers,
) -> Stepped
    requires since { terminal.old.since + 1 < 2 ^ 64 }
    requires size { length counts.old ≡ CORE }
    requires room { slice_index_or counts.old (next_cell terminal.old.machine.processor.base) 0 + 1 < 2 ^ 64 }
    ensures state { terminal.new ≡ next terminal.old }
    ensures answer { result ≡ (after_step terminal.old).1 }
    ensures counts { counts.new
        ≡ counts_with counts.old (next_cell terminal.old.machine.processor.base) (is_fetch (after_step terminal.old).1) }
    ensures cell { next_cell terminal.old.machine.processor.base < CORE }
    ensures papers { papers.new ≡ papers_after (move_at terminal.old) terminal.new.machine papers.old }
{
    let cell = terminal.machine().processor().next_cell();
    let did = make_step(terminal, papers);
    let again = did;
    count_word(counts, cell, is_fetch(again));
    did
}

/// A step of a terminal, and what it leaves on paper.
#[inline(always)]
fn make_step(terminal: &mut Terminal<'_>, papers: &mut Papers) -> Stepped
    requires { terminal.old.since + 1 < 2 ^ 64 }
    ensures state { terminal.new ≡ next terminal.old }
    ensures answer { result ≡ (after_step terminal.old).1 }
    ensures papers { papers.new ≡ papers_after (move_at terminal.old) terminal.new.machine papers.old }
{
    step_has_parts();
    let moved = terminal.begin_step();
    let did = terminal.finish_step();
    papers.put(&moved, terminal.machine());
    did
}
