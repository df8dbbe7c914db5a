//! A run of a terminal that counts.

ghost use Rattle.std.specs.Prelude.{◌≡◌, ◌+◌, ◌^◌, ◌<◌, length};
ghost use Rattle.word12.specs.declared.sizes.TheConstants.{CORE};
ghost use Rattle.pdp8e.specs.Terminal.{IsRun, later};
ghost use Rattle.profile8.specs.Counts.{AreZero};
ghost use Rattle.trace8e.specs.Counts.{AreCounts};
ghost use Rattle.trace8e.specs.Papers.{GetSteps};

use crate::counting::count_step;
use pdp8e::{Papers, Terminal};
use terminal8::{Ended, TerminalEnd, stop_of};

/// Makes at most n steps of a terminal, each an instruction or an interrupt, and counts for each cell how often its word was fetched
/// (this project's profile). Counts are 0 before, one for each of the 0o100000 cells of core.
///
/// It ends at a HLT, or where the machine stands stopped. It also ends where the keys have ended and the machine waits for one for
/// ever, or after n steps. What the steps punch, and print on the line printer, is put on paper, and a line of each transfer. It takes no
/// memory.
pub fn count_fetches(
    terminal: &mut Terminal<'_>,
    n: u64,
    counts: &mut [u64],
    papers: &mut Papers,
) -> Ended
    requires size { length counts.old ≡ CORE }
    requires zero { AreZero counts.old }
    requires since { terminal.old.since + n < 2 ^ 64 }
    ensures run { IsRun terminal.old n result.steps result.why }
    ensures terminal { terminal.new ≡ later result.steps terminal.old }
    ensures counts { AreCounts result.steps terminal.old counts.new }
    ensures papers { GetSteps result.steps terminal.old papers.old papers.new }
{
    if !terminal.machine().processor().is_running() {
        return Ended {
            steps: 0,
            why: TerminalEnd::Halt,
        };
    }
    let mut made = 0;
    while made < n {
        if terminal.starves() {
            return Ended {
                steps: made,
                why: TerminalEnd::Keys,
            };
        }
        let did = count_step(terminal, counts, papers);
        made += 1;
        if let Some(why) = stop_of(did) {
            return Ended { steps: made, why };
        }
    }
    Ended {
        steps: n,
        why: TerminalEnd::Limit,
    }
}
