//! A run of a terminal that counts.

ghost use Rattle.std.specs.Prelude.{◌≡◌, ◌+◌, ◌^◌, ◌<◌, length};
ghost use Rattle.word12.specs.declared.sizes.TheConstants.{CORE};
ghost use Rattle.terminal8.specs.Terminal.{IsRun, later};
ghost use Rattle.profile8.specs.Counts.{AreCounts, AreZero};

use crate::counting::count_step;
use terminal8::laws::{later_steps, waiting};
use terminal8::{Ended, Terminal, TerminalEnd, stop_of};

/// Makes at most n steps of a terminal, each an instruction or an interrupt, and counts for each cell how often its word was fetched
/// (this project's profile). Counts are 0 before, one for each of the 0o100000 cells of core.
///
/// It ends at a HLT, where the machine stands stopped, or at an unassigned word, which was fetched. It also ends where the keys have
/// ended and the machine waits for one for ever, or after n steps. It takes no memory. Each round of the loop is one step, and then,
/// for speed alone, several at once.
pub fn count_fetches(terminal: &mut Terminal<'_>, n: u64, counts: &mut [u64]) -> Ended
    requires size { length counts.old ≡ CORE }
    requires zero { AreZero counts.old }
    requires since { terminal.old.since + n < 2 ^ 64 }
    ensures run { IsRun terminal.old n result.steps result.why }
    ensures terminal { terminal.new ≡ later result.steps terminal.old }
    ensures counts { AreCounts result.steps terminal.old counts.new }
{
    if !terminal.machine().is_running() {
        return Ended {
            steps: 0,
            why: TerminalEnd::Halt,
        };
    }
    waiting();
    later_steps();
    let mut made = 0;
    while made < n {
        if terminal.starves() {
            return Ended {
                steps: made,
                why: TerminalEnd::Keys,
            };
        }
        let did = count_step(terminal, counts);
        made += 1;
        if let Some(why) = stop_of(did) {
            return Ended { steps: made, why };
        }
        let more = terminal.go_on_counting(n - made, counts);
        made += more;
    }
    Ended {
        steps: n,
        why: TerminalEnd::Limit,
    }
}
