//! Runs of several steps.

ghost use Rattle.std.specs.Prelude.{◌≡◌, ℕ, ◌≤◌, Some};
ghost use Rattle.pdp8e.specs.Lasting.{Lasts};
ghost use Rattle.pdp8e.specs.Runs.{AreUnasked, after};

use super::Machine;
use cpu8e::laws::request_stays;

impl Machine {
    /// Makes steps, at most n, as many as the processor alone quickly makes, and answers how many. Each is an instruction that prints nothing and
    /// goes on. In none the program waits for a key nor, if looks count, looks for one. Each passes for what is under way, of which nothing ends and no transfer moves a word.
    /// Where none is made the caller takes a `step`.
    pub fn run_unasked(&mut self, n: usize, looks: bool) -> usize
        ensures within { result ≤ n }
        ensures state { self.new ≡ after result self.old }
        ensures unasked { AreUnasked looks self.old result }
    {
        let Some(most) = self.time_left() else {
            return 0;
        };
        request_stays();
        let made = self.processor.run_unasked(n.min(most as usize), looks);
        if !self.is_quiet {
            self.disk.pass(made as u32);
            self.devices.pass(made as u64);
        }
        made
    }

    /// A number of instructions in which nothing ends on disk and devices, if there is such a number: the least time left, or `MOST`.
    #[inline(always)]
    fn time_left(&self) -> Option<u32>
        ensures { (count : ℕ) → result ≡ Some count → Lasts self.now count }
    {
        if self.is_quiet {
            return Some(MOST);
        }
        let most = self.disk.least_time().unwrap_or(MOST);
        match self.devices.time_left(u64::from(most)) {
            Some(time) => Some(time as u32),
            None => None,
        }
    }
}

/// So many instructions are made at once at most where nothing is under way.
const MOST: u32 = u32::MAX;
