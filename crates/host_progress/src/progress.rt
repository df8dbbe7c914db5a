//! How far a long command is: printed on a terminal whose owner sees no line of it, since standard output goes elsewhere.
ghost use Rattle.std.specs.Prelude.{◌≡◌};
ghost use Rattle.host_progress.specs.Progressing.{BeginsProgress, EndsProgress, TellsDone, TellsOnce};

use hosts::{Host, Stream};
use refusals::text_lines::{TextLine, put, put_number};

/// How many seconds a command works before it prints how far it is.
const PATIENCE: u64 = 2;

/// What is printed on standard error, from two seconds on and once a second. It stands on one line, over which all that is printed later
/// is written. No memory is taken.
#[derive(Drop)]
pub struct Progress {
    /// Whether it is printed at all.
    pub is_told: bool,

    /// How many things the command has to do.
    pub all: usize,

    /// The second in which it was printed last, or 0.
    pub last: u64,
}

impl Progress {
    /// That of a command which has so many things to do, and begins.
    pub fn begin<H: Host>(host: &mut H, all: usize) -> Progress
        ensures begins { BeginsProgress result.is_told (H.history host.old) (H.history host.new) }
        ensures all { result.all ≡ all }
        ensures last { result.last ≡ 0 }
    {
        let is_told = begin_clock(host);
        Progress {
            is_told,
            all,
            last: 0,
        }
    }

    /// Prints that so many are done, unless something was printed in this second.
    pub fn tell<H: Host>(&mut self, host: &mut H, done: usize)
        ensures tells { TellsDone self.old.is_told done self.old.all (H.history host.old) (H.history host.new) }
        ensures once { TellsOnce self.old.last self.new.last (H.history host.old) (H.history host.new) }
        ensures told { self.new.is_told ≡ self.old.is_told }
        ensures all { self.new.all ≡ self.old.all }
    {
        if !self.is_told {
            return;
        }
        let seconds = host.seconds();
        if seconds < PATIENCE || seconds == self.last {
            return;
        }
        let all = self.all;
        let mut line = TextLine::new();
        put_number(&mut line, done as u64);
        put(&mut line, b" of ");
        put_number(&mut line, all as u64);
        put(&mut line, b"\r");
        if let Ok(text) = str::from_utf8(line.as_slice()) {
            self.last = seconds;
            let _ = host.tell(text);
        }
    }

    /// Takes away what was printed, or the nothing that stands there.
    pub fn end<H: Host>(&self, host: &mut H)
        ensures { EndsProgress self.now.is_told (H.history host.old) (H.history host.new) }
    {
        if self.is_told {
            let _ = host.tell("\x1b[K");
        }
    }
}

/// Whether progress is printed; then the clock is begun.
fn begin_clock<H: Host>(host: &mut H) -> bool
    ensures { BeginsProgress result (H.history host.old) (H.history host.new) }
{
    if !host.is_terminal(Stream::Errors) {
        return false;
    }
    if host.is_terminal(Stream::Output) {
        return false;
    }
    let _ = host.seconds();
    true
}
