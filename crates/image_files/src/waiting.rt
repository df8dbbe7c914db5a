//! Image files that another program holds, and for which a command waits.
ghost use Rattle.std.specs.Prelude.{◌≡◌};
ghost use Rattle.image_files.specs.Reading.{Holds};
ghost use Rattle.image_files.specs.Waiting.{TellsBusy, Within};

use crate::reading::{ImagePlace, hold};
use crate::reasons::tell_reason;
use hosts::{Host, HostFault};
use outcome::{Content, Ending, Reason};
use std::alloc::Global;

/// How many times a second a command is tried again.
pub const TRIES: u128 = 20;

/// Holds an image file as `hold` does. While another program holds it, that is tried again for so many seconds, and such a try changes nothing
/// and prints nothing. After the last one that is printed with the file's name (this project's profile).
pub fn hold_within<H: Host>(
    host: &mut H,
    alloc: Global,
    name: &str,
    seconds: usize,
) -> Result<ImagePlace, Ending>
    ensures { Within seconds name.now (Holds name.now) (H.history host.old) result (H.history host.new) }
{
    let most = TRIES * seconds as u128;
    let mut tries: u128 = 0;
    while tries < most {
        match hold(host, alloc, name) {
            Err(Ending::Busy(Content::Image)) => {
                host.pause();
                tries += 1;
            }
            found => return found,
        }
    }
    let found = hold(host, alloc, name);
    end_busy(host, alloc, name, found)
}

/// What the last try answered. Where another program holds the image in the file of a name, that is printed (this project's profile).
pub fn end_busy<H: Host, T: Drop>(
    host: &mut H,
    alloc: Global,
    name: &str,
    work: Result<T, Ending>,
) -> Result<T, Ending>
    ensures same { result ≡ work }
    ensures told { TellsBusy name.now result (H.history host.old) (H.history host.new) }
{
    match work {
        Err(Ending::Busy(Content::Image)) => {
            tell_reason(host, alloc, name, Reason::Fault(HostFault::Busy));
            Err(Ending::Busy(Content::Image))
        }
        other => other,
    }
}
