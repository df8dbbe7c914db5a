//! What frames are that are no BIN tape.
ghost use Rattle.std.specs.Prelude.{◌≡◌};
ghost use Rattle.tape_commands.specs.Kinds as spec;
ghost use Rattle.tape_commands.specs.Kinds.{RefusesFrames, RefusesTape};

use file_kind::{KindFault, kind_of};
use hosts::Host;
use outcome::{Ending, kind_note};
use refusals::SessionFault;
use std::alloc::Global;

/// How a command ends whose frames are refused, by the ending of their fault. Where they are no BIN tape, what they are is printed on standard
/// error, if a command takes that.
pub fn refuse_frames<H: Host>(host: &mut H, alloc: Global, frames: &[u8], ending: Ending) -> Ending
    ensures { RefusesFrames frames.now ending (H.history host.old) result (H.history host.new) }
{
    if is_no_tape(&ending) {
        return refuse_tape(host, alloc, frames, ending);
    }
    ending
}

/// How a command ends whose frames are no BIN tape. What they are is printed on standard error first, if a command takes that.
pub(crate) fn refuse_tape<H: Host>(
    host: &mut H,
    alloc: Global,
    frames: &[u8],
    ending: Ending,
) -> Ending
    ensures { RefusesTape frames.now ending (H.history host.old) result (H.history host.new) }
{
    match kind_of(alloc, frames) {
        Ok(kind) => {
            if let Some(note) = kind_note(kind) {
                let _ = host.tell(note.text());
            }
            ending
        }
        Err(KindFault::Memory) => Ending::Fault(SessionFault::Memory),
    }
}

/// Whether a command ends since frames are no BIN tape.
fn is_no_tape(ending: &Ending) -> bool
    ensures { result ≡ spec.is_no_tape ending.now }
{
    match ending {
        Ending::Fault(fault) => is_tape_fault(*fault),
        _ => false,
    }
}

/// Whether a fault is that of frames which are no BIN tape.
pub(crate) fn is_tape_fault(fault: SessionFault) -> bool
    ensures { result ≡ spec.is_tape_fault fault }
{
    match fault {
        SessionFault::Tape(_) => true,
        _ => false,
    }
}
