//! Files of the host that are read for a command, and standard input.
ghost use Rattle.image_files.specs.Inputs.{Reads, TakesInput};

use crate::notes::tell_note;
use crate::reading::look_file;
use hosts::{FaultClass, Host};
use outcome::{Ending, NameNote, Note};
use refusals::{MOST, SessionFault};
use std::alloc::Global;

/// The name of standard input where a file's may stand.
const STANDARD: &str = "-";

/// The bytes of a file of the host, or of standard input.
pub fn given_bytes<H: Host>(host: &mut H, alloc: Global, name: &str) -> Result<Vec<u8>, Ending>
    ensures { Reads name.now (H.history host.old) result (H.history host.new) }
{
    if name == STANDARD {
        return input_bytes(host, alloc);
    }
    look_file(host, alloc, name)
}

/// All bytes of standard input. Where they are more than are read, that is said.
pub fn input_bytes<H: Host>(host: &mut H, alloc: Global) -> Result<Vec<u8>, Ending>
    ensures { TakesInput (H.history host.old) result (H.history host.new) }
{
    match host.take_input(alloc, MOST) {
        Ok(bytes) => {
            if bytes.len() > MOST {
                tell_note(
                    host,
                    alloc,
                    Note::OnName(NameNote::TooLong, "standard input"),
                )?;
                return Err(Ending::Fault(SessionFault::Reader));
            }
            Ok(bytes)
        }
        Err(fault) => match fault.class() {
            FaultClass::Memory => Err(Ending::Fault(SessionFault::Memory)),
            FaultClass::Busy | FaultClass::Other => Err(Ending::Fault(SessionFault::Reader)),
        },
    }
}
