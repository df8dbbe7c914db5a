//! New files of the host, in place of any of their names.
ghost use Rattle.image_files.specs.Making.{MakesFile, MakesFirst};
ghost use Rattle.image_files.specs.MakingSteps.{MakesNewFile};

use crate::faults::{ending_of_file, ending_of_first};
use crate::notes::tell;
use crate::reading::tell_of_lock;
use crate::reasons::{tell_first, tell_unheld};
use crate::saving::write_file;
use hosts::{Durability, Host, HostFault, hold_file, make};
use outcome::{Content, Ending, FileNote};
use std::alloc::Global;

/// Makes a file for this that holds these bytes, in place of any of its name.
pub fn make_file<H: Host>(
    host: &mut H,
    alloc: Global,
    content: Content,
    name: &str,
    bytes: &[u8],
) -> Result<(), Ending>
    ensures { MakesFile content name.now bytes.now (H.history host.old) result (H.history host.new) }
{
    match hold_file(host, alloc, name) {
        Ok(held) => {
            tell_of_lock(host, content, held.has_lock);
            write_file(host, alloc, content, held.path.as_str(), name, bytes)
        }
        Err(fault) => match fault {
            HostFault::Absent => match make_new(host, alloc, content, name, bytes) {
                Ok(()) => Ok(()),
                Err(fault) => {
                    tell_unheld(host, alloc, content, name, fault);
                    Err(ending_of_file(content, fault))
                }
            },
            _ => {
                tell_unheld(host, alloc, content, name, fault);
                Err(ending_of_file(content, fault))
            }
        },
    }
}

/// Makes a file of an image that holds these bytes, if there is none of its name.
pub fn make_first<H: Host>(
    host: &mut H,
    alloc: Global,
    name: &str,
    bytes: &[u8],
) -> Result<(), Ending>
    ensures { MakesFirst name.now bytes.now (H.history host.old) result (H.history host.new) }
{
    match make_new(host, alloc, Content::Image, name, bytes) {
        Ok(()) => Ok(()),
        Err(fault) => {
            tell_first(host, alloc, name, fault);
            Err(ending_of_first(fault))
        }
    }
}

/// Makes a file for this where there is none of its name.
fn make_new<H: Host>(
    host: &mut H,
    alloc: Global,
    content: Content,
    name: &str,
    bytes: &[u8],
) -> Result<(), HostFault>
    ensures { MakesNewFile content name.now bytes.now (H.history host.old) result (H.history host.new) }
{
    match make(host, alloc, name, bytes) {
        Ok(durability) => match durability {
            Durability::Certain => Ok(()),
            Durability::Unknown => {
                tell(host, FileNote::NoSync.text(content));
                Ok(())
            }
        },
        Err(fault) => Err(fault),
    }
}
