//! Files of the host that get other bytes, with the notes that say how.
ghost use Rattle.std.specs.Prelude.{◌≡◌, ◌<◌, ℕ, List, false, IfErr, OnErr, OnOk};
ghost use Rattle.std.specs.Str.{bytes_eq};
ghost use Rattle.hosts.specs.Faults.{fault_number};
ghost use Rattle.hosts.specs.Place.{about};
ghost use Rattle.hosts.specs.Saving.{AnyMomentOf, ClearsBeside, IsOrderCut, IsOrdered, SavesFile};
ghost use Rattle.hosts.specs.Streams.{errors, failures, folders, last_fault, may_replace, output, read};
ghost use Rattle.image_files.specs.Saving.{IsPlaceTold, Writes, directory_size};

use crate::notes::tell;
use crate::reasons::tell_reason;
use hosts::{Durability, Host, SaveFault, save_file};
use outcome::{Content, Ending, FileNote, Reason};
use std::alloc::Global;
use word12::{BLOCK, FIRST_FILE_BLOCK};

/// How many bytes of an image stand before the blocks of files.
const DIRECTORY: usize = FIRST_FILE_BLOCK * BLOCK * 2;

/// Has the held file of a path, which is for this, hold these bytes: whole or not at all, or in its place, which a note says before. A note after that says
/// where it isn't known whether a crash keeps them. Where it can't be done, the fault is printed on standard error, for which alone memory is
/// taken.
pub fn write_file<H: Host>(
    host: &mut H,
    alloc: Global,
    content: Content,
    path: &str,
    name: &str,
    bytes: &[u8],
) -> Result<(), Ending>
    ensures { Writes content path.now name.now bytes.now (H.history host.old) result (H.history host.new) }
{
    match save_noted(host, alloc, content, path, bytes) {
        Ok(durability) => match durability {
            Durability::Certain => Ok(()),
            Durability::Unknown => {
                tell(host, FileNote::NoSync.text(content));
                Ok(())
            }
        },
        Err(fault) => {
            tell_reason(host, alloc, name, Reason::Fault(fault.why));
            Err(Ending::NotWritten(content, fault.state))
        }
    }
}

/// Has the held file of a path hold these bytes, as `hosts::save_file` does, with the note on a file for this.
fn save_noted<H: Host>(
    host: &mut H,
    alloc: Global,
    content: Content,
    path: &str,
    bytes: &[u8],
) -> Result<Durability, SaveFault>
    ensures saves { SavesFile result (may_replace (H.history host.new)) bytes.now (about path.now (H.history host.old)) (about path.now (H.history host.new)) }
    ensures order { OnOk result (IsOrdered (may_replace (H.history host.new)) directory_size bytes.now (about path.now (H.history host.old)) (about path.now (H.history host.new))) }
    ensures order_cut { OnErr result (IsOrderCut (may_replace (H.history host.new)) directory_size bytes.now (about path.now (H.history host.old)) (about path.now (H.history host.new))) }
    ensures any_moment { AnyMomentOf (may_replace (H.history host.new)) bytes.now (about path.now (H.history host.old)) (about path.now (H.history host.new)) }
    ensures beside { ClearsBeside (about path.now (H.history host.old)) (about path.now (H.history host.new)) }
    ensures cause { OnErr result (failures (H.history host.old) < failures (H.history host.new)) }
    ensures why { IfErr result (λ fault. fault_number fault.why ≡ last_fault (H.history host.new)) }
    ensures errors { IsPlaceTold (may_replace (H.history host.new)) content (errors (H.history host.old)) (errors (H.history host.new)) }
    ensures others { (other : List ℕ) → bytes_eq path.now other ≡ false
        → about other (H.history host.new) ≡ about other (H.history host.old) }
    ensures output { output (H.history host.new) ≡ output (H.history host.old) }
    ensures read { read (H.history host.new) ≡ read (H.history host.old) }
    ensures folders { folders (H.history host.new) ≡ folders (H.history host.old) }
{
    let note = FileNote::InPlace.text(content);
    save_file(host, alloc, path, DIRECTORY, bytes, note)
}
