ghost use Rattle.std.specs.Prelude.{◌≡◌, ◌<◌, ℕ, List, [], ◌∷◌, IfOk, IfErr, OnErr};
ghost use Rattle.hosts.specs.Event.{resolve_call, hold_call, drop_seconds_call};
ghost use Rattle.hosts.specs.Place.{about};
ghost use Rattle.hosts.specs.Faults.{fault_number};
ghost use Rattle.hosts.specs.Streams.{output, errors, read, folders, failures, last_fault};

use crate::{Host, HostFault};
use std::alloc::Global;

/// A file that this program alone may write.
#[derive(Drop)]
pub struct Held {
    pub path: String,

    /// Whether the file is locked; where it isn't, its file system has no locks.
    pub has_lock: bool,
}

/// Holds a file that is there, through links. The answer is `Busy` where another program holds it, `Absent` where there is none, `Denied` or
/// `ReadOnly` where it may not be written, and `Pipe` where it is a pipe. No file changes.
pub fn hold_file<H: Host>(host: &mut H, alloc: Global, name: &str) -> Result<Held, HostFault>
    ensures holds { IfOk result (λ held. H.history host.new
        ≡ drop_seconds_call held.path.bytes.items ∷ hold_call held.path.bytes.items held.has_lock ∷ resolve_call name.now held.path.bytes.items ∷ H.history host.old) }
    ensures cause { OnErr result (failures (H.history host.old) < failures (H.history host.new)) }
    ensures why { IfErr result (λ fault. fault_number fault ≡ last_fault (H.history host.new)) }
    ensures files { (path : List ℕ) → about path (H.history host.new) ≡ about path (H.history host.old) }
    ensures output { output (H.history host.new) ≡ output (H.history host.old) }
    ensures errors { errors (H.history host.new) ≡ errors (H.history host.old) }
    ensures read { read (H.history host.new) ≡ read (H.history host.old) }
    ensures folders { folders (H.history host.new) ≡ folders (H.history host.old) }
{
    let path = host.resolve(alloc, name)?;
    let has_lock = host.hold(alloc, path.as_str())?;
    host.drop_seconds(path.as_str())?;
    Ok(Held { path, has_lock })
}
