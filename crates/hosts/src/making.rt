ghost use Rattle.std.specs.Prelude.{◌≡◌, ◌<◌, ℕ, List, [], ◌∷◌, false, IfErr, OnErr, OnOk};
ghost use Rattle.std.specs.Str.{bytes_eq};
ghost use Rattle.hosts.specs.Faults.{fault_number};
ghost use Rattle.hosts.specs.Place.{Step, about};
ghost use Rattle.hosts.specs.Saving.{Makes, ClearsBeside, AnyMomentOf, replacements};
ghost use Rattle.hosts.specs.SavingSteps.{Takes, IsQuiet, new_calls};
ghost use Rattle.hosts.specs.Streams.{output, errors, read, folders, failures, last_fault, path_of_name, asked_name, has_links};
ghost use Rattle.hosts.specs.Times.{beside_time, file_time};

use crate::faults::{rename_cause, step_fault};
use crate::saving::give_up;
use crate::{Durability, Host, HostFault, LinkFault};
use std::alloc::Global;

/// Makes a file of these bytes, where there is none of this name, or of the one that a link of this name leads to. The answer is `Busy`
/// where another program has made one meanwhile. The file is there whole or not at all. Its path is the one that the host gives for
/// this name.
pub fn make<H: Host>(
    host: &mut H,
    alloc: Global,
    name: &str,
    bytes: &[u8],
) -> Result<Durability, HostFault>
    ensures asked { asked_name (H.history host.new) ≡ name.now }
    ensures replaced { replacements (about (path_of_name (H.history host.new)) (H.history host.new)) ≡ replacements (about (path_of_name (H.history host.new)) (H.history host.old)) }
    ensures makes { Makes result bytes.now (about (path_of_name (H.history host.new)) (H.history host.old)) (about (path_of_name (H.history host.new)) (H.history host.new)) }
    ensures beside { ClearsBeside (about (path_of_name (H.history host.new)) (H.history host.old)) (about (path_of_name (H.history host.new)) (H.history host.new)) }
    ensures any_moment { AnyMomentOf (has_links (H.history host.new)) bytes.now (about (path_of_name (H.history host.new)) (H.history host.old)) (about (path_of_name (H.history host.new)) (H.history host.new)) }
    ensures cause { OnErr result (failures (H.history host.old) < failures (H.history host.new)) }
    ensures why { IfErr result (λ fault. fault_number fault ≡ last_fault (H.history host.new)) }
    ensures others { (other : List ℕ) → bytes_eq (path_of_name (H.history host.new)) other ≡ false
        → about other (H.history host.new) ≡ about other (H.history host.old) }
    ensures output { output (H.history host.new) ≡ output (H.history host.old) }
    ensures errors { errors (H.history host.new) ≡ errors (H.history host.old) }
    ensures read { read (H.history host.new) ≡ read (H.history host.old) }
    ensures folders { folders (H.history host.new) ≡ folders (H.history host.old) }
{
    match host.free_path(alloc, name) {
        Ok(path) => make_at(host, alloc, path.as_str(), bytes),
        Err(fault) => Err(fault),
    }
}

/// Makes a file of these bytes at a path that no file has, whole or not at all: `Busy` where another program has made one meanwhile. It is
/// made beside the path and comes to the disk, and then gets that as a further name, if no file has it. Its lock is held meanwhile, so no
/// writer comes to it before its name beside is gone.
pub fn make_at<H: Host>(
    host: &mut H,
    alloc: Global,
    path: &str,
    bytes: &[u8],
) -> Result<Durability, HostFault>
    ensures replaced { replacements (about path.now (H.history host.new)) ≡ replacements (about path.now (H.history host.old)) }
    ensures makes { Makes result bytes.now (about path.now (H.history host.old)) (about path.now (H.history host.new)) }
    ensures beside { ClearsBeside (about path.now (H.history host.old)) (about path.now (H.history host.new)) }
    ensures any_moment { AnyMomentOf (has_links (H.history host.new)) bytes.now (about path.now (H.history host.old)) (about path.now (H.history host.new)) }
    ensures cause { OnErr result (failures (H.history host.old) < failures (H.history host.new)) }
    ensures why { IfErr result (λ fault. fault_number fault ≡ last_fault (H.history host.new)) }
    ensures others { (other : List ℕ) → bytes_eq path.now other ≡ false
        → about other (H.history host.new) ≡ about other (H.history host.old) }
    ensures output { output (H.history host.new) ≡ output (H.history host.old) }
    ensures errors { errors (H.history host.new) ≡ errors (H.history host.old) }
    ensures read { read (H.history host.new) ≡ read (H.history host.old) }
    ensures folders { folders (H.history host.new) ≡ folders (H.history host.old) }
    ensures path { path_of_name (H.history host.new) ≡ path_of_name (H.history host.old) }
    ensures asked { asked_name (H.history host.new) ≡ asked_name (H.history host.old) }
{
    prepare_new(host, alloc, path, bytes)?;
    match host.link_new(path) {
        Ok(()) => {
            give_up(host, path);
            match host.sync_folder(path) {
                Ok(()) => Ok(Durability::Certain),
                Err(_) => Ok(Durability::Unknown),
            }
        }
        Err(fault) => match fault {
            LinkFault::Exists => {
                give_up(host, path);
                Err(HostFault::Busy)
            }
            LinkFault::Failed(why) => {
                give_up(host, path);
                Err(step_fault(why))
            }
            LinkFault::NoLinks => match take_path(host, path) {
                Ok(()) => match host.sync_folder(path) {
                    Ok(()) => Ok(Durability::Certain),
                    Err(_) => Ok(Durability::Unknown),
                },
                Err(fault) => Err(fault),
            },
        },
    }
}

/// Gives the file beside a path that, which no file may have: an empty file takes it first, so no file of another program is replaced.
/// Where it can't, both are taken away.
pub(crate) fn take_path<H: Host>(host: &mut H, path: &str) -> Result<(), HostFault>
    ensures replaced { replacements (about path.now (H.history host.new)) ≡ replacements (about path.now (H.history host.old)) }
    ensures takes { Takes result (about path.now (H.history host.old)) (about path.now (H.history host.new)) }
    ensures beside { (before : List Step) → ClearsBeside before (about path.now (H.history host.new)) }
    ensures time { OnOk result (file_time (about path.now (H.history host.new)) ≡ beside_time (about path.now (H.history host.old))) }
    ensures cause { OnErr result (failures (H.history host.old) < failures (H.history host.new)) }
    ensures why { IfErr result (λ fault. fault_number fault ≡ last_fault (H.history host.new)) }
    ensures others { (other : List ℕ) → bytes_eq path.now other ≡ false
        → about other (H.history host.new) ≡ about other (H.history host.old) }
    ensures output { output (H.history host.new) ≡ output (H.history host.old) }
    ensures errors { errors (H.history host.new) ≡ errors (H.history host.old) }
    ensures read { read (H.history host.new) ≡ read (H.history host.old) }
    ensures folders { folders (H.history host.new) ≡ folders (H.history host.old) }
    ensures path { path_of_name (H.history host.new) ≡ path_of_name (H.history host.old) }
    ensures asked { asked_name (H.history host.new) ≡ asked_name (H.history host.old) }
    ensures links { has_links (H.history host.new) ≡ has_links (H.history host.old) }
{
    if let Err(fault) = host.claim(path) {
        give_up(host, path);
        return Err(fault);
    }
    match host.rename(path) {
        Ok(()) => Ok(()),
        Err(fault) => match host.drop_claim(path) {
            Ok(()) => {
                give_up(host, path);
                Err(rename_cause(fault))
            }
            Err(_) => {
                give_up(host, path);
                Err(rename_cause(fault))
            }
        },
    }
}

/// Makes a file of these bytes beside a path, and has the disk hold it. Where it can't, that file is taken away.
fn prepare_new<H: Host>(
    host: &mut H,
    alloc: Global,
    path: &str,
    bytes: &[u8],
) -> Result<(), HostFault>
    ensures ready { OnOk result (H.history host.new ≡ new_calls path.now bytes.now (H.history host.old)) }
    ensures quiet { OnErr result (IsQuiet path.now (H.history host.old) (H.history host.new)) }
    ensures why { IfErr result (λ fault. fault_number fault ≡ last_fault (H.history host.new)) }
{
    host.make_beside(alloc, path)?;
    if let Err(fault) = host.lock_beside(path) {
        give_up(host, path);
        return Err(step_fault(fault));
    }
    if let Err(fault) = host.write_beside(path, bytes) {
        give_up(host, path);
        return Err(step_fault(fault));
    }
    if let Err(fault) = host.sync_beside(path) {
        give_up(host, path);
        return Err(step_fault(fault));
    }
    Ok(())
}
