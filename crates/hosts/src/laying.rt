ghost use Rattle.std.specs.Prelude.{◌≡◌, ◌<◌, ◌≤◌, ◌+◌, ◌⊎◌, ℕ, List, [], ◌∷◌, true, false, IfErr, OnErr, OnOk};
ghost use Rattle.std.specs.Str.{bytes_eq};
ghost use Rattle.hosts.specs.Event.{there_call};
ghost use Rattle.hosts.specs.Faults.{fault_number};
ghost use Rattle.hosts.specs.Place.{about};
ghost use Rattle.hosts.specs.Saving.{Lays, ClearsBeside, StaysAsItWas, replacements};
ghost use Rattle.hosts.specs.SavingSteps.{AreDatedCalls, IsQuiet, laid_calls};
ghost use Rattle.hosts.specs.Streams.{output, errors, read, folders, failures, last_fault};
ghost use Rattle.hosts.specs.Times.{file_time};

use crate::faults::{rename_cause, step_fault};
use crate::making::take_path;
use crate::saving::give_up;
use crate::{Host, HostFault, LinkFault};
use std::alloc::Global;

/// Lays a file of these bytes: it is made beside its name, and gets that once it is whole. Where one of the name is there the answer is
/// `Busy`, unless that is to be replaced. It is replaced once at most, and stays as it was where the new one can't take its place. When the
/// bytes come to the disk is left to the system. Where seconds are given it was last changed so long after the begin of 1970 in UTC, or has
/// the time of its writing where the system can't set that.
pub fn lay<H: Host>(
    host: &mut H,
    alloc: Global,
    name: &str,
    bytes: &[u8],
    seconds: Option<u64>,
    replaces: bool,
) -> Result<(), HostFault>
    ensures replaced { replaces ≡ false → replacements (about name.now (H.history host.new)) ≡ replacements (about name.now (H.history host.old)) }
    ensures once { replacements (about name.now (H.history host.new)) ≤ replacements (about name.now (H.history host.old)) + 1 }
    ensures refused { replaces ≡ true → OnErr result (StaysAsItWas (about name.now (H.history host.old)) (about name.now (H.history host.new))) }
    ensures lays { Lays result bytes.now (about name.now (H.history host.old)) (about name.now (H.history host.new)) }
    ensures beside { ClearsBeside (about name.now (H.history host.old)) (about name.now (H.history host.new)) }
    ensures time { OnOk result (file_time (about name.now (H.history host.new)) ≡ seconds) }
    ensures cause { OnErr result ((failures (H.history host.old) < failures (H.history host.new))
        ⊎ (H.history host.new ≡ there_call name.now true ∷ H.history host.old)) }
    ensures why { IfErr result (λ fault. fault_number fault ≡ last_fault (H.history host.new)) }
    ensures others { (other : List ℕ) → bytes_eq name.now other ≡ false
        → about other (H.history host.new) ≡ about other (H.history host.old) }
    ensures output { output (H.history host.new) ≡ output (H.history host.old) }
    ensures errors { errors (H.history host.new) ≡ errors (H.history host.old) }
    ensures read { read (H.history host.new) ≡ read (H.history host.old) }
    ensures folders { folders (H.history host.new) ≡ folders (H.history host.old) }
{
    if !replaces && host.is_there(name) {
        return Err(HostFault::Busy);
    }
    prepare_laid(host, alloc, name, bytes, seconds)?;
    if replaces {
        return match host.rename(name) {
            Ok(()) => Ok(()),
            Err(fault) => {
                give_up(host, name);
                Err(rename_cause(fault))
            }
        };
    }
    match host.link_new(name) {
        Ok(()) => {
            give_up(host, name);
            Ok(())
        }
        Err(fault) => match fault {
            LinkFault::Exists => {
                give_up(host, name);
                Err(HostFault::Busy)
            }
            LinkFault::Failed(why) => {
                give_up(host, name);
                Err(step_fault(why))
            }
            LinkFault::NoLinks => match take_path(host, name) {
                Ok(()) => Ok(()),
                Err(fault) => Err(fault),
            },
        },
    }
}

/// Makes a file of these bytes beside a name, of a time if one is given. Where it can't be made, that file is taken away.
fn prepare_laid<H: Host>(
    host: &mut H,
    alloc: Global,
    name: &str,
    bytes: &[u8],
    seconds: Option<u64>,
) -> Result<(), HostFault>
    ensures ready { OnOk result (AreDatedCalls seconds name.now (laid_calls name.now bytes.now (H.history host.old)) (H.history host.new)) }
    ensures quiet { OnErr result (IsQuiet name.now (H.history host.old) (H.history host.new)) }
    ensures why { IfErr result (λ fault. fault_number fault ≡ last_fault (H.history host.new)) }
{
    host.make_beside(alloc, name)?;
    if let Err(fault) = host.lock_beside(name) {
        give_up(host, name);
        return Err(step_fault(fault));
    }
    if let Err(fault) = host.write_beside(name, bytes) {
        give_up(host, name);
        return Err(step_fault(fault));
    }
    date_laid(host, name, seconds);
    Ok(())
}

/// Gives the file beside a name a time, if one is given and the system can set it.
fn date_laid<H: Host>(host: &mut H, name: &str, seconds: Option<u64>)
    ensures { AreDatedCalls seconds name.now (H.history host.old) (H.history host.new) }
{
    if let Some(seconds) = seconds {
        let _ = host.date_beside(name, seconds);
    }
}
