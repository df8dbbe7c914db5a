ghost use Rattle.std.specs.Prelude.{◌≡◌, ◌<◌, ◌≤◌, ℕ, List, [], ◌∷◌, false, IfErr, OnErr, OnOk};
ghost use Rattle.std.specs.Str.{bytes_eq};
ghost use Rattle.hosts.specs.Event.{drop_call};
ghost use Rattle.hosts.specs.Faults.{IsWhy, fault_number};
ghost use Rattle.hosts.specs.Place.{Step, about};
ghost use Rattle.hosts.specs.Saving.{Saves, SavesFile, ClearsBeside, AnyMoment, AnyMomentOf, IsPlaceNoted, IsNotedBefore, IsWrittenOver, IsHeadLast, IsCutShort, IsOrdered, IsOrderCut, still_may, writes_over};
ghost use Rattle.hosts.specs.SavingSteps.{IsQuiet, ready_calls};
ghost use Rattle.hosts.specs.Streams.{before_told, output, errors, read, folders, failures, last_fault, may_replace};
ghost use Rattle.hosts.specs.declared.faults.Unwritten.TheVariants.{AsItWas};

use crate::faults::step_fault;
use crate::{Durability, Host, HostFault, RenameFault, SaveFault, Unwritten};
use std::alloc::Global;

/// Has the path of the held file lead to a file of these bytes, whole or not at all. A file beside it is written and comes to the disk, and
/// then takes the path. No memory is taken.
pub fn save<H: Host>(
    host: &mut H,
    alloc: Global,
    path: &str,
    bytes: &[u8],
) -> Result<Durability, RenameFault>
    ensures saves { Saves result bytes.now (about path.now (H.history host.old)) (about path.now (H.history host.new)) }
    ensures beside { ClearsBeside (about path.now (H.history host.old)) (about path.now (H.history host.new)) }
    ensures in_place { writes_over (about path.now (H.history host.new)) ≡ writes_over (about path.now (H.history host.old)) }
    ensures any_moment { AnyMoment bytes.now (about path.now (H.history host.old)) (about path.now (H.history host.new)) }
    ensures cause { OnErr result (failures (H.history host.old) < failures (H.history host.new)) }
    ensures others { (other : List ℕ) → bytes_eq path.now other ≡ false
        → about other (H.history host.new) ≡ about other (H.history host.old) }
    ensures output { output (H.history host.new) ≡ output (H.history host.old) }
    ensures errors { errors (H.history host.new) ≡ errors (H.history host.old) }
    ensures read { read (H.history host.new) ≡ read (H.history host.old) }
    ensures folders { folders (H.history host.new) ≡ folders (H.history host.old) }
    ensures alone { may_replace (H.history host.new) ≡ still_may result (may_replace (H.history host.old)) }
    ensures why { IfErr result (λ fault. IsWhy fault (last_fault (H.history host.new))) }
{
    if let Err(why) = prepare(host, alloc, path, bytes) {
        return Err(RenameFault::Failed(why));
    }
    if !host.leads_to_held(path) {
        give_up(host, path);
        return Err(RenameFault::Failed(HostFault::Busy));
    }
    match host.rename(path) {
        Ok(()) => match host.sync_folder(path) {
            Ok(()) => Ok(Durability::Certain),
            Err(_) => Ok(Durability::Unknown),
        },
        Err(fault) => match fault {
            RenameFault::Mount => {
                give_up(host, path);
                Err(RenameFault::Mount)
            }
            RenameFault::Failed(why) => {
                give_up(host, path);
                Err(RenameFault::Failed(step_fault(why)))
            }
        },
    }
}

/// Makes a file of these bytes beside a path, with the owner and the permissions of the held one, and has the disk hold it. Where it can't,
/// that file is taken away.
fn prepare<H: Host>(host: &mut H, alloc: Global, path: &str, bytes: &[u8]) -> Result<(), HostFault>
    ensures ready { OnOk result (H.history host.new ≡ ready_calls path.now bytes.now (H.history host.old)) }
    ensures quiet { OnErr result (IsQuiet path.now (H.history host.old) (H.history host.new)) }
    ensures why { IfErr result (λ fault. fault_number fault ≡ last_fault (H.history host.new)) }
{
    host.make_beside(alloc, path)?;
    if let Err(fault) = host.own_beside(path) {
        give_up(host, path);
        return Err(step_fault(fault));
    }
    if let Err(fault) = host.lock_beside(path) {
        give_up(host, path);
        return Err(step_fault(fault));
    }
    if let Err(fault) = host.write_beside(path, bytes) {
        give_up(host, path);
        return Err(step_fault(fault));
    }
    if let Err(fault) = host.sync_beside(path) {
        give_up(host, path);
        return Err(step_fault(fault));
    }
    Ok(())
}

/// Takes away the file beside a path.
pub(crate) fn give_up<H: Host>(host: &mut H, path: &str)
    ensures beside { (before : List Step) → ClearsBeside before (about path.now (H.history host.new)) }
    ensures call { (ok : _) × (number : _) × (H.history host.new ≡ drop_call path.now ok number ∷ H.history host.old) }
{
    match host.drop_beside(path) {
        Ok(()) => {}
        Err(_) => {}
    }
}

/// Writes bytes over the held file in its place, and has the disk hold it: those from `first` on before the others.
pub fn write_over<H: Host>(
    host: &mut H,
    path: &str,
    first: usize,
    bytes: &[u8],
) -> Result<(), HostFault>
    ensures told { before_told (H.history host.new) ≡ before_told (H.history host.old) }
    ensures head_last { OnOk result (IsHeadLast first bytes.now (about path.now (H.history host.old)) (about path.now (H.history host.new))) }
    ensures cut_short { OnErr result (IsCutShort first bytes.now (about path.now (H.history host.old)) (about path.now (H.history host.new))) }
    ensures over { OnOk result (IsWrittenOver bytes.now (about path.now (H.history host.old)) (about path.now (H.history host.new))) }
    ensures beside { ClearsBeside (about path.now (H.history host.old)) (about path.now (H.history host.new)) }
    ensures cause { OnErr result (failures (H.history host.old) < failures (H.history host.new)) }
    ensures others { (other : List ℕ) → bytes_eq path.now other ≡ false
        → about other (H.history host.new) ≡ about other (H.history host.old) }
    ensures output { output (H.history host.new) ≡ output (H.history host.old) }
    ensures errors { errors (H.history host.new) ≡ errors (H.history host.old) }
    ensures read { read (H.history host.new) ≡ read (H.history host.old) }
    ensures folders { folders (H.history host.new) ≡ folders (H.history host.old) }
    ensures alone { may_replace (H.history host.new) ≡ may_replace (H.history host.old) }
    ensures why { IfErr result (λ fault. fault_number fault ≡ last_fault (H.history host.new)) }
{
    if bytes.len() <= first {
        host.write_over(path, 0, bytes)?;
        host.finish_over(path, bytes.len())?;
        return Ok(());
    }
    let (head, rest) = bytes.split_at(first);
    host.write_over(path, first, rest)?;
    host.write_over(path, 0, head)?;
    host.finish_over(path, bytes.len())?;
    Ok(())
}

/// Has the held file hold these bytes, whole or not at all where a new file may take its path. Else it is written in its place, those from
/// `first` on before the others, and before that the note is printed on standard error, if it has a byte. No memory is taken.
pub fn save_file<H: Host>(
    host: &mut H,
    alloc: Global,
    path: &str,
    first: usize,
    bytes: &[u8],
    note: &str,
) -> Result<Durability, SaveFault>
    ensures order { OnOk result (IsOrdered (may_replace (H.history host.new)) first bytes.now (about path.now (H.history host.old)) (about path.now (H.history host.new))) }
    ensures order_cut { OnErr result (IsOrderCut (may_replace (H.history host.new)) first bytes.now (about path.now (H.history host.old)) (about path.now (H.history host.new))) }
    ensures saves { SavesFile result (may_replace (H.history host.new)) bytes.now (about path.now (H.history host.old)) (about path.now (H.history host.new)) }
    ensures beside { ClearsBeside (about path.now (H.history host.old)) (about path.now (H.history host.new)) }
    ensures any_moment { AnyMomentOf (may_replace (H.history host.new)) bytes.now (about path.now (H.history host.old)) (about path.now (H.history host.new)) }
    ensures cause { OnErr result (failures (H.history host.old) < failures (H.history host.new)) }
    ensures others { (other : List ℕ) → bytes_eq path.now other ≡ false
        → about other (H.history host.new) ≡ about other (H.history host.old) }
    ensures output { output (H.history host.new) ≡ output (H.history host.old) }
    ensures noted { IsPlaceNoted (may_replace (H.history host.new)) note.now (errors (H.history host.old)) (errors (H.history host.new)) }
    ensures noted_first { IsNotedBefore (may_replace (H.history host.new)) note.now (about path.now (H.history host.old)) (about path.now (before_told (H.history host.new))) }
    ensures read { read (H.history host.new) ≡ read (H.history host.old) }
    ensures folders { folders (H.history host.new) ≡ folders (H.history host.old) }
    ensures why { IfErr result (λ fault. fault_number fault.why ≡ last_fault (H.history host.new)) }
{
    let is_alone = match host.is_alone(path) {
        Ok(is_alone) => is_alone,
        Err(why) => return Err(save_fault(why)),
    };
    if !is_alone {
        return save_over(host, path, first, bytes, note);
    }
    match save(host, alloc, path, bytes) {
        Ok(durability) => Ok(durability),
        Err(fault) => match fault {
            RenameFault::Failed(why) => Err(save_fault(why)),
            RenameFault::Mount => save_over(host, path, first, bytes, note),
        },
    }
}

/// A file that could not be written for this reason, and is as it was.
fn save_fault(why: HostFault) -> SaveFault
    ensures { result ≡ record { state = AsItWas; why = why } }
{
    let state = Unwritten::AsItWas;
    SaveFault { state, why }
}

/// Has the held file hold these bytes in its place, after the note.
fn save_over<H: Host>(
    host: &mut H,
    path: &str,
    first: usize,
    bytes: &[u8],
    note: &str,
) -> Result<Durability, SaveFault>
    ensures head_last { OnOk result (IsHeadLast first bytes.now (about path.now (H.history host.old)) (about path.now (H.history host.new))) }
    ensures cut_short { OnErr result (IsCutShort first bytes.now (about path.now (H.history host.old)) (about path.now (H.history host.new))) }
    ensures saves { SavesFile result false bytes.now (about path.now (H.history host.old)) (about path.now (H.history host.new)) }
    ensures beside { ClearsBeside (about path.now (H.history host.old)) (about path.now (H.history host.new)) }
    ensures cause { OnErr result (failures (H.history host.old) < failures (H.history host.new)) }
    ensures others { (other : List ℕ) → bytes_eq path.now other ≡ false
        → about other (H.history host.new) ≡ about other (H.history host.old) }
    ensures output { output (H.history host.new) ≡ output (H.history host.old) }
    ensures noted { IsPlaceNoted false note.now (errors (H.history host.old)) (errors (H.history host.new)) }
    ensures noted_first { IsNotedBefore false note.now (about path.now (H.history host.old)) (about path.now (before_told (H.history host.new))) }
    ensures read { read (H.history host.new) ≡ read (H.history host.old) }
    ensures folders { folders (H.history host.new) ≡ folders (H.history host.old) }
    ensures alone { may_replace (H.history host.new) ≡ may_replace (H.history host.old) }
    ensures why { IfErr result (λ fault. fault_number fault.why ≡ last_fault (H.history host.new)) }
{
    note_place(host, note);
    match write_over(host, path, first, bytes) {
        Ok(()) => Ok(Durability::Certain),
        Err(why) => {
            let state = Unwritten::InPart;
            Err(SaveFault { state, why })
        }
    }
}

/// Prints a note, if it has a byte.
fn note_place<H: Host>(host: &mut H, note: &str)
    ensures failures { failures (H.history host.old) ≤ failures (H.history host.new) }
    ensures files { (path : List ℕ) → about path (H.history host.new) ≡ about path (H.history host.old) }
    ensures noted { IsPlaceNoted false note.now (errors (H.history host.old)) (errors (H.history host.new)) }
    ensures noted_first { (path : List ℕ) → IsNotedBefore false note.now (about path (H.history host.old)) (about path (before_told (H.history host.new))) }
    ensures output { output (H.history host.new) ≡ output (H.history host.old) }
    ensures read { read (H.history host.new) ≡ read (H.history host.old) }
    ensures folders { folders (H.history host.new) ≡ folders (H.history host.old) }
    ensures alone { may_replace (H.history host.new) ≡ may_replace (H.history host.old) }
{
    if note.is_empty() {
        return;
    }
    let _ = host.tell(note);
}
