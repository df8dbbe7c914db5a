//! Which entries are sound.
ghost use Rattle.std.specs.Prelude.{◌≡◌, ℕ, ◌++◌, ◌∷◌, [], ◌≤◌, ◌<◌, List, IfOk, OnOk, length, nat_eq, nat_lt, not, false, ◌||◌, ◌+◌, slice_index};
ghost use Rattle.archive_survey.specs.Findings.{files_found, names_after, why_unsound, with_name};
ghost use Rattle.archive_survey.specs.Lines.{count_faults, finding_lines, loss_lines};
ghost use Rattle.archive_survey.specs.Steps.{KnowsNames, has_key, findings_by, verdict_of};

use crate::items::push_item;
use crate::lines::{put_fault, put_part, put_unsound};
use crate::{FoundFile, Part};
use os8_dir::{DirFault, Name};
use std::alloc::AllocError;
use std::collections::BTreeSet;

/// The report of a part.
#[derive(Clone, Copy)]
pub enum Verdict {
    /// Nothing.
    Nothing,

    /// The part as it stands.
    Sound,

    /// A fault, and that the entry is unsound.
    Unsound(DirFault),
}

/// The four words of a name as one number to the base 0o10000.
fn number_of(name: Name) -> u64
    ensures { result ≡ name }
{
    let [a, b, c, d] = name.words();
    let high = u64::from(a.get()) * 0o10000 + u64::from(b.get());
    let low = u64::from(c.get()) * 0o10000 + u64::from(d.get());
    high * 0o100000000 + low
}

/// Why an entry is unsound, by where it lies alone.
fn is_past(volume: usize, place: u32, size: u32) -> bool
    ensures { result ≡ nat_lt volume (place + size) }
{
    (volume as u64) < u64::from(place) + u64::from(size)
}

/// Adds a name to those known, and says whether it is new.
fn add_name(names: &mut BTreeSet<u64>, name: Name) -> Result<bool, AllocError>
    ensures new { IfOk result (λ new. new ≡ not (has_key names.old name)) }
    ensures more { IfOk result (λ new. (q : ℕ) → has_key names.new q
        ≡ (has_key names.old q || nat_eq name q)) }
    ensures same { IfOk result (λ new. new ≡ false
        → (q : ℕ) → has_key names.new q ≡ has_key names.old q) }
{
    let new = names.insert(number_of(name))?;
    Ok(new)
}

/// Why the entry of a file is unsound; a sound one's name is known from then on.
fn judge_file(
    volume: usize,
    name: Name,
    place: u32,
    size: u32,
    names: &mut BTreeSet<u64>,
) -> Result<Option<DirFault>, AllocError>
    ensures why { IfOk result (λ why. why ≡ why_unsound volume place size (has_key names.old name)) }
    ensures names { IfOk result (λ why. (known : List ℕ) → KnowsNames names.old known
        → KnowsNames names.new (with_name why known name)) }
{
    if is_past(volume, place, size) {
        return Ok(Some(DirFault::PastVolume));
    }
    let new = add_name(names, name)?;
    if new {
        return Ok(None);
    }
    Ok(Some(DirFault::SameName))
}

/// The report of a part, where earlier sound entries have the names that are known; a sound one's name is known from then on.
pub(crate) fn judge(
    volume: usize,
    part: &Part,
    names: &mut BTreeSet<u64>,
) -> Result<Verdict, AllocError>
    ensures verdict { IfOk result (λ verdict. (known : List ℕ) → KnowsNames names.old known
        → verdict ≡ verdict_of volume known part.now) }
    ensures names { IfOk result (λ verdict. (known : List ℕ) → KnowsNames names.old known
        → KnowsNames names.new (names_after volume known part.now)) }
{
    match part {
        Part::Segment { .. } | Part::Fault(_) => Ok(Verdict::Sound),
        Part::File {
            name,
            place,
            size,
            ..
        } => {
            if *size == 0 {
                return Ok(Verdict::Nothing);
            }
            match judge_file(volume, *name, *place, *size, names)? {
                Some(fault) => Ok(Verdict::Unsound(fault)),
                None => Ok(Verdict::Sound),
            }
        }
        Part::Empty { place, size } => {
            if *size == 0 {
                return Ok(Verdict::Nothing);
            }
            if is_past(volume, *place, *size) {
                return Ok(Verdict::Unsound(DirFault::PastVolume));
            }
            Ok(Verdict::Sound)
        }
    }
}

/// Appends the lines of the report of a part.
pub(crate) fn put_part_lines(
    verdict: Verdict,
    part: &Part,
    out: &mut Vec<u8>,
) -> Result<(), AllocError>
    ensures { OnOk result (out.new.items ≡ out.old.items ++ finding_lines (findings_by verdict part.now)) }
{
    match verdict {
        Verdict::Nothing => Ok(()),
        Verdict::Sound => put_part(part, out),
        Verdict::Unsound(fault) => {
            put_fault(fault, out)?;
            put_unsound(out)?;
            put_part(part, out)
        }
    }
}

/// Appends the lines of the report of a part, where that is a fault.
pub(crate) fn put_loss(verdict: Verdict, part: &Part, out: &mut Vec<u8>) -> Result<(), AllocError>
    ensures { OnOk result (out.new.items ≡ out.old.items ++ loss_lines (findings_by verdict part.now)) }
{
    match verdict {
        Verdict::Nothing => Ok(()),
        Verdict::Sound => match part {
            Part::Fault(fault) => put_fault(*fault, out),
            Part::Segment { .. } | Part::File { .. } | Part::Empty { .. } => Ok(()),
        },
        Verdict::Unsound(fault) => {
            put_fault(fault, out)?;
            put_unsound(out)?;
            put_part(part, out)
        }
    }
}

/// Adds the file of a part that is sound.
pub(crate) fn put_found(
    verdict: Verdict,
    part: &Part,
    files: &mut Vec<FoundFile>,
) -> Result<(), AllocError>
    ensures { OnOk result (files.new.items ≡ files.old.items ++ files_found (findings_by verdict part.now)) }
{
    match verdict {
        Verdict::Nothing | Verdict::Unsound(_) => Ok(()),
        Verdict::Sound => match part {
            Part::Segment { .. } | Part::Fault(_) | Part::Empty { .. } => Ok(()),
            Part::File {
                name,
                info,
                place,
                size,
            } => {
                let file = FoundFile {
                    name: *name,
                    info: *info,
                    place: *place as usize,
                    size: *size as usize,
                };
                push_item(files, file)
            }
        },
    }
}

/// How many faults of a part are reported.
pub(crate) fn count_of_faults(verdict: Verdict, part: &Part) -> usize
    ensures count { result ≡ count_faults (findings_by verdict part.now) }
    ensures one { result ≤ 1 }
{
    match verdict {
        Verdict::Nothing => 0,
        Verdict::Unsound(_) => 1,
        Verdict::Sound => match part {
            Part::Fault(_) => 1,
            Part::Segment { .. } | Part::File { .. } | Part::Empty { .. } => 0,
        },
    }
}
