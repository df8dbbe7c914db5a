ghost use Rattle.std.specs.Prelude.{◌≡◌, ℕ, ◌+◌, ◌<◌, ◌≤◌, ◌++◌, [], List, false, min, length, slice_index, IfOk, OnOk};
ghost use Rattle.volume_image.specs.Volume.{IsVolume};
ghost use Rattle.archive_survey.specs.Findings.{files_found, findings_of};
ghost use Rattle.archive_survey.specs.Lines.{claims, count_faults, count_runs, finding_lines, is_twice, loss_lines, run_lines};
ghost use Rattle.archive_survey.specs.Surveying.{IsSurveyOf, Surveys};

use crate::answers::{FoundFile, Survey};
use crate::claims::{claim, put_runs};
use crate::judging::{count_of_faults, judge, put_found, put_loss, put_part_lines};
use crate::parts::Part;
use crate::reading::parts;
use std::alloc::{AllocError, Global};
use std::collections::BTreeSet;
use volume_image::{BlockStore, ImageFault, MemoryVolume};

/// Reports what the directory of an image still holds. The image is accepted or refused as by a mount (OS/8 Software Support Manual;
/// the faults, their order and the lines are this project's profile). It lists each segment that the links lead to, each fault in
/// order, each entry with its first block and its length, and the blocks that two sound entries claim.
pub fn survey(alloc: Global, image: &[u8]) -> Result<Survey, ImageFault>
    ensures { Surveys image.now result }
{
    let volume = MemoryVolume::from_bytes(alloc, image)?;
    match survey_volume(alloc, &volume) {
        Ok(told) => Ok(told),
        Err(error) => Err(ImageFault::from(error)),
    }
}

/// Reports what the directory of a volume still holds, as [`survey`] does, and which files are sound, each with its whole information
/// words (OS/8 Software Support Manual).
#[tactic(auto, unfolding(crate::specs::Findings::findings, crate::specs::Lines::survey_text, crate::specs::Lines::survey_losses, crate::specs::Lines::survey_faults))]
pub fn survey_volume(alloc: Global, volume: &MemoryVolume) -> Result<Survey, AllocError>
    requires { IsVolume volume.now.blocks }
    ensures { IfOk result (λ survey. IsSurveyOf volume.now.blocks survey) }
{
    let found = parts(alloc, volume)?;
    let blocks = volume.blocks();
    let mut counts = zeros(alloc, blocks)?;
    let mut text = Vec::new(alloc);
    let mut losses = Vec::new(alloc);
    let mut files = Vec::new(alloc);
    let faults = put_all(
        alloc,
        blocks,
        &found,
        &mut counts,
        &mut text,
        &mut losses,
        &mut files,
    )?;
    Ok(Survey {
        text,
        losses,
        files,
        faults,
    })
}

/// Appends the lines of the report of parts, and of the blocks that two sound entries claim. It also appends those of the lines that
/// report faults, and the sound files, and answers how many faults there are. Each block of the volume has a count, which is 0.
fn put_all(
    alloc: Global,
    volume: usize,
    parts: &[Part],
    counts: &mut [u8],
    text: &mut Vec<u8>,
    losses: &mut Vec<u8>,
    files: &mut Vec<FoundFile>,
) -> Result<usize, AllocError>
    requires size { length counts.old ≡ volume }
    requires zeros { (k : ℕ) → slice_index counts.old k ≡ 0 }
    ensures lines { OnOk result (text.new.items ≡ text.old.items ++ (finding_lines (findings_of volume [] parts.now)
        ++ run_lines (is_twice (findings_of volume [] parts.now)) false volume 0)) }
    ensures losses { OnOk result (losses.new.items ≡ losses.old.items ++ (loss_lines (findings_of volume [] parts.now)
        ++ run_lines (is_twice (findings_of volume [] parts.now)) false volume 0)) }
    ensures files { OnOk result (files.new.items ≡ files.old.items
        ++ files_found (findings_of volume [] parts.now)) }
    ensures faults { IfOk result (λ faults. faults ≡ count_faults (findings_of volume [] parts.now)
        + count_runs (is_twice (findings_of volume [] parts.now)) false volume 0) }
{
    let faults = put_findings(alloc, volume, parts, counts, text, losses, files)?;
    let runs = put_runs(counts, text)?;
    put_runs(counts, losses)?;
    Ok(faults + runs)
}

/// So many zeros.
fn zeros(alloc: Global, count: usize) -> Result<Vec<u8>, AllocError>
    ensures size { IfOk result (λ counts. length counts.items ≡ count) }
    ensures zero { IfOk result (λ counts. (k : ℕ) → slice_index counts.items k ≡ 0) }
{
    let mut counts = Vec::new(alloc);
    counts.resize(count, 0)?;
    Ok(counts)
}

/// Appends the lines of the report of parts, those of them that report faults, and the sound files. It counts the claims of each block up
/// to two, and answers how many faults are reported.
fn put_findings(
    alloc: Global,
    volume: usize,
    parts: &[Part],
    counts: &mut [u8],
    text: &mut Vec<u8>,
    losses: &mut Vec<u8>,
    files: &mut Vec<FoundFile>,
) -> Result<usize, AllocError>
    ensures text { OnOk result (text.new.items ≡ text.old.items
        ++ finding_lines (findings_of volume [] parts.now)) }
    ensures losses { OnOk result (losses.new.items ≡ losses.old.items
        ++ loss_lines (findings_of volume [] parts.now)) }
    ensures files { OnOk result (files.new.items ≡ files.old.items
        ++ files_found (findings_of volume [] parts.now)) }
    ensures faults { IfOk result (λ faults. faults ≡ count_faults (findings_of volume [] parts.now)) }
    ensures few { IfOk result (λ faults. faults ≤ length parts.now) }
    ensures counts { OnOk result ((k : ℕ) → k < length counts.old → min 2 (slice_index counts.new k)
        ≡ min 2 (slice_index counts.old k + claims (findings_of volume [] parts.now) k)) }
{
    let mut names = BTreeSet::new(alloc);
    let mut faults = 0;
    let mut rest = parts;
    while let [part, others @ ..] = rest {
        let verdict = judge(volume, part, &mut names)?;
        put_part_lines(verdict, part, text)?;
        put_loss(verdict, part, losses)?;
        put_found(verdict, part, files)?;
        claim(verdict, part, counts);
        faults += count_of_faults(verdict, part);
        rest = others;
    }
    Ok(faults)
}
