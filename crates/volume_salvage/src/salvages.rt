//! The files that a damaged volume still shows, in a new one.
ghost use Rattle.std.specs.Prelude.{◌≡◌, IfErr, IfOk};
ghost use Rattle.volume_image.specs.Image.{IsImageOf};
ghost use Rattle.volume_salvage.specs.Rescued.{IsFitted};
ghost use Rattle.volume_image.specs.Volume.{IsVolume};
ghost use Rattle.volume_salvage.specs.Salvaging.{IsNoImage, IsSalvageOf, Salvages, is_complete as is_complete_salvage, rescued_text};

use crate::lines::{count_kept, put_files, put_rescued};
use crate::words::files_with_words;
use crate::{FittedVolume, KeptFile, volume_of_what_fits};
use archive_files::ArchiveFault;
use archive_survey::laws::sound_files;
use archive_survey::survey_volume;
use refusals::SessionFault;
use std::alloc::{AllocError, Global};
use volume_image::{BlockStore, ImageFault, MemoryVolume};

/// A new volume, and what of the old one it has not.
#[derive(Drop)]
pub struct Salvage {
    /// The image of the new volume, of as many blocks as the old one.
    pub image: Vec<u8>,

    /// The lines of the old directory's faults, of the files that are left out, and of those that are kept without some of their
    /// information words.
    pub losses: Vec<u8>,

    /// How many files the new volume has.
    pub files: usize,
}

impl Salvage {
    /// The lines of what is lost, and then one that counts the files that are kept (this project's profile).
    pub fn lines(&self, alloc: Global) -> Result<Vec<u8>, AllocError>
        ensures { IfOk result (λ lines. lines.items ≡ rescued_text self.now) }
    {
        let mut lines = self.losses.to_vec(alloc)?;
        put_rescued(self.files, &mut lines)?;
        Ok(lines)
    }

    /// Whether no line reports a loss.
    pub fn is_complete(&self) -> bool
        ensures { result ≡ is_complete_salvage self.now }
    {
        self.losses.is_empty()
    }
}

/// A new volume of as many blocks with each file that the directory of an image, which may be damaged, still shows, in their order.
/// Each has its name, its words and its first information word, which has its date (OS/8 Software Support Manual; which entries are
/// sound, and the lines, are this project's profile). Bytes that are no image are refused.
pub fn salvage_image(alloc: Global, image: &[u8]) -> Result<Salvage, ArchiveFault>
    ensures { Salvages image.now result }
{
    let volume = volume_of(alloc, image)?;
    match salvage_volume(alloc, &volume) {
        Ok(salvaged) => Ok(salvaged),
        Err(error) => Err(ArchiveFault::from(error)),
    }
}

/// The volume of an image, whatever its directory says.
pub(crate) fn volume_of(alloc: Global, image: &[u8]) -> Result<MemoryVolume, ArchiveFault>
    ensures volume { IfOk result (λ volume. IsImageOf image.now volume.blocks) }
    ensures fault { IfErr result (IsNoImage image.now) }
{
    match MemoryVolume::from_bytes(alloc, image) {
        Ok(volume) => Ok(volume),
        Err(ImageFault::Memory) => Err(ArchiveFault::Refused(SessionFault::Memory)),
        Err(fault) => Err(ArchiveFault::Image(fault)),
    }
}

/// A new volume with each file that a volume's directory still shows.
fn salvage_volume(alloc: Global, volume: &MemoryVolume) -> Result<Salvage, AllocError>
    requires { IsVolume volume.now.blocks }
    ensures { IfOk result (IsSalvageOf volume.now.blocks) }
{
    sound_files();
    let survey = survey_volume(alloc, volume)?;
    let kept = files_with_words(alloc, volume, &survey.files)?;
    let fitted = fitted_volume(alloc, volume.blocks(), &kept)?;
    let mut losses = survey.losses;
    put_files(&survey.files, &fitted.refusals, &mut losses)?;
    let files = count_kept(&fitted.refusals);
    Ok(Salvage {
        image: fitted.image,
        losses,
        files,
    })
}

/// A new volume of so many blocks with what fits of these files.
fn fitted_volume(
    alloc: Global,
    blocks: usize,
    kept: &[KeptFile],
) -> Result<FittedVolume, AllocError>
    ensures { IfOk result (IsFitted blocks kept.now) }
{
    match volume_of_what_fits(alloc, blocks, kept) {
        Ok(fitted) => Ok(fitted),
        Err(_) => Err(AllocError),
    }
}
