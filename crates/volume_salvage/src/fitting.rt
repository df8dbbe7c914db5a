//! A new volume with what fits of some files.
ghost use Rattle.std.specs.Prelude.{◌≡◌, ◌∷◌, ◌++◌, [], OnOk};
ghost use Rattle.std.specs.FinMap.{from_entries};
ghost use Rattle.os8_dir.specs.Files.{files_of};
ghost use Rattle.os8_files.specs.Calls.{IsReady};
ghost use Rattle.volume_salvage.specs.Rescued.{FitsFiles};
ghost use Rattle.volume_salvage.specs.Steps.{FitsFile, KeepsFitting};

use crate::volumes::{KeptFile, keep_file, mount_new};
use crate::{Refusal, RescueFault};
use os8_dir::laws::new_volumes;
use os8_files::FileService;
use std::alloc::{AllocError, Global};
use volume_image::MemoryVolume;

/// The image of a new volume, and for each of the files that were to be kept why it is not there, if it isn't.
#[derive(Drop)]
pub struct FittedVolume {
    pub image: Vec<u8>,
    pub refusals: Vec<Option<Refusal>>,
}

/// The image of a new volume of 8 to 4095 blocks with what fits of these files, in their order from block 7 on. Each has its words and,
/// as far as a new directory has room for them, its information words. A file that has no name, is no whole blocks, or finds too few
/// blocks or no entry is left out. Those after it are still put (OS/8 Software Support Manual; the faults and their order are this
/// project's profile).
pub fn volume_of_what_fits(
    alloc: Global,
    blocks: usize,
    files: &[KeptFile],
) -> Result<FittedVolume, RescueFault>
    ensures { FitsFiles blocks files.now result }
{
    new_volumes();
    let volume = MemoryVolume::create(alloc, blocks)?;
    let mut service = mount_new(alloc, blocks, volume)?;
    let refusals = keep_what_fits(alloc, &mut service, files)?;
    let full = service.into_store();
    let image = full.to_bytes(alloc)?;
    Ok(FittedVolume { image, refusals })
}

/// Puts what fits of files into an empty volume, one after the other.
fn keep_what_fits(
    alloc: Global,
    service: &mut FileService<MemoryVolume>,
    files: &[KeptFile],
) -> Result<Vec<Option<Refusal>>, RescueFault>
    requires ready { IsReady service.old }
    requires none { files_of service.old.blocks ≡ from_entries [] }
    ensures { KeepsFitting service.old files.now result service.new }
{
    let mut refusals = Vec::new(alloc);
    let mut place: usize = 0;
    let mut rest = files;
    while let [file, others @ ..] = rest {
        let refusal = fit_file(alloc, service, file, place)?;
        add_refusal(&mut refusals, refusal)?;
        place += 1;
        rest = others;
    }
    Ok(refusals)
}

/// Puts a file, which has this place among others, into a volume, or says why it is refused.
fn fit_file(
    alloc: Global,
    service: &mut FileService<MemoryVolume>,
    file: &KeptFile,
    place: usize,
) -> Result<Option<Refusal>, Refusal>
    requires { IsReady service.old }
    ensures { FitsFile service.old file.now place result service.new }
{
    match keep_file(alloc, service, file, place) {
        Ok(()) => Ok(None),
        Err(Refusal::NoName(at)) => Ok(Some(Refusal::NoName(at))),
        Err(Refusal::NotWhole(at)) => Ok(Some(Refusal::NotWhole(at))),
        Err(Refusal::NoRoom(at, largest)) => Ok(Some(Refusal::NoRoom(at, largest))),
        Err(Refusal::DirectoryFull(at)) => Ok(Some(Refusal::DirectoryFull(at))),
        Err(Refusal::Failed(at)) => Err(Refusal::Failed(at)),
    }
}

/// Adds why a file is refused, if it is.
fn add_refusal(
    refusals: &mut Vec<Option<Refusal>>,
    refusal: Option<Refusal>,
) -> Result<(), AllocError>
    ensures { OnOk result (refusals.new.items ≡ refusals.old.items ++ refusal ∷ []) }
{
    refusals.push(refusal)?;
    Ok(())
}
