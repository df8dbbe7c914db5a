//! Commands that write an image file, which are tried again while another program holds it.
ghost use Rattle.std.specs.Prelude.{◌≡◌};
ghost use Rattle.script_commands.specs.Scripts.{OpensFor};
ghost use Rattle.image_files.specs.Waiting.{Within};
ghost use Rattle.program.specs.Changes.{DoesChange, file_of, seconds_of};

use archive_files::Asked;
use assemble_commands::assemble_files;
use change_commands::{
    WordPatch, copy_files, create_disk, create_image, create_tape, create_volume, delete_files,
    patch_word, rename_file, squeeze_files,
};
use hosts::Host;
use image_files::{Image, TRIES, end_busy};
use outcome::{Content, Ending};
use program_tasks::{
    AssembleForm, CopyForm, CreateForm, DeleteForm, ImageForm, PutFilesForm, Saving,
};
use put_commands::put_files;
use script_commands::open_image;
use std::alloc::Global;

/// A task that writes an image file.
#[derive(Drop)]
pub enum Change {
    Create(CreateForm, usize),
    CreateTape(CreateForm),
    CreateDisk(CreateForm),
    CreateVolume(ImageForm),
    Put(PutFilesForm),
    Delete(DeleteForm),
    Rename(ImageForm, Asked, String),
    Copy(CopyForm),
    Squeeze(ImageForm),
    Patch(ImageForm, WordPatch),
    Assemble(AssembleForm),
}

/// Writes an image file as it is asked for. While another program holds the file, this is tried again for as many seconds as the command line
/// says, and such a try changes nothing and prints nothing. After the last one that is printed with the file's name (this project's profile).
pub fn change_image<H: Host>(host: &mut H, alloc: Global, change: &Change) -> Result<(), Ending>
    ensures { Within (seconds_of change.now) (file_of change.now) (DoesChange change.now) (H.history host.old) result (H.history host.new) }
{
    let most = TRIES * change.seconds() as u128;
    let mut tries: u128 = 0;
    while tries < most {
        match change.make(host, alloc) {
            Err(Ending::Busy(Content::Image)) => {
                host.pause();
                tries += 1;
            }
            work => return work,
        }
    }
    let work = change.make(host, alloc);
    end_busy(host, alloc, change.file(), work)
}

/// Opens the image in a file for a run of a script. It is tried again as a change is.
pub fn open_within<H: Host>(
    host: &mut H,
    alloc: Global,
    image: &ImageForm,
    saving: Saving,
) -> Result<Image, Ending>
    ensures { Within image.now.wait image.now.file.bytes.items (OpensFor saving image.now) (H.history host.old) result (H.history host.new) }
{
    let most = TRIES * image.wait as u128;
    let mut tries: u128 = 0;
    while tries < most {
        match open_image(host, alloc, image, saving) {
            Err(Ending::Busy(Content::Image)) => {
                host.pause();
                tries += 1;
            }
            found => return found,
        }
    }
    let found = open_image(host, alloc, image, saving);
    end_busy(host, alloc, image.file.as_str(), found)
}

impl Change {
    /// How many seconds are waited for the image.
    fn seconds(&self) -> usize
        ensures { result ≡ seconds_of self.now }
    {
        match self {
            Change::Create(form, _) => form.wait,
            Change::CreateTape(form) => form.wait,
            Change::CreateDisk(form) => form.wait,
            Change::CreateVolume(image) => image.wait,
            Change::Put(form) => form.image.wait,
            Change::Delete(form) => form.image.wait,
            Change::Rename(image, ..) => image.wait,
            Change::Copy(form) => form.to.wait,
            Change::Squeeze(image) => image.wait,
            Change::Patch(image, _) => image.wait,
            Change::Assemble(form) => match &form.from {
                Some(image) => image.wait,
                None => 0,
            },
        }
    }

    /// The name of the image file.
    fn file(&self) -> &str
        ensures { result.now ≡ file_of self.now }
    {
        match self {
            Change::Create(form, _) => form.file.as_str(),
            Change::CreateTape(form) => form.file.as_str(),
            Change::CreateDisk(form) => form.file.as_str(),
            Change::CreateVolume(image) => image.file.as_str(),
            Change::Put(form) => form.image.file.as_str(),
            Change::Delete(form) => form.image.file.as_str(),
            Change::Rename(image, ..) => image.file.as_str(),
            Change::Copy(form) => form.to.file.as_str(),
            Change::Squeeze(image) => image.file.as_str(),
            Change::Patch(image, _) => image.file.as_str(),
            Change::Assemble(form) => match &form.from {
                Some(image) => image.file.as_str(),
                None => "",
            },
        }
    }

    /// Tries once.
    fn make<H: Host>(&self, host: &mut H, alloc: Global) -> Result<(), Ending>
        ensures { DoesChange self.now (H.history host.old) result (H.history host.new) }
    {
        match self {
            Change::Create(form, blocks) => create_image(host, alloc, form, *blocks),
            Change::CreateTape(form) => create_tape(host, alloc, form),
            Change::CreateDisk(form) => create_disk(host, alloc, form),
            Change::CreateVolume(image) => create_volume(host, alloc, image),
            Change::Put(form) => put_files(host, alloc, form),
            Change::Delete(form) => delete_files(host, alloc, form),
            Change::Rename(image, file, new) => rename_file(host, alloc, image, file, new),
            Change::Copy(form) => copy_files(host, alloc, form),
            Change::Squeeze(image) => squeeze_files(host, alloc, image),
            Change::Patch(image, word) => patch_word(host, alloc, image, word),
            Change::Assemble(form) => assemble_files(host, alloc, form),
        }
    }
}
