//! What `get` leaves as it was, as laws.
ghost use Rattle.std.specs.Prelude.{◌≡◌, false};
ghost use Rattle.archive_files.specs.Getting.{Gets};
ghost use Rattle.archive_files.specs.declared.forms.GetForm.{GetForm as How};
ghost use Rattle.program_tasks.specs.declared.forms.BlocksForm.{BlocksForm as Blocks};
ghost use Rattle.archive_files.specs.declared.asking.Asked.{Asked as File};
ghost use Rattle.program_tasks.specs.declared.forms.GetManyForm.{GetManyForm as GetMany};
ghost use Rattle.program_tasks.specs.declared.forms.ImageForm.{ImageForm as Image};
ghost use Rattle.archive_files.specs.Asking.{target_of};
ghost use Rattle.image_files.specs.Laws.{KeepsFiles, MakesFolderAlone, NeverReplaces};
ghost use Rattle.get_commands.specs.GettingMany.{GetsMany};
ghost use Rattle.get_commands.specs.Laws.{ChangesIn, KeepsImage};
ghost use Rattle.get_commands.specs.Showing.{Shows};
ghost use Rattle.get_commands.specs.ShowingParts.{ShowsBlocks, ShowsTape};

/// A command that shows what an image has changes no file and makes no folder, in whichever way it ends.
pub fn shown_files()
    ensures gets { (file : File) (how : How) (form : Image) → KeepsFiles (Shows (λ bytes. Gets bytes (target_of file) how) form) }
    ensures blocks { (form : Blocks) → KeepsFiles (ShowsBlocks form) }
    ensures tape { (file : File) (form : Image) → KeepsFiles (ShowsTape file form) }
{}

/// A command that gets several files to a folder changes no path but those of the folder, and replaces no file there unless that is asked
/// for. What was there before is as it was. It makes no folder but that one.
pub fn gotten_files()
    ensures folder { (form : GetMany) → ChangesIn form.folder.bytes.items (GetsMany form) }
    ensures made { (form : GetMany) → MakesFolderAlone form.folder.bytes.items (GetsMany form) }
    ensures older { (form : GetMany) → form.is_forced ≡ false → NeverReplaces (GetsMany form) }
{}

/// A command that gets several files changes no path unless the host said that it doesn't lead to the image, whatever their names are. So the
/// image is as it was, in whichever way the command ends.
pub fn kept_images()
    ensures { (form : GetMany) → KeepsImage form.image.file.bytes.items (GetsMany form) }
{}
