//! What the reports of images leave as it was, and what a check that ends well says, as laws.
ghost use Rattle.std.specs.Prelude.{ℕ, List, Ok, map};
ghost use Rattle.hosts.specs.Event.{Event};
ghost use Rattle.hosts.specs.Streams.{read};
ghost use Rattle.program_tasks.specs.declared.forms.CheckForm.{CheckForm as Check};
ghost use Rattle.image_files.specs.Laws.{KeepsFiles};
ghost use Rattle.image_files.specs.Leftovers.{images_among};
ghost use Rattle.image_files.specs.declared.mending.ImageReading.{ImageReading as Reading};
ghost use Rattle.show_commands.specs.Checking.{ChecksImages};
ghost use Rattle.show_commands.specs.Laws.{AreSound};
ghost use Rattle.show_commands.specs.Volumes.{ReportsOne};
ghost use Rattle.show_commands.specs.declared.reports.ReportKind.{ReportKind as Kind};

/// A command that reports on images changes no file and makes no folder, in whichever way it ends.
pub fn shown_images()
    ensures reports { (kind : Kind) (reading : Reading) (file : List ℕ) → KeepsFiles (ReportsOne kind reading file) }
    ensures checks { (form : Check) → KeepsFiles (ChecksImages form) }
{}

/// Where a check ends well, each image file was read whole, in its order and nothing else. Each volume in it is sound, or where faults are to be
/// mended each in the mended file.
pub fn sound_images()
    ensures { (form : Check) (old new : List Event) → ChecksImages form old (Ok tt) new
        → AreSound form (images_among (map (λ file. file.bytes.items) form.images.items)) (read old) (read new) }
{}
