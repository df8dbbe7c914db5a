//! What a refused `put` leaves as it was, as a law.
ghost use Rattle.program_tasks.specs.declared.forms.PutFilesForm.{PutFilesForm as Form};
ghost use Rattle.image_files.specs.Laws.{LeavesFiles};
ghost use Rattle.put_commands.specs.Putting.{Puts};

/// A command that is to put files, and is refused, has changed no file: none is put.
pub fn refused_puts()
    ensures { (form : Form) → LeavesFiles (Puts form) }
{}
