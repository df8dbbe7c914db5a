//! What the command that assembles sources leaves as it was.
ghost use Rattle.std.specs.Prelude.{◌≡◌, ℕ, List, Err, None, true};
ghost use Rattle.hosts.specs.Event.{Event};
ghost use Rattle.hosts.specs.Streams.{changes_at};
ghost use Rattle.outcome.specs.declared.endings.Ending.{Ending};
ghost use Rattle.program_tasks.specs.declared.tasks.AssembleForm.{AssembleForm};
ghost use Rattle.image_files.specs.Laws.{KeepsFiles};
ghost use Rattle.assemble_commands.specs.Assembling.{Assembles};
ghost use Rattle.assemble_commands.specs.Laws.{KeepsOrAsks, is_refusal};

use image_files::laws::kept_files;

/// A law: where the words clash, a file can't be read, the sources have a fault or an output is an input, no file of the host is changed. No
/// folder is made.
pub fn refused_sources()
    ensures { (form : AssembleForm) (old : List Event) (ending : Ending) (new : List Event) → is_refusal ending ≡ true → Assembles form old (Err ending) new
        → (path : List ℕ) → changes_at path new ≡ changes_at path old }
{
    kept_files();
}

/// A law: where no file is named for the tape or the listing, no file of the host is changed and no folder made, in whichever way the command ends.
pub fn unchanged_files()
    ensures { (form : AssembleForm) → form.onto ≡ None → form.output ≡ None → form.list ≡ None → KeepsFiles (Assembles form) }
{
    kept_files();
}

/// A law: no file of the host is changed unless the host said that no output is an input, nor the other output. It says so of the files
/// themselves, whatever their names are. It holds in whichever way the command ends.
pub fn kept_inputs()
    ensures { (form : AssembleForm) → KeepsOrAsks form (Assembles form) }
{
    kept_files();
}
