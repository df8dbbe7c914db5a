//! What the commands on tapes leave as it was.
ghost use Rattle.std.specs.Prelude.{◌≡◌, ℕ, Option, List};
ghost use Rattle.hosts.specs.Event.{Event};
ghost use Rattle.hosts.specs.Streams.{changes_at};
ghost use Rattle.outcome.specs.declared.endings.Ending.{Ending};
ghost use Rattle.program_tasks.specs.declared.forms.TapeForm.{TapeForm};
ghost use Rattle.program_tasks.specs.declared.tasks.RimForm.{RimForm};
ghost use Rattle.program_tasks.specs.declared.tasks.SourceForm.{SourceForm};
ghost use Rattle.image_files.specs.Laws.{KeepsFiles};
ghost use Rattle.tape_commands.specs.Kinds.{RefusesFrames};
ghost use Rattle.tape_commands.specs.Programs.{ReadsProgram};
ghost use Rattle.tape_commands.specs.Rims.{WritesRim};
ghost use Rattle.tape_commands.specs.Sources.{WritesSource};
ghost use Rattle.tape_commands.specs.Tapes.{ListsTape};

use image_files::laws::kept_files;

/// A law: none of these commands changes a file of the host or makes a folder, in whichever way it ends. Nor does the reading of a program for another, or the
/// refusal of frames.
pub fn unchanged_files()
    ensures program { (form : TapeForm) → KeepsFiles (ReadsProgram form) }
    ensures tape { (form : Option TapeForm) → KeepsFiles (ListsTape form) }
    ensures rim { (form : RimForm) (tape : Option TapeForm) → KeepsFiles (WritesRim form tape) }
    ensures frames { (frames : List ℕ) (fault : Ending) (old : List Event) (ending : Ending) (new : List Event) → RefusesFrames frames fault old ending new
        → (path : List ℕ) → changes_at path new ≡ changes_at path old }
    ensures source { (form : SourceForm) → KeepsFiles (WritesSource form) }
{
    kept_files();
}
