//! What is printed of a refusal, as laws.
ghost use Rattle.std.specs.Prelude.{◌≡◌, ◌<◌, ◌∷◌, ℕ, Bool, IsUtf8, List};
ghost use Rattle.hosts.specs.Event.{Event, tell_call};
ghost use Rattle.os8_dir.specs.declared.file_faults.FileFault.TheVariants.{Busy};
ghost use Rattle.program_reports.specs.Program.{program_line};
ghost use Rattle.program_reports.specs.declared.programs.ProgramLine.{ProgramLine as Line};
ghost use Rattle.refusals.specs.Faults.{fault_line};
ghost use Rattle.refusals.specs.declared.faults.SessionFault.{SessionFault as Fault};
ghost use Rattle.refusals.specs.declared.faults.SessionFault.TheVariants.{File};
ghost use Rattle.image_files.specs.Ending.{TellsLine};

/// The line of each fault is a text, and so is each line of the program, whatever numbers and names it has. The name of a file in use has four words.
/// So where a refusal is printed on standard error, that gets its line: none is left out since it were no text.
pub fn refused_texts()
    ensures faults { (fault : Fault) → ((name : ℕ) → fault ≡ File (Busy name) → name < 0o10000000000000000) → IsUtf8 (fault_line fault) }
    ensures lines { (line : Line) → IsUtf8 (program_line line) }
    ensures told { (line : Line) (old new : List Event) → TellsLine (program_line line) old new → (ok : Bool) × (new ≡ tell_call ok (program_line line) ∷ old) }
{}
