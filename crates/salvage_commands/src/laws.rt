//! What the commands that make files of a damaged volume leave as it was.
ghost use Rattle.std.specs.Prelude.{ℕ, List};
ghost use Rattle.image_files.specs.Laws.{MakesFolderAlone, NeverReplaces};
ghost use Rattle.program_tasks.specs.declared.forms.ImageForm.{ImageForm};
ghost use Rattle.salvage_commands.specs.Laws.{ChangesPiecesAlone};
ghost use Rattle.salvage_commands.specs.Rescuing.{RescuesImage};
ghost use Rattle.salvage_commands.specs.ScanningBlocks.{WritesPieces};

/// A law: the command that writes each piece of a volume to a file of its own changes no path but those of its pieces, in whichever way it
/// ends. So the image stays as it was, unless one of these paths is its own. It makes no folder but that of the pieces.
pub fn written_pieces()
    ensures alone { ChangesPiecesAlone }
    ensures made { (folder : List ℕ) (form : ImageForm) → MakesFolderAlone folder (WritesPieces folder form) }
{}

/// A law: the commands that make files of what a damaged volume still shows replace no file, in whichever way they end. None of the new files takes
/// a path that another may have had.
pub fn new_files()
    ensures pieces { (folder : List ℕ) (form : ImageForm) → NeverReplaces (WritesPieces folder form) }
    ensures rescue { (new : List ℕ) (form : ImageForm) → NeverReplaces (RescuesImage new form) }
{}
