//! What `get --into` and `scan --into` leave where they end well, as laws.
ghost use Rattle.std.specs.Prelude.{ℕ, List, Ok};
ghost use Rattle.hosts.specs.Event.{Event};
ghost use Rattle.program_tasks.specs.declared.forms.GetManyForm.{GetManyForm as GetMany};
ghost use Rattle.program_tasks.specs.declared.forms.ImageForm.{ImageForm as Kept};
ghost use Rattle.get_commands.specs.GettingMany.{GetsMany};
ghost use Rattle.salvage_commands.specs.ScanningBlocks.{WritesPieces};
ghost use Rattle.keeper_laws.specs.Laid.{HasGotten, HasWrittenOut};

/// What `get --into` leaves where it ends well. Each file that was asked for is in the folder, under its own name, with the bytes that are got of it.
/// No other path is changed.
pub fn laid_files()
    ensures { (form : GetMany) (old new : List Event) → GetsMany form old (Ok tt) new → HasGotten form old new }
{}

/// What `scan --into` leaves where it ends well. Each piece that it found is in the folder, with the bytes that are got of its blocks. No other path
/// is changed.
pub fn laid_pieces()
    ensures { (folder : List ℕ) (form : Kept) (old new : List Event) → WritesPieces folder form old (Ok tt) new → HasWrittenOut folder form old new }
{}
