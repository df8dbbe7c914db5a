//! What words come to that ask for no task, as laws.
ghost use Rattle.std.specs.Prelude.{◌≡◌, ◌⊎◌, ℕ, IsUtf8, true, false, List};
ghost use Rattle.clap.specs.Words.{Text};
ghost use Rattle.hosts.specs.Event.{Event};
ghost use Rattle.command_refusals.specs.declared.faults.TaskFault.{TaskFault as Fault};
ghost use Rattle.image_files.specs.Laws.{ChangesNothing};
ghost use Rattle.outcome.specs.declared.endings.Ending.TheVariants.{Misuse};
ghost use Rattle.program.specs.GivenWords.{LosesWord, argument_line};
ghost use Rattle.program.specs.Words.{IsMisuse, RefusesWords, WantsMemory};
ghost use Rattle.program_laws.specs.Ends.{HasTold};
ghost use Rattle.program_laws.specs.Refused.{asks_help};

use image_files::laws::kept_files;
use shown_text::laws::quoted_names;

/// Words that ask for no task change no file. Only where they ask for help or the version is the status 0. Others are refused: the status is 2, and
/// standard error gets a text, unless memory is wanted for it. Standard output gets nothing then.
pub fn refused_words()
    ensures files { (fault : Fault) (old new : List Event) (status : ℕ) → RefusesWords fault old new status → ChangesNothing old new }
    ensures zero { (fault : Fault) (old new : List Event) (status : ℕ) → RefusesWords fault old new status → status ≡ 0 → asks_help fault ≡ true }
    ensures refused { (fault : Fault) (old new : List Event) (status : ℕ) → RefusesWords fault old new status → asks_help fault ≡ false
        → IsMisuse old new status ⊎ WantsMemory old new status }
{
    kept_files();
}

/// Of a word of the command line that is refused since it is no text, standard error gets a line with its place and its bytes.
pub fn refused_arguments()
    ensures { (place : ℕ) (word : Text) (old new : List Event) → LosesWord place word old Misuse new → (IsUtf8 word → ⊥) × HasTold (argument_line place word) old new }
{
    quoted_names();
}
