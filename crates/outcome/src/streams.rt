//! What the commands put on standard output.
ghost use Rattle.std.specs.Prelude.{◌≡◌};
ghost use Rattle.outcome.specs.Streams.{gives_data};

use program_tasks::{RimForm, Task};

/// Whether what a task puts on standard output is data, so no refusal is printed there (this project's profile).
pub fn gives_data(task: &Task) -> bool
    ensures { result ≡ gives_data task.now }
{
    match task {
        Task::Rim(_, RimForm::Bin)
        | Task::Source(_)
        | Task::Teletype(_)
        | Task::Trace(_)
        | Task::Profile(_)
        | Task::Boot(_)
        | Task::Get(..)
        | Task::GetBin(..)
        | Task::GetTexts(_)
        | Task::GetBlocks(_)
        | Task::Index(_) => true,
        Task::Assemble(form) => form.onto.is_none(),
        Task::Tape(_)
        | Task::Rim(_, RimForm::Lines)
        | Task::Run(..)
        | Task::Create(..)
        | Task::CreateTape(_)
        | Task::CreateDisk(_)
        | Task::CreateVolume(_)
        | Task::List(_)
        | Task::ListLong(..)
        | Task::ListSome(_)
        | Task::GetMany(_)
        | Task::Put(_)
        | Task::Delete(_)
        | Task::Rename(..)
        | Task::Copy(_)
        | Task::Squeeze(_)
        | Task::Check(_)
        | Task::Dump(_)
        | Task::Patch(_)
        | Task::Rescue(_)
        | Task::Scan(_) => false,
    }
}
