//! What can be asked of the program: the tasks, as the words of a command line name them, and what a name of a volume
//! means. No other words are read here, and no task is done.
#![tactic(auto)]

mod archives;
mod boots;
mod devices;
mod forms;
mod names;
mod tasks;

pub use archives::{BlockSpan, IndexForm, LineForm, PatchForm, RescueForm, ScanForm};
pub use boots::{ConsoleForm, DiskForm, DriveForm};
pub use devices::DeviceForm;
pub use forms::{
    BlocksForm, CheckForm, CopyChoice, CopyForm, CreateForm, DeleteForm, GetManyForm, GetTextsForm,
    ImageForm, ListForm, PutFilesForm, TapeForm, TextsForm,
};
pub use names::volume_named;
pub use tasks::{
    AssembleForm, Cpu, RimForm, RunForm, Saving, SourceForm, Task, TeletypeForm, TraceForm,
};
