//! The tasks, and the forms of those that run scripts, sources and tapes.
use crate::archives::{BlockSpan, IndexForm, PatchForm, RescueForm, ScanForm};
use crate::boots::{ConsoleForm, DiskForm};
use crate::devices::DeviceForm;
use crate::forms::{
    BlocksForm, CheckForm, CopyForm, CreateForm, DeleteForm, GetManyForm, GetTextsForm, ImageForm,
    ListForm, PutFilesForm, TapeForm,
};
use archive_files::{Asked, GetForm};
use word12::{Cell, Word};

/// When a run of a script writes the image, if the script changed it.
#[derive(Clone, Copy, PartialEq, Eq, Debug)]
pub enum Saving {
    /// At its end.
    AtEnd,

    /// Never.
    Never,

    /// After each entry, before its reply.
    Always,
}

/// What is written of a RIM tape (Small Computer Handbook).
#[derive(Clone, Copy, PartialEq, Eq, Debug)]
pub enum RimForm {
    /// A line for each memory word that it loads.
    Lines,

    /// The BIN tape of the same words.
    Bin,
}

/// How a script is run.
#[derive(Clone, Copy, PartialEq, Eq, Debug)]
pub struct RunForm {
    pub saving: Saving,

    /// Whether a refused reply is a fault of the run.
    pub is_strict: bool,
}

/// How sources are assembled (PAL III manual; PAL8 in this project's profile).
#[derive(Drop)]
pub struct AssembleForm {
    /// The names of the 1 to 8 sources, in their order. They are files of the host, where `-` is standard input and stands once at most,
    /// or files of the volume, in capital letters.
    pub sources: Vec<String>,

    /// The volume that has the sources, if one is named.
    pub from: Option<ImageForm>,

    /// The file of that volume that gets the BIN tape, if one is named, in capital letters.
    pub onto: Option<String>,

    /// The file that gets the BIN tape, if one is named.
    pub output: Option<String>,

    /// The file that gets the listing, if one is named.
    pub list: Option<String>,

    /// Whether a table of cross references goes after the listing; there is a listing then.
    pub is_cross: bool,

    /// Whether the sources are PAL8; there is no listing then.
    pub is_pal8: bool,

    /// Whether PAL8 makes no links.
    pub is_without_links: bool,

    /// Whether PAL8 puts no word 00 after a text of an even number of characters.
    pub is_without_zero: bool,

    /// Whether `FIELD` of PAL8 leaves the location.
    pub is_without_origin: bool,

    /// Whether equal values have one cell of a page of PAL8 only within one stay on it.
    pub has_stays: bool,

    /// Whether notes are printed on the lines of PAL8 that palbart reads in another way.
    pub has_notes: bool,
}

/// What a source is written of (PAL III manual, and this project's reading of a program's flow).
#[derive(Drop)]
pub struct SourceForm {
    /// The BIN tape; else it is on standard input.
    pub tape: Option<TapeForm>,

    /// The cells at which the program starts, if any is given; else each word is taken for an instruction.
    pub starts: Vec<Cell>,

    /// The file of the host that names cells, if one is named.
    pub names: Option<String>,

    /// Whether the source is PAL8, else it is PAL III.
    pub is_pal8: bool,
}

/// Which machine runs a program.
#[derive(Clone, Copy, PartialEq, Eq, Debug)]
pub enum Cpu {
    /// A PDP-8/I.
    EightI,

    /// A PDP-8/E.
    EightE,
}

/// How the processor runs with the Teletype that the terminal is (this project's profile).
#[derive(Drop)]
pub struct TeletypeForm {
    /// The program's tape or core image.
    pub tape: TapeForm,

    pub cpu: Cpu,

    /// The cell at which the processor starts, if one is given.
    pub start: Option<Cell>,

    /// How it runs there. An 8/I has no disk or other device.
    pub console: ConsoleForm,
}

/// How the processor runs while its steps are printed or counted (this project's profile).
#[derive(Drop)]
pub struct TraceForm {
    /// The program's tape or core image.
    pub tape: TapeForm,

    pub cpu: Cpu,

    /// The disks of an 8/E.
    pub disk: DiskForm,

    /// What else an 8/E has.
    pub devices: DeviceForm,

    /// The cell at which the processor starts, if one is given.
    pub start: Option<Cell>,

    /// What the switches are set to, if it is given.
    pub switches: Option<Word>,

    /// The most steps that are made, 1 up, if a limit is given.
    pub steps: Option<u64>,

    /// The text whose characters are struck as keys, if one is given.
    pub keys: Option<String>,
}

/// What a command line asks of the program.
#[derive(Drop)]
pub enum Task {
    /// List a BIN tape; where none is named that of standard input.
    Tape(Option<TapeForm>),

    /// Write what a RIM tape loads; where none is named that of standard input.
    Rim(Option<TapeForm>, RimForm),

    /// Write the PAL III source of a BIN tape.
    Source(SourceForm),

    /// Run the script on standard input, on this volume.
    Run(ImageForm, RunForm),

    /// Write an empty volume of so many blocks, 8 to 4095, to a file.
    Create(CreateForm, usize),

    /// Write a DECtape with an empty volume to a file.
    CreateTape(CreateForm),

    /// Write the file of a disk of two empty volumes.
    CreateDisk(CreateForm),

    /// Make a volume of a disk that is there an empty one.
    CreateVolume(ImageForm),

    /// List the files of this volume.
    List(ImageForm),

    /// List them in the order of the directory, with their first blocks, their information words and their dates. These dates mean the eight
    /// years up to this last one, 1977 to 9999, if it is given.
    ListLong(ImageForm, Option<usize>),

    /// List those files of a volume whose names fit.
    ListSome(ListForm),

    /// Write what the file has, on this volume.
    Get(ImageForm, Asked, GetForm),

    /// Write the BIN tape of the core image that the file is, on this volume.
    GetBin(ImageForm, Asked),

    /// Write files of a volume to a folder.
    GetMany(GetManyForm),

    /// Print texts of a volume, one after another.
    GetTexts(GetTextsForm),

    /// Write what blocks of a volume have.
    GetBlocks(BlocksForm),

    /// Make files of the host, or standard input, files of a volume.
    Put(PutFilesForm),

    /// Take files out of a volume.
    Delete(DeleteForm),

    /// Give the file this name, on this volume.
    Rename(ImageForm, Asked, String),

    /// Copy files from volume to volume, all or none.
    Copy(CopyForm),

    /// Move the files together on this volume.
    Squeeze(ImageForm),

    /// Report on volumes, their directories and where their files lie.
    Check(CheckForm),

    /// Show blocks of a volume.
    Dump(BlockSpan),

    /// Put a word of an image in place of another.
    Patch(PatchForm),

    /// List the files of the volumes of several images, with what each holds.
    Index(IndexForm),

    /// Write a new volume with the files that a damaged one still has.
    Rescue(RescueForm),

    /// List what the blocks of a volume hold, by content alone.
    Scan(ScanForm),

    /// Assemble sources to a BIN tape.
    Assemble(AssembleForm),

    /// Run a tape with the terminal as the Teletype.
    Teletype(TeletypeForm),

    /// Run a tape, and print each step.
    Trace(TraceForm),

    /// Run a tape, and print how often each cell was fetched.
    Profile(TraceForm),

    /// Boot a disk with the terminal as the console.
    Boot(ConsoleForm),
}
