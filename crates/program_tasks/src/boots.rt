//! What is asked of an 8/E with disks, and of its run at the console.
use crate::devices::DeviceForm;
use word12::Word;

/// What is in a drive, and whether an operator has locked it.
#[derive(Drop)]
pub struct DriveForm {
    /// The file of the disk, if there is one.
    pub image: Option<String>,

    /// Whether nothing may be written to the disk.
    pub is_locked: bool,
}

/// What is in the drives of an 8/E's disk, and how fast it is (this project's profile).
#[derive(Drop)]
pub struct DiskForm {
    pub drive0: DriveForm,
    pub drive1: DriveForm,
    pub drive2: DriveForm,
    pub drive3: DriveForm,

    /// Whether no file is written, whatever is written to the disks.
    pub is_look: bool,

    /// How many seconds each file is waited for where another program holds it, 0 to 3600.
    pub wait: usize,

    /// The instructions of a transfer beside those of its seek, 0 to 1000000.
    pub disk_time: u32,

    /// The instructions that an arm takes for each cylinder, 0 to 1000000.
    pub seek_time: u32,
}

/// How an 8/E with disks runs with the terminal as its console (this project's profile).
#[derive(Drop)]
pub struct ConsoleForm {
    pub disk: DiskForm,

    /// What else it has.
    pub devices: DeviceForm,

    /// What the switches are set to, if it is given.
    pub switches: Option<Word>,

    /// The most steps that are made, 1 up, if a limit is given.
    pub steps: Option<u64>,

    /// How many instructions are made from one save to the next at least, 0 to 1000000; 0 is for a save at the end alone.
    pub every: u32,

    /// The name at which a file asks for the run's end once it is there, if one is given.
    pub ends_with: Option<String>,

    /// Whether small letters are struck as capitals.
    pub has_capitals: bool,

    pub is_raw: bool,
    pub is_live: bool,
}
