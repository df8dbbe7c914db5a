//! What is asked of the reader, punch, line printer and clock of an 8/E, and of the lines of its transfers.

/// What an 8/E has beside its disks (this project's profile).
#[derive(Drop)]
pub struct DeviceForm {
    /// The file of the tape in the reader, if there is one.
    pub reader: Option<String>,

    /// The file that gets what is punched, if there is one.
    pub punch: Option<String>,

    /// The file that gets what is printed on the line printer, if it has paper.
    pub printer: Option<String>,

    /// The file that gets a line of each transfer of a disk, if there is one.
    pub transfers: Option<String>,

    /// The instructions from tick to tick of the clock, 1 up, if there is one.
    pub clock: Option<u64>,
}
