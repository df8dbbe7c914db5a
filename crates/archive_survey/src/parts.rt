use os8_dir::{DirFault, Name};
use word12::Word;

/// A part of a directory as it stands (OS/8 Software Support Manual), or a fault (this project's profile).
#[derive(Clone, Copy)]
pub enum Part {
    /// A segment in a block, and how many entries it gives.
    Segment {
        number: usize,
        count: usize,
    },

    /// A fault.
    Fault(DirFault),

    /// The entry of a file: its name, its information words with zeros after them, its first block, and how many blocks it has.
    File {
        name: Name,
        info: [Word; 10],
        place: u32,
        size: u32,
    },

    /// The entry of blocks of no file: the first, and how many.
    Empty {
        place: u32,
        size: u32,
    },
}
