use crate::Name;
use word12::Word;

/// An entry of a directory: a file, or blocks that belong to no file (OS/8 Software Support Manual).
#[derive(Clone, Copy, PartialEq, Eq)]
pub enum DirEntry {
    /// A file of so many blocks, and its information words, with zeros after them.
    File {
        name: Name,
        info: [Word; 10],
        length: usize,
    },
    /// So many blocks of no file.
    Empty {
        length: usize,
    },
}

impl DirEntry {
    ghost use Rattle.std.specs.Prelude.{◌≡◌};
    ghost use Rattle.os8_dir.specs.Entries.{size_of, name_in};

    /// How many blocks the entry has (OS/8 Software Support Manual).
    pub fn length(&self) -> usize
        ensures { result ≡ size_of self.now }
    {
        match self {
            DirEntry::File { length, .. } => *length,
            DirEntry::Empty { length } => *length,
        }
    }

    /// The name of a file; an empty has none (OS/8 Software Support Manual).
    pub fn name(&self) -> Option<Name>
        ensures { result ≡ name_in self.now }
    {
        match self {
            DirEntry::File { name, .. } => Some(*name),
            DirEntry::Empty { .. } => None,
        }
    }
}
