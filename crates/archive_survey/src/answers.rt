use os8_dir::Name;
use word12::Word;

/// A file that a directory, which may be damaged, still shows: its name, its information words with zeros after them, its first block,
/// and how many blocks it has.
#[derive(Clone, Copy, Debug)]
pub struct FoundFile {
    pub name: Name,
    pub info: [Word; 10],
    pub place: usize,
    pub size: usize,
}

/// What a directory shows.
#[derive(Drop)]
pub struct Survey {
    /// The lines of all of it.
    pub text: Vec<u8>,

    /// The lines of its faults alone: each of the directory, each unsound entry, and the blocks that two sound ones claim.
    pub losses: Vec<u8>,

    /// The files that are sound, in order.
    pub files: Vec<FoundFile>,

    /// How many faults there are.
    pub faults: usize,
}
