//! How large core and its parts are, the blocks of a disk, and the sources of a tape.

/// The cells of core: eight fields (Small Computer Handbook, MC8 extended memory).
pub const CORE: usize = 0o100000;

/// The words of a field (Small Computer Handbook).
pub const FIELD: usize = 0o10000;

/// The words of a page, all that a reference to memory reaches without an indirect one (Small Computer Handbook).
pub const PAGE: u16 = 0o200;

/// The words of a block (OS/8 Software Support Manual).
pub const BLOCK: usize = 256;

/// The most blocks of a volume: their numbers are words (OS/8 Software Support Manual).
pub const MOST_BLOCKS: usize = 4095;

/// The first block after the directory's, where files may lie (OS/8 Software Support Manual).
pub const FIRST_FILE_BLOCK: usize = 7;

/// The most sources that are assembled to one tape (this project's profile).
pub const MOST_SOURCES: usize = 8;
