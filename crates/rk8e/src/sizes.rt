//! How large a pack is (RK8-E, Small Computer Handbook).

/// The sectors of a pack: 203 cylinders of 32.
pub const SECTORS: usize = 6496;

/// The words of a sector.
pub const SECTOR: usize = 256;

/// The words of a pack.
pub const PACK: usize = 1662976;
