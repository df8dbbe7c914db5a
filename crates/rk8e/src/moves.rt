use word12::Cell;

/// What a transfer moved at its end, in one moment.
#[derive(Clone, Copy, PartialEq, Eq, Debug)]
pub struct Moved {
    /// The drive, 0 to 3.
    pub drive: u8,
    /// The sector, 0 to 6495.
    pub sector: u16,
    /// The cell of the first word.
    pub cell: Cell,
    /// How many words: a sector's, or half as many.
    pub words: u16,
    /// Whether the sector has the cells' words now, and not the other way round.
    pub is_write: bool,
}
