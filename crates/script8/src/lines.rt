use crate::{Bytes, Entry};

/// What a line of a script says.
#[derive(Drop)]
pub enum Line {
    /// Nothing: it is no entry and has no reply.
    Empty,

    /// `FINISH`: turns of the lowest job until no job is left.
    Finish,

    /// `STORE` of so many lines, 0 to 999,999, which stand after it.
    Store { name: Bytes, lines: u32 },

    /// An entry, with no further lines.
    Whole(Entry),
}
