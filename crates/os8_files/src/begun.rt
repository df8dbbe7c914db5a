use os8_dir::Name;
use std::marker::Model;

/// A file that is being written: its name, its first block, the blocks that it may grow to, and those written.
#[derive(Clone, Copy)]
pub(crate) struct Begun {
    pub(crate) name: Name,
    pub(crate) place: usize,
    pub(crate) room: usize,
    pub(crate) blocks_written: usize,
}

impl Model for Begun {
    ghost use Rattle.os8_files.specs.Mounted as mounted;

    ghost Value = { mounted.NewFile };

    ghost view = { λ b. record { name = b.name; place = b.place; room = b.room; blocks_written = b.blocks_written } };

    ghost inverse = { λ b. record { name = b.name; place = b.place; room = b.room; blocks_written = b.blocks_written } };
}
