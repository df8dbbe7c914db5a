use crate::{Bytes, FileLengths};
use os8_dir::Name;
use word12::{Cell, Word};

/// What a session answers to an entry that it does.
#[derive(Drop)]
pub enum Reply {
    /// One line, of at most 80 bytes.
    Line(LineReply),

    /// What may take more bytes, or more lines.
    Report(Report),
}

/// A reply of one line. Jobs are shown by their numbers.
#[derive(Clone, Copy)]
pub enum LineReply {
    /// A text was stored in a file of so many blocks.
    Stored {
        name: Name,
        blocks: usize,
    },

    /// A file was taken out.
    Deleted(Name),

    /// A job was begun.
    Job(u32),

    /// A job took a turn, and is not at its end.
    Working(u32),

    /// An assembling job is at its end: its tape was stored in a file of so many blocks.
    Assembled {
        number: u32,
        name: Name,
        blocks: usize,
    },

    /// A loading job is at its end: the tape of a file was laid over core.
    Loaded {
        number: u32,
        name: Name,
    },

    /// A squeezing job is at its end.
    Squeezed(u32),

    /// No job is left: the last line of FINISH, which stands for turns and is no entry.
    Finished,

    /// The processor runs from a cell on.
    Started(Cell),

    /// So many steps were made, why they ended, and the cell of the instruction field and the program counter then.
    Steps {
        steps: u32,
        why: StepEnd,
        cell: Cell,
    },

    /// The key of a character was struck.
    Key(u8),

    /// The printer ended its character.
    Done,

    /// The switch register was set.
    Switches(Word),

    /// A cell and its word.
    Core {
        cell: Cell,
        word: Word,
    },

    /// A break was set at a cell, or taken away.
    Break {
        cell: Cell,
        is_on: bool,
    },
}

/// What is shown in more than 80 bytes, or in more than one line.
#[derive(Drop)]
pub enum Report {
    /// The files in name order with their lengths in blocks, and the blocks of no file.
    Direct { files: FileLengths, free: usize },

    /// The text of the registers, one line of JSON without its LF.
    Registers(Bytes),

    /// The characters that were printed, of eight bits each, the first of them first.
    Printed(Bytes),
}

/// Why the processor's steps of an entry ended, the first of these that holds.
#[derive(Clone, Copy)]
pub enum StepEnd {
    /// It halted, or stood stopped.
    Halt,

    /// The word was unassigned.
    Unassigned,

    /// A break was reached.
    Break,

    /// So many steps were made as were asked for.
    Limit,
}
