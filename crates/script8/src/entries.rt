use crate::{Bytes, Names};
use word12::{Cell, Word};

/// What a session is asked to do: of its files, of its jobs, or at its console. Names are the bytes of the line. Whether they name a
/// file is judged where the entry is done.
#[derive(Drop)]
pub enum Entry {
    /// Of the files of the volume.
    Files(FileEntry),

    /// Of the jobs: it begins one, or lets one take a turn.
    Jobs(JobEntry),

    /// At the operator's console.
    Console(ConsoleEntry),
}

/// An entry of files.
#[derive(Drop)]
pub enum FileEntry {
    /// `STORE`: makes a file of a text, in place of any of its name.
    Store { name: Bytes, text: Bytes },

    /// `DELETE`: takes a file out.
    Delete { name: Bytes },

    /// `DIRECT`: the files of the volume with their lengths, and the free blocks.
    Direct,
}

/// An entry of jobs.
#[derive(Drop)]
pub enum JobEntry {
    /// `ASSEMBLE`: begins a job that assembles 1 to 8 sources, one after the other, to a tape in a file.
    Assemble { to: Bytes, from: Names },

    /// `LOAD`: begins a job that loads the tape of a file into core.
    Load { name: Bytes },

    /// `SQUEEZE`: begins a job that moves files down until no free block is below a file.
    Squeeze,

    /// `TURN`: lets the job of a number take a turn.
    Turn(u32),
}

/// An entry of the console (Small Computer Handbook; breaks, runs of many steps and the characters that are kept are this project's
/// profile).
#[derive(Clone, Copy)]
pub enum ConsoleEntry {
    /// `START`: clears the accumulator, link and input/output, and makes the processor run from a cell on.
    Start(Cell),

    /// `STEP`: up to so many steps of the processor, 1 to 1,000,000; breaks are not minded.
    Step(u32),

    /// `GO`: up to so many steps of the processor, 1 to 1,000,000, as far as a break.
    Go(u32),

    /// `RUN`: `START`, and then `GO` with a printer that is always quick.
    Run { cell: Cell, steps: u32 },

    /// `KEY`: strikes the key of a character of eight bits.
    Key(u8),

    /// `DONE`: the printer ends its character.
    Done,

    /// `SWITCHES`: sets the switch register.
    Switches(Word),

    /// `EXAMINE`: shows the word of a cell.
    Examine(Cell),

    /// `DEPOSIT`: gives a cell a word.
    Deposit { cell: Cell, word: Word },

    /// `BREAK`: sets a break at a cell, or takes it away.
    Break { cell: Cell, is_on: bool },

    /// `REGISTERS`: shows the registers of the processor.
    Registers,

    /// `PRINTED`: shows the characters that were printed.
    Printed,
}
