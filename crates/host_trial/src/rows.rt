//! Rows of what is left where a call of a host in memory fails.

use fake_host::InMemory;
use hosts::{Durability, HostFault, Recorded, Unwritten, lay, make, save_file};
use std::alloc::Global;

const OLD: &[u8] = b"OLD OLD";

const NEW: &[u8] = b"NEWER";

/// What is tried, and of what host.
#[derive(Clone, Copy, PartialEq, Eq)]
enum Trial {
    Save,
    SaveOver,
    SaveMount,
    Make,
    MakeUnlinked,
    Lay,
    Replace,
    LayDated,
}

/// The time that a file is laid with, in seconds after the begin of 1970 in UTC.
pub const TIME: u64 = 200_000_000;

fn name_of(trial: Trial) -> &'static str {
    match trial {
        Trial::Save => "save",
        Trial::SaveOver => "save over",
        Trial::SaveMount => "save mount",
        Trial::Make => "make",
        Trial::MakeUnlinked => "make unlinked",
        Trial::Lay => "lay",
        Trial::Replace => "replace",
        Trial::LayDated => "lay dated",
    }
}

/// Prints a row for each call that fails, of each trial.
pub fn print_rows<R: Print + AllocGlobal>(rt: &R) -> Option<()> {
    let trials = [
        Trial::Save,
        Trial::SaveOver,
        Trial::SaveMount,
        Trial::Make,
        Trial::MakeUnlinked,
        Trial::Lay,
        Trial::Replace,
        Trial::LayDated,
    ];
    for trial in trials {
        for number in 0..12u64 {
            print_row(rt, trial, number)?;
        }
    }
    Some(())
}

fn print_row<R: Print + AllocGlobal>(rt: &R, trial: Trial, number: u64) -> Option<()> {
    let alloc = rt.alloc();
    let mut host = Recorded::new(memory_of(alloc, trial, number)?);
    let ended = try_row(&mut host, alloc, trial);
    let memory = host.raw();
    let file = state_of(&memory.file);
    let beside = memory.beside.is_some();
    let time = memory.time;
    println!(rt;
        "{} {number}: {ended}, file {file}, beside {beside}, time {time}",
        name_of(trial)
    )
    .ok()
}

/// The host of a trial, of which a call fails.
fn memory_of(alloc: Global, trial: Trial, number: u64) -> Option<InMemory> {
    let is_new = matches!(
        trial,
        Trial::Make | Trial::MakeUnlinked | Trial::Lay | Trial::LayDated
    );
    let file = if is_new {
        None
    } else {
        Some(OLD.to_vec(alloc).ok()?)
    };
    let mut memory = InMemory::new(alloc, file, Vec::new(alloc), Some(number));
    memory.is_alone = trial != Trial::SaveOver;
    memory.is_mount = trial == Trial::SaveMount;
    memory.has_links = trial != Trial::MakeUnlinked;
    Some(memory)
}

/// How a trial ends.
fn try_row(host: &mut Recorded<InMemory>, alloc: Global, trial: Trial) -> &'static str {
    match trial {
        Trial::Save | Trial::SaveOver | Trial::SaveMount => {
            match save_file(host, alloc, "DISK", 3, NEW, "") {
                Ok(durability) => words_on(durability),
                Err(fault) => match fault.state {
                    Unwritten::AsItWas => "as it was",
                    Unwritten::InPart => "in part",
                },
            }
        }
        Trial::Make | Trial::MakeUnlinked => match make(host, alloc, "DISK", NEW) {
            Ok(durability) => words_on(durability),
            Err(_) => "unmade",
        },
        Trial::Lay | Trial::Replace => {
            words_on_laid(lay(host, alloc, "DISK", NEW, None, trial == Trial::Replace))
        }
        Trial::LayDated => words_on_laid(lay(host, alloc, "DISK", NEW, Some(TIME), false)),
    }
}

fn words_on_laid(done: Result<(), HostFault>) -> &'static str {
    match done {
        Ok(()) => "laid",
        Err(_) => "not laid",
    }
}

fn words_on(durability: Durability) -> &'static str {
    match durability {
        Durability::Certain => "certain",
        Durability::Unknown => "unknown",
    }
}

/// What a file holds.
fn state_of(file: &Option<Vec<u8>>) -> &'static str {
    match file {
        None => "none",
        Some(bytes) => {
            if bytes.as_slice() == OLD {
                return "old";
            }
            if bytes.as_slice() == NEW {
                return "new";
            }
            if bytes.is_empty() { "empty" } else { "part" }
        }
    }
}
