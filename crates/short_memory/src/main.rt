//! Runs the script on standard input over a fresh volume of 20 blocks, an item at a time, where memory may run out once. Then a second
//! session does what was done before the item, and the two must show the same; the item is done again, and its answer is what is
//! printed. With one argument, or three, the run ends there, and the files of the two are compared, block by block. With two or three
//! the refused item also leaves the session spoiled, which must be found.
//!
//! The status is 0; 3 where memory ran out outside a session; 4 where the two differ; and 5 where the item was refused again.
#![tactic(auto)]

mod compared;
mod items;

use compared::{same_files, same_sessions};
use items::{Done, next_bytes, run_item};
use std::alloc::Global;
use std::env;
use std::io::{self, Read, Write};
use std::process::ExitCode;
use system_session::Session;
use volume_image::MemoryVolume;

/// How many bytes a script may have, and so its replies.
const MOST: usize = 16384;

/// What spoils a session: a cell and a file that it is not to have.
const SPOILING: &[u8] = b"DEPOSIT 77777 7777\nSTORE SPOILT.PA 0\n";

/// What is done after an item that was refused.
#[derive(Clone, Copy)]
struct AfterRefusal {
    spoils: bool,
    stops: bool,
}

fn main(rt: HostRuntime) -> ExitCode {
    let mut script = [0u8; MOST];
    let after = match env::args(&rt) {
        Ok(words) => after_refusal(words.count()),
        Err(_) => return ExitCode::from(3),
    };
    let Ok(length) = fill_buffer(&mut rt.reader(), &mut script) else {
        return ExitCode::FAILURE;
    };
    let Ok(mut out) = Vec::with_capacity(rt.alloc(), MOST) else {
        return ExitCode::from(3);
    };
    let text = &script[..length.min(MOST)];
    let status = match fresh(rt.alloc()) {
        None => 3,
        Some(session) => run(rt.alloc(), session, text, after, &mut out),
    };
    match io::writer(&rt).write_all(&out) {
        Ok(()) => ExitCode::from(status),
        Err(_) => ExitCode::FAILURE,
    }
}

/// What the program is asked for by so many words, its name among them.
fn after_refusal(words: usize) -> AfterRefusal {
    AfterRefusal {
        spoils: words > 2,
        stops: words == 2 || words == 4,
    }
}

/// Reads into a buffer until there is no more, or it is full; how many bytes were read.
fn fill_buffer<R: Read>(reader: &mut R, buffer: &mut [u8]) -> io::Result<usize> {
    let mut length = 0usize;
    for _ in 0..buffer.len() {
        let (_, rest) = buffer.split_at_mut(length.min(buffer.len()));
        match reader.read(rest)? {
            0 => break,
            read => length = length.saturating_add(read),
        }
    }
    Ok(length)
}

/// A session over a fresh volume; where memory ran out, another one.
pub(crate) fn fresh(alloc: Global) -> Option<Session<MemoryVolume>> {
    match mount_session(alloc) {
        Some(session) => Some(session),
        None => mount_session(alloc),
    }
}

fn mount_session(alloc: Global) -> Option<Session<MemoryVolume>> {
    match Session::mount(alloc, MemoryVolume::create(alloc, 20).ok()?) {
        Ok(session) => Some(session),
        Err(_) => None,
    }
}

/// Runs the items of a script, and ends the session; the status.
fn run(
    alloc: Global,
    session: Session<MemoryVolume>,
    script: &[u8],
    after: AfterRefusal,
    out: &mut Vec<u8>,
) -> u8 {
    let mut own = session;
    let mut status = 0;
    let mut start = 0;
    for _ in 0..script.len() {
        match refused_item(alloc, &mut own, script, start, out) {
            None => break,
            Some((place, bytes)) => {
                let (prefix, rest) = script.split_at(place.min(script.len()));
                if after.spoils {
                    let mut told = Vec::new(alloc);
                    let _ = run_item(alloc, &mut own, SPOILING, &mut told);
                }
                if after.stops {
                    return same_files(alloc, own.into_store(), prefix).status();
                }
                let item = rest.split_at(bytes.min(rest.len())).0;
                status = status.max(again(alloc, &mut own, prefix, item, out));
                start = place.saturating_add(bytes);
            }
        }
    }
    drop(own.into_store());
    status
}

/// Runs the items of a script from a place on until one is refused: the place of that, and how many bytes it has.
fn refused_item(
    alloc: Global,
    session: &mut Session<MemoryVolume>,
    script: &[u8],
    start: usize,
    out: &mut Vec<u8>,
) -> Option<(usize, usize)> {
    let mut place = start;
    for _ in 0..script.len() {
        let rest = script.split_at(place.min(script.len())).1;
        let bytes = next_bytes(alloc, rest)?;
        if run_item(alloc, session, rest.split_at(bytes).0, out) == Done::Refused {
            return Some((place, bytes));
        }
        place = place.saturating_add(bytes);
    }
    None
}

/// Does an item again that was refused after a prefix of the script; the status.
fn again(
    alloc: Global,
    session: &mut Session<MemoryVolume>,
    prefix: &[u8],
    item: &[u8],
    out: &mut Vec<u8>,
) -> u8 {
    let same = same_sessions(alloc, session, prefix);
    match run_item(alloc, session, item, out) {
        Done::Whole => same.status(),
        Done::Refused => 5,
    }
}
