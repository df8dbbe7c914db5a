//! Sessions over stores of which one block call fails: each read, and each write, in turn.

use crate::items::{do_items, expand_text, tells_device};
use os8_dir::{DirFault, Directory, Name};
use std::alloc::Global;
use system_session::Session;
use volume_image::{BlockStore, FuseVolume, MemoryVolume};

/// A number of items or block calls that none reaches.
const NONE: u32 = 1000;

/// A fresh volume of 20 blocks that fails at the read and the write of these numbers, counted from 0.
fn fuse(alloc: Global, read: u32, write: u32) -> Option<FuseVolume> {
    let volume = MemoryVolume::create(alloc, 20).ok()?;
    Some(FuseVolume::new(volume, Some(read), Some(write)))
}

/// Does items of a script over a store until a block call fails or so many are done. It gives how many were, 0 where the mount was
/// refused, and the image after that. The replies to the last one are in `out`.
fn run_items(
    alloc: Global,
    store: FuseVolume,
    script: &[u8],
    most: usize,
    out: &mut Vec<u8>,
) -> (usize, Option<Vec<u8>>) {
    match Session::mount(alloc, store) {
        Err((store, _)) => (0, store.into_inner().to_bytes(alloc).ok()),
        Ok(session) => {
            let mut own = session;
            let done = do_items(alloc, &mut own, script, most, out);
            (done, own.into_store().into_inner().to_bytes(alloc).ok())
        }
    }
}

/// The image after the first items of a script, where no block call fails.
fn image_after(alloc: Global, script: &[u8], count: usize) -> Option<Vec<u8>> {
    let mut out = Vec::new(alloc);
    run_items(alloc, fuse(alloc, NONE, NONE)?, script, count, &mut out).1
}

/// The directory of an image.
fn directory_of(alloc: Global, image: &[u8]) -> Result<Directory, DirFault> {
    match MemoryVolume::from_bytes(alloc, image) {
        Ok(volume) => {
            let mut own = volume;
            Directory::read(alloc, &mut own)
        }
        Err(_) => Err(DirFault::Memory),
    }
}

/// The bytes of an image from a block on, so many blocks.
fn blocks_of(image: &[u8], place: usize, count: usize) -> &[u8] {
    let (_, rest) = image.split_at(place.saturating_mul(512).min(image.len()));
    rest.split_at(count.saturating_mul(512).min(rest.len())).0
}

/// The bytes of a file in an image, where its directory is this.
fn file_in<'a>(directory: &Directory, image: &'a [u8], name: &Name) -> &'a [u8] {
    match directory.find(name) {
        None => &[],
        Some((place, count)) => blocks_of(image, place, count),
    }
}

/// Jobs over each other: one that assembles, one that moves its source down, and one that loads.
const JOBS: &[u8] =
    b"STORE X.PA 1\n1\n~STORE S.PA 2\n*200;CLL STA;TAD ONE;HLT;ONE, 1\n$\n~DELETE X.PA\n~\
    ASSEMBLE B.BN<S.PA\n~TURN 1\n~SQUEEZE\n~TURN 2\n~TURN 1\n~TURN 1\n~TURN 2\n~TURN 2\n~LOAD B.BN\n~TURN 1\n~TURN 1\n~\
    EXAMINE 00201\n~DIRECT\n";

/// Files of two blocks each, of which two are taken out, and a squeeze that makes room for one of four.
const SHORT: &[u8] =
    b"STORE F1 1\n1#\n~STORE F2 1\n2#\n~STORE F3 1\n3#\n~STORE F4 1\n4#\n~STORE F5 1\n5#\n~STORE F6 1\n6#\n~\
    DELETE F2\n~DELETE F4\n~STORE H 1\nH\n~SQUEEZE\n~TURN 1\n~TURN 1\n~TURN 1\n~TURN 1\n~STORE G 1\nG###\n";

/// A file of five blocks that moves down by two, and one that is stored in the place of an older one.
const LONG: &[u8] =
    b"STORE F1 1\n1#\n~STORE F2 1\n2####\n~STORE F3 1\n3\n~STORE F3 1\n4\n~DELETE F1\n~SQUEEZE\n~TURN 1\n~TURN 1\n~\
    DELETE F2\n~TURN 1\n~TURN 1\n";

/// Whether a session whose read of a number fails was refused at its mount with the image unchanged, or after the failed turn
/// has the image that was there before. It gives nothing where no read failed.
fn read_lost(alloc: Global, script: &[u8], number: u32) -> Option<bool> {
    let mut out = Vec::new(alloc);
    let (done, image) = run_items(alloc, fuse(alloc, number, NONE)?, script, 99, &mut out);
    if done > 0 && !tells_device(&out) {
        return None;
    }
    let before = image_after(alloc, script, done.saturating_sub(1))?;
    Some(image? == before && (done == 0 || out.starts_with(b"JOB ")))
}

/// Whether each file of an image stands in another one in full: at its old blocks, or where it stands after the entry that was
/// begun. Where the directory is the old one, only a file that is being moved may be missing.
fn stand_in(old: &[u8], new: &[u8], before: &Directory, following: &Directory) -> bool {
    let same = blocks_of(old, 1, 6) == blocks_of(new, 1, 6);
    for entry in before.entries() {
        if let Some(name) = entry.name() {
            let was = file_in(before, old, &name);
            let moved = before.find(&name) != following.find(&name);
            let stands = file_in(before, new, &name) == was
                || file_in(following, new, &name) == was;
            if !stands && !(same && moved) {
                return false;
            }
        }
    }
    true
}

/// Whether a session whose write of a number fails leaves what it may of the files; nothing where no write failed.
fn write_lost(alloc: Global, script: &[u8], number: u32) -> Option<bool> {
    let mut out = Vec::new(alloc);
    let (done, image) = run_items(alloc, fuse(alloc, NONE, number)?, script, 99, &mut out);
    if !tells_device(&out) {
        return None;
    }
    let old = image_after(alloc, script, done.saturating_sub(1))?;
    let next = image_after(alloc, script, done)?;
    let before = directory_of(alloc, &old).ok()?;
    let following = directory_of(alloc, &next).ok()?;
    let new = image?;
    let is_read = directory_of(alloc, &new).is_ok();
    let kept = blocks_of(&old, 1, 6) != blocks_of(&new, 1, 6) || is_read;
    Some(kept && stand_in(&old, &new, &before, &following))
}

/// How many calls of a script were let fail, one in each run of it, until none did; 1000 more where one left what it may not.
fn failed_calls(alloc: Global, script: &[u8], writes: bool) -> u32 {
    let bytes = expand_text(alloc, script);
    for number in 0..NONE {
        let lost = if writes {
            write_lost(alloc, &bytes, number)
        } else {
            read_lost(alloc, &bytes, number)
        };
        match lost {
            None => return number,
            Some(true) => {}
            Some(false) => return number.saturating_add(NONE),
        }
    }
    NONE
}

#[test]
fn each_call_failed(rt: HostRuntime) {
    let alloc = rt.alloc();
    assert_eq!(rt; failed_calls(alloc, JOBS, false), 11);
    assert_eq!(rt; failed_calls(alloc, SHORT, true), 38);
    assert_eq!(rt; failed_calls(alloc, LONG, true), 25);
}

/// What a script writes where its calls of these numbers fail, and what is said of the volume when it is mounted again. That is
/// the free blocks, or 1000 where its first segment has a bad count.
fn remount(
    alloc: Global,
    read: u32,
    write: u32,
    script: &[u8],
    out: &mut Vec<u8>,
) -> Option<usize> {
    let (_, image) = run_items(alloc, fuse(alloc, read, write)?, script, 1, out);
    match directory_of(alloc, &image?) {
        Ok(directory) => Some(directory.free()),
        Err(DirFault::BadCount(1)) => Some(1000),
        Err(_) => None,
    }
}

/// A text that is stored, and what asks for files and for none after it.
const STORE_SCRIPT: &[u8] = b"STORE A.TX 0\nDIRECT\nEXAMINE 00000\n";

/// A file that is moved down.
const MOVE_SCRIPT: &[u8] =
    b"STORE A 0\nSTORE B 0\nDELETE A\nSQUEEZE\nTURN 1\nDIRECT\nSQUEEZE\nFINISH\n";

/// Which read and which write fail in a script, what is then written, and what is said when it is mounted again. The squeeze first
/// reads at read 7, and writes at write 5.
const STOP_CASES: [(u32, u32, &[u8], &[u8], usize); 5] = [
    (
        NONE,
        0,
        STORE_SCRIPT,
        b"? 4.8 DEVICE\n? 4.9 STOPPED\n00000 0000\n",
        13,
    ),
    (
        NONE,
        1,
        STORE_SCRIPT,
        b"? 4.8 DEVICE\n? 4.9 STOPPED\n00000 0000\n",
        1000,
    ),
    (
        7,
        NONE,
        MOVE_SCRIPT,
        b"STORED A 1\nSTORED B 1\nDELETED A\nJOB 1\nJOB 1 ? 4.8 DEVICE\nB 1\nFREE 12\nJOB 1\nJOB 1 SQUEEZED\nFINISHED\n",
        12,
    ),
    (
        NONE,
        5,
        MOVE_SCRIPT,
        b"STORED A 1\nSTORED B 1\nDELETED A\nJOB 1\nJOB 1 ? 4.8 DEVICE\n? 4.9 STOPPED\n? 4.9 STOPPED\nFINISHED\n",
        12,
    ),
    (
        NONE,
        0,
        MOVE_SCRIPT,
        b"? 4.8 DEVICE\n? 4.9 STOPPED\n? 4.9 STOPPED\n? 4.9 STOPPED\n? 2 NO JOB\n? 4.9 STOPPED\n? 4.9 STOPPED\nFINISHED\n",
        13,
    ),
];

#[test]
fn stopped_sessions(rt: HostRuntime) {
    let alloc = rt.alloc();
    let mut out = Vec::new(alloc);
    for (read, write, script, want, said) in STOP_CASES {
        out.clear();
        let is_said = remount(alloc, read, write, script, &mut out) == Some(said);
        assert!(rt; is_said && out.as_slice() == want, "{out:?}");
    }
}
