//! The block calls that sessions make, and a run of very many entries.

use crate::items::{do_items, expand_text};
use script8::{Entry, JobEntry};
use std::alloc::{AllocError, Global};
use std::test::Fail;
use system_session::Session;
use volume_image::{CountVolume, MemoryVolume};

/// Scripts, whose items `~` separates, and the reads and writes that a session over a fresh volume of 20 blocks has made when it is
/// mounted, and after each item. A turn of a job reads a block at most, and only what changes files writes.
const COUNTS: [(&[u8], &str); 3] = [
    (
        b"DIRECT\n~STORE A 0\n~STORE B 1\nA#\n~DELETE A\n~SQUEEZE\n~TURN 1\n",
        " 7/0 7/0 7/2 7/5 7/6 7/6 9/9",
    ),
    (
        b"STORE S.PA 1\n #1;$\n~ASSEMBLE B.BN<S.PA\n~TURN 1\n~TURN 1\n~TURN 1\n~TURN 1\n~TURN 1\n~LOAD B.BN\n~TURN 1\n~TURN 1\n",
        " 7/0 7/3 7/3 8/3 9/3 10/3 11/3 11/5 11/5 12/5 12/5",
    ),
    (
        b"STORE S.PA 2\n@\n$\n~ASSEMBLE B.BN<S.PA\n~FINISH\n~LOAD B.BN\n~TURN 1\n~TURN 1\n~TURN 1\n",
        " 7/0 7/2 7/2 9/5 9/5 10/5 11/5 11/5",
    ),
];

/// Puts down how many reads and writes a session has made after the first items of a script.
fn put_count(alloc: Global, script: &[u8], most: usize, text: &mut String) {
    if let Ok(volume) = MemoryVolume::create(alloc, 20) {
        if let Ok(session) = Session::mount(alloc, CountVolume::new(volume)) {
            let mut own = session;
            let mut out = Vec::new(alloc);
            let _done = do_items(alloc, &mut own, script, most, &mut out);
            let store = own.into_store();
            let (reads, writes) = (store.reads(), store.writes());
            let _ = write!(text, " {reads}/{writes}");
        }
    }
}

#[test]
fn reads_and_writes(rt: HostRuntime) {
    for (script, wanted) in COUNTS {
        let items = expand_text(rt.alloc(), script);
        let mut text = String::new(rt.alloc());
        for most in 0..wanted.split(' ').count().saturating_sub(1) {
            put_count(rt.alloc(), &items, most, &mut text);
        }
        assert!(rt; text.as_str() == wanted, "{text}");
    }
}

/// Turns of so many jobs.
fn turns(alloc: Global, count: u32) -> Result<Vec<Entry>, AllocError> {
    let mut entries = Vec::new(alloc);
    for number in 0..count {
        entries.push(Entry::Jobs(JobEntry::Turn(number)))?;
    }
    Ok(entries)
}

/// How many replies a session over the smallest volume has to entries, and whether it was stopped.
fn ran(alloc: Global, entries: &[Entry]) -> Option<(usize, bool)> {
    let volume = MemoryVolume::create(alloc, 8).ok()?;
    match Session::mount(alloc, volume) {
        Ok(session) => {
            let mut own = session;
            let run = own.run(alloc, entries);
            drop(own.into_store());
            match run {
                Ok(ran) => Some((ran.replies.len(), ran.stopped)),
                Err(_) => None,
            }
        }
        Err(_) => None,
    }
}

#[test]
fn many_entries(rt: HostRuntime) -> Result<(), Fail> {
    let entries = turns(rt.alloc(), 5000)?;
    assert_eq!(rt; ran(rt.alloc(), &entries), Some((5000, false)));
    Ok(())
}
