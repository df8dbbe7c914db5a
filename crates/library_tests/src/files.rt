//! Calls of the file service that no run of the program makes: while a file is written, and with too few or too many blocks.
ghost use Rattle.std.specs.Prelude.{◌≡◌, OnOk};
ghost use Rattle.os8_files.specs.Calls.{IsOf};

use os8_dir::Name;
use os8_files::{FileFault, FileService, Tentative};
use std::alloc::Global;
use std::process::Abort;
use volume_image::{BlockStore, MemoryVolume};
use word12::Word;

/// The name whose first word is a number.
pub fn name_of_number(number: u16) -> Name {
    Name::of([Word::low(number), Word::ZERO, Word::ZERO, Word::ZERO])
}

/// The files of a sound store.
pub fn mount_store<S: BlockStore + Drop>(alloc: Global, store: S) -> Option<FileService<S>> {
    match FileService::mount(alloc, store) {
        Ok(files) => Some(files),
        Err((_store, _fault)) => None,
    }
}

/// The number of a fault; 0 for none, 99 for one that no test meets.
pub fn number_of_fault(answer: Result<(), FileFault>) -> usize {
    match answer {
        Ok(()) => 0,
        Err(FileFault::NoRoom(blocks)) => blocks.saturating_add(1000),
        Err(FileFault::BadName) => 5,
        Err(FileFault::TooLong) => 6,
        Err(FileFault::TentativeOpen) => 7,
        Err(FileFault::NothingWritten) => 11,
        Err(_) => 99,
    }
}

fn write_blocks<S: BlockStore>(
    files: &mut FileService<S>,
    tentative: &mut Tentative,
    count: usize,
) -> Result<(), FileFault>
    requires { IsOf files.old tentative.old }
    ensures { OnOk result (IsOf files.new tentative.new) }
{
    for _block in 0..count {
        match files.write(tentative, &[Word::ZERO; 256]) {
            Ok(()) => {}
            Err(fault) => return Err(fault),
        }
    }
    Ok(())
}

/// What the making of a file of so many blocks is refused as, in the largest empty.
pub fn store_file<S: BlockStore>(
    alloc: Global,
    files: &mut FileService<S>,
    number: u16,
    count: usize,
) -> usize {
    match files.enter(name_of_number(number), 0) {
        Err(fault) => number_of_fault(Err(fault)),
        Ok(token) => {
            let mut tentative = token;
            match write_blocks(files, &mut tentative, count) {
                Ok(()) => number_of_fault(files.close(alloc, tentative, &[])),
                Err(fault) => {
                    files.give_up(tentative);
                    number_of_fault(Err(fault))
                }
            }
        }
    }
}

/// What a file is refused as; 0 where it is begun, and given up.
fn begin_file<S: BlockStore>(files: &mut FileService<S>, name: Name) -> usize {
    match files.enter(name, 1) {
        Ok(tentative) => {
            files.give_up(tentative);
            0
        }
        Err(fault) => number_of_fault(Err(fault)),
    }
}

/// What a second file, a delete and a squeeze are refused as.
fn three_refused<S: BlockStore>(alloc: Global, files: &mut FileService<S>) -> [usize; 3] {
    let second = begin_file(files, name_of_number(2));
    let deleted = number_of_fault(files.delete(alloc, &name_of_number(1)));
    let turned = match files.squeeze_turn(alloc) {
        Ok(_) => 0,
        Err(fault) => number_of_fault(Err(fault)),
    };
    [second, deleted, turned]
}

/// The same while the file 1 is written.
fn while_writing<S: BlockStore>(alloc: Global, files: &mut FileService<S>) -> [usize; 3] {
    match files.enter(name_of_number(1), 13) {
        Ok(tentative) => {
            let answers = three_refused(alloc, files);
            files.give_up(tentative);
            answers
        }
        Err(_) => [0; 3],
    }
}

/// The refusals of calls in an empty volume of 20 blocks. They are a file of no name, calls while a file is written, a file
/// of no blocks, one that is too long, one of all blocks and one more. Last comes the length of the file 1 after them.
fn refusals(alloc: Global) -> Option<[usize; 9]> {
    let mut files = mount_store(alloc, MemoryVolume::create(alloc, 20).ok()?)?;
    let unnamed = begin_file(&mut files, Name::of([Word::ZERO; 4]));
    let [second, deleted, turned] = while_writing(alloc, &mut files);
    Some([
        unnamed,
        second,
        deleted,
        turned,
        store_file(alloc, &mut files, 1, 0),
        store_file(alloc, &mut files, 1, 14),
        store_file(alloc, &mut files, 1, 13),
        begin_file(&mut files, name_of_number(2)),
        files.lookup(&name_of_number(1)).unwrap_or(0),
    ])
}

#[test]
fn refused_calls(rt: HostRuntime) {
    assert_eq!(rt;
        refusals(rt.alloc()),
        Some([5, 7, 7, 7, 11, 6, 0, 1000, 13])
    );
}
