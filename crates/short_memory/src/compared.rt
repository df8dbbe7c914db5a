//! Whether a session stands as another one that did the same entries, where no memory ran out.

use crate::fresh;
use crate::items::{Done, run_item};
use os8_dir::{Directory, Name};
use std::alloc::{AllocError, Global};
use system_session::Session;
use volume_image::MemoryVolume;
use word12::Word;

/// What a comparison found; nothing where memory ran out in it.
#[derive(Clone, Copy)]
pub struct AreSame(Option<bool>);

impl AreSame {
    /// The status of the program.
    pub fn status(self) -> u8 {
        match self.0 {
            Some(true) => 0,
            Some(false) => 4,
            None => 3,
        }
    }
}

/// Whether a session shows the same files, registers, characters and cells as one that did this script.
pub fn same_sessions(alloc: Global, session: &mut Session<MemoryVolume>, script: &[u8]) -> AreSame {
    let Some(other) = fresh(alloc) else {
        return AreSame(None);
    };
    let mut own = other;
    let mut out = Vec::new(alloc);
    let told = run_item(alloc, &mut own, script, &mut out);
    let same = shown_alike(alloc, session, &mut own);
    drop(own.into_store());
    match told {
        Done::Whole => AreSame(same.ok()),
        Done::Refused => AreSame(None),
    }
}

/// Whether two sessions show the same.
fn shown_alike(
    alloc: Global,
    one: &mut Session<MemoryVolume>,
    two: &mut Session<MemoryVolume>,
) -> Result<bool, AllocError> {
    let questions = questions(alloc)?;
    let mut first = Vec::new(alloc);
    let mut second = Vec::new(alloc);
    let told = run_item(alloc, one, &questions, &mut first);
    let again = run_item(alloc, two, &questions, &mut second);
    if told != Done::Whole || again != Done::Whole {
        return Err(AllocError);
    }
    Ok(first == second)
}

/// The lines that ask for the files, the registers, the characters and each cell.
fn questions(alloc: Global) -> Result<Vec<u8>, AllocError> {
    let mut text = Vec::new(alloc);
    text.extend_from_slice(b"DIRECT\nREGISTERS\nPRINTED\n")?;
    for cell in 0u16..32768 {
        text.extend_from_slice(&question(cell))?;
    }
    Ok(text)
}

/// The line that asks for a cell.
fn question(cell: u16) -> [u8; 14] {
    let [a, b, c, d] = Word::low(cell).octal4();
    let field = b'0' + (cell / 4096) as u8;
    [
        b'E', b'X', b'A', b'M', b'I', b'N', b'E', b' ', field, a, b, c, d, b'\n',
    ]
}

/// Whether a volume has the same files as that of a session that did this script, with the same words.
pub fn same_files(alloc: Global, store: MemoryVolume, script: &[u8]) -> AreSame {
    let Some(session) = fresh(alloc) else {
        return AreSame(None);
    };
    let mut own = session;
    let mut out = Vec::new(alloc);
    let told = run_item(alloc, &mut own, script, &mut out);
    let other = own.into_store();
    match told {
        Done::Whole => AreSame(equal_files(alloc, store, other)),
        Done::Refused => AreSame(None),
    }
}

fn equal_files(alloc: Global, one: MemoryVolume, two: MemoryVolume) -> Option<bool> {
    let mut one = one;
    let mut two = two;
    let first = Directory::read(alloc, &mut one).ok()?;
    let second = Directory::read(alloc, &mut two).ok()?;
    let image = one.to_bytes(alloc).ok()?;
    let other = two.to_bytes(alloc).ok()?;
    if first.count() != second.count() {
        return Some(false);
    }
    for entry in first.entries() {
        if let Some(name) = entry.name() {
            if file_in(&first, &image, &name) != file_in(&second, &other, &name) {
                return Some(false);
            }
        }
    }
    Some(true)
}

/// The bytes of a file in an image; none where there is no file.
fn file_in<'a>(directory: &Directory, image: &'a [u8], name: &Name) -> &'a [u8] {
    match directory.find(name) {
        None => &[],
        Some((place, size)) => blocks_of(image, place, size),
    }
}

/// The bytes of an image from a block on, so many blocks.
fn blocks_of(image: &[u8], place: usize, size: usize) -> &[u8] {
    let (_, rest) = image.split_at(place.saturating_mul(512).min(image.len()));
    rest.split_at(size.saturating_mul(512).min(rest.len())).0
}
