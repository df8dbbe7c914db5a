//! A line of an index.

use file_kind::FileKind;
use os8_dir::Name;
use std::alloc::{AllocError, Global};
use std::test::Fail;
use volume_index::{IndexEntry, put_index};
use word12::{Cell, Word};

/// Whether the line of a core image on an image of this name is so; the digest is that of no byte.
fn is_line(alloc: Global, image: &[u8], wanted: &[u8]) -> Result<bool, AllocError> {
    let words = [
        Word::low(0o2022),
        Word::low(0o1707),
        Word::ZERO,
        Word::low(0o2326),
    ];
    let entry = IndexEntry {
        volume: Some(2),
        first: 70,
        length: 12,
        name: Name::of(words),
        date: Word::low(0o1544),
        kind: FileKind::Core(Cell::at(1, Word::low(0o200))),
    };
    let mut text = Vec::new(alloc);
    put_index(&mut text, image, &entry, 1977, b"")?;
    Ok(text.as_slice() == wanted)
}

#[test]
fn files_have_lines(rt: HostRuntime) -> Result<(), Fail> {
    let wanted =
        b"a\\040b\t2\t70\t12\tPROG.SV\t1974-03-12\tcore-10200\td41d8cd98f00b204e9800998ecf8427e\n";
    assert!(rt; is_line(rt.alloc(), b"a b", wanted)?);
    Ok(())
}
