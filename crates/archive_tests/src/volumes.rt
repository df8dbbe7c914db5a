//! A new volume of a file with an odd name.

ghost use Rattle.std.specs.Prelude.{◌≤◌};

use os8_dir::Name;
use std::alloc::{AllocError, Global};
use std::test::Fail;
use volume_salvage::rescue_laws::just_these_files;
use volume_salvage::{KeptFile, Refusal, RescueFault, volume_of_files};
use word12::{BLOCK, Word};

/// A file of one block, whose words are all the same.
fn file(alloc: Global, word: Word, blocks: usize) -> Result<Vec<KeptFile>, AllocError>
    requires { blocks ≤ 9 }
{
    let mut info = [Word::ZERO; 10];
    info[0] = Word::low(0o1544);
    let kept = KeptFile {
        name: Name::of([
            Word::low(0o1011),
            Word::low(0o4100),
            Word::ZERO,
            Word::low(0o2430),
        ]),
        words: vec![in alloc; word; BLOCK * blocks]?,
        info,
    };
    let mut files = Vec::new(alloc);
    files.push(kept)?;
    Ok(files)
}

/// The word of an image at a byte.
fn word_at(image: &[u8], at: usize) -> u16 {
    match image.get(at..at.saturating_add(2)) {
        Some([low, high]) => u16::from(*low) + 256 * u16::from(*high % 16),
        _ => 0,
    }
}

/// The words of the only entry on a new volume of 12 blocks, and the first of the file; none where there is no volume.
fn entry(alloc: Global, blocks: usize) -> Result<[u16; 7], RescueFault>
    requires { blocks ≤ 9 }
{
    let files = match file(alloc, Word::low(0o1234), blocks) {
        Ok(files) => files,
        Err(_) => return Err(RescueFault::Unread),
    };
    let image = volume_of_files(alloc, 12, &files)?;
    let word = |number: usize| word_at(&image, 512 + 2 * number);
    Ok([
        word(5),
        word(6),
        word(7),
        word(8),
        word(9),
        word(10),
        word_at(&image, 7 * 512),
    ])
}

#[test]
fn files_are_kept(rt: HostRuntime) -> Result<(), Fail> {
    let wanted = [0o1011, 0o4100, 0, 0o2430, 0o1544, 0o7776, 0o1234];
    assert_eq!(rt; entry(rt.alloc(), 2), Ok(wanted));
    let refused = Err(RescueFault::Refused(Refusal::NoRoom(0, 5)));
    assert_eq!(rt; entry(rt.alloc(), 6), refused);
    just_these_files();
    Ok(())
}
