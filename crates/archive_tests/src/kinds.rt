//! What files and images hold.

ghost use Rattle.std.specs.Prelude.{◌≤◌};

use file_kind::{FileKind, kind_of};
use image_kind::{Form, ImageKind, kind_of as image_kind_of};
use std::alloc::Global;
use std::test::Fail;
use volume_image::{ImageFault, MemoryVolume};

/// What frames are, as the first letter of a word for it; `?` where memory ran out.
fn kind(alloc: Global, frames: &[u8]) -> u8 {
    match kind_of(alloc, frames) {
        Ok(FileKind::Zeros) => b'z',
        Ok(FileKind::Core(_)) => b'c',
        Ok(FileKind::Bin) => b'b',
        Ok(FileKind::Rim) => b'r',
        Ok(FileKind::Text) => b't',
        Ok(FileKind::Unknown) => b'u',
        Err(_) => b'?',
    }
}

/// The image of an empty volume with so many bytes after it.
fn image(alloc: Global, blocks: usize, more: usize) -> Result<Vec<u8>, ImageFault>
    requires blocks { blocks ≤ 4095 }
    requires more { more ≤ 512 }
{
    let volume = MemoryVolume::create(alloc, blocks)?;
    let mut bytes = volume.to_bytes(alloc)?;
    let size = bytes.len();
    bytes.resize(size.saturating_add(more), 0)?;
    Ok(bytes)
}

/// What an image is, its bytes before and after.
fn form(bytes: &[u8]) -> (u8, usize, usize) {
    match image_kind_of(bytes) {
        Some(
            ImageKind {
                form,
                before,
                after,
            },
        ) => {
            let letter = match form {
                Form::Volume => b'v',
                Form::Disk => b'd',
                Form::Dectape => b't',
            };
            (letter, before, after)
        }
        None => (b'?', 0, 0),
    }
}

#[test]
fn files_are_known(rt: HostRuntime) {
    let bin = b"\x80\x42\x00\x3B\x00\x0A\x03\x3C\x02\x00\x07\x03\x0F\x80";
    assert_eq!(rt; kind(rt.alloc(), bin), b'b');
    assert_eq!(rt;
        kind(rt.alloc(), b"\x80\x42\x00\x3A\x00\x42\x01\x3C\x02\x80"),
        b'r'
    );
    assert_eq!(rt; kind(rt.alloc(), b"HELLO\r\n"), b't');
    assert_eq!(rt; kind(rt.alloc(), b"\xC8\xC9\x9A\x00"), b't');
    assert_eq!(rt; kind(rt.alloc(), b"\x00\x00"), b'z');
    assert_eq!(rt; kind(rt.alloc(), b"\x01\x02"), b'u');
}

#[test]
fn images_are_known(rt: HostRuntime) -> Result<(), Fail> {
    assert_eq!(rt; form(&image(rt.alloc(), 20, 0)?), (b'v', 0, 0));
    assert_eq!(rt; form(&image(rt.alloc(), 20, 128)?), (b'v', 0, 128));
    assert_eq!(rt; form(&vec![in rt.alloc(); 0; 10240]?), (b'?', 0, 0));
    Ok(())
}
