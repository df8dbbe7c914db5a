//! Scripts that are done an item at a time.

use std::alloc::Global;
use system_session::Session;
use volume_image::BlockStore;

/// The bytes of a script. In it `#` stands for 388 times the character before it, which with it takes more than a block, and `@`
/// for 180 words of a source.
pub(crate) fn expand_text(alloc: Global, text: &[u8]) -> Vec<u8> {
    let mut bytes = Vec::new(alloc);
    let mut last = b' ';
    for byte in text {
        match *byte {
            b'#' => put_many(&mut bytes, &[last], 388),
            b'@' => put_many(&mut bytes, b"1;", 180),
            other => {
                last = other;
                put_many(&mut bytes, &[other], 1);
            }
        }
    }
    bytes
}

fn put_many(bytes: &mut Vec<u8>, part: &[u8], count: usize) {
    for _ in 0..count {
        let _ = bytes.extend_from_slice(part);
    }
}

/// Whether lines report a failed block call.
pub(crate) fn tells_device(lines: &[u8]) -> bool {
    lines.ends_with(b"? 4.8 DEVICE\n")
}

/// Does the items of a script, which `~` separates, until a block call fails or so many are done, and gives how many were. The
/// replies to the last one are in `out`.
pub(crate) fn do_items<S: BlockStore>(
    alloc: Global,
    session: &mut Session<S>,
    script: &[u8],
    most: usize,
    out: &mut Vec<u8>,
) -> usize {
    let mut done = 0usize;
    for item in script.split(|byte| *byte == b'~') {
        if done >= most || tells_device(out) {
            return done;
        }
        out.clear();
        let mut reader = item;
        let _answer = session.run_text(alloc, &mut reader, out);
        done = done.saturating_add(1);
    }
    done
}
