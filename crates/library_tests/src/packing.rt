//! The greatest file in three characters a pair of words, with ample memory.

use char_pack::{
    Frames, PackFault, character_count, is_storable, pack, pack_blocks, store, stored_block_count,
    text_of,
};
use std::alloc::Global;
use std::test::Fail;
use word12::Word;

/// So many letters and the line's end are, with its CR and the control Z after it, the characters of 4088 blocks.
const LETTERS: usize = 1_569_789;

/// How many frames words have, and whether these are packed in the words, and in whole blocks, that they came from.
fn comes_back(alloc: Global, words: &[Word]) -> Result<(usize, bool), PackFault> {
    let frames: Vec<u8> = match Frames::new(words).collect(alloc) {
        Ok(frames) => frames,
        Err(_) => return Err(PackFault::Memory),
    };
    let is_packed = pack(alloc, &frames)?.as_slice() == words;
    let is_whole = pack_blocks(alloc, &frames)?.as_slice() == words;
    Ok((frames.len(), is_packed && is_whole))
}

/// How many characters the text of words has, and its first and its last one.
fn text_in(alloc: Global, words: &[Word]) -> Result<(usize, Option<u8>, Option<u8>), PackFault> {
    let text = text_of(alloc, words)?;
    Ok((text.len(), text.first().copied(), text.last().copied()))
}

#[test]
fn fills_the_greatest_file(rt: HostRuntime) -> Result<(), Fail> {
    let mut host = vec![in rt.alloc(); b'A'; LETTERS]?;
    host.push(b'\n')?;
    assert!(rt; is_storable(&host));
    let counts = (character_count(&host), stored_block_count(&host));
    assert_eq!(rt; counts, (1_569_791, 4088));
    let words = store(rt.alloc(), &host)?;
    let ends = (1_569_791, Some(b'A'), Some(b'\n'));
    assert_eq!(rt; text_in(rt.alloc(), &words)?, ends);
    assert_eq!(rt; comes_back(rt.alloc(), &words)?, (1_569_792, true));
    Ok(())
}
