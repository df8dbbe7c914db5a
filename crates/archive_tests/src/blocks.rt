//! A word of a block, patched and shown.

use block_words::patch_laws::patched_back;
use block_words::{DumpForm, PatchFault, patch, put_block};
use std::alloc::{AllocError, Global};
use std::test::Fail;
use word12::{BLOCK, Word};

/// Whether the first line of a block whose first words are these is so.
fn is_shown(
    alloc: Global,
    first: u16,
    second: u16,
    form: DumpForm,
    wanted: &[u8],
) -> Result<bool, AllocError> {
    let mut words = [Word::ZERO; BLOCK];
    words[0] = Word::low(first);
    words[1] = Word::low(second);
    let mut text = Vec::new(alloc);
    put_block(&mut text, &words, form)?;
    Ok(text.as_slice().starts_with(wanted))
}

#[test]
fn words_are_patched(rt: HostRuntime) -> Result<(), Fail> {
    let mut image = vec![in rt.alloc(); 0; 4096]?;
    assert_eq!(rt; patch(&mut image, 1, 2, 0, Word::low(0o1234)), Ok(()));
    assert_eq!(rt; (image[516], image[517]), (0o234, 2));
    let again = patch(&mut image, 1, 2, 0, Word::ONE);
    assert_eq!(rt; again, Err(PatchFault::OtherWord(0o1234)));
    let after = patch(&mut image, 8, 0, 0, Word::ONE);
    assert_eq!(rt; after, Err(PatchFault::NoBlock(8)));
    patched_back();
    Ok(())
}

#[test]
fn blocks_are_shown(rt: HostRuntime) -> Result<(), Fail> {
    let words = b"  0: 6301 1702 0000 0000 0000 0000 0000 0000\n";
    assert!(rt; is_shown(rt.alloc(), 0o6301, 0o1702, DumpForm::Words, words)?);
    let text = b"  0: 6301 1702 0000 0000 0000 0000 0000 0000  ABC.........\n";
    assert!(rt; is_shown(rt.alloc(), 0o6301, 0o1702, DumpForm::Text, text)?);
    let sixbit = b"  0: 1011 4100 0000 0000 0000 0000 0000 0000  HI!@@@@@@@@@@@@@\n";
    assert!(rt; is_shown(rt.alloc(), 0o1011, 0o4100, DumpForm::Sixbit, sixbit)?);
    Ok(())
}
