//! Names of letters and digits, and others.

use name_spelling::laws::{safe_names, shown_names};
use name_spelling::{put_name, read_name};
use os8_dir::Name;
use std::alloc::{AllocError, Global};
use std::test::Fail;
use word12::Word;

/// Whether the name of four words is spelled so.
fn is_spelled(alloc: Global, words: [u16; 4], wanted: &[u8]) -> Result<bool, AllocError> {
    let [a, b, c, d] = words;
    let name = Name::of([Word::low(a), Word::low(b), Word::low(c), Word::low(d)]);
    let mut text = Vec::new(alloc);
    put_name(&mut text, name)?;
    Ok(text.as_slice() == wanted)
}

/// The words of the name that a text spells.
fn words_of(text: &[u8]) -> Option<[u16; 4]> {
    let [a, b, c, d] = read_name(text)?.words();
    Some([a.get(), b.get(), c.get(), d.get()])
}

#[test]
fn names_are_spelled(rt: HostRuntime) -> Result<(), Fail> {
    let plain = [0o2022, 0o1707, 0, 0o2001];
    let odd = [0o1011, 0o4100, 0, 0o2430];
    assert!(rt; is_spelled(rt.alloc(), plain, b"PROG.PA")?);
    assert!(rt; is_spelled(rt.alloc(), odd, b"HI_41.TX")?);
    assert!(rt; is_spelled(rt.alloc(), [1, 0, 0, 1], b"_00A._00A")?);
    assert_eq!(rt; words_of(b"HI_41.TX"), Some([0o1011, 0o4100, 0, 0o2430]));
    assert_eq!(rt; words_of(b"TOOLONG"), None);
    shown_names();
    safe_names();
    Ok(())
}
