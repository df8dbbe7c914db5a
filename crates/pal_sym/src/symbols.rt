//! What a name was defined as.

use word12::Word;

/// The value of a name, and whether it is a tag, which `=` can't redefine.
#[derive(Clone, Copy)]
pub struct Symbol {
    pub value: Word,
    pub is_tag: bool,
}
