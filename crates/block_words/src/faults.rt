use thiserror::Error;

/// Why a word is not patched, numbered from 1 in this order.
#[derive(Clone, Copy, PartialEq, Eq, Debug, Error)]
pub enum PatchFault {
    /// The image has only so many whole blocks.
    #[error("the image has only {0} blocks")]
    NoBlock(usize),

    /// A block has no such word.
    #[error("a block has only 256 words")]
    NoWord,

    /// Another word stands there.
    #[error("{0:04o} stands there")]
    OtherWord(u16),
}
