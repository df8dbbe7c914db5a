/// What is given of a file.
#[derive(Clone, Copy, PartialEq, Eq, Debug)]
pub enum GetForm {
    /// Its frames, three for each two words.
    Frames,

    /// Its text, with each line ended by LF alone.
    Text,

    /// The BIN tape that it begins with.
    Tape,
}

/// What bytes become in a file.
#[derive(Clone, Copy, PartialEq, Eq, Debug)]
pub enum PutForm {
    /// Its frames.
    Frames,

    /// Its text, with each line ended by CR LF.
    Text,
}
