//! What is asked of whole archives, and of volumes whose directories may be damaged.
use crate::forms::ImageForm;
use disk_layouts::Layout;
use word12::Word;

/// Which blocks are shown, whatever the directory says.
#[derive(Drop)]
pub struct BlockSpan {
    pub image: ImageForm,

    /// The first of them and the last, 0 to 4095; else all.
    pub span: Option<(usize, usize)>,

    /// Whether the characters beside the words are those of sixbit, and not those of a text.
    pub is_sixbit: bool,
}

/// Which word of an image gets another in its place.
#[derive(Drop)]
pub struct PatchForm {
    pub image: ImageForm,

    /// Its block, 0 to 4095.
    pub block: usize,

    /// Its number in the block, 0 to 255.
    pub number: usize,

    /// The word that stands there, with all sixteen bits that it has in the image.
    pub old: u16,

    pub new: Word,
}

/// How the lines of an index are written.
#[derive(Clone, Copy, PartialEq, Eq, Debug)]
pub enum LineForm {
    /// As columns.
    Columns,

    /// Each as a JSON object (RFC 8259).
    Json,
}

/// Of which images an index is made, which of their files it has, and how it is written.
#[derive(Drop)]
pub struct IndexForm {
    /// The files of the host that hold the images, 1 to 1000000.
    pub images: Vec<String>,

    /// Where in each a volume lies, if they hold more than images.
    pub layout: Option<Layout>,

    /// Whether each is one volume from its first byte, whatever stands in it.
    pub is_plain: bool,

    /// The last of the eight years that dates mean, 1977 to 9999, if it is given.
    pub year: Option<usize>,

    pub form: LineForm,

    /// Whether it has just the files that are equal to others of it.
    pub is_same: bool,

    /// The pattern that the names of its files fit, in capital letters, if one is given.
    pub find: Option<String>,

    /// The text that its files hold, as it was typed, if one is given.
    pub grep: Option<String>,

    /// Whether faults of the images are mended as they are read.
    pub is_lenient: bool,
}

/// From which volume files are rescued, and where to.
#[derive(Drop)]
pub struct RescueForm {
    pub image: ImageForm,

    /// The file of the host that gets the new volume.
    pub new: String,
}

/// Which volume's blocks are scanned, and where what they hold is written to.
#[derive(Drop)]
pub struct ScanForm {
    pub image: ImageForm,

    /// The folder of the host that gets a file of each piece, if they are to be written.
    pub into: Option<String>,
}
