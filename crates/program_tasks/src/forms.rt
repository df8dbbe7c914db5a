//! What is asked of the files of volumes.
use archive_files::{Asked, GetForm};
use disk_layouts::Layout;
use word12::Word;

/// The file of the host that holds a volume, and where in it.
#[derive(Drop)]
pub struct ImageForm {
    pub file: String,

    /// Where in it, if the file holds more than its image.
    pub layout: Option<Layout>,

    /// Whether it is one volume from its first byte, whatever stands in it.
    pub is_plain: bool,

    /// How many seconds are waited where another program holds the file, 0 to 3600.
    pub wait: usize,

    /// Whether faults of the image are mended as it is read.
    pub is_lenient: bool,
}

/// Where a paper tape, or a program that may stand for one, is.
#[derive(Drop)]
pub enum TapeForm {
    /// In this file of the host.
    File(String),

    /// In the file of this name on a volume.
    Member(ImageForm, String),
}

/// Where a new volume is written to.
#[derive(Drop)]
pub struct CreateForm {
    pub file: String,

    /// Whether a file that is there is left alone, and the command refused.
    pub is_new: bool,

    /// How many seconds are waited where another program holds the file, 0 to 3600.
    pub wait: usize,
}

/// Which files are texts, where several are got or put.
#[derive(Drop)]
pub struct TextsForm {
    /// Those that are named, and of others those with an extension that OS/8 uses for texts.
    pub is_usual: bool,

    /// Those with these extensions, each as it was typed.
    pub extensions: Vec<String>,
}

/// Which files are got, and where to.
#[derive(Drop)]
pub struct GetManyForm {
    pub image: ImageForm,

    /// Their names on the volume.
    pub names: Vec<String>,

    /// The first blocks of others, 0 to 4095.
    pub places: Vec<usize>,

    /// Whether all files of the volume are got, also where others are named.
    pub is_all: bool,

    /// The folder of the host that gets them.
    pub folder: String,

    pub texts: TextsForm,

    /// Whether older files of the folder may go.
    pub is_forced: bool,

    /// The last of the eight years that dates mean, 1977 to 9999, if it is given.
    pub year: Option<usize>,
}

/// Which texts are printed, one after another.
#[derive(Drop)]
pub struct GetTextsForm {
    pub image: ImageForm,

    /// The names of their files on the volume, or patterns.
    pub names: Vec<String>,

    /// The first blocks of others, 0 to 4095.
    pub places: Vec<usize>,

    /// Whether those of all files are printed, also where others are named.
    pub is_all: bool,
}

/// Which blocks are got, whatever the directory says.
#[derive(Drop)]
pub struct BlocksForm {
    pub image: ImageForm,

    /// The first of them, 0 to 4094.
    pub first: usize,

    /// Their number, 1 to 4095.
    pub count: usize,

    pub form: GetForm,
}

/// Which files of the host are put, and what they become.
#[derive(Drop)]
pub struct PutFilesForm {
    pub image: ImageForm,

    /// Their names, at least one.
    pub files: Vec<String>,

    /// The name on the volume of the one file that is put, if it is given. Then `-` is standard input, and the file's own name is not printed where
    /// it is refused. Else each file is put under its own name.
    pub name: Option<String>,

    pub texts: TextsForm,

    /// The information words of each, if any are given.
    pub info: Option<Vec<Word>>,

    /// The year of the date that is given, if one is.
    pub year: Option<usize>,

    /// Whether each is dated by the day on which the file of the host was last changed.
    pub is_dated: bool,

    /// Whether an empty file may replace one that has words.
    pub may_empty: bool,
}

/// Which files are taken out, at least one.
#[derive(Drop)]
pub struct DeleteForm {
    pub image: ImageForm,

    /// Their names on the volume.
    pub names: Vec<String>,

    /// The first blocks of others, 0 to 4095.
    pub places: Vec<usize>,
}

/// Which files are listed, by their names.
#[derive(Drop)]
pub struct ListForm {
    pub image: ImageForm,

    /// Their names on the volume, or patterns, at least one.
    pub names: Vec<String>,

    /// Whether they are listed in the order of the directory, with where they lie, their information words and their dates.
    pub is_long: bool,

    /// The last of the eight years that dates mean, 1977 to 9999, if it is given.
    pub year: Option<usize>,
}

/// Which files are copied at once.
#[derive(Drop)]
pub enum CopyChoice {
    /// This one, whose copy gets this name if it is another. An older file of the name may go.
    One(Asked, Option<String>),

    /// Those of these names on the volume, or patterns, at least one; and whether older files of their names may go.
    Like(Vec<String>, bool),
}

/// Which files are copied, and where to.
#[derive(Drop)]
pub struct CopyForm {
    pub image: ImageForm,
    pub files: CopyChoice,

    /// The volume that gets them.
    pub to: ImageForm,
}

/// Which volumes are reported.
#[derive(Drop)]
pub struct CheckForm {
    /// The files of the host that hold them, 1 to 4095.
    pub images: Vec<String>,

    /// Where in each, if they hold more than images.
    pub layout: Option<Layout>,

    /// Whether each is one volume from its first byte, whatever stands in it.
    pub is_plain: bool,

    /// Whether each fault is reported, and not the first alone.
    pub is_all: bool,

    /// Whether faults of the images are mended as they are read.
    pub is_lenient: bool,
}
