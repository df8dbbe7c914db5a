//! What may help where something is refused.
ghost use Rattle.std.specs.Prelude.{◌≡◌, IsTrue, ◌↔◌, true, codes};
ghost use Rattle.disk_layouts.specs.Disks.{guess_of};
ghost use Rattle.outcome.specs.Hints as spec;

use crate::notes::PlainNote;
use archive_files::ArchiveFault;
use arrayvec::ArrayString;
use disk_layouts::{Layout, guess};
use file_kind::FileKind;
use os8_dir::DirFault;
use volume_image::ImageFault;
use word12::{BLOCK, Cell, MOST_BLOCKS};

/// The most bytes that an image has.
pub const IMAGE: usize = MOST_BLOCKS * BLOCK * 2;

/// A note on an image that is refused.
#[derive(Clone, Copy)]
pub enum ImageNote {
    Plain(PlainNote),

    /// The file has so many bytes, and no image has.
    Size(usize),

    /// The word of this index, counted from 0 over the whole image, has more than twelve bits.
    Word(usize),
}

/// What may help where an image of so many bytes, or a file of it, is refused; none where nothing is known (this project's profile).
pub fn image_note(size: usize, fault: &ArchiveFault) -> Option<ImageNote>
    ensures { result ≡ spec.image_note size fault.now }
{
    match fault {
        ArchiveFault::Image(fault) => fault_note(size, *fault),
        ArchiveFault::Directory(fault) => directory_note(size, *fault),
        ArchiveFault::Refused(_) => None,
    }
}

/// What may help where so many bytes are no image by this fault.
fn fault_note(size: usize, fault: ImageFault) -> Option<ImageNote>
    ensures { result ≡ spec.fault_note size fault }
{
    match fault {
        ImageFault::BadWord(number) => match layout_note(size) {
            Some(note) => Some(note),
            None => Some(ImageNote::Word(number)),
        },
        ImageFault::NotWhole => layout_note(size),
        ImageFault::TooSmall => layout_note(size),
        ImageFault::TooLarge => layout_note(size),
        ImageFault::Memory => layout_note(size),
    }
}

/// What may help where so many bytes are no image.
fn layout_note(size: usize) -> Option<ImageNote>
    ensures { result ≡ spec.layout_note size (guess_of size) }
{
    match guess(size) {
        Some(Layout::Dectape) => Some(ImageNote::Plain(PlainNote::Dectape)),
        Some(Layout::First | Layout::Second) => Some(ImageNote::Plain(PlainNote::Disk)),
        None => size_note(size),
    }
}

/// That no image has so many bytes, where none has.
fn size_note(size: usize) -> Option<ImageNote>
    ensures { result ≡ spec.layout_note size None }
{
    if is_volume_size(size) {
        return None;
    }
    Some(ImageNote::Size(size))
}

/// Whether a volume may have so many bytes.
fn is_volume_size(size: usize) -> bool
    ensures { result ≡ spec.is_volume_size size }
{
    size % 512 == 0 && size >= 8 * 512 && size <= IMAGE
}

/// The text of the note that a file has so many bytes, and no image has, with the end of its line (this project's profile). No memory is taken.
pub fn size_text(size: usize) -> ArrayString<160>
    ensures { result.bytes ≡ spec.size_text size }
{
    let mut text = ArrayString::new();
    let mut digits = itoa::Buffer::new();
    text.push_str("note: ");
    text.push_str(digits.format(size));
    text.push_str(
        " bytes are no image: a volume has 8 to 4095 blocks of 512, a disk 1662977 to 3325952 bytes, a DECtape 380292\n",
    );
    text
}

/// The text of the note that the word of this index has more than twelve bits, by its place in its block, with the end of its line (this
/// project's profile). No memory is taken.
pub fn word_text(number: usize) -> ArrayString<160>
    ensures { result.bytes ≡ spec.word_text number }
{
    let mut text = ArrayString::new();
    let mut word = itoa::Buffer::new();
    let mut block = itoa::Buffer::new();
    text.push_str("note: word ");
    text.push_str(word.format(number % BLOCK));
    text.push_str(" of block ");
    text.push_str(block.format(number / BLOCK));
    text.push_str(" has more than 12 bits: --lenient reads it without the top ones\n");
    text
}

/// What may help where the directory of an image of so many bytes is not sound.
fn directory_note(size: usize, fault: DirFault) -> Option<ImageNote>
    ensures { result ≡ spec.directory_note size fault }
{
    match fault {
        DirFault::PastVolume if size < IMAGE => Some(ImageNote::Plain(PlainNote::ShortDisk)),
        _ => None,
    }
}

/// What is said of frames that are no BIN tape, by what they are; nothing where that takes no command (this project's profile).
pub fn kind_note(kind: FileKind) -> Option<PlainNote>
    ensures { result ≡ spec.kind_note kind }
{
    match kind {
        FileKind::Rim => Some(PlainNote::RimTape),
        FileKind::Text => Some(PlainNote::TextFile),
        FileKind::Core(_) => Some(PlainNote::CoreImage),
        FileKind::Zeros | FileKind::Bin | FileKind::Unknown => None,
    }
}

/// What is said of where a tape's program starts if that isn't given, by the cell of its first word; nothing where that is 00200 too
/// (this project's profile).
pub fn start_note(first: Cell, start: Cell) -> Option<PlainNote>
    ensures { result ≡ spec.start_note first start }
{
    if start.index() != 0o200 {
        return Some(PlainNote::StartAtFirst);
    }
    if first.index() != 0o200 {
        return Some(PlainNote::StartAt200);
    }
    None
}

/// What is said of a start that is given, by whether the tape gives its cell a word.
pub fn given_note(has_word: bool) -> Option<PlainNote>
    ensures { result ≡ spec.given_note has_word }
{
    if has_word {
        return None;
    }
    Some(PlainNote::StartAtNoWord)
}

/// What is said of a line of a script whose first word is no command.
pub fn command_hint() -> &'static str
    ensures { result.now ≡ codes "a line begins with STORE, DELETE, DIRECT, ASSEMBLE, LOAD, SQUEEZE, TURN, FINISH, START, STEP, GO, RUN, KEY, DONE, SWITCHES, EXAMINE, DEPOSIT, REGISTERS, BREAK or PRINTED" }
{
    "a line begins with STORE, DELETE, DIRECT, ASSEMBLE, LOAD, SQUEEZE, TURN, FINISH, START, STEP, GO, RUN, KEY, DONE, SWITCHES, EXAMINE, DEPOSIT, REGISTERS, BREAK or PRINTED"
}
