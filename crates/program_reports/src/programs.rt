ghost use Rattle.std.specs.Prelude.{◌≡◌, ◌+◌, ◌≤◌, ◌++◌, codes, decimal, length, OnOk, OnErr, IsOk, vec_len, vec_capacity};
ghost use Rattle.arrayvec.specs.ArrayVec.{array_vec_len};
ghost use Rattle.word12.specs.Octal.{octal5};
ghost use Rattle.name_spelling.specs.Spelling.{text_of};
ghost use Rattle.program_reports.specs.Program.{program_line, program_text, disk_text, image_text, core_text, frame_text, names_text};
ghost use Rattle.program_reports.specs.Program as spec;

use crate::drives::{DriveRefusal, put_drive};
use core_image::CoreFault;
use disk_layouts::DiskFault;
use name_spelling::put_spelled;
use os8_dir::{DirFault, Name};
use pal_faults::LineRefusal as Unnamed;
use refusals::put_directory_fault;
use refusals::text_lines::{TextLine, put, put_number};
use rim_tape::RimFault;
use std::alloc::AllocError;
use volume_image::ImageFault;
use word12::{Cell, Word};

/// What the program prints beside the lines of a session.
#[derive(Clone, Copy)]
pub enum ProgramLine {
    /// A volume of so many blocks was written.
    Created(usize),

    /// The image file could not be read.
    HostRead,

    /// The image file could not be written.
    HostWrite,

    /// Another program holds the image file.
    HostBusy,

    /// The tape gives no cell a word, so it has no source.
    NoWord,

    /// The tape gives this cell no word, at which the program of a source is to start.
    NoStart(Cell),

    /// The name of this cell is a word of the language in which a source is to be.
    Reserved(Cell),

    /// This line of the names of cells is the first that is refused, counted from 1, and why.
    Names(u64, Unnamed),

    /// A file of the first name has the second.
    Renamed(Name, Name),

    /// A file has the name that another is to get.
    Exists,

    /// A file has the name of one that is to be copied.
    CopyExists,

    /// So many files were moved together.
    Squeezed(usize),

    /// A file of so many blocks was put into an image.
    Stored(Name, usize),

    /// A file was taken out of an image.
    Deleted(Name),

    /// A file of so many blocks was written to a folder.
    Got(Name, usize),

    /// A file of the host is there that is not to be replaced.
    HostExists,

    /// A file of the host that is to be written is one that is read, or is written already.
    OneFile,

    /// Two files of the host have one name on the volume.
    SameName,

    /// Each file of the volume has only so many information words.
    OnlyWords(usize),

    /// The image has only so many blocks.
    OnlyBlocks(usize),

    /// Of so many images so many were refused.
    Images { count: usize, refused: usize },

    /// The file holds no volume of a disk or of a DECtape.
    Disk(DiskFault),

    /// The image file may be read in two ways.
    TwoReadings,

    /// A change would make the image file one that is read in another way.
    OtherKind,

    /// The tape gives no cell a word, so there is nothing to run.
    NothingToRun,

    /// The program of a core image starts at this cell.
    Start(Cell),

    /// The words of the file are no core image.
    Core(CoreFault),

    /// The frames are no RIM tape.
    Rim(RimFault),

    /// The bytes of the image file are no image of a volume.
    Image(ImageFault),

    /// The file of the disk in this drive, 0 to 3, is refused.
    OfDrive(u8, DriveRefusal),

    /// The volume's directory is not sound.
    Directory(DirFault),
}

/// Appends a line of the program. Where the vector has room for 80 bytes, no memory is taken.
pub fn put_program(line: &ProgramLine, out: &mut Vec<u8>) -> Result<(), AllocError>
    ensures ok { OnOk result (out.new.items ≡ out.old.items ++ program_line line.now) }
    ensures err { OnErr result (out.new.items ≡ out.old.items) }
    ensures room { vec_len out.old + 80 ≤ vec_capacity out.old → IsOk result }
{
    let mut text = TextLine::new();
    put_line(&mut text, *line);
    put(&mut text, b"\n");
    out.extend_from_slice(text.as_slice())
}

/// Puts the text of a line into an empty one.
fn put_line(text: &mut TextLine, line: ProgramLine)
    requires { array_vec_len text.old ≡ 0 }
    ensures text { text.new.items ≡ text.old.items ++ program_text line }
    ensures short { array_vec_len text.new ≤ 60 }
{
    match line {
        ProgramLine::Created(blocks) => {
            put(text, b"CREATED ");
            put_number(text, blocks as u64);
        }
        ProgramLine::HostRead => put(text, b"? HOST READ"),
        ProgramLine::HostWrite => put(text, b"? HOST WRITE"),
        ProgramLine::HostBusy => put(text, b"? HOST BUSY"),
        ProgramLine::NoWord => put(text, b"? SOURCE 1 NO WORD"),
        ProgramLine::NoStart(cell) => {
            put(text, b"? SOURCE 2 NO WORD AT ");
            put_cell(text, cell);
        }
        ProgramLine::Reserved(cell) => {
            put(text, b"? SOURCE 3 RESERVED NAME AT ");
            put_cell(text, cell);
        }
        ProgramLine::Names(line, why) => put_names(text, line, why),
        ProgramLine::Renamed(old, new) => {
            put(text, b"RENAMED ");
            put_spelled(text, old);
            put(text, b" ");
            put_spelled(text, new);
        }
        ProgramLine::Exists => put(text, b"? RENAME 1 FILE EXISTS"),
        ProgramLine::CopyExists => put(text, b"? COPY 1 FILE EXISTS"),
        ProgramLine::Squeezed(moved) => {
            put(text, b"SQUEEZED ");
            put_number(text, moved as u64);
        }
        ProgramLine::Stored(name, blocks) => put_blocks(text, b"STORED ", name, blocks),
        ProgramLine::Deleted(name) => {
            put(text, b"DELETED ");
            put_spelled(text, name);
        }
        ProgramLine::Got(name, blocks) => put_blocks(text, b"GOT ", name, blocks),
        ProgramLine::HostExists => put(text, b"? HOST EXISTS"),
        ProgramLine::OneFile => put(text, b"? HOST ONE FILE"),
        ProgramLine::SameName => put(text, b"? PUT 1 SAME NAME"),
        ProgramLine::OnlyWords(words) => {
            put(text, b"? PUT 2 ONLY ");
            put_number(text, words as u64);
            put(text, b" WORDS");
        }
        ProgramLine::OnlyBlocks(blocks) => {
            put(text, b"? BLOCKS 1 ONLY ");
            put_number(text, blocks as u64);
        }
        ProgramLine::Images { count, refused } => put_images(text, count, refused),
        ProgramLine::Disk(fault) => put(text, disk_words(fault)),
        ProgramLine::TwoReadings => put(text, b"? KIND 1 TWO READINGS"),
        ProgramLine::OtherKind => put(text, b"? KIND 2 OTHER KIND"),
        ProgramLine::NothingToRun => put(text, b"? TELETYPE 1 NO WORD"),
        ProgramLine::Start(cell) => {
            put(text, b"START ");
            put_cell(text, cell);
        }
        ProgramLine::Core(fault) => put_core(text, fault),
        ProgramLine::Rim(fault) => put_rim(text, fault),
        ProgramLine::Image(fault) => put_image(text, fault),
        ProgramLine::OfDrive(drive, why) => put_drive(text, drive, why),
        ProgramLine::Directory(fault) => put_directory_fault(text, fault),
    }
}

/// Puts a head of at most ten bytes, the name of a file, and how many blocks it has into an empty line.
fn put_blocks(text: &mut TextLine, head: &[u8], name: Name, blocks: usize)
    requires empty { array_vec_len text.old ≡ 0 }
    requires few { length head.now ≤ 10 }
    ensures text { text.new.items ≡ text.old.items ++ (head.now ++ text_of name ++ codes " " ++ decimal blocks) }
    ensures short { array_vec_len text.new ≤ 60 }
{
    put(text, head);
    put_spelled(text, name);
    put(text, b" ");
    put_number(text, blocks as u64);
}

/// Puts how many of how many images were refused into an empty line.
fn put_images(text: &mut TextLine, count: usize, refused: usize)
    requires { array_vec_len text.old ≡ 0 }
    ensures text { text.new.items ≡ text.old.items ++ spec.images_text count refused }
    ensures short { array_vec_len text.new ≤ 60 }
{
    put(text, b"IMAGES ");
    put_number(text, count as u64);
    put(text, b" REFUSED ");
    put_number(text, refused as u64);
}

/// The line for why a file holds no volume of a disk or of a DECtape.
fn disk_words(fault: DiskFault) -> &'static [u8]
    ensures word { result.now ≡ disk_text fault }
    ensures short { length result.now ≤ 20 }
{
    match fault {
        DiskFault::TooLong => b"? DISK 1 TOO LONG",
        DiskFault::NoTape => b"? DISK 2 NO DECTAPE",
        DiskFault::Memory => b"? 10 MEMORY",
    }
}

/// Puts which line of names is refused, and why, into an empty line.
fn put_names(text: &mut TextLine, line: u64, why: Unnamed)
    requires { array_vec_len text.old ≡ 0 }
    ensures text { text.new.items ≡ text.old.items ++ names_text line why }
    ensures short { array_vec_len text.new ≤ 60 }
{
    put(text, b"? NAMES ");
    put(text, refusal_of(why));
    put(text, b" ");
    put_number(text, line);
}

/// The number and the words for why a line of names is refused.
fn refusal_of(why: Unnamed) -> &'static [u8]
    ensures word { result.now ≡ spec.refusal_text why }
    ensures short { length result.now ≤ 20 }
{
    match why {
        Unnamed::BadLine => b"1 BAD LINE",
        Unnamed::NoName => b"2 NO NAME",
        Unnamed::Permanent => b"3 PERMANENT NAME",
        Unnamed::Tag => b"4 FORM OF A TAG",
        Unnamed::Twice => b"5 GIVEN TWICE",
        Unnamed::NoCell => b"6 NO WORD",
    }
}

/// Puts a cell as its field and address in octal.
fn put_cell(text: &mut TextLine, cell: Cell)
    requires { array_vec_len text.old ≤ 40 }
    ensures text { text.new.items ≡ text.old.items ++ octal5 cell }
    ensures short { array_vec_len text.new ≡ array_vec_len text.old + 5 }
{
    put(text, &cell.octal5());
}

/// Puts the text of a fault of a core image into an empty line.
fn put_core(text: &mut TextLine, fault: CoreFault)
    requires { array_vec_len text.old ≡ 0 }
    ensures text { text.new.items ≡ text.old.items ++ core_text fault }
    ensures short { array_vec_len text.new ≤ 60 }
{
    match fault {
        CoreFault::BadWord { place, word } => {
            put(text, b"? CORE 1 BAD WORD ");
            put_number(text, place as u64);
            put(text, b" ");
            put(text, &word.octal4());
        }
        CoreFault::TooShort => put(text, b"? CORE 2 TOO SHORT"),
        CoreFault::Memory => put(text, b"? 10 MEMORY"),
    }
}

/// Puts the text of a fault of a RIM tape into an empty line.
fn put_rim(text: &mut TextLine, fault: RimFault)
    requires { array_vec_len text.old ≡ 0 }
    ensures text { text.new.items ≡ text.old.items ++ spec.rim_text fault }
    ensures short { array_vec_len text.new ≤ 60 }
{
    match fault {
        RimFault::BadFrame { place, frame } => {
            put(text, b"? RIM 1 BAD FRAME ");
            put_number(text, place as u64);
            put(text, b" ");
            put_frame(text, frame);
        }
        RimFault::NoTrailer => put(text, b"? RIM 2 NO TRAILER"),
        RimFault::Memory => put(text, b"? 10 MEMORY"),
    }
}

/// Puts a frame as three octal digits.
fn put_frame(text: &mut TextLine, frame: u8)
    requires { array_vec_len text.old ≤ 40 }
    ensures text { text.new.items ≡ text.old.items ++ frame_text frame }
    ensures short { array_vec_len text.new ≡ array_vec_len text.old + 3 }
{
    let digits = [
        b'0' + frame / 0o100 % 8,
        b'0' + frame / 8 % 8,
        b'0' + frame % 8,
    ];
    put(text, &digits);
}

/// Puts the text of a fault of an image into an empty line.
pub(crate) fn put_image(text: &mut TextLine, fault: ImageFault)
    requires { array_vec_len text.old ≡ 0 }
    ensures text { text.new.items ≡ text.old.items ++ image_text fault }
    ensures short { array_vec_len text.new ≤ 40 }
{
    match fault {
        ImageFault::NotWhole => put(text, b"? IMAGE 1 NOT WHOLE"),
        ImageFault::TooSmall => put(text, b"? IMAGE 2 TOO SMALL"),
        ImageFault::TooLarge => put(text, b"? IMAGE 3 TOO LARGE"),
        ImageFault::BadWord(index) => {
            put(text, b"? IMAGE 4 BAD WORD ");
            put_number(text, index as u64);
        }
        ImageFault::Memory => put(text, b"? 10 MEMORY"),
    }
}
