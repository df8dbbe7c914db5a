//! The notes that are printed on standard error beside lines, each with the end of its line. Printing one takes no memory.
ghost use Rattle.std.specs.Prelude.{◌≡◌, Some};
ghost use Rattle.std.specs.Fmt.{DisplaysOnOk};
ghost use Rattle.outcome.specs.Contents.{content_name};
ghost use Rattle.outcome.specs.declared.contents.Content.TheVariants.{Image, Tape, Listing};
ghost use Rattle.outcome.specs.Notes as spec;

use crate::contents::Content;
use crate::readings::write_on_readings;
use crate::reasons::{Reason, write_on_reason};
use archive_files::TextPlace;
use image_kind::ImageKind;
use shown_text::ShownText;
use std::fmt;

/// A note that is always the same.
#[derive(Clone, Copy)]
pub enum PlainNote {
    /// A word of the command line is no UTF-8 text.
    NoText,

    /// A file that is refused is a DECtape.
    Dectape,

    /// A file that is refused may be a disk of two volumes.
    Disk,

    /// A file that is refused may be a disk whose end was never written.
    ShortDisk,

    /// Frames that are no BIN tape are a RIM tape.
    RimTape,

    /// They are a text.
    TextFile,

    /// They are a core image.
    CoreImage,

    /// A program whose start isn't given starts at 00200.
    StartAt200,

    /// It starts at its first word.
    StartAtFirst,

    /// A program starts at a cell to which its tape gives no word.
    StartAtNoWord,

    /// What names the files of a volume have.
    FileNames,

    /// Words that have a fault come next.
    FurtherFaults,

    /// A change would make a file a volume.
    MadeVolume,

    /// It would make it an RK05 disk.
    MadeDisk,

    /// It would make it a DECtape.
    MadeDectape,
}

/// A note on a file of the host.
#[derive(Clone, Copy)]
pub enum FileNote {
    /// Another program works on it.
    Busy,

    /// It is not written, and is as it was.
    AsItWas,

    /// It is not written whole, and may hold a part of what it was to hold.
    InPart,

    /// Its file system has no locks.
    NoLock,

    /// It is written in its place.
    InPlace,

    /// It is written, but its folder is not brought to the disk.
    NoSync,
}

/// A note on what has a name.
#[derive(Clone, Copy)]
pub enum NameNote {
    /// An input of this name has more bytes than are read, which is why it is refused.
    TooLong,

    /// A file of the host is refused, so none is put.
    NotPut,

    /// A file of a volume is refused, so none is taken out.
    NotDeleted,

    /// A file of a volume is refused, so none is copied.
    NotCopied,

    /// An empty file is not put in place of one that has words.
    Empty,

    /// A file of the host is put as frames, where some are put as texts.
    PutAsFrames,

    /// A file of a volume is got as frames, where some are got as texts.
    GotAsFrames,

    /// A file that is not empty would go, which a person is asked about.
    Replaces,

    /// Of two images this one refuses.
    Refuses,

    /// The image has the change of which no line could be printed.
    HasChange,

    /// The image is as it was, of which no line could be printed.
    AsItWas,

    /// A source can't be read.
    NoSource,

    /// A source that is refused has the top bit set in each character.
    TopBits,

    /// A source would be written over.
    OverSource,

    /// The tape and the listing would be written to one place.
    OnePlace,

    /// Two names, with `and` between them, lead to one file.
    OneFile,

    /// This is no list of extensions.
    BadExtensions,

    /// A source of PAL III has this name or character of PAL8.
    Pal8,

    /// What may help, in words of its own.
    Hint,
}

/// What is printed on standard error beside a line.
#[derive(Clone, Copy)]
pub enum Note<'a> {
    Plain(PlainNote),

    /// On a file that is to hold this.
    OnFile(FileNote, Content),

    /// On what has this name.
    OnName(NameNote, &'a str),

    /// The file that begins at this block is refused, so none is taken out.
    OnBlock(usize),

    /// Here a text has a byte that may not stand in one.
    OnText(TextPlace),

    /// The file of this name has so many bytes before the blocks of its volumes, and so many after them.
    OnMargins(&'a str, usize, usize),

    /// Why the file of this name is not read, or not written.
    OnReason(Reason, &'a str),

    /// So many files beside that of this name were taken away, which writers left there that were ended.
    OnLeftovers(&'a str, usize),

    /// The file of this name may be read in these two ways.
    OnReadings(&'a str, ImageKind, ImageKind),
}

/// The text of a note (this project's profile).
impl<'a> fmt::Display for Note<'a> {
    ghost output = { λ note. Some (spec.note_text note) };

    fn fmt<W: fmt::Write>(&self, f: &mut fmt::Formatter<W>) -> fmt::Result {
        match self {
            Note::Plain(note) => f.write_str(note.text()),
            Note::OnFile(note, content) => f.write_str(note.text(*content)),
            Note::OnName(note, name) => write_on_name(*note, *name, f),
            Note::OnBlock(block) => write_on_block(*block, f),
            Note::OnText(place) => write_on_text(place.line, place.byte, f),
            Note::OnMargins(name, before, after) => write_on_margins(*name, *before, *after, f),
            Note::OnReason(why, name) => write_on_reason(*why, *name, f),
            Note::OnLeftovers(name, count) => write_on_leftovers(*name, *count, f),
            Note::OnReadings(name, one, other) => write_on_readings(*name, *one, *other, f),
        }
    }
}

impl PlainNote {
    /// The text of the note, with the end of its line (this project's profile).
    pub fn text(self) -> &'static str
        ensures { result.now ≡ spec.plain_text self }
    {
        match self {
            PlainNote::NoText => "error: an argument is not UTF-8 text\n",
            PlainNote::Dectape =>
                "note: 380292 bytes are a DECtape with 129 words a block: --dectape takes it so\n",
            PlainNote::Disk =>
                "note: the file may be an RK05 disk of two volumes: --volume 1 or --volume 2 takes one of them\n",
            PlainNote::ShortDisk =>
                "note: the file ends before the blocks that its directory covers: if the end of an RK05 disk was never written, --volume 1 takes it as zeros\n",
            PlainNote::RimTape =>
                "note: the frames are a RIM tape: addresses and words in turn, and no check sum; rim takes it, and rim --bin makes a BIN tape of it\n",
            PlainNote::TextFile =>
                "note: the frames are a text, and no BIN tape; assemble makes the tape of a PAL III source\n",
            PlainNote::CoreImage =>
                "note: the frames are a core image, and no BIN tape; get IMAGE NAME --bin makes a BIN tape of one on a volume\n",
            PlainNote::StartAt200 =>
                "note: no --start is given, and 00200 has a word: the program starts there\n",
            PlainNote::StartAtFirst =>
                "note: no --start is given, and 00200 has no word: the program starts at the first word of the tape\n",
            PlainNote::StartAtNoWord =>
                "note: the tape gives no word to the cell where the program starts\n",
            PlainNote::FileNames =>
                "note: a file's name is 1 to 6 letters, digits or escapes (_ and two octal digits), then nothing, or a dot and 1 or 2 more\n",
            PlainNote::FurtherFaults => "note: these words have a fault too:\n",
            PlainNote::MadeVolume =>
                "note: with this change the file would be read as a volume: --dectape makes it all the same in a DECtape without more bytes\n",
            PlainNote::MadeDisk =>
                "note: with this change the file would be read as an RK05 disk: --plain makes it in a volume all the same\n",
            PlainNote::MadeDectape =>
                "note: with this change the file would be read as a DECtape: --plain makes it in a volume all the same\n",
        }
    }
}

impl FileNote {
    /// The text of the note on a file that is to hold this, with the end of its line (this project's profile). No memory is taken.
    pub fn text(self, content: Content) -> &'static str
        ensures { result.now ≡ spec.file_text self (content_name content) }
    {
        match content {
            Content::Image => self.text_on_image(),
            Content::Tape => self.text_on_tape(),
            Content::Listing => self.text_on_listing(),
            Content::Disk(_) => self.text_on_image(),
        }
    }

    fn text_on_image(self) -> &'static str
        ensures { result.now ≡ spec.file_text self (content_name Image) }
    {
        match self {
            FileNote::Busy => "error: another program works on the image\n",
            FileNote::AsItWas => "error: the image is not written: the file is as it was\n",
            FileNote::InPart =>
                "error: the image is not written whole: the file may hold a part of it\n",
            FileNote::NoLock =>
                "note: the file system has no locks, so let no other program work on the image\n",
            FileNote::InPlace =>
                "note: the image is written in its place, and is not whole if that breaks off\n",
            FileNote::NoSync =>
                "note: the image is written, but its folder is not synced: whether a crash keeps it isn't known\n",
        }
    }

    fn text_on_tape(self) -> &'static str
        ensures { result.now ≡ spec.file_text self (content_name Tape) }
    {
        match self {
            FileNote::Busy => "error: another program works on the tape\n",
            FileNote::AsItWas => "error: the tape is not written: the file is as it was\n",
            FileNote::InPart =>
                "error: the tape is not written whole: the file may hold a part of it\n",
            FileNote::NoLock =>
                "note: the file system has no locks, so let no other program work on the tape\n",
            FileNote::InPlace =>
                "note: the tape is written in its place, and is not whole if that breaks off\n",
            FileNote::NoSync =>
                "note: the tape is written, but its folder is not synced: whether a crash keeps it isn't known\n",
        }
    }

    fn text_on_listing(self) -> &'static str
        ensures { result.now ≡ spec.file_text self (content_name Listing) }
    {
        match self {
            FileNote::Busy => "error: another program works on the listing\n",
            FileNote::AsItWas => "error: the listing is not written: the file is as it was\n",
            FileNote::InPart =>
                "error: the listing is not written whole: the file may hold a part of it\n",
            FileNote::NoLock =>
                "note: the file system has no locks, so let no other program work on the listing\n",
            FileNote::InPlace =>
                "note: the listing is written in its place, and is not whole if that breaks off\n",
            FileNote::NoSync =>
                "note: the listing is written, but its folder is not synced: whether a crash keeps it isn't known\n",
        }
    }
}

/// Writes the note on what has a name, which is shown with escapes where it isn't graphic.
fn write_on_name<W: fmt::Write>(
    note: NameNote,
    name: &str,
    f: &mut fmt::Formatter<W>,
) -> fmt::Result
    ensures { DisplaysOnOk W.write_str_gives f.old result (Some (spec.name_text note name.now)) f.new }
{
    let (head, tail) = (head_of(note), tail_of(note));
    let name = ShownText { text: name };
    write!(f, "{head}{name}{tail}")
}

/// What stands before the name in a note.
fn head_of(note: NameNote) -> &'static str
    ensures { result.now ≡ spec.head_of note }
{
    match note {
        NameNote::NoSource => "error: the source ",
        NameNote::OverSource => "error: ",
        NameNote::OnePlace => "error: the tape and the listing can't both be written to ",
        NameNote::BadExtensions => "error: invalid value '",
        _ => "note: ",
    }
}

/// What stands after it, with the end of the line.
fn tail_of(note: NameNote) -> &'static str
    ensures { result.now ≡ spec.tail_of note }
{
    match note {
        NameNote::TooLong => ": larger than 16777216 bytes\n",
        NameNote::NotPut => " is refused, and no file is put\n",
        NameNote::NotDeleted => " is refused, and no file is taken out\n",
        NameNote::NotCopied => " is refused, and no file is copied\n",
        NameNote::Empty =>
            " is empty, and the volume has a file of its name: --empty puts it all the same\n",
        NameNote::PutAsFrames => " is put as frames: its extension is none of a text's\n",
        NameNote::GotAsFrames => " is got as frames: its extension is none of a text's\n",
        NameNote::Replaces =>
            " is there, and is not empty: y replaces it, and anything else leaves it\n",
        NameNote::Refuses => " is the image that refuses\n",
        NameNote::HasChange => " has the change\n",
        NameNote::AsItWas => " is as it was\n",
        NameNote::NoSource => " can't be read\n",
        NameNote::TopBits =>
            " has the frames of a text, each with its top bit: get IMAGE NAME --text writes the text\n",
        NameNote::OverSource => " is a source, and would be written over\n",
        NameNote::OnePlace => "\n",
        NameNote::OneFile => " are one file\n",
        NameNote::BadExtensions =>
            "' for '--text-of <LIST>': no extensions of 1 or 2 capital letters or digits with commas between\n",
        NameNote::Pal8 =>
            " is PAL8, the language of OS/8's assembler: assemble --pal8 takes a source of that\n",
        NameNote::Hint => "\n",
    }
}

/// Writes where a text has a byte that may not stand in one.
fn write_on_text<W: fmt::Write>(line: usize, byte: usize, f: &mut fmt::Formatter<W>) -> fmt::Result
    ensures { DisplaysOnOk W.write_str_gives f.old result (Some (spec.bad_text line byte)) f.new }
{
    write!(
        f,
        "note: line {line}, byte {byte}: a text has no byte above 0177, and no control Z\n"
    )
}

/// Writes that the file at a block is refused.
fn write_on_block<W: fmt::Write>(block: usize, f: &mut fmt::Formatter<W>) -> fmt::Result
    ensures { DisplaysOnOk W.write_str_gives f.old result (Some (spec.block_text block)) f.new }
{
    write!(
        f,
        "note: --at {block} is refused, and no file is taken out\n"
    )
}

/// Writes how many files beside another were taken away.
fn write_on_leftovers<W: fmt::Write>(
    name: &str,
    count: usize,
    f: &mut fmt::Formatter<W>,
) -> fmt::Result
    ensures { DisplaysOnOk W.write_str_gives f.old result (Some (spec.leftovers_text name.now count)) f.new }
{
    let name = ShownText { text: name };
    write!(
        f,
        "note: files that ended writers left beside {name} are removed: {count} in all\n"
    )
}

/// Writes how many bytes of a file are none of its volumes'.
fn write_on_margins<W: fmt::Write>(
    name: &str,
    before: usize,
    after: usize,
    f: &mut fmt::Formatter<W>,
) -> fmt::Result
    ensures { DisplaysOnOk W.write_str_gives f.old result (Some (spec.margins_text name.now before after)) f.new }
{
    let name = ShownText { text: name };
    write!(
        f,
        "note: {name} has {before} bytes before its blocks and {after} after them, which are left alone\n"
    )
}
