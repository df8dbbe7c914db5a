//! The arguments of each subcommand: what each takes, and what help says of it.
use crate::table::{Argument, ArgumentOf, Form, Kind, MOST_IMAGES};
use word12::{MOST_BLOCKS, MOST_SOURCES};

/// The rows of a subcommand: an argument that must be given, one that may, an option with no value, one that help leaves out, and one with a
/// value. A letter after the name is that of the option.
macro_rules! rows {
    (@letter) => { None };
    (@letter $letter:literal) => { Some($letter) };
    (@row $id:literal [$($letter:literal)?] must $kind:expr, $value:literal, $help:literal) => {
        ArgumentOf { id: $id, letter: None, kind: $kind, is_required: true, is_hidden: false, value: $value, title: concat!("<", $id, ">"), help: $help }
    };
    (@row $id:literal [$($letter:literal)?] may $kind:expr, $value:literal, $help:literal) => {
        ArgumentOf { id: $id, letter: None, kind: $kind, is_required: false, is_hidden: false, value: $value, title: concat!("[", $id, "]"), help: $help }
    };
    (@row $id:literal [$($letter:literal)?] flag $kind:expr, $value:literal, $help:literal) => {
        ArgumentOf { id: $id, letter: rows!(@letter $($letter)?), kind: $kind, is_required: false, is_hidden: false, value: $value, title: concat!("--", $id), help: $help }
    };
    (@row $id:literal [$($letter:literal)?] hidden $kind:expr, $value:literal, $help:literal) => {
        ArgumentOf { id: $id, letter: rows!(@letter $($letter)?), kind: $kind, is_required: false, is_hidden: true, value: $value, title: concat!("--", $id), help: $help }
    };
    (@row $id:literal [$($letter:literal)?] option $kind:expr, $value:literal, $help:literal) => {
        ArgumentOf { id: $id, letter: rows!(@letter $($letter)?), kind: $kind, is_required: false, is_hidden: false, value: $value, title: concat!("--", $id, " <", $value, ">"), help: $help }
    };
    ($($id:literal $($letter:literal)? $form:ident $kind:expr, $value:literal, $help:literal;)*) => {
        &[$(rows!(@row $id [$($letter)?] $form $kind, $value, $help)),*]
    };
}

/// The rows of a subcommand, of which those on reader, punch, line printer, transfers and clock of an 8/E stand between these.
macro_rules! rows_with_devices {
    ($reader:literal, { $($before:tt)* } { $($after:tt)* }) => {
        rows! {
            $($before)*
            "reader" option Kind::One(Form::Text), "FILE", $reader;
            "punch" option Kind::One(Form::Text), "FILE", "The file that gets what is punched";
            "printer" option Kind::One(Form::Text), "FILE", "The file that gets what is printed on the line printer";
            "transfers" option Kind::One(Form::Text), "FILE", "The file that gets a line of each transfer of a disk, as trace prints it";
            "clock" option Kind::Count, "N", "The instructions from tick to tick of the clock, 1 up; without it there is no clock";
            $($after)*
        }
    };
}

pub const TAPE: &[Argument] = rows! {
    "TAPE" may Kind::Word, "", "The file of the tape, or of the image that holds NAME; else standard input";
    "NAME" may Kind::Word, "", "The name of the file on the volume";
    "volume" 'v' option Kind::One(Form::Volume), "N", "The volume of an RK05 disk, 1 or 2, where TAPE is the file of one; TAPE:1 and TAPE:2 mean it too";
    "dectape" flag Kind::Flag, "", "TAPE is the file of a DECtape, of 129 words a block";
    "plain" flag Kind::Flag, "", "TAPE is one volume from its first byte, whatever stands in it";
};

pub const RIM: &[Argument] = rows! {
    "TAPE" may Kind::Word, "", "The file of the tape, or of the image that holds NAME; else standard input";
    "NAME" may Kind::Word, "", "The name of the file on the volume";
    "bin" flag Kind::Flag, "", "Write the BIN tape of its words";
    "volume" 'v' option Kind::One(Form::Volume), "N", "The volume of an RK05 disk, 1 or 2, where TAPE is the file of one; TAPE:1 and TAPE:2 mean it too";
    "dectape" flag Kind::Flag, "", "TAPE is the file of a DECtape, of 129 words a block";
    "plain" flag Kind::Flag, "", "TAPE is one volume from its first byte, whatever stands in it";
};

pub const SOURCE: &[Argument] = rows! {
    "TAPE" may Kind::Word, "", "The file of the tape, or of the image that holds NAME; else standard input";
    "NAME" may Kind::Word, "", "The name of the file on the volume";
    "start" option Kind::Many(Form::Cell), "FAAAA", "A cell at which the program starts, in octal, as 10200 or 1:0200; it may be given several times";
    "names" option Kind::One(Form::Text), "FILE", "A file of names, a line FAAAA NAME for each cell that gets one";
    "pal8" flag Kind::Flag, "", "Write PAL8, the language of OS/8's assembler";
    "volume" 'v' option Kind::One(Form::Volume), "N", "The volume of an RK05 disk, 1 or 2, where TAPE is the file of one; TAPE:1 and TAPE:2 mean it too";
    "dectape" flag Kind::Flag, "", "TAPE is the file of a DECtape, of 129 words a block";
    "plain" flag Kind::Flag, "", "TAPE is one volume from its first byte, whatever stands in it";
};

pub const ASSEMBLE: &[Argument] = rows! {
    "FILE" must Kind::Words(MOST_SOURCES), "", "The 1 to 8 sources, which stand together; - is standard input, once at most; with --from names of files on the volume";
    "output" 'o' option Kind::One(Form::Text), "TAPE", "The file that gets the tape, in place of standard output";
    "list" 'l' option Kind::One(Form::Text), "LISTING", "Write a listing to the file LISTING too";
    "cross" flag Kind::Flag, "", "Put a table of cross references after the listing; it needs --list";
    "pal8" flag Kind::Flag, "", "Take the sources as PAL8, the language of OS/8's assembler";
    "no-links" flag Kind::Flag, "", "With --pal8 refuse a reference to another page, and make no link (/E)";
    "text-without-zero" flag Kind::Flag, "", "With --pal8 put no word 0 after a text of an even number of characters (/F)";
    "no-origin" flag Kind::Flag, "", "With --pal8 leave the location as it is at FIELD (/O)";
    "stay" flag Kind::Flag, "", "With --pal8 give equal literals of a page one cell only where the source has not left it between them (/W)";
    "notes" flag Kind::Flag, "", "With --pal8 note on standard error the lines that palbart reads in another way";
    "from" option Kind::One(Form::Text), "IMAGE", "Take the sources from the volume that the file IMAGE holds";
    "onto" option Kind::One(Form::Text), "NAME", "Put the tape on that volume as the file NAME, in place of standard output";
    "volume" 'v' option Kind::One(Form::Volume), "N", "The volume of an RK05 disk, 1 or 2, where IMAGE is the file of one; IMAGE:1 and IMAGE:2 mean it too";
    "dectape" flag Kind::Flag, "", "IMAGE is the file of a DECtape, of 129 words a block";
    "plain" flag Kind::Flag, "", "IMAGE is one volume from its first byte, whatever stands in it";
    "wait" option Kind::One(Form::Seconds), "SECONDS", "With --onto wait so long while another program holds the image, 0 to 3600 seconds; else not at all";
};

pub const TELETYPE: &[Argument] =
    rows_with_devices! { "With --cpu 8e the file of the tape in the paper tape reader",
    {
        "TAPE" must Kind::Word, "", "The file of the tape, or of the image that holds NAME";
        "NAME" may Kind::Word, "", "The name of the file on the volume";
        "cpu" option Kind::One(Form::Cpu), "CPU", "The machine, 8i or 8e; else 8i";
        "start" option Kind::One(Form::Cell), "FAAAA", "The cell to start at, in octal, as 10200 or 1:0200; else 00200 if the tape has that cell, else its first word's";
        "switches" option Kind::One(Form::Octal), "WWWW", "The word that the switches are set to, in octal; else 0000";
        "steps" option Kind::Count, "N", "The most instructions that are done, 1 up; without it there is no limit";
        "raw" flag Kind::Flag, "", "Strike each byte as it is, with no change of line ends and no top bit set";
        "live" hidden Kind::Flag, "", "Take the keys as they are struck";
        "rk0" option Kind::One(Form::Text), "IMAGE", "With --cpu 8e the file of the RK05 disk in drive 0";
        "rk1" option Kind::One(Form::Text), "IMAGE", "The file of the disk in drive 1";
        "rk2" option Kind::One(Form::Text), "IMAGE", "The file of the disk in drive 2";
        "rk3" option Kind::One(Form::Text), "IMAGE", "The file of the disk in drive 3";
        "lock" option Kind::Many(Form::Drive), "DRIVE", "Lock a drive, 0 to 3, so that nothing is written to its disk; may be given for each drive";
        "look" flag Kind::Flag, "", "Write no file: what is written to a disk is gone at the end";
        "wait" option Kind::One(Form::Seconds), "SECONDS", "Wait so long while another program holds the file of a disk, 0 to 3600 seconds; else not at all";
        "disk-time" option Kind::One(Form::Time), "N", "The instructions of a transfer beside its seek, 0 to 1000000; else 10";
        "seek-time" option Kind::One(Form::Time), "N", "The instructions that an arm takes for each cylinder, 0 to 1000000; else 10";
    }
    {
        "every" option Kind::One(Form::Time), "N", "Save changed disks while a key is waited for, N instructions or more after the last save, 0 to 1000000; else 1000000, and 0 is for never";
        "ends-with" hidden Kind::One(Form::Text), "FILE", "End the run once there is a file FILE";
        "capitals" flag Kind::Flag, "", "With --cpu 8e strike small letters as capitals";
        "volume" 'v' option Kind::One(Form::Volume), "N", "The volume of an RK05 disk, 1 or 2, where TAPE is the file of one; TAPE:1 and TAPE:2 mean it too";
        "dectape" flag Kind::Flag, "", "TAPE is the file of a DECtape, of 129 words a block";
        "plain" flag Kind::Flag, "", "TAPE is one volume from its first byte, whatever stands in it";
    }
};

/// The arguments of `trace` and of `profile`.
pub const TRACE: &[Argument] =
    rows_with_devices! { "With --cpu 8e the file of the tape in the paper tape reader",
    {
        "TAPE" must Kind::Word, "", "The file of the tape, or of the image that holds NAME";
        "NAME" may Kind::Word, "", "The name of the file on the volume";
        "cpu" option Kind::One(Form::Cpu), "CPU", "The machine, 8i or 8e; else 8i";
        "start" option Kind::One(Form::Cell), "FAAAA", "The cell to start at, in octal, as 10200 or 1:0200; else 00200 if the tape has that cell, else its first word's";
        "switches" option Kind::One(Form::Octal), "WWWW", "The word that the switches are set to, in octal; else 0000";
        "steps" option Kind::Count, "N", "The most steps that are made, 1 up";
        "keys" option Kind::One(Form::Text), "TEXT", "The keys to strike, each where the program asks for one; a line's end is CR";
        "rk0" option Kind::One(Form::Text), "IMAGE", "With --cpu 8e the file of the RK05 disk in drive 0";
        "rk1" option Kind::One(Form::Text), "IMAGE", "The file of the disk in drive 1";
        "rk2" option Kind::One(Form::Text), "IMAGE", "The file of the disk in drive 2";
        "rk3" option Kind::One(Form::Text), "IMAGE", "The file of the disk in drive 3";
        "lock" option Kind::Many(Form::Drive), "DRIVE", "Lock a drive, 0 to 3, so that nothing is written to its disk; may be given for each drive";
        "look" flag Kind::Flag, "", "Write no file: what is written to a disk is gone at the end";
        "wait" option Kind::One(Form::Seconds), "SECONDS", "Wait so long while another program holds the file of a disk, 0 to 3600 seconds; else not at all";
        "disk-time" option Kind::One(Form::Time), "N", "The instructions of a transfer beside its seek, 0 to 1000000; else 10";
        "seek-time" option Kind::One(Form::Time), "N", "The instructions that an arm takes for each cylinder, 0 to 1000000; else 10";
    }
    {
        "volume" 'v' option Kind::One(Form::Volume), "N", "The volume of an RK05 disk, 1 or 2, where TAPE is the file of one; TAPE:1 and TAPE:2 mean it too";
        "dectape" flag Kind::Flag, "", "TAPE is the file of a DECtape, of 129 words a block";
        "plain" flag Kind::Flag, "", "TAPE is one volume from its first byte, whatever stands in it";
    }
};

pub const BOOT: &[Argument] = rows_with_devices! { "The file of the tape in the paper tape reader",
    {
        "IMAGE" must Kind::Word, "", "The file of the RK05 disk in drive 0, which is booted";
        "rk1" option Kind::One(Form::Text), "IMAGE", "The file of the disk in drive 1";
        "rk2" option Kind::One(Form::Text), "IMAGE", "The file of the disk in drive 2";
        "rk3" option Kind::One(Form::Text), "IMAGE", "The file of the disk in drive 3";
        "lock" option Kind::Many(Form::Drive), "DRIVE", "Lock a drive, 0 to 3, so that nothing is written to its disk; may be given for each drive";
        "look" flag Kind::Flag, "", "Write no file: what is written to a disk is gone at the end";
        "wait" option Kind::One(Form::Seconds), "SECONDS", "Wait so long while another program holds the file of a disk, 0 to 3600 seconds; else not at all";
        "disk-time" option Kind::One(Form::Time), "N", "The instructions of a transfer beside its seek, 0 to 1000000; else 10";
        "seek-time" option Kind::One(Form::Time), "N", "The instructions that an arm takes for each cylinder, 0 to 1000000; else 10";
    }
    {
        "switches" option Kind::One(Form::Octal), "WWWW", "The word that the switches are set to, in octal; else 0000";
        "steps" option Kind::Count, "N", "The most steps that are made, 1 up; without it there is no limit";
        "every" option Kind::One(Form::Time), "N", "Save changed disks while a key is waited for, N instructions or more after the last save, 0 to 1000000; else 1000000, and 0 is for never";
        "ends-with" hidden Kind::One(Form::Text), "FILE", "End the run once there is a file FILE";
        "capitals" flag Kind::Flag, "", "Strike small letters as capitals";
        "raw" flag Kind::Flag, "", "Strike each byte as it is, with no change of line ends and no top bit set";
        "live" hidden Kind::Flag, "", "Take the keys as they are struck";
    }
};

pub const RUN: &[Argument] = rows! {
    "IMAGE" must Kind::Word, "", "The file that holds the volume";
    "look" flag Kind::Flag, "", "Never write the image, whatever the script does";
    "keep" flag Kind::Flag, "", "Write the image after each entry that changed it, before its reply";
    "strict" flag Kind::Flag, "", "End with status 1 where a reply was a refusal";
    "volume" 'v' option Kind::One(Form::Volume), "N", "The volume of an RK05 disk, 1 or 2, where IMAGE is the file of one; IMAGE:1 and IMAGE:2 mean it too";
    "dectape" flag Kind::Flag, "", "IMAGE is the file of a DECtape, of 129 words a block";
    "plain" flag Kind::Flag, "", "IMAGE is one volume from its first byte, whatever stands in it";
    "wait" option Kind::One(Form::Seconds), "SECONDS", "Wait so long while another program holds the image, 0 to 3600 seconds; else not at all";
};

pub const CREATE: &[Argument] = rows! {
    "IMAGE" must Kind::Word, "", "The file that holds the volume";
    "BLOCKS" may Kind::Size, "", "The number of blocks, 8 to 4095";
    "dectape" flag Kind::Flag, "", "Write the file of a DECtape";
    "rk05" flag Kind::Flag, "", "Write the file of an RK05 disk of two empty volumes";
    "volume" 'v' option Kind::One(Form::Volume), "N", "Empty volume 1 or 2 of the RK05 disk in the file IMAGE, and leave the other; IMAGE:1 and IMAGE:2 mean it too";
    "new" flag Kind::Flag, "", "Refuse where there is a file of that name";
    "wait" option Kind::One(Form::Seconds), "SECONDS", "Wait so long while another program holds the file, 0 to 3600 seconds; else not at all";
};

pub const LIST: &[Argument] = rows! {
    "IMAGE" must Kind::Word, "", "The file that holds the volume";
    "NAME" may Kind::Words(MOST_BLOCKS), "", "The names of the files that are listed, else all";
    "long" 'l' flag Kind::Flag, "", "Show where each file lies, its information words, in octal, and its date";
    "year" option Kind::One(Form::Year), "N", "The last of the eight years that dates mean, 1977 to 9999; else the one that block 0 gives";
    "volume" 'v' option Kind::One(Form::Volume), "N", "The volume of an RK05 disk, 1 or 2, where IMAGE is the file of one; IMAGE:1 and IMAGE:2 mean it too";
    "dectape" flag Kind::Flag, "", "IMAGE is the file of a DECtape, of 129 words a block";
    "plain" flag Kind::Flag, "", "IMAGE is one volume from its first byte, whatever stands in it";
    "lenient" flag Kind::Flag, "", "Read an image with faults: top bits are taken off, a length is made whole; each is printed on standard error";
};

pub const GET: &[Argument] = rows! {
    "IMAGE" must Kind::Word, "", "The file that holds the volume";
    "NAME" may Kind::Words(MOST_BLOCKS), "", "The names of the files on the volume; with --blocks FIRST and COUNT";
    "at" option Kind::Many(Form::Block), "BLOCK", "The first block of a file, 0 to 4095, where no typed name is its own; it may be given several times";
    "text" 't' flag Kind::Flag, "", "Write its text, each line ended by LF; with --into of files that are named, and of others whose extension says text";
    "tape" flag Kind::Flag, "", "Write the BIN tape that it begins with, also where --text is given";
    "bin" flag Kind::Flag, "", "Write the BIN tape of the core image that it is, also where others are given";
    "into" option Kind::One(Form::Text), "FOLDER", "The folder that gets the files";
    "all" 'a' flag Kind::Flag, "", "Get all files of the volume";
    "force" 'f' flag Kind::Flag, "", "Write over older files of the folder";
    "text-of" option Kind::Many(Form::Text), "LIST", "Extensions of files that are texts, as PA,TX; it may be given several times";
    "year" option Kind::One(Form::Year), "N", "The last of the eight years that dates mean, 1977 to 9999; else the one that block 0 gives";
    "blocks" flag Kind::Flag, "", "Write blocks of the volume: COUNT from block FIRST on";
    "volume" 'v' option Kind::One(Form::Volume), "N", "The volume of an RK05 disk, 1 or 2, where IMAGE is the file of one; IMAGE:1 and IMAGE:2 mean it too";
    "dectape" flag Kind::Flag, "", "IMAGE is the file of a DECtape, of 129 words a block";
    "plain" flag Kind::Flag, "", "IMAGE is one volume from its first byte, whatever stands in it";
    "lenient" flag Kind::Flag, "", "Read an image with faults: top bits are taken off, a length is made whole; each is printed on standard error";
};

pub const PUT: &[Argument] = rows! {
    "IMAGE" must Kind::Word, "", "The file that holds the volume";
    "FILE" must Kind::Words(MOST_BLOCKS), "", "The files of this system that are put; - is standard input";
    "text" 't' flag Kind::Flag, "", "Keep as texts, each LF as CR and LF, control Z at the end; --text-of goes by extensions";
    "text-of" option Kind::Many(Form::Text), "LIST", "Extensions of files that are texts, as PA,TX; it may be given several times";
    "files" flag Kind::Flag, "", "Changes nothing: FILE are files of this system";
    "info" option Kind::Many(Form::Octal), "WWWW", "An information word of the file, in octal; it may be given several times";
    "date" option Kind::One(Form::Date), "DATE", "The date of the file, as 1974-03-12, which is its first information word";
    "dates" flag Kind::Flag, "", "Date each file by the day, in UTC, on which it was last changed on this system";
    "as" option Kind::One(Form::Text), "NAME", "The name on the volume of the one file that is put";
    "empty" flag Kind::Flag, "", "Let a file of no byte replace one that has words";
    "volume" 'v' option Kind::One(Form::Volume), "N", "The volume of an RK05 disk, 1 or 2, where IMAGE is the file of one; IMAGE:1 and IMAGE:2 mean it too";
    "dectape" flag Kind::Flag, "", "IMAGE is the file of a DECtape, of 129 words a block";
    "plain" flag Kind::Flag, "", "IMAGE is one volume from its first byte, whatever stands in it";
    "wait" option Kind::One(Form::Seconds), "SECONDS", "Wait so long while another program holds the image, 0 to 3600 seconds; else not at all";
};

pub const DELETE: &[Argument] = rows! {
    "IMAGE" must Kind::Word, "", "The file that holds the volume";
    "NAME" may Kind::Words(MOST_BLOCKS), "", "The names of the files on the volume";
    "at" option Kind::Many(Form::Block), "BLOCK", "The first block of a file, 0 to 4095; it may be given several times";
    "volume" 'v' option Kind::One(Form::Volume), "N", "The volume of an RK05 disk, 1 or 2, where IMAGE is the file of one; IMAGE:1 and IMAGE:2 mean it too";
    "dectape" flag Kind::Flag, "", "IMAGE is the file of a DECtape, of 129 words a block";
    "plain" flag Kind::Flag, "", "IMAGE is one volume from its first byte, whatever stands in it";
    "wait" option Kind::One(Form::Seconds), "SECONDS", "Wait so long while another program holds the image, 0 to 3600 seconds; else not at all";
};

pub const RENAME: &[Argument] = rows! {
    "IMAGE" must Kind::Word, "", "The file that holds the volume";
    "NAME" may Kind::Word, "", "The name of the file on the volume, where --at does not give its block";
    "NEW" may Kind::Word, "", "The new name of the file";
    "at" option Kind::One(Form::Block), "BLOCK", "The first block of the file, 0 to 4095, in place of NAME";
    "volume" 'v' option Kind::One(Form::Volume), "N", "The volume of an RK05 disk, 1 or 2, where IMAGE is the file of one; IMAGE:1 and IMAGE:2 mean it too";
    "dectape" flag Kind::Flag, "", "IMAGE is the file of a DECtape, of 129 words a block";
    "plain" flag Kind::Flag, "", "IMAGE is one volume from its first byte, whatever stands in it";
    "wait" option Kind::One(Form::Seconds), "SECONDS", "Wait so long while another program holds the image, 0 to 3600 seconds; else not at all";
};

pub const COPY: &[Argument] = rows! {
    "IMAGE" must Kind::Word, "", "The file that holds the volume";
    "NAME" may Kind::Word, "", "The name of the file on the volume, where --at does not give its block";
    "TO" may Kind::Word, "", "The file that holds the volume that gets it";
    "NEW" may Kind::Word, "", "The name of the file on that volume, if it is another";
    "MORE" may Kind::Words(MOST_BLOCKS), "", "With --to NAME, TO, NEW and MORE are the names of the files";
    "at" option Kind::One(Form::Block), "BLOCK", "The first block of the file, 0 to 4095, in place of NAME";
    "to" option Kind::One(Form::Text), "IMAGE", "The file that holds the volume that gets several files";
    "force" 'f' flag Kind::Flag, "", "Write over older files of that volume; one that is copied alone does so anyway";
    "to-volume" option Kind::One(Form::Volume), "N", "The volume of an RK05 disk, 1 or 2, where TO is the file of one; TO:1 and TO:2 mean it too";
    "to-dectape" flag Kind::Flag, "", "TO is the file of a DECtape, of 129 words a block";
    "to-plain" flag Kind::Flag, "", "TO is one volume from its first byte, whatever stands in it";
    "volume" 'v' option Kind::One(Form::Volume), "N", "The volume of an RK05 disk, 1 or 2, where IMAGE is the file of one; IMAGE:1 and IMAGE:2 mean it too";
    "dectape" flag Kind::Flag, "", "IMAGE is the file of a DECtape, of 129 words a block";
    "plain" flag Kind::Flag, "", "IMAGE is one volume from its first byte, whatever stands in it";
    "wait" option Kind::One(Form::Seconds), "SECONDS", "Wait so long while another program holds TO, 0 to 3600 seconds; else not at all";
};

pub const SQUEEZE: &[Argument] = rows! {
    "IMAGE" must Kind::Word, "", "The file that holds the volume";
    "volume" 'v' option Kind::One(Form::Volume), "N", "The volume of an RK05 disk, 1 or 2, where IMAGE is the file of one; IMAGE:1 and IMAGE:2 mean it too";
    "dectape" flag Kind::Flag, "", "IMAGE is the file of a DECtape, of 129 words a block";
    "plain" flag Kind::Flag, "", "IMAGE is one volume from its first byte, whatever stands in it";
    "wait" option Kind::One(Form::Seconds), "SECONDS", "Wait so long while another program holds the image, 0 to 3600 seconds; else not at all";
};

pub const CHECK: &[Argument] = rows! {
    "IMAGE" must Kind::Words(MOST_IMAGES), "", "The files that hold the volumes";
    "all" 'a' flag Kind::Flag, "", "Show each fault of the directory, and the files that are sound";
    "volume" 'v' option Kind::One(Form::Volume), "N", "The volume of an RK05 disk, 1 or 2, where IMAGE is the file of one";
    "dectape" flag Kind::Flag, "", "IMAGE is the file of a DECtape, of 129 words a block";
    "plain" flag Kind::Flag, "", "IMAGE is one volume from its first byte, whatever stands in it";
    "lenient" flag Kind::Flag, "", "Read an image with faults: top bits are taken off, a length is made whole; each is printed on standard error";
};

pub const DUMP: &[Argument] = rows! {
    "IMAGE" must Kind::Word, "", "The file that holds the volume";
    "BLOCK" may Kind::Value(Form::Span), "", "A block, 0 to 4095, or the first and the last of several, as 7-9; else all";
    "sixbit" flag Kind::Flag, "", "Show the two characters of each word in sixbit; else three of each two words, as a text has them";
    "volume" 'v' option Kind::One(Form::Volume), "N", "The volume of an RK05 disk, 1 or 2, where IMAGE is the file of one; IMAGE:1 and IMAGE:2 mean it too";
    "dectape" flag Kind::Flag, "", "IMAGE is the file of a DECtape, of 129 words a block";
    "plain" flag Kind::Flag, "", "IMAGE is one volume from its first byte, whatever stands in it";
};

pub const PATCH: &[Argument] = rows! {
    "IMAGE" must Kind::Word, "", "The file that holds the volume";
    "BLOCK" must Kind::Value(Form::Block), "", "The block of the word, 0 to 4095";
    "WORD" must Kind::Value(Form::Index), "", "The number of the word in its block, 0 to 255";
    "OLD" must Kind::Value(Form::Bits), "", "The word that stands there, in octal, with more than four digits where it has more than twelve bits";
    "NEW" must Kind::Value(Form::Octal), "", "The word that is put there, in octal";
    "volume" 'v' option Kind::One(Form::Volume), "N", "The volume of an RK05 disk, 1 or 2, where IMAGE is the file of one; IMAGE:1 and IMAGE:2 mean it too";
    "dectape" flag Kind::Flag, "", "IMAGE is the file of a DECtape, of 129 words a block";
    "plain" flag Kind::Flag, "", "IMAGE is one volume from its first byte, whatever stands in it";
    "wait" option Kind::One(Form::Seconds), "SECONDS", "Wait so long while another program holds the image, 0 to 3600 seconds; else not at all";
};

pub const INDEX: &[Argument] = rows! {
    "IMAGE" must Kind::Words(MOST_IMAGES), "", "The files that hold the volumes";
    "find" option Kind::One(Form::Text), "PATTERN", "Only files whose names fit the pattern, as '*.PA'";
    "grep" option Kind::One(Form::Text), "TEXT", "Only texts that hold TEXT";
    "json" flag Kind::Flag, "", "Write each line as a JSON object";
    "same" flag Kind::Flag, "", "Only files that are equal to others of the index, those that are equal one after the other";
    "year" option Kind::One(Form::Year), "N", "The last of the eight years that dates mean, 1977 to 9999; else the one that block 0 gives";
    "volume" 'v' option Kind::One(Form::Volume), "N", "The volume of an RK05 disk, 1 or 2, where IMAGE is the file of one";
    "dectape" flag Kind::Flag, "", "IMAGE is the file of a DECtape, of 129 words a block";
    "plain" flag Kind::Flag, "", "IMAGE is one volume from its first byte, whatever stands in it";
    "lenient" flag Kind::Flag, "", "Read an image with faults: top bits are taken off, a length is made whole; each is printed on standard error";
};

pub const RESCUE: &[Argument] = rows! {
    "IMAGE" must Kind::Word, "", "The file that holds the damaged volume";
    "NEW" must Kind::Word, "", "The file that gets the new volume";
    "volume" 'v' option Kind::One(Form::Volume), "N", "The volume of an RK05 disk, 1 or 2, where IMAGE is the file of one; IMAGE:1 and IMAGE:2 mean it too";
    "dectape" flag Kind::Flag, "", "IMAGE is the file of a DECtape, of 129 words a block";
    "plain" flag Kind::Flag, "", "IMAGE is one volume from its first byte, whatever stands in it";
};

pub const SCAN: &[Argument] = rows! {
    "IMAGE" must Kind::Word, "", "The file that holds the volume";
    "into" option Kind::One(Form::Text), "FOLDER", "Write each piece to a file of FOLDER too, named by its block and what it is";
    "volume" 'v' option Kind::One(Form::Volume), "N", "The volume of an RK05 disk, 1 or 2, where IMAGE is the file of one; IMAGE:1 and IMAGE:2 mean it too";
    "dectape" flag Kind::Flag, "", "IMAGE is the file of a DECtape, of 129 words a block";
    "plain" flag Kind::Flag, "", "IMAGE is one volume from its first byte, whatever stands in it";
};
