//! What help says of the subcommands.
use crate::table::Verb;

/// The program's own help: its subcommands by what they work on, each with its text for short help.
pub const HELP: &str = "\
A PDP-8 programming system on OS/8 volumes

Usage: pdp8 <COMMAND> [ARGUMENTS]

Tapes and sources:
  tape      List the words of a BIN paper tape
  rim       List the words of a RIM paper tape
  source    Write the PAL III source of a BIN paper tape
  assemble  Assemble PAL III sources to a BIN paper tape

Machine:
  teletype  Run a BIN paper tape with the terminal as the Teletype
  trace     Run a BIN paper tape, and print a line for each step
  profile   Run a BIN paper tape, and count how often each cell is fetched
  boot      Boot an RK05 disk with the terminal as the console

Volumes:
  run       Run a script on a volume
  create    Write an empty volume
  list      List the files of a volume
  get       Write files of a volume to standard output or to a folder
  put       Make files of this system, or standard input, files of a volume
  delete    Take files out of a volume
  rename    Give a file of a volume another name
  copy      Copy files from volume to volume

Whole archives:
  squeeze   Move the files of a volume together
  check     Show what a volume's directory says
  index     List the files of many volumes, with what each holds

Damaged volumes:
  dump      Show the words of a volume's blocks
  patch     Put a word of an image in place of another
  rescue    Write a new volume with the files that a damaged one still has
  scan      List the texts and programs that the blocks of a volume hold, by their content

Help:
  help      Print this message, or the help of a command

Options:
  -h, --help     Print help
  -V, --version  Print version

The help of a command, as pdp8 help get, has its arguments and two examples. The exit status is 0,
or 1 after a fault, or 2 for a command line that is refused.
";

/// The forms of a script's lines, one a line after the first, each with what it does (docs/using/scripts.md).
pub const SCRIPT_LINES: &str = "\
Lines of a script:
  STORE NAME N           stores the N lines after it as a text file
  DELETE NAME            takes a file out
  DIRECT                 shows the files and the free blocks
  ASSEMBLE NAME<NAME,..  begins a job that assembles 1 to 8 sources to a tape
  LOAD NAME              begins a job that loads a tape into core
  SQUEEZE                begins a job that moves the files together
  TURN J                 gives job J a turn
  FINISH                 gives the jobs turns until none is left
  START FAAAA            starts the processor at a cell, field and address in octal
  STEP N                 makes N steps, 1 to 1000000
  GO N                   makes N steps, as far as a break
  RUN FAAAA N            is START and GO, with a printer that is always quick
  KEY KKK                strikes the key of a character
  DONE                   ends the character that is being printed
  SWITCHES WWWW          sets the switches
  EXAMINE FAAAA          shows the word of a cell
  DEPOSIT FAAAA WWWW     gives a cell a word
  REGISTERS              shows the registers
  BREAK FAAAA ON|OFF     sets a break at a cell, or takes it away
  PRINTED                shows the characters that were printed";

/// What help says of a subcommand.
#[derive(Clone, Copy)]
pub struct Texts {
    /// Its line in the list of the subcommands and in short help.
    pub about: &'static str,

    /// Its text for long help, where `{n}` ends a line.
    pub long_about: &'static str,

    /// What stands at the end of its long help: two examples, or for `run` the lines of a script.
    pub examples: &'static str,
}

/// What help says of a subcommand.
pub fn texts_of(verb: Verb) -> Texts {
    match verb {
        Verb::Tape => Texts {
            about: "List the words of a BIN paper tape",
            long_about: "Prints a line F AAAA WWWW for each memory word that a BIN paper tape loads: field, address and word,{n}in octal, by rising address. The tape is the file TAPE, or the file NAME of the OS/8 volume in the{n}image TAPE, or else standard input. TAPE may be a DECtape, or a disk, of which --volume takes one volume.",
            examples: "Examples:\n  pdp8 tape examples/add-one.bin\n  pdp8 assemble add.pa | pdp8 tape",
        },
        Verb::Rim => Texts {
            about: "List the words of a RIM paper tape",
            long_about: "Prints a line F AAAA WWWW for each memory word that a RIM paper tape loads: field, address and word,{n}in octal, by rising address. The tape is the file TAPE, or the file NAME of the OS/8 volume in the{n}image TAPE, or else standard input. With --bin it writes the BIN paper tape of the same words{n}instead, and the line of a fault goes to standard error.",
            examples: "Examples:\n  pdp8 rim loader.rim\n  pdp8 rim --bin < loader.rim > loader.bin",
        },
        Verb::Source => Texts {
            about: "Write the PAL III source of a BIN paper tape",
            long_about: "Reads a BIN paper tape from standard input, from the file TAPE, or from what the file NAME of the OS/8{n}volume in the image TAPE holds, and prints a PAL III source that assembles to the words that it{n}loads, one line a word, with the cell and the word in octal after it. With --start the words that{n}a program reaches from there are shown as instructions, and all others as numbers. The line of a{n}fault goes to standard error.",
            examples: "Examples:\n  pdp8 source examples/add-one.bin\n  pdp8 source disk.rk05 add.bn -v 2 --start 200",
        },
        Verb::Assemble => Texts {
            about: "Assemble PAL III sources to a BIN paper tape",
            long_about: "Assembles the PAL III sources in the files FILE, one after the other as one program, to a BIN paper{n}tape, which goes to standard output, or to the file TAPE. With --from the sources are files of the{n}OS/8 volume in the file IMAGE, and with --onto the tape is put there. With --pal8 the sources are{n}PAL8, the language of OS/8's assembler. The line of a fault goes to standard error. The exit{n}status is 1 after a fault of a source or of a file.",
            examples: "Examples:\n  pdp8 assemble main.pa tables.pa -o main.bin -l main.ls --cross\n  pdp8 assemble --from disk.img add.pa --onto add.bn",
        },
        Verb::Teletype => Texts {
            about: "Run a BIN paper tape with the terminal as the Teletype",
            long_about: "Loads the BIN paper tape in the file TAPE into core, or the tape that the file NAME of the OS/8{n}volume in the image TAPE begins with, and starts the processor. What it prints goes to standard{n}output with its top bit dropped; standard input is the keyboard. It ends where the processor{n}halts, where the program waits for a key and there are no more, and at a limit. The exit status is{n}0 after HALT or where the keys ended, 1 after a word that is no instruction, the limit or a fault{n}of the tape, and 2 for a command line that is refused.",
            examples: "Examples:\n  pdp8 teletype hello.bin\n  pdp8 teletype disk.rk05 hello.bn --start 200 --switches 17",
        },
        Verb::Trace => Texts {
            about: "Run a BIN paper tape, and print a line for each step",
            long_about: "Loads the BIN paper tape in the file TAPE into core, or that of the file NAME of the OS/8 volume{n}in the image TAPE, starts the processor, and prints a line for each step: its cell and word, the{n}instruction, AC and L after it, the cell and the new word where it changed one, and the character{n}that it printed. It ends as teletype does, and after 1000 steps if N isn't given; the last line{n}is STEPS n, why, and the cell. The exit status is 0, 1 after a fault, and 2 for a command line{n}that is refused.",
            examples: "Examples:\n  pdp8 trace hello.bin --steps 20\n  pdp8 trace echo.bin --keys 'HELLO'",
        },
        Verb::Profile => Texts {
            about: "Run a BIN paper tape, and count how often each cell is fetched",
            long_about: "Loads the BIN paper tape in the file TAPE into core, or that of the file NAME of the OS/8 volume{n}in the image TAPE, starts the processor, and prints how often the word of each cell was fetched,{n}the most often first, and which cells of the tape never were. It ends as teletype does, and after{n}1000000 steps if N isn't given; the last line is STEPS n, why, and the cell. The exit status is 0,{n}1 after a fault, and 2 for a command line that is refused.",
            examples: "Examples:\n  pdp8 profile hello.bin\n  pdp8 profile disk.rk05 hello.bn --steps 50000",
        },
        Verb::Boot => Texts {
            about: "Boot an RK05 disk with the terminal as the console",
            long_about: "Boots the RK05 disk in the file IMAGE, which is in drive 0 of a PDP-8/E: sector 0 goes to the cells{n}from 00000 on, and runs. What it prints goes to standard output with its top bit dropped; standard{n}input is the keyboard. It ends as teletype does. At the end each file whose disk was written gets{n}what is on the disk, whole. With --look no file is written. The exit status is 0 after HALT or where{n}the keys ended, 1 after the limit or a fault of a file, and 2 for a command line that is refused.",
            examples: "Examples:\n  pdp8 boot disk.rk05 --look\n  pdp8 boot disk.rk05 --rk1 data.rk05 --lock 0 --capitals",
        },
        Verb::Run => Texts {
            about: "Run a script on a volume",
            long_about: "Runs the script of standard input on the OS/8 volume in the file IMAGE, prints the replies, and{n}writes the image back to the file. Each line gets its reply as it comes. IMAGE may be the file of a{n}DECtape, or of a disk of two volumes, of which --volume takes one.{n}{n}Examples:{n}  pdp8 run disk.rk05 < session.txt{n}  pdp8 run disk.rk05 --look --strict < session.txt",
            examples: SCRIPT_LINES,
        },
        Verb::Create => Texts {
            about: "Write an empty volume",
            long_about: "Writes an empty OS/8 volume of BLOCKS blocks of 512 bytes to the file IMAGE, in place of any{n}file of that name, and prints CREATED and the number of blocks. With --dectape the file is that of a{n}DECtape of 1474 blocks of 129 words, and with --rk05 that of a disk of two volumes. IMAGE:1, IMAGE:2{n}or --volume make a volume of a disk that is there an empty one, and leave the other as it is.",
            examples: "Examples:\n  pdp8 create disk.img 256\n  pdp8 create tape.dt8 --dectape --new",
        },
        Verb::List => Texts {
            about: "List the files of a volume",
            long_about: "Prints a line NAME n for each file of the OS/8 volume in the file IMAGE, in name order, with its{n}length in blocks, and a line FREE n for the blocks of no file of the whole volume. With --long the{n}files are in the order of the directory, each with its first block, its information words and its{n}date after it. Where NAME is given only such files are listed; a pattern, as '*.PA', stands for{n}each name that it fits. In names _ and two octal digits are a code that is no letter and no digit.{n}IMAGE may be the file of a disk of two volumes or of a DECtape, as --volume and --dectape say. The{n}image is not written.",
            examples: "Examples:\n  pdp8 list disk.img '*.pa'\n  pdp8 list disk.rk05 -l -v 2",
        },
        Verb::Get => Texts {
            about: "Write files of a volume to standard output or to a folder",
            long_about: "Writes the file NAME of the OS/8 volume in the file IMAGE to standard output: its words, three bytes{n}for two. With --text it may be several files; then each text has a line ==> NAME <== before it. With{n}--into the files NAME, or with --all all files, go to files of their names in FOLDER; a pattern, as{n}'*.PA', stands for each name that it fits. The time of such a file is the date that it has on the{n}volume. With --blocks the arguments after IMAGE are the number of a block and how many are written,{n}whatever the directory says. The line of a fault goes to standard error. The image is not written.",
            examples: "Examples:\n  pdp8 get disk.img notes.tx -t\n  pdp8 get disk.img '*.pa' -t --into sources",
        },
        Verb::Put => Texts {
            about: "Make files of this system, or standard input, files of a volume",
            long_about: "Puts the files FILE of this system, each under its own name, all or none, on the OS/8 volume in the{n}file IMAGE, in place of older ones, and prints STORED, the name and the number of blocks for each.{n}With --as one FILE gets another name; - is standard input, and needs --as. A file keeps the{n}information words of the one that it replaces, where --info, --date and --dates give none. An empty{n}FILE replaces no file unless --empty is given. After a fault the image is as it was.",
            examples: "Examples:\n  pdp8 put disk.img add.pa notes.tx -t --wait 10\n  pdp8 assemble add.pa | pdp8 put disk.img - --as add.bn",
        },
        Verb::Delete => Texts {
            about: "Take files out of a volume",
            long_about: "Takes the files NAME out of the OS/8 volume in the file IMAGE, and those whose first blocks --at{n}gives, and prints DELETED and the name of each. A pattern, as '*.PA', stands for each name that it{n}fits, and each file is then taken out once. After a fault of one of them the image is as it was.",
            examples: "Examples:\n  pdp8 delete disk.img old.tx '*.bn'\n  pdp8 delete disk.img --at 70 --at 83",
        },
        Verb::Rename => Texts {
            about: "Give a file of a volume another name",
            long_about: "Gives the file NAME of the OS/8 volume in the file IMAGE the name NEW, which no other file has, and{n}prints RENAMED and both. With --at the file is the one at that block, and the argument after IMAGE{n}is NEW. Its words, its information words and its place stay. After a fault the image is as it was.",
            examples: "Examples:\n  pdp8 rename disk.img old.pa new.pa\n  pdp8 rename disk.img --at 70 new.pa",
        },
        Verb::Copy => Texts {
            about: "Copy files from volume to volume",
            long_about: "Copies the file NAME of the OS/8 volume in the file IMAGE, with its information words, to the volume{n}in the file TO, under the name NEW if one is given, in place of an older file there, and prints{n}STORED, the name and the number of blocks. With --at the file is the one at that block, and the{n}arguments after IMAGE are TO and NEW. With --to all arguments after IMAGE are names of files; a{n}pattern, as '*.PA', stands for each name that it fits, also as NAME without --to. They go to the{n}volume in that file, all or none, and none of them may be there, unless --force is given. After a{n}fault both images are as they were.",
            examples: "Examples:\n  pdp8 copy disk.img '*.pa' other.img\n  pdp8 copy disk.img add.pa x.tx --to tape.dt8 --force",
        },
        Verb::Squeeze => Texts {
            about: "Move the files of a volume together",
            long_about: "Moves the files of the OS/8 volume in the file IMAGE down, so that all free blocks lie after the{n}last, and prints SQUEEZED. No file changes its words. After a fault the image is as it was. IMAGE may{n}be the file of a DECtape, or of a disk of two volumes, of which --volume takes one.",
            examples: "Examples:\n  pdp8 squeeze disk.img\n  pdp8 squeeze disk.rk05 -v 1",
        },
        Verb::Check => Texts {
            about: "Show what a volume's directory says",
            long_about: "Accepts or refuses the OS/8 volume in the file IMAGE, and prints its blocks, the segments of its{n}directory, each file and empty with its first block and its length, and the blocks that the{n}directory does not cover. With --all it goes on after a fault, and shows each. Of several images{n}each line begins with the image's name, and a summary comes last. IMAGE:1 and IMAGE:2 are the volumes{n}of a disk. No image is written.",
            examples: "Examples:\n  pdp8 check disk.img\n  pdp8 check -a *.img",
        },
        Verb::Dump => Texts {
            about: "Show the words of a volume's blocks",
            long_about: "Prints the words of blocks of the OS/8 volume in the file IMAGE, whatever its directory says: a line{n}BLOCK n with the file that has the block, if there is one, then eight words a line in octal, with{n}their characters beside. A word with more than twelve bits is shown by its low twelve, after a line{n}BAD WORD with its number and all of its bits. The image is not written.",
            examples: "Examples:\n  pdp8 dump disk.img 1-6 --sixbit\n  pdp8 dump disk.rk05 70 -v 2",
        },
        Verb::Patch => Texts {
            about: "Put a word of an image in place of another",
            long_about: "Puts the word NEW in place of the word OLD in a block of the OS/8 volume in the file IMAGE, by its{n}number from 0, and prints PATCHED and what it did. Where another word than OLD stands there nothing is{n}written. The volume may be damaged, and each other byte of the file stays as it is.",
            examples: "Examples:\n  pdp8 patch disk.img 1 2 7 0\n  pdp8 patch disk.rk05 70 12 103421 3421 -v 2",
        },
        Verb::Index => Texts {
            about: "List the files of many volumes, with what each holds",
            long_about: "Prints a line for each file of the OS/8 volumes in the files IMAGE, image after image and by place: the{n}image, the volume, the first block, the length, the name, the date, what the file holds, and a digest{n}of its words, which equal files share. With --find and --grep only those files are listed that these let{n}through, with --same then only those that are equal to others, when all are read. Names of files are{n}quoted, so that none can tear a line. IMAGE:1 and IMAGE:2 are the volumes of a disk. No image is{n}written.",
            examples: "Examples:\n  pdp8 index *.img\n  pdp8 index *.img --find '*.pa'",
        },
        Verb::Rescue => Texts {
            about: "Write a new volume with the files that a damaged one still has",
            long_about: "Writes a new OS/8 volume to the file NEW, with each file that is still found on the damaged volume in{n}the file IMAGE, in their order, with their words, information words, dates and names, and prints what{n}is lost, and why. IMAGE is not written.",
            examples: "Examples:\n  pdp8 rescue damaged.img new.img\n  pdp8 rescue damaged.rk05 new.img -v 2",
        },
        Verb::Scan => Texts {
            about: "List the texts and programs that the blocks of a volume hold, by their content",
            long_about: "Prints what the blocks of the OS/8 volume in the file IMAGE hold, by their content alone, whatever its{n}directory says: the whole texts, with the first line of each, and then the core images, BIN tapes,{n}RIM tapes and segments of directories, each with its first block and how many there are. With --into{n}each is also written to a new file of FOLDER. The image is not written.",
            examples: "Examples:\n  pdp8 scan damaged.img\n  pdp8 scan damaged.img --into found",
        },
    }
}
