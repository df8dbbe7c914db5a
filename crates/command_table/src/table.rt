//! The subcommands: what an argument of one may be, the rows of each, and which arguments exclude each other. All else that the command line does
//! is read from here.
ghost use Rattle.std.specs.Prelude.{◌≡◌, map};
ghost use Rattle.command_table.specs.Tables.{rows_for, entry_of, pair_of, row_of};
ghost use Rattle.command_table.specs.Tables as spec;

use crate::rows::{
    ASSEMBLE, BOOT, CHECK, COPY, CREATE, DELETE, DUMP, GET, INDEX, LIST, PATCH, PUT, RENAME,
    RESCUE, RIM, RUN, SCAN, SOURCE, SQUEEZE, TAPE, TELETYPE, TRACE,
};

/// What a value is.
#[derive(Clone, Copy)]
pub enum Form {
    Text,

    /// A cell: an octal number up to 77777, or F:AAAA.
    Cell,

    /// A word: an octal number up to 7777.
    Octal,

    /// The number of a disk's volume, 1 or 2.
    Volume,

    /// A machine, 8i or 8e.
    Cpu,

    /// A drive, 0 to 3.
    Drive,

    /// A number of instructions, 0 to 1000000.
    Time,

    /// A block, 0 to 4095.
    Block,

    /// A number of seconds, 0 to 3600.
    Seconds,

    /// A block, or the first and the last of several with `-` between.
    Span,

    /// The number of a word in its block, 0 to 255.
    Index,

    /// A word with all sixteen bits that it may have in an image: an octal number up to 177777.
    Bits,

    /// A date from 1970 on, as 1974-03-12.
    Date,

    /// The last of eight years, 1977 to 9999.
    Year,
}

/// What an argument takes.
#[derive(Clone, Copy)]
pub enum Kind {
    /// A text in its place.
    Word,

    /// A value of a form in its place.
    Value(Form),

    /// 1 to so many texts in one place.
    Words(usize),

    /// The number of a new volume's blocks in its place, 8 to 4095.
    Size,

    /// An option that takes no value.
    Flag,

    /// An option with a value.
    One(Form),

    /// An option with a value, which may be given several times.
    Many(Form),

    /// An option with a number from 1 up.
    Count,
}

/// A subcommand.
#[derive(Clone, Copy)]
pub enum Verb {
    Tape,
    Rim,
    Source,
    Assemble,
    Teletype,
    Trace,
    Profile,
    Boot,
    Run,
    Create,
    List,
    Get,
    Put,
    Delete,
    Rename,
    Copy,
    Squeeze,
    Check,
    Dump,
    Patch,
    Index,
    Rescue,
    Scan,
}

/// The most images that are checked, or that an index is made of.
pub const MOST_IMAGES: usize = 1_000_000;

/// An argument of a subcommand, with texts of the type `T`.
pub struct ArgumentOf<T> {
    /// Its name, which is also that of its option.
    pub id: T,

    /// The letter of its option, if it has one.
    pub letter: Option<char>,

    pub kind: Kind,
    pub is_required: bool,

    /// Whether help leaves it out.
    pub is_hidden: bool,

    /// What help calls its value.
    pub value: T,

    /// What refusals call it.
    pub title: T,

    pub help: T,
}

/// A row of the table.
pub type Argument = ArgumentOf<&'static str>;

/// A subcommand, with texts of the type `T`.
pub struct EntryOf<T> {
    pub verb: Verb,

    /// Its name.
    pub word: T,

    /// The line on its usage.
    pub usage: T,
}

/// A subcommand of the table.
pub type Entry = EntryOf<&'static str>;

/// Two arguments, by their names.
pub type Pair = (&'static str, &'static str);

/// The subcommands: each its name and its usage.
macro_rules! entries {
    ($($verb:expr, $word:literal, $usage:literal;)*) => {
        &[$(EntryOf { verb: $verb, word: $word, usage: $usage }),*]
    };
}

/// The subcommands.
pub const COMMANDS: &[Entry] = entries! {
    Verb::Tape, "tape", "Usage: pdp8 tape [OPTIONS] [TAPE] [NAME]";
    Verb::Rim, "rim", "Usage: pdp8 rim [OPTIONS] [TAPE] [NAME]";
    Verb::Source, "source", "Usage: pdp8 source [OPTIONS] [TAPE] [NAME]";
    Verb::Assemble, "assemble", "Usage: pdp8 assemble [OPTIONS] <FILE>...";
    Verb::Teletype, "teletype", "Usage: pdp8 teletype [OPTIONS] <TAPE> [NAME]";
    Verb::Trace, "trace", "Usage: pdp8 trace [OPTIONS] <TAPE> [NAME]";
    Verb::Profile, "profile", "Usage: pdp8 profile [OPTIONS] <TAPE> [NAME]";
    Verb::Boot, "boot", "Usage: pdp8 boot [OPTIONS] <IMAGE>";
    Verb::Run, "run", "Usage: pdp8 run [OPTIONS] <IMAGE>";
    Verb::Create, "create", "Usage: pdp8 create [OPTIONS] <IMAGE> [BLOCKS]";
    Verb::List, "list", "Usage: pdp8 list [OPTIONS] <IMAGE> [NAME]...";
    Verb::Get, "get", "Usage: pdp8 get [OPTIONS] <IMAGE> [NAME]...";
    Verb::Put, "put", "Usage: pdp8 put [OPTIONS] <IMAGE> <FILE>...";
    Verb::Delete, "delete", "Usage: pdp8 delete [OPTIONS] <IMAGE> [NAME]...";
    Verb::Rename, "rename", "Usage: pdp8 rename [OPTIONS] <IMAGE> [NAME] [NEW]";
    Verb::Copy, "copy", "Usage: pdp8 copy [OPTIONS] <IMAGE> [NAME] [TO] [NEW] [MORE]...";
    Verb::Squeeze, "squeeze", "Usage: pdp8 squeeze [OPTIONS] <IMAGE>";
    Verb::Check, "check", "Usage: pdp8 check [OPTIONS] <IMAGE>...";
    Verb::Index, "index", "Usage: pdp8 index [OPTIONS] <IMAGE>...";
    Verb::Dump, "dump", "Usage: pdp8 dump [OPTIONS] <IMAGE> [BLOCK]";
    Verb::Patch, "patch", "Usage: pdp8 patch [OPTIONS] <IMAGE> <BLOCK> <WORD> <OLD> <NEW>";
    Verb::Rescue, "rescue", "Usage: pdp8 rescue [OPTIONS] <IMAGE> <NEW>";
    Verb::Scan, "scan", "Usage: pdp8 scan [OPTIONS] <IMAGE>";
};

/// The arguments that exclude each other, in whatever subcommand they are.
pub const PAIRS: &[Pair] = &[
    ("volume", "dectape"),
    ("volume", "plain"),
    ("dectape", "plain"),
    ("to-volume", "to-dectape"),
    ("to-volume", "to-plain"),
    ("to-dectape", "to-plain"),
    ("BLOCKS", "dectape"),
    ("BLOCKS", "rk05"),
    ("BLOCKS", "volume"),
    ("rk05", "dectape"),
    ("rk05", "volume"),
    ("new", "volume"),
    ("blocks", "at"),
    ("at", "to"),
    ("blocks", "into"),
    ("blocks", "all"),
    ("blocks", "force"),
    ("blocks", "text-of"),
    ("blocks", "tape"),
    ("blocks", "bin"),
    ("tape", "into"),
    ("bin", "into"),
    ("blocks", "year"),
    ("as", "text-of"),
    ("output", "onto"),
    ("look", "keep"),
    ("look", "wait"),
    ("look", "every"),
    ("new", "wait"),
    ("info", "date"),
    ("info", "dates"),
    ("date", "dates"),
];

/// The arguments of a subcommand.
pub fn arguments_of(verb: Verb) -> &'static [Argument]
    ensures { map row_of result.now ≡ rows_for verb }
{
    match verb {
        Verb::Tape => TAPE,
        Verb::Rim => RIM,
        Verb::Source => SOURCE,
        Verb::Assemble => ASSEMBLE,
        Verb::Teletype => TELETYPE,
        Verb::Trace => TRACE,
        Verb::Profile => TRACE,
        Verb::Boot => BOOT,
        Verb::Run => RUN,
        Verb::Create => CREATE,
        Verb::List => LIST,
        Verb::Get => GET,
        Verb::Put => PUT,
        Verb::Delete => DELETE,
        Verb::Rename => RENAME,
        Verb::Copy => COPY,
        Verb::Squeeze => SQUEEZE,
        Verb::Check => CHECK,
        Verb::Dump => DUMP,
        Verb::Patch => PATCH,
        Verb::Index => INDEX,
        Verb::Rescue => RESCUE,
        Verb::Scan => SCAN,
    }
}

/// The subcommands.
pub fn table() -> &'static [Entry]
    ensures { map entry_of result.now ≡ spec.table }
{
    COMMANDS
}

/// The arguments that exclude each other.
pub fn pairs() -> &'static [Pair]
    ensures { map pair_of result.now ≡ spec.pairs }
{
    PAIRS
}
