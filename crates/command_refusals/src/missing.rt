//! What is missing of the arguments of a subcommand, where its table says of none of them that it must be given.
ghost use Rattle.std.specs.Prelude.{◌≡◌, ◌≤◌, if◌then◌else◌, codes, length, map, option_map, None, Some};
ghost use Rattle.command_table.specs.Values.{values_in};
ghost use Rattle.command_table.specs.Found.{values_of};
ghost use Rattle.command_refusals.specs.Refusals as spec;
ghost use Rattle.command_table.specs.declared.table.Verb.TheVariants as verb;

use crate::judging::blocks_word;
use crate::reasons::What;
use clap::ArgMatches;
use command_table::{Verb, has, is_set, text_of, texts_in, word_at};
use program_tasks::volume_named;

/// What is missing.
pub fn missing_of(found: &ArgMatches<'_>, which: Verb) -> Option<What>
    ensures { result ≡ spec.missing_of which (values_in found.now) }
{
    match which {
        Verb::Assemble => assemble_missing(found),
        Verb::Create => lack(has(found, "BLOCKS") || makes_disk(found), What::Blocks),
        Verb::Get => get_missing(found),
        Verb::Put => lack(!(puts_many(found) && puts_input(found)), What::As),
        Verb::Delete => lack(has(found, "NAME") || has(found, "at"), What::Name),
        Verb::Rename => moved_missing(found, "NEW", What::New, What::NameAndNew),
        Verb::Copy => copy_missing(found),
        Verb::Tape | Verb::Rim | Verb::Source => tape_missing(found),
        Verb::Teletype => run_missing(found),
        Verb::Trace | Verb::Profile => steps_missing(found),
        Verb::Boot | Verb::Run | Verb::List | Verb::Squeeze | Verb::Check => None,
        Verb::Dump | Verb::Patch | Verb::Index | Verb::Rescue | Verb::Scan => None,
    }
}

/// Whether a new volume has the blocks of a DECtape or of an RK05 disk.
fn makes_disk(found: &ArgMatches<'_>) -> bool
    ensures { result ≡ spec.makes_disk (values_in found.now) }
{
    is_set(found, "dectape")
        || is_set(found, "rk05")
        || has(found, "volume")
        || (means_volume(text_of(found, "IMAGE")) && !is_set(found, "new"))
}

/// Whether a name means a volume of a disk by its end.
fn means_volume(name: Option<&str>) -> bool
    ensures { result ≡ spec.means_volume (option_map (λ text. text.now) name.entry) }
{
    match name {
        None => false,
        Some(name) => volume_named(None, name).1.is_some(),
    }
}

/// What is missing, unless it is given.
fn lack(is_given: bool, what: What) -> Option<What>
    ensures { result ≡ (if is_given then None else Some what) }
{
    if is_given { None } else { Some(what) }
}

/// What is missing of a file of a volume, where it is said where the volume lies.
fn tape_missing(found: &ArgMatches<'_>) -> Option<What>
    ensures { result ≡ spec.tape_missing (values_in found.now) }
{
    if has(found, "NAME") || !says_where(found) {
        return None;
    }
    if has(found, "TAPE") {
        return Some(What::Name);
    }
    Some(What::TapeAndName)
}

/// What is missing where a program runs at the Teletype: of its file, or the machine of which something is said.
fn run_missing(found: &ArgMatches<'_>) -> Option<What>
    ensures { result ≡ spec.run_missing (values_in found.now) }
{
    if says_of_console(found) && !is_8e(text_of(found, "cpu")) {
        return Some(What::Cpu);
    }
    tape_missing(found)
}

/// What is missing where the steps of a program are printed or counted: of its file, or the machine of which something is said.
fn steps_missing(found: &ArgMatches<'_>) -> Option<What>
    ensures { result ≡ spec.steps_missing (values_in found.now) }
{
    if (says_of_disk(found) || says_of_devices(found)) && !is_8e(text_of(found, "cpu")) {
        return Some(What::Cpu);
    }
    tape_missing(found)
}

/// Whether the name of a machine is that of an 8/E.
fn is_8e(name: Option<&str>) -> bool
    ensures { result ≡ spec.is_8e (option_map (λ text. text.now) name.entry) }
{
    match name {
        None => false,
        Some(name) => name == "8e",
    }
}

/// Whether something is said of an 8/E at the console.
fn says_of_console(found: &ArgMatches<'_>) -> bool
    ensures { result ≡ spec.says_of_console (values_in found.now) }
{
    says_of_disk(found)
        || says_of_devices(found)
        || has(found, "every")
        || is_set(found, "capitals")
}

/// Whether something is said of reader, punch, line printer, transfers or clock of an 8/E.
fn says_of_devices(found: &ArgMatches<'_>) -> bool
    ensures { result ≡ spec.says_of_devices (values_in found.now) }
{
    has(found, "reader")
        || has(found, "punch")
        || has(found, "printer")
        || has(found, "transfers")
        || has(found, "clock")
}

/// Whether something is said of the disk of an 8/E.
fn says_of_disk(found: &ArgMatches<'_>) -> bool
    ensures { result ≡ spec.says_of_disk (values_in found.now) }
{
    names_disk(found)
        || has(found, "lock")
        || is_set(found, "look")
        || has(found, "wait")
        || has(found, "disk-time")
        || has(found, "seek-time")
}

/// Whether a file of a drive is named.
fn names_disk(found: &ArgMatches<'_>) -> bool
    ensures { result ≡ spec.names_disk (values_in found.now) }
{
    has(found, "rk0") || has(found, "rk1") || has(found, "rk2") || has(found, "rk3")
}

/// What is missing where sources are assembled: a listing for its cross references, PAL8 or the volume of which something is said, or the file that
/// is waited for.
fn assemble_missing(found: &ArgMatches<'_>) -> Option<What>
    ensures { result ≡ spec.missing_of verb.Assemble (values_in found.now) }
{
    if is_set(found, "cross") && !has(found, "list") {
        return Some(What::List);
    }
    if says_of_pal8(found) && !is_set(found, "pal8") {
        return Some(What::Pal8);
    }
    if says_of_volume(found) && !has(found, "from") {
        return Some(What::From);
    }
    if has(found, "wait") && !has(found, "onto") {
        return Some(What::Onto);
    }
    None
}

/// Whether something is said of how PAL8 is read, or what is noted of it.
fn says_of_pal8(found: &ArgMatches<'_>) -> bool
    ensures { result ≡ spec.says_of_pal8 (values_in found.now) }
{
    is_set(found, "no-links")
        || is_set(found, "text-without-zero")
        || is_set(found, "no-origin")
        || is_set(found, "stay")
        || is_set(found, "notes")
}

/// Whether something is said of the volume that has the sources.
fn says_of_volume(found: &ArgMatches<'_>) -> bool
    ensures { result ≡ spec.says_of_volume (values_in found.now) }
{
    has(found, "onto") || says_where(found)
}

/// Whether it is said where a volume lies in its file.
fn says_where(found: &ArgMatches<'_>) -> bool
    ensures { result ≡ spec.says_where (values_in found.now) }
{
    has(found, "volume") || is_set(found, "dectape") || is_set(found, "plain")
}

/// What is missing where files are got.
fn get_missing(found: &ArgMatches<'_>) -> Option<What>
    ensures { result ≡ spec.missing_of verb.Get (values_in found.now) }
{
    if is_set(found, "blocks") {
        return blocks_missing(found);
    }
    if !names_some(found) {
        return Some(What::Name);
    }
    lack(
        has(found, "into") || names_one(found) || prints_texts(found),
        What::Into,
    )
}

/// What is missing where blocks are got.
fn blocks_missing(found: &ArgMatches<'_>) -> Option<What>
    ensures { result ≡ spec.blocks_missing (values_in found.now) }
{
    if !has(found, "NAME") {
        return Some(What::FirstAndCount);
    }
    lack(word_at(found, "NAME", 1).is_some(), What::Count)
}

/// Whether a file is named.
fn names_some(found: &ArgMatches<'_>) -> bool
    ensures { result ≡ spec.names_some (values_in found.now) }
{
    is_set(found, "all") || has(found, "NAME") || has(found, "at")
}

/// Whether one file is named, by no pattern, and nothing is said of several.
fn names_one(found: &ArgMatches<'_>) -> bool
    ensures { result ≡ spec.names_one (values_in found.now) }
{
    let is_one = is_alone(found, "NAME", "at") || is_alone(found, "at", "NAME");
    is_one
        && !has_sign(blocks_word(found, 0).as_bytes())
        && !is_set(found, "all")
        && !is_set(found, "force")
        && !has(found, "text-of")
        && !has(found, "year")
}

/// Whether the texts of several files are to be printed.
pub fn prints_texts(found: &ArgMatches<'_>) -> bool
    ensures { result ≡ spec.prints_texts (values_in found.now) }
{
    asks_texts(found) && !says_of_folder(found) && !names_one(found)
}

/// Whether texts are asked for, and not a tape.
fn asks_texts(found: &ArgMatches<'_>) -> bool
    ensures { result ≡ spec.asks_texts (values_in found.now) }
{
    is_set(found, "text") && !is_set(found, "tape") && !is_set(found, "bin")
}

/// Whether something is said of files for a folder.
fn says_of_folder(found: &ArgMatches<'_>) -> bool
    ensures { result ≡ spec.says_of_folder (values_in found.now) }
{
    has(found, "into") || is_set(found, "force") || has(found, "text-of") || has(found, "year")
}

/// Whether the files are to be copied that a pattern in the place of a name fits.
pub fn copies_pattern(found: &ArgMatches<'_>) -> bool
    ensures { result ≡ spec.copies_pattern (values_in found.now) }
{
    if has(found, "to") || has(found, "at") || !has(found, "TO") {
        return false;
    }
    match text_of(found, "NAME") {
        Some(name) => has_sign(name.as_bytes()),
        None => false,
    }
}

/// Whether a name is a pattern, which may stand for several files.
fn has_sign(name: &[u8]) -> bool
    ensures { result ≡ spec.has_sign name.now }
{
    let mut rest = name;
    while let [character, others @ ..] = rest {
        if *character == b'*' || *character == b'?' {
            return true;
        }
        rest = others;
    }
    false
}

/// Whether an argument has one value, and another none.
fn is_alone(found: &ArgMatches<'_>, id: &str, other: &str) -> bool
    ensures { result ≡ spec.is_alone id.now other.now (values_in found.now) }
{
    has(found, id) && word_at(found, id, 1).is_none() && !has(found, other)
}

/// Whether files of the host are put under their own names.
fn puts_many(found: &ArgMatches<'_>) -> bool
    ensures { result ≡ spec.puts_many (values_in found.now) }
{
    !has(found, "as")
}

/// Whether standard input is among the files that are put.
pub fn puts_input(found: &ArgMatches<'_>) -> bool
    ensures { result ≡ spec.names_input (values_of (codes "FILE") (values_in found.now)) }
{
    input_count(texts_in(found, "FILE")) > 0
}

/// How many of the names are that of standard input.
pub fn input_count(names: &[&str]) -> usize
    ensures value { result ≡ spec.input_count (map (λ name. name.now) names.now) }
    ensures range { result ≤ length names.now }
{
    let mut count = 0;
    for name in names {
        if *name == "-" {
            count += 1;
        }
    }
    count
}

/// What is missing where files are copied.
fn copy_missing(found: &ArgMatches<'_>) -> Option<What>
    ensures { result ≡ spec.copy_missing (values_in found.now) }
{
    if has(found, "to") {
        return lack(has(found, "NAME"), What::Name);
    }
    moved_missing(found, "TO", What::To, What::NameAndTo)
}

/// What is missing of a file and the argument after it, which stands in the place of the name where `--at` gives the file.
fn moved_missing(found: &ArgMatches<'_>, id: &str, one: What, both: What) -> Option<What>
    ensures { result ≡ spec.moved_missing id.now one both (values_in found.now) }
{
    if !has(found, "NAME") {
        return Some(if has(found, "at") { one } else { both });
    }
    lack(has(found, "at") || has(found, id), one)
}
