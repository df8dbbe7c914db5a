//! Files of the host that are to be put, each under its own name or one under a name that is given.
ghost use Rattle.std.specs.Prelude.{◌≡◌, ◌||◌, List, [], ◌∷◌, ◌++◌, not, nat_eq, map, option_map, ℕ, IfOk, OnOk};
ghost use Rattle.archive_many.specs.declared.putting.NewFile.{NewFile as AsNew};
ghost use Rattle.image_files.specs.Inputs.{ReadsIf};
ghost use Rattle.image_files.specs.Work.{OrLacks};
ghost use Rattle.name_spelling.specs.Reading.{typed_name};
ghost use Rattle.put_commands.specs.Putting.{DatesNext, MakesFile, Names, ReadsEach, ReadsNext, ReadsWhole, RefusesName, RefusesPath, TakesName, TellsUnread, is_input, or_unused_name};
ghost use Rattle.put_commands.specs.NameSteps.{KnowsNames, has_key};

use archive_many::{NewFile, volume_name};
use asked_files::{note_put, put_form};
use hosts::Host;
use image_files::{
    FileDay, date_of_file, given_bytes, look_file, tell_note, word_of_day, year_of_day,
};
use name_spelling::typed_name;
use os8_dir::{FileFault, Name};
use outcome::{Ending, NameNote, Note, PlainNote};
use program_reports::ProgramLine;
use program_tasks::{PutFilesForm, TextsForm};
use refusals::SessionFault;
use std::alloc::{AllocError, Global};
use std::collections::BTreeSet;
use word12::Word;

/// The files that are asked for, which are read in their order.
pub(crate) fn read_files<H: Host>(
    host: &mut H,
    alloc: Global,
    form: &PutFilesForm,
) -> Result<Vec<NewFile>, Ending>
    ensures { ReadsEach form.now [] (map (λ path. path.bytes.items) form.now.files.items) (H.history host.old) result (H.history host.new) }
{
    let mut files = Vec::new(alloc);
    let mut names = BTreeSet::new(alloc);
    let mut rest = form.files.as_slice();
    while let [path, others @ ..] = rest {
        let file = read_next(host, alloc, form, path.as_str(), &mut names)?;
        add(&mut files, file)?;
        rest = others;
    }
    Ok(files)
}

fn add(files: &mut Vec<NewFile>, file: NewFile) -> Result<(), AllocError>
    ensures { OnOk result (files.new.items ≡ files.old.items ++ file ∷ []) }
{
    files.push(file)?;
    Ok(())
}

/// The file of a path, whose name is none of those that are known. It is known from then on.
fn read_next<H: Host>(
    host: &mut H,
    alloc: Global,
    form: &PutFilesForm,
    path: &str,
    names: &mut BTreeSet<u64>,
) -> Result<NewFile, Ending>
    ensures reads { (files : List AsNew) → KnowsNames names.old files
        → ReadsNext form.now files path.now (H.history host.old) result (H.history host.new) }
    ensures names { IfOk result (λ file. (q : ℕ) → has_key names.new q ≡ (has_key names.old q || nat_eq file.name q)) }
{
    let name = take_name(host, alloc, &form.name, path, names)?;
    let bytes = read_whole(host, alloc, &form.name, path)?;
    let day = date_next(host, alloc, &form.name, path, form.is_dated)?;
    new_file(host, alloc, &form.texts, path, name, bytes, &day)
}

/// The file of a path that has this name, these bytes and the date of a day, if there is one. It is printed where it is put as frames, and others as texts.
fn new_file<H: Host>(
    host: &mut H,
    alloc: Global,
    texts: &TextsForm,
    path: &str,
    name: Name,
    bytes: Vec<u8>,
    day: &Option<FileDay>,
) -> Result<NewFile, Ending>
    ensures { MakesFile texts.now path.now name bytes.items day.now (H.history host.old) result (H.history host.new) }
{
    note_put(host, alloc, texts, path, name)?;
    Ok(NewFile {
        name,
        bytes,
        form: put_form(texts, name),
        date: word_of_day(day),
        year: year_of_day(day),
    })
}

/// The name of a file on the volume, which is none of those that are known. It is known from then on.
fn take_name<H: Host>(
    host: &mut H,
    alloc: Global,
    given: &Option<String>,
    path: &str,
    names: &mut BTreeSet<u64>,
) -> Result<Name, Ending>
    ensures takes { (files : List AsNew) → KnowsNames names.old files
        → TakesName (option_map (λ name. name.bytes.items) given.now) files path.now (H.history host.old) result (H.history host.new) }
    ensures names { IfOk result (λ name. (q : ℕ) → has_key names.new q ≡ (has_key names.old q || nat_eq name q)) }
{
    let Some(name) = name_for(given, path) else {
        return Err(refuse_path(host, alloc, path));
    };
    if add_name(names, name)? {
        return Ok(name);
    }
    Err(refuse_name(host, alloc, path))
}

/// The name of a file on the volume: the one that is given, or else that of its path, if that spells one.
fn name_for(given: &Option<String>, path: &str) -> Option<Name>
    ensures { Names (option_map (λ name. name.bytes.items) given.now) path.now result }
{
    match given {
        Some(text) => Some(name_typed(text.as_str())),
        None => volume_name(path.as_bytes()),
    }
}

/// The name that a text spells, or where it spells none the one of zeros, which no file of a volume has.
fn name_typed(text: &str) -> Name
    ensures { result ≡ or_unused_name (typed_name text.now) }
{
    match typed_name(text.as_bytes()) {
        Some(name) => name,
        None => Name::of([Word::ZERO, Word::ZERO, Word::ZERO, Word::ZERO]),
    }
}

/// Adds a name to those that are known, and answers whether it is new.
fn add_name(names: &mut BTreeSet<u64>, name: Name) -> Result<bool, AllocError>
    ensures new { IfOk result (λ new. new ≡ not (has_key names.old name)) }
    ensures more { IfOk result (λ new. (q : ℕ) → has_key names.new q ≡ (has_key names.old q || nat_eq name q)) }
{
    let new = names.insert(number_of(name))?;
    Ok(new)
}

/// The four words of a name as one number to the base 0o10000.
fn number_of(name: Name) -> u64
    ensures { result ≡ name }
{
    let [a, b, c, d] = name.words();
    let high = u64::from(a.get()) * 0o10000 + u64::from(b.get());
    let low = u64::from(c.get()) * 0o10000 + u64::from(d.get());
    high * 0o100000000 + low
}

/// How the command ends where a path spells no name of a volume. The path is printed, and what such names are.
fn refuse_path<H: Host>(host: &mut H, alloc: Global, path: &str) -> Ending
    ensures { OrLacks (RefusesPath path.now) (H.history host.old) result (H.history host.new) }
{
    match tell_note(host, alloc, Note::OnName(NameNote::NotPut, path)) {
        Ok(()) => {
            let _ = host.tell(PlainNote::FileNames.text());
            Ending::Fault(SessionFault::File(FileFault::BadName))
        }
        Err(error) => Ending::from(error),
    }
}

/// How the command ends where an earlier path gives the name of this one, which is printed.
fn refuse_name<H: Host>(host: &mut H, alloc: Global, path: &str) -> Ending
    ensures { OrLacks (RefusesName path.now) (H.history host.old) result (H.history host.new) }
{
    match tell_note(host, alloc, Note::OnName(NameNote::NotPut, path)) {
        Ok(()) => Ending::Line(ProgramLine::SameName),
        Err(error) => Ending::from(error),
    }
}

/// All bytes of the file of a path, or of standard input. Where they are not read, the path is printed of a file that gets its own name.
fn read_whole<H: Host>(
    host: &mut H,
    alloc: Global,
    given: &Option<String>,
    path: &str,
) -> Result<Vec<u8>, Ending>
    ensures { ReadsWhole (option_map (λ name. name.bytes.items) given.now) path.now (H.history host.old) result (H.history host.new) }
{
    match bytes_of(host, alloc, given, path) {
        Ok(bytes) => Ok(bytes),
        Err(ending) => Err(tell_unread(host, alloc, given, path, ending)),
    }
}

/// All bytes of the file of a path, or of standard input, for which `-` stands where a name is given.
fn bytes_of<H: Host>(
    host: &mut H,
    alloc: Global,
    given: &Option<String>,
    path: &str,
) -> Result<Vec<u8>, Ending>
    ensures { ReadsIf (is_input (option_map (λ name. name.bytes.items) given.now) path.now) path.now (H.history host.old) result (H.history host.new) }
{
    match given {
        Some(_) => given_bytes(host, alloc, path),
        None => look_file(host, alloc, path),
    }
}

/// The day on which the file of a path was last changed, where that is asked for. Where it is not known, the path is printed of a file that gets its
/// own name.
fn date_next<H: Host>(
    host: &mut H,
    alloc: Global,
    given: &Option<String>,
    path: &str,
    is_dated: bool,
) -> Result<Option<FileDay>, Ending>
    ensures { DatesNext (option_map (λ name. name.bytes.items) given.now) is_dated path.now (H.history host.old) result (H.history host.new) }
{
    match date_of_file(host, alloc, path, is_dated) {
        Ok(day) => Ok(day),
        Err(why) => Err(tell_unread(host, alloc, given, path, why)),
    }
}

/// How the command ends where a file is not read for this. Its path is printed, unless a name is given.
fn tell_unread<H: Host>(
    host: &mut H,
    alloc: Global,
    given: &Option<String>,
    path: &str,
    ending: Ending,
) -> Ending
    ensures { TellsUnread (option_map (λ name. name.bytes.items) given.now) path.now ending (H.history host.old) result (H.history host.new) }
{
    match given {
        Some(_) => ending,
        None => match tell_note(host, alloc, Note::OnName(NameNote::NotPut, path)) {
            Ok(()) => ending,
            Err(error) => Ending::from(error),
        },
    }
}
