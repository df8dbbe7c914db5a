//! What a task does: the command that it is, and its end.
ghost use Rattle.std.specs.Prelude.{◌≡◌, IfOk, is_some};
ghost use Rattle.byte_reader.specs.Readings.{reading};
ghost use Rattle.program.specs.declared.changes.Change.TheVariants as change;
ghost use Rattle.program.specs.Tasks as spec;
ghost use Rattle.program.specs.Tasks.{ChoosesStyle, DoesTask, ListsIndex, PrintsTexts, RunsImage, RunsTask, ScansBlocks, word_patch};

use crate::asking::change_asked;
use crate::changed::notes_for;
use crate::changes::{Change, change_image, open_within};
use byte_reader::ByteReader;
use change_commands::WordPatch;
use command_table::SCRIPT_LINES;
use get_commands::{get_bin, get_blocks, get_file, get_files, show_texts};
use hosts::Host;
use image_files::{ImageReading, Rooms, end};
use index_commands::{LineShape, index_images};
use outcome::{Ending, gives_data};
use program_tasks::{
    GetTextsForm, ImageForm, IndexForm, LineForm, PatchForm, RunForm, ScanForm, Task,
};
use run_commands::{boot_disk, profile_tape, run_teletype, trace_tape};
use salvage_commands::{rescue_image, scan_blocks, scan_into};
use script_commands::run_over;
use show_commands::{check_images, dump_blocks, list_files, list_places, list_some};
use std::alloc::{AllocError, Global};
use tape_commands::{list_tape, write_rim, write_source};
use volume_index::IndexStyle;

/// Does a task, and prints what its end asks for. The answer is the exit status: 0, 1 after a fault, 141 where nobody reads standard output,
/// and 2 for words that a command refuses (this project's profile). Where standard output takes no line of a change, standard error says
/// whether the image has it. The keys of a Teletype, or a script, are read from the input; a person may type them at a terminal.
pub fn run_task<H: Host, I: ByteReader>(
    host: H,
    alloc: Global,
    rooms: Rooms,
    input: &mut I,
    is_typed: bool,
    task: Task,
) -> (H, u8)
    ensures { RunsTask task is_typed (reading I.remaining I.has_failed input.old input.new) (H.history host) (H.history result.0) result.1 }
{
    let is_data = gives_data(&task);
    match notes_for(alloc, &task) {
        Ok(notes) => {
            let (host, work) = do_task(host, alloc, input, is_typed, task);
            let mut host = host;
            let status = end(&mut host, rooms, &notes, is_data, work);
            (host, status)
        }
        Err(error) => {
            let mut host = host;
            let status = end(&mut host, rooms, &None, is_data, Err(Ending::from(error)));
            (host, status)
        }
    }
}

/// Does a task. The host is handed over, since the output of a machine that runs is the host itself, and is given back.
pub fn do_task<H: Host, I: ByteReader>(
    host: H,
    alloc: Global,
    input: &mut I,
    is_typed: bool,
    task: Task,
) -> (H, Result<(), Ending>)
    ensures { DoesTask task is_typed (reading I.remaining I.has_failed input.old input.new) (H.history host) result.1 (H.history result.0) }
{
    let mut host = host;
    let work = match task {
        Task::Teletype(form) => return run_teletype(host, alloc, input, &form),
        Task::Boot(form) => return boot_disk(host, alloc, input, &form),
        Task::Trace(form) => return trace_tape(host, alloc, &form),
        Task::Run(image, form) => {
            let work = run_image(&mut host, alloc, input, is_typed, &image, form);
            return (host, work);
        }
        Task::Profile(form) => profile_tape(&mut host, alloc, &form),
        Task::Tape(tape) => list_tape(&mut host, alloc, &tape),
        Task::Rim(tape, form) => write_rim(&mut host, alloc, &tape, form),
        Task::Source(form) => write_source(&mut host, alloc, &form),
        Task::List(image) => list_files(&mut host, alloc, &image),
        Task::ListLong(image, year) => list_places(&mut host, alloc, &image, year),
        Task::ListSome(form) => list_some(&mut host, alloc, &form),
        Task::Get(image, file, form) => get_file(&mut host, alloc, &image, file, form),
        Task::GetBin(image, file) => get_bin(&mut host, alloc, &image, file),
        Task::GetMany(form) => get_files(&mut host, alloc, &form),
        Task::GetTexts(form) => print_texts(&mut host, alloc, &form),
        Task::GetBlocks(form) => get_blocks(&mut host, alloc, &form),
        Task::Check(form) => check_images(&mut host, alloc, &form),
        Task::Index(form) => list_index(&mut host, alloc, form),
        Task::Dump(form) => dump_blocks(&mut host, alloc, &form.image, form.span, form.is_sixbit),
        Task::Scan(form) => scan_image(&mut host, alloc, &form),
        Task::Rescue(form) => rescue_image(&mut host, alloc, &form.image, form.new.as_str()),
        Task::Create(form, blocks) => {
            let change = Change::Create(form, blocks);
            change_asked(&mut host, alloc, input, is_typed, &change)
        }
        Task::CreateTape(form) => {
            let change = Change::CreateTape(form);
            change_asked(&mut host, alloc, input, is_typed, &change)
        }
        Task::CreateDisk(form) => {
            let change = Change::CreateDisk(form);
            change_asked(&mut host, alloc, input, is_typed, &change)
        }
        Task::CreateVolume(image) => {
            let change = Change::CreateVolume(image);
            change_asked(&mut host, alloc, input, is_typed, &change)
        }
        Task::Put(form) => change_image(&mut host, alloc, &Change::Put(form)),
        Task::Delete(form) => change_image(&mut host, alloc, &Change::Delete(form)),
        Task::Rename(image, file, new) => {
            let change = Change::Rename(image, file, new);
            change_image(&mut host, alloc, &change)
        }
        Task::Copy(form) => change_image(&mut host, alloc, &Change::Copy(form)),
        Task::Squeeze(image) => change_image(&mut host, alloc, &Change::Squeeze(image)),
        Task::Patch(form) => change_image(&mut host, alloc, &word_change(form)),
        Task::Assemble(form) => change_image(&mut host, alloc, &Change::Assemble(form)),
    };
    (host, work)
}

/// Runs the script of a reader over the volume of an image file, which is waited for while another program holds it.
fn run_image<H: Host, I: ByteReader>(
    host: &mut H,
    alloc: Global,
    input: &mut I,
    is_typed: bool,
    named: &ImageForm,
    form: RunForm,
) -> Result<(), Ending>
    ensures { RunsImage named.now form is_typed (reading I.remaining I.has_failed input.old input.new) (H.history host.old) result (H.history host.new) }
{
    let image = open_within(host, alloc, named, form.saving)?;
    run_over(host, alloc, input, image, form, forms_for(is_typed))
}

/// The forms of a script's lines, which a person at a terminal is shown.
fn forms_for(is_typed: bool) -> Option<&'static str>
    ensures { is_some result ≡ is_typed }
{
    if is_typed {
        return Some(SCRIPT_LINES);
    }
    None
}

/// Prints the texts of the files that are asked for.
fn print_texts<H: Host>(host: &mut H, alloc: Global, form: &GetTextsForm) -> Result<(), Ending>
    ensures { PrintsTexts form.now (H.history host.old) result (H.history host.new) }
{
    show_texts(
        host,
        alloc,
        &form.image,
        form.is_all,
        &form.names,
        &form.places,
    )
}

/// The index of the images that are given.
fn list_index<H: Host>(host: &mut H, alloc: Global, form: IndexForm) -> Result<(), Ending>
    ensures { ListsIndex form (H.history host.old) result (H.history host.new) }
{
    let IndexForm {
        images,
        layout,
        is_plain,
        year,
        form,
        is_same,
        find,
        grep,
        is_lenient,
    } = form;
    let style = IndexStyle {
        find: pattern_or_all(alloc, find)?,
        grep,
        year,
    };
    let shape = LineShape {
        is_json: is_json(form),
        is_same,
    };
    let reading = ImageReading {
        layout,
        is_plain,
        is_lenient,
    };
    index_images(host, alloc, &style, shape, &images, reading)
}

/// Whether lines of this form are JSON objects.
fn is_json(form: LineForm) -> bool
    ensures { result ≡ spec.is_json form }
{
    match form {
        LineForm::Columns => false,
        LineForm::Json => true,
    }
}

/// The pattern that is given, or else the one that fits each name.
fn pattern_or_all(alloc: Global, find: Option<String>) -> Result<String, AllocError>
    ensures { IfOk result (λ pattern. pattern.bytes.items ≡ spec.pattern_or_all find) }
{
    match find {
        Some(pattern) => Ok(pattern),
        None => String::from_str(alloc, "*.*"),
    }
}

/// Lists what the blocks of a volume hold, and writes it to a folder where one is given.
fn scan_image<H: Host>(host: &mut H, alloc: Global, form: &ScanForm) -> Result<(), Ending>
    ensures { ScansBlocks form.now.into form.now.image (H.history host.old) result (H.history host.new) }
{
    match &form.into {
        Some(folder) => scan_into(host, alloc, &form.image, folder.as_str()),
        None => scan_blocks(host, alloc, &form.image),
    }
}

/// The change of a word.
fn word_change(form: PatchForm) -> Change
    ensures { result ≡ change.Patch form.image (word_patch form) }
{
    let PatchForm {
        image,
        block,
        number,
        old,
        new,
    } = form;
    let word = WordPatch {
        block,
        number,
        old,
        new,
    };
    Change::Patch(image, word)
}
