//! The command that runs a script.
ghost use Rattle.std.specs.Prelude.{◌≡◌, ◌∷◌, ◌++◌, List, [], None, codes, is_some, length, true, false};
ghost use Rattle.byte_reader.specs.Readings.{reading};
ghost use Rattle.hosts.specs.Event.{Event, tell_call};
ghost use Rattle.hosts.specs.Streams.{output_text};
ghost use Rattle.outcome.specs.Notes.{name_text};
ghost use Rattle.outcome.specs.declared.notes.NameNote.TheVariants.{TooLong};
ghost use Rattle.system_session.specs.ShownAnswers.{ShownAnswer};
ghost use Rattle.image_files.specs.Answers.{Answers};
ghost use Rattle.image_files.specs.declared.images.Image.{Image as ImageState};
ghost use Rattle.script_commands.specs.RunSteps.{HasDone};
ghost use Rattle.script_commands.specs.Scripts as spec;
ghost use Rattle.script_commands.specs.Scripts.{IsRoom, MountsSession, OpensFor, OnlyReads, RunsOver, RunsScript, RunsSession, EndsRun};

use crate::inputs::CountedInput;
use crate::printing::{ROOM, print_waiting};
use crate::progress::Progress;
use crate::saves::save_last;
use crate::watching::Run;
use archive_files::ArchiveFault;
use archive_files::parts::volume_of;
use byte_reader::ByteReader;
use hosts::{Host, HostFault, PrintFault};
use image_files::{
    Image, ImagePlace, ending_after, judge_file, look_file, refuse_image, script_volume_in,
};
use image_kind::Judgment;
use os8_dir::DirFault;
use outcome::Ending;
use program_tasks::{ImageForm, RunForm, Saving};
use refusals::SessionFault;
use std::alloc::Global;
use system_session::Session;
use volume_image::{ImageFault, MemoryVolume};

/// Runs the script of a reader over the volume of an image file, and prints its replies. The image is written when it is to be, if it
/// changed; the memory for that is taken before the script. Where the forms of lines are given, a person types the script, and is shown the
/// form of a bad line.
pub fn run_script<H: Host, I: ByteReader>(
    host: &mut H,
    alloc: Global,
    input: &mut I,
    named: &ImageForm,
    form: RunForm,
    forms: Option<&'static str>,
) -> Result<(), Ending>
    ensures { RunsScript named.now form (is_some forms.entry) (reading I.remaining I.has_failed input.old input.new) (H.history host.old) result (H.history host.new) }
{
    let image = open_image(host, alloc, named, form.saving)?;
    run_over(host, alloc, input, image, form, forms)
}

/// Opens the image in a file, which is held unless the image is never to be saved. A run over it may come later.
pub fn open_image<H: Host>(
    host: &mut H,
    alloc: Global,
    named: &ImageForm,
    saving: Saving,
) -> Result<Image, Ending>
    ensures { OpensFor saving named.now (H.history host.old) result (H.history host.new) }
{
    match saving {
        Saving::Never => read_image(host, alloc, named),
        Saving::AtEnd | Saving::Always => Image::open_for_script(host, alloc, named),
    }
}

/// The image in a file that is only read.
fn read_image<H: Host>(host: &mut H, alloc: Global, named: &ImageForm) -> Result<Image, Ending>
    ensures { OnlyReads named.now (H.history host.old) result (H.history host.new) }
{
    let file = look_file(host, alloc, named.file.as_str())?;
    judge_file(
        host,
        alloc,
        named.file.as_str(),
        named.layout,
        named.is_plain,
        &file,
    )?;
    let bytes = script_volume_in(host, alloc, file, named.layout, named.is_plain)?;
    let place = ImagePlace {
        path: String::new(alloc),
        is_held: false,
        name: String::new(alloc),
        why: HostFault::Failed,
    };
    Ok(Image {
        place,
        bytes,
        disk: None,
        parts: None,
        judgment: Judgment {
            layout: named.layout,
            is_plain: named.is_plain,
            kind: None,
        },
    })
}

/// Runs the script of a reader over the volume of an image that was opened for it, as `run_script` does.
pub fn run_over<H: Host, I: ByteReader>(
    host: &mut H,
    alloc: Global,
    input: &mut I,
    image: Image,
    form: RunForm,
    forms: Option<&'static str>,
) -> Result<(), Ending>
    ensures { RunsOver form (is_some forms.entry) image (reading I.remaining I.has_failed input.old input.new) (H.history host.old) result (H.history host.new) }
{
    let rooms = Rooms::new(alloc, &image.bytes)?;
    let session = session_over(host, alloc, &image.bytes, is_parted(&image))?;
    run_session(host, alloc, input, image, rooms, session, form, forms)
}

/// Room for what a run takes memory for.
#[derive(Drop)]
struct Rooms {
    spare: Vec<u8>,
    lines: Vec<u8>,
    ghost empty: { lines.items ≡ [] },
}

impl Rooms {
    /// Room for lines, and for another image as large as this one.
    fn new(alloc: Global, image: &[u8]) -> Result<Rooms, Ending>
        ensures { IsRoom result }
    {
        let spare = image.to_vec(alloc)?;
        let lines = Vec::with_capacity(alloc, ROOM)?;
        Ok(Rooms { spare, lines })
    }
}

/// A session over the volume of an image. Where it is refused, what may help is printed.
fn session_over<H: Host>(
    host: &mut H,
    alloc: Global,
    image: &[u8],
    is_parted: bool,
) -> Result<Session<MemoryVolume>, Ending>
    ensures { Answers (MountsSession is_parted image.now) (length image.now) (H.history host.old) result (H.history host.new) }
{
    match mounted_session(alloc, image) {
        Ok(session) => Ok(session),
        Err(fault) => Err(refuse_image(host, image.len(), fault_in(is_parted, fault))),
    }
}

/// Whether a volume has the whole file but for bytes that stand before or after it.
fn is_parted(image: &Image) -> bool
    ensures { result ≡ spec.is_parted image.now }
{
    image.parts.is_some() && !image.disk.is_some()
}

/// Why a file is refused whose volume is: by its length, where bytes stand before or after the volume, unless memory is wanted.
fn fault_in(is_parted: bool, fault: ArchiveFault) -> ArchiveFault
    ensures { result ≡ spec.fault_in is_parted fault }
{
    if !is_parted {
        return fault;
    }
    match fault {
        ArchiveFault::Image(_) | ArchiveFault::Directory(_) => {
            ArchiveFault::Image(ImageFault::NotWhole)
        }
        ArchiveFault::Refused(_) => fault,
    }
}

fn mounted_session(alloc: Global, image: &[u8]) -> Result<Session<MemoryVolume>, ArchiveFault>
    ensures { MountsSession false image.now result }
{
    let volume = volume_of(alloc, image)?;
    match Session::mount(alloc, volume) {
        Ok(session) => Ok(session),
        Err((_, DirFault::Memory)) => Err(ArchiveFault::Refused(SessionFault::Memory)),
        Err((_, fault)) => Err(ArchiveFault::Directory(fault)),
    }
}

/// Runs a script over a session, and ends with the image in the file, where it is to be there.
fn run_session<H: Host, I: ByteReader>(
    host: &mut H,
    alloc: Global,
    input: &mut I,
    image: Image,
    rooms: Rooms,
    session: Session<MemoryVolume>,
    form: RunForm,
    forms: Option<&'static str>,
) -> Result<(), Ending>
    requires { session.volume.stopped ≡ false }
    ensures { RunsSession form (is_some forms.entry) image session (reading I.remaining I.has_failed input.old input.new) (H.history host.old) result (H.history host.new) }
{
    let mut session = session;
    let mut input = CountedInput::new(input);
    let Rooms { spare, lines } = rooms;
    let progress = Progress::new(image, form.saving, forms.is_some(), lines);
    let mut run = Run::new(host, alloc, progress, spare, forms);
    let answer = session.run_watched(alloc, &mut input, &mut run);
    let store = session.into_store();
    let Run {
        host,
        alloc: _,
        progress,
        spare,
        forms: _,
        hint: _,
    } = run;
    let mut progress = progress;
    let mut spare = spare;
    tell_if_cut(host, &mut progress, input.is_too_long());
    save_last(host, alloc, &mut progress, &mut spare, &store);
    print_last(host, &mut progress);
    end_script(progress, form.is_strict, answer)
}

/// Prints a note where standard input has more bytes than are read.
fn tell_if_cut<H: Host>(host: &mut H, progress: &mut Progress, is_too_long: bool)
    requires { progress.old.is_cut ≡ false }
    ensures done { (start : ImageState) (old : List Event) (shown : List ShownAnswer)
        → HasDone start old shown progress.old (H.history host.old) → HasDone start old shown progress.new (H.history host.new) }
    ensures output { output_text (H.history host.new) ≡ output_text (H.history host.old) }
    ensures progress { progress.new ≡ record progress.old { is_cut = progress.new.is_cut } }
    ensures cut { progress.new.is_cut ≡ is_too_long }
{
    if is_too_long {
        tell_cut_input(host);
        progress.is_cut = true;
    }
}

/// Prints a note that standard input has more bytes than are read, for which no memory is taken.
fn tell_cut_input<H: Host>(host: &mut H)
    ensures { (ok : _) × (H.history host.new ≡ tell_call ok (name_text TooLong (codes "standard input")) ∷ H.history host.old) }
{
    let _ = host.tell("note: standard input: larger than 16777216 bytes\n");
}

/// Prints the lines that wait where a save ended the run. Standard output that took no more is not tried again.
fn print_last<H: Host>(host: &mut H, progress: &mut Progress)
    ensures done { (start : ImageState) (old : List Event) (shown : List ShownAnswer)
        → HasDone start old shown progress.old (H.history host.old) → HasDone start old shown progress.new (H.history host.new) }
    ensures image { progress.new.image ≡ progress.old.image }
    ensures saving { progress.new.saving ≡ progress.old.saving }
    ensures typed { progress.new.is_typed ≡ progress.old.is_typed }
    ensures save_ending { progress.new.save_ending ≡ progress.old.save_ending }
    ensures refused { progress.new.is_refused ≡ progress.old.is_refused }
    ensures cut { progress.new.is_cut ≡ progress.old.is_cut }
    ensures text { output_text (H.history host.new) ++ progress.new.lines.items
        ≡ output_text (H.history host.old) ++ progress.old.lines.items }
    ensures waiting { progress.new.fault ≡ None → progress.new.lines.items ≡ [] }
    ensures fault { progress.new.fault ≡ None → progress.old.fault ≡ None }
{
    if progress.fault.is_none() {
        let _ = print_waiting(host, progress);
    }
}

/// How a run ends that came so far, by what its session answered.
fn end_script(
    progress: Progress,
    is_strict: bool,
    answer: Result<(), SessionFault>,
) -> Result<(), Ending>
    ensures { EndsRun progress.saving is_strict progress.is_refused progress.save_ending progress.fault answer result }
{
    let Progress {
        image: _,
        saving,
        is_typed: _,
        lines: _,
        is_place_told: _,
        is_sync_told: _,
        is_cut: _,
        is_refused,
        save_ending,
        fault,
    } = progress;
    if let Some(ending) = save_ending {
        return Err(ending);
    }
    let is_fault = is_strict && is_refused;
    match answer {
        Ok(()) => {
            if is_fault {
                return Err(Ending::Failure);
            }
            Ok(())
        }
        Err(SessionFault::Writer) => Err(ending_after(!is_fault, ending_of_output(saving, fault))),
        Err(_) => Err(Ending::Failure),
    }
}

/// How a run ends whose output failed, by why its last print that failed did (this project's profile).
fn ending_of_output(saving: Saving, fault: Option<PrintFault>) -> Ending
    ensures { result ≡ spec.ending_of_output saving fault }
{
    match fault {
        Some(PrintFault::Abandoned) => Ending::NoReader,
        _ => full_ending(saving),
    }
}

/// How a run ends whose output takes no more. Its image is saved then, unless it is never to be.
fn full_ending(saving: Saving) -> Ending
    ensures { result ≡ spec.full_ending saving }
{
    match saving {
        Saving::Never => Ending::FullOutput,
        Saving::AtEnd | Saving::Always => Ending::Unreported,
    }
}
