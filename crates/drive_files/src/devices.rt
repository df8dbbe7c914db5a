//! The tape in the reader of an 8/E, its clock, and the files of its papers. These get what is punched, what is printed on the line printer, and
//! a line of each transfer of a disk.
ghost use Rattle.std.specs.Prelude.{◌≡◌};
ghost use Rattle.drive_files.specs.Devices as spec;
ghost use Rattle.drive_files.specs.Devices.{EmptiesPaper, HoldsPaper, MakesPaper, OpensDevices, OpensPaper, OpensPapers, ReadsTape, SavesPaper, SavesPapers, TakesPapers};

use crate::saving::earlier;
use hosts::{FaultClass, Held, Host, HostFault, Unwritten, hold_file};
use image_files::{look_file, make_file, tell_fault, write_file};
use outcome::{Content, Ending};
use pdp8e::{Machine, Paper, Papers};
use program_tasks::DeviceForm;
use refusals::SessionFault;
use std::alloc::Global;

/// Where the file of a paper is held, which gets it at the end of the run.
#[derive(Drop)]
pub struct PaperPlace {
    pub path: String,

    /// Its name, as it was given.
    pub name: String,
}

/// Where the files of punch, line printer and transfers are held, each if there is one.
#[derive(Drop)]
pub struct PaperPlaces {
    pub punch: Option<PaperPlace>,
    pub printer: Option<PaperPlace>,
    pub transfers: Option<PaperPlace>,
}

/// The frames of the tape in the reader, and where the files of the papers are held.
#[derive(Drop)]
pub struct OpenDevices {
    pub tape: Option<Vec<u8>>,
    pub papers: PaperPlaces,
}

/// Reads the tape of the reader, and makes or empties the files of the papers.
pub fn open_devices<H: Host>(
    host: &mut H,
    alloc: Global,
    form: &DeviceForm,
) -> Result<OpenDevices, Ending>
    ensures { OpensDevices form.now (H.history host.old) result (H.history host.new) }
{
    let tape = read_tape(host, alloc, &form.reader)?;
    let papers = open_papers(host, alloc, form)?;
    Ok(OpenDevices { tape, papers })
}

/// Reads the frames of the tape in the reader, if there is one.
fn read_tape<H: Host>(
    host: &mut H,
    alloc: Global,
    name: &Option<String>,
) -> Result<Option<Vec<u8>>, Ending>
    ensures { ReadsTape name.now (H.history host.old) result (H.history host.new) }
{
    match name {
        None => Ok(None),
        Some(name) => {
            let frames = look_file(host, alloc, name.as_str())?;
            Ok(Some(frames))
        }
    }
}

/// Makes or empties the files of the papers, and holds them.
fn open_papers<H: Host>(
    host: &mut H,
    alloc: Global,
    form: &DeviceForm,
) -> Result<PaperPlaces, Ending>
    ensures { OpensPapers form.now (H.history host.old) result (H.history host.new) }
{
    let punch = open_paper(host, alloc, &form.punch)?;
    let printer = open_paper(host, alloc, &form.printer)?;
    let transfers = open_paper(host, alloc, &form.transfers)?;
    Ok(PaperPlaces {
        punch,
        printer,
        transfers,
    })
}

/// Makes or empties the file of a paper, if there is one, and holds it.
fn open_paper<H: Host>(
    host: &mut H,
    alloc: Global,
    name: &Option<String>,
) -> Result<Option<PaperPlace>, Ending>
    ensures { OpensPaper name.now (H.history host.old) result (H.history host.new) }
{
    match name {
        None => Ok(None),
        Some(name) => {
            let place = empty_paper(host, alloc, name.as_str())?;
            Ok(Some(place))
        }
    }
}

/// Makes or empties the file of a paper, and holds it.
fn empty_paper<H: Host>(host: &mut H, alloc: Global, name: &str) -> Result<PaperPlace, Ending>
    ensures { EmptiesPaper name.now (H.history host.old) result (H.history host.new) }
{
    let shown = String::from_str(alloc, name)?;
    make_paper(host, alloc, name)?;
    let held = hold_paper(host, alloc, name)?;
    write_file(host, alloc, Content::Tape, held.path.as_str(), name, b"")?;
    Ok(PaperPlace {
        path: held.path,
        name: shown,
    })
}

/// Makes an empty file, where there is none of the name.
fn make_paper<H: Host>(host: &mut H, alloc: Global, name: &str) -> Result<(), Ending>
    ensures { MakesPaper name.now (H.history host.old) result (H.history host.new) }
{
    if host.is_there(name) {
        return Ok(());
    }
    make_file(host, alloc, Content::Tape, name, b"")
}

/// Holds the file of a paper. Why it can't be held is printed, unless memory is wanted.
fn hold_paper<H: Host>(host: &mut H, alloc: Global, name: &str) -> Result<Held, Ending>
    ensures { HoldsPaper name.now (H.history host.old) result (H.history host.new) }
{
    match hold_file(host, alloc, name) {
        Ok(held) => Ok(held),
        Err(fault) => {
            tell_fault(host, alloc, name, fault);
            Err(ending_of_paper(fault))
        }
    }
}

/// How a command ends if the file of a paper can't be held.
fn ending_of_paper(fault: HostFault) -> Ending
    ensures { result ≡ spec.ending_of_paper fault }
{
    match fault.class() {
        FaultClass::Busy => Ending::Busy(Content::Tape),
        FaultClass::Memory => Ending::Fault(SessionFault::Memory),
        FaultClass::Other => Ending::NotWritten(Content::Tape, Unwritten::AsItWas),
    }
}

/// Puts tape, paper and clock into a machine, each if there is one. The answer is where the files of the papers are held.
pub fn put_devices(machine: &mut Machine, form: &DeviceForm, devices: OpenDevices) -> PaperPlaces
    ensures machine { machine.new ≡ spec.with_devices machine.old form.now devices }
    ensures papers { result ≡ devices.papers }
{
    let OpenDevices { tape, papers } = devices;
    if let Some(frames) = tape {
        machine.put_tape(frames);
    }
    if form.printer.is_some() {
        machine.put_paper();
    }
    if let Some(period) = form.clock {
        machine.put_clock(period);
    }
    papers
}

/// Empty papers, each of which keeps what is put on it where a file gets it. Their memory is taken here.
pub fn take_papers(alloc: Global, form: &DeviceForm) -> Result<Papers, Ending>
    ensures { TakesPapers form.now result }
{
    let (punch, printer) = (form.punch.is_some(), form.printer.is_some());
    let papers = Papers::new(alloc, punch, printer, form.transfers.is_some())?;
    Ok(papers)
}

/// Has the files of punch, line printer and transfers hold what was put on paper. Where one can't be written the others are. The answer is why
/// the first was not.
pub fn save_papers<H: Host>(
    host: &mut H,
    alloc: Global,
    papers: &Papers,
    places: &PaperPlaces,
) -> Result<(), Ending>
    ensures { SavesPapers papers.now places.now (H.history host.old) result (H.history host.new) }
{
    let first = save_paper(host, alloc, &papers.punch, &places.punch);
    let second = save_paper(host, alloc, &papers.printer, &places.printer);
    let third = save_paper(host, alloc, &papers.transfers, &places.transfers);
    earlier(first, earlier(second, third))
}

/// Has the file of a paper hold what was put on it, if there is a file. Where there was no room for some of it, the file holds what was put on
/// it before.
fn save_paper<H: Host>(
    host: &mut H,
    alloc: Global,
    paper: &Paper,
    place: &Option<PaperPlace>,
) -> Result<(), Ending>
    ensures { SavesPaper paper.now place.now (H.history host.old) result (H.history host.new) }
{
    match place {
        None => Ok(()),
        Some(place) => {
            let (path, name) = (place.path.as_str(), place.name.as_str());
            let written = write_file(host, alloc, Content::Tape, path, name, paper.bytes());
            earlier(written, paper_end(paper.is_whole()))
        }
    }
}

/// How a command ends by a paper that is whole, or not.
fn paper_end(is_whole: bool) -> Result<(), Ending>
    ensures { result ≡ spec.paper_end is_whole }
{
    if is_whole {
        Ok(())
    } else {
        Err(Ending::Fault(SessionFault::Memory))
    }
}
