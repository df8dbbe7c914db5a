//! The 8/E with disks and devices: how its steps are printed and counted, and what the files of its disks and papers get.
ghost use Rattle.std.specs.Prelude.{◌≡◌, ◌+◌, ◌^◌, ◌<◌, Some, true, is_some, length, IfErr};
ghost use Rattle.word12.specs.declared.sizes.TheConstants.{CORE};
ghost use Rattle.tape_source.specs.Tags.{is_flagged};
ghost use Rattle.trace8e.specs.Papers.{GetTraced};
ghost use Rattle.trace8e.specs.Tracing.{Traces};
ghost use Rattle.trace8.specs.declared.faults.TraceFault.TheVariants as fault;
ghost use Rattle.hosts.specs.Streams.{output_text};
ghost use Rattle.host_output.specs.Printing.{HasPrinted};
ghost use Rattle.drive_files.specs.Mounting.{places_of};
ghost use Rattle.run_commands.specs.Drives8e as spec;
ghost use Rattle.run_commands.specs.Drives8e.{CountsSteps, OpensStation, PrintsIf, ProfilesDrives, ProfilesSaving, TracesDrives, TracesSaving, terminal_of};

use crate::core_programs::CoreProgram;
use crate::printing::{counts_text, end_trace};
use crate::runs::Run;
use drive_files::{
    OpenDrives, Places, disk_of, earlier, open_devices, open_drives, put_devices, save_drives,
    save_papers, take_papers,
};
use host_output::{Before, Printer};
use hosts::{Host, PrintFault};
use image_files::print;
use outcome::Ending;
use pdp8e::{Machine, Papers, Terminal};
use profile8::no_counts;
use program_tasks::{DeviceForm, DiskForm};
use std::alloc::Global;
use std::marker::Brand;
use terminal8::Ended;
use trace8::TraceFault;
use trace8e::{count_fetches, trace};

/// A machine with these disks that stands where a program starts, and where the files of the disks are held.
pub(crate) fn machine_of(
    form: &DiskForm,
    drives: OpenDrives,
    program: CoreProgram,
) -> (Machine, Places)
    ensures machine { result.0 ≡ spec.machine_of form.now drives program }
    ensures places { result.1 ≡ places_of drives }
{
    let CoreProgram {
        core,
        start,
        switches,
    } = program;
    let (disk, places) = disk_of(form, drives);
    let mut machine = Machine::new(core, disk);
    if let Some(word) = switches {
        machine.switches(word);
    }
    machine.start(start);
    (machine, places)
}

/// A machine that stands where a program starts, its papers, and where the files of these and of its disks are held.
#[derive(Drop)]
pub(crate) struct Station {
    pub(crate) machine: Machine,
    pub(crate) places: Places,
    pub(crate) papers: Papers,
}

/// Takes the memory of papers, opens the disks, and then the files of the devices.
fn open_station<H: Host>(
    host: &mut H,
    alloc: Global,
    form: &DiskForm,
    asked: &DeviceForm,
    program: CoreProgram,
) -> Result<Station, Ending>
    ensures { OpensStation form.now asked.now program (H.history host.old) result (H.history host.new) }
{
    let papers = take_papers(alloc, asked)?;
    let drives = open_drives(host, alloc, form)?;
    let devices = open_devices(host, alloc, asked)?;
    let (machine, places) = machine_of(form, drives, program);
    let mut machine = machine;
    let mut places = places;
    places.papers = put_devices(&mut machine, asked, devices);
    Ok(Station {
        machine,
        places,
        papers,
    })
}

/// Prints a line for each of at most so many steps, and how far they went. What is on the disks then is saved, and what was put on paper.
pub(crate) fn trace_8e<H: Host>(
    host: H,
    alloc: Global,
    form: &DiskForm,
    asked: &DeviceForm,
    run: Run,
    most: u64,
) -> (H, Result<(), Ending>)
    requires { length run.flags.items ≡ CORE }
    ensures { TracesDrives form.now asked.now most run (H.history host) result.1 (H.history result.0) }
{
    let Run {
        program,
        keys,
        flags,
    } = run;
    let mut host = host;
    match open_station(&mut host, alloc, form, asked, program) {
        Ok(station) => trace_station(host, alloc, station, &keys, &flags, most),
        Err(ending) => (host, Err(ending)),
    }
}

/// The same where the files are opened, with the flagged cells tagged.
fn trace_station<H: Host>(
    host: H,
    alloc: Global,
    station: Station,
    keys: &[u8],
    flags: &[bool],
    most: u64,
) -> (H, Result<(), Ending>)
    requires flags { length flags.now ≡ CORE }
    requires room { most < 2 ^ 64 }
    ensures { TracesSaving most station keys.now flags.now (H.history host) result.1 (H.history result.0) }
{
    let Station {
        machine,
        places,
        papers,
    } = station;
    let mut papers = papers;
    let mut terminal = Terminal::new(machine, keys);
    let (host, fault, done) = trace_onto::<H, Brand>(
        host,
        alloc,
        &mut terminal,
        most,
        flags,
        &mut papers,
    );
    let mut host = host;
    let mut machine = terminal.into_machine();
    let cell = machine.processor().next_cell();
    let mut places = places;
    let saved = save_drives(&mut host, alloc, &mut machine, &mut places);
    let filed = save_papers(&mut host, alloc, &papers, &places.papers);
    let ended = end_trace(&mut host, alloc, cell, fault, done);
    (host, earlier(saved, earlier(filed, ended)))
}

/// Prints a line for each step on standard output.
fn trace_onto<H: Host, B: Before>(
    host: H,
    alloc: Global,
    terminal: &mut Terminal<'_>,
    most: u64,
    flags: &[bool],
    papers: &mut Papers,
) -> (H, Option<PrintFault>, Result<Ended, TraceFault>)
    requires calls { H.history host ≡ B.calls }
    requires tags { length flags.now ≡ CORE }
    requires room { terminal.old.since + most < 2 ^ 64 }
    ensures traces { Traces (is_flagged flags.now) most terminal.old terminal.new
        (Some (output_text (H.history host))) (Some (output_text (H.history result.0))) result.2 }
    ensures prints { HasPrinted (H.history host) (H.history result.0) result.1 }
    ensures cause { IfErr result.2 (λ it. it ≡ fault.Writer → is_some result.1 ≡ true) }
    ensures papers { GetTraced terminal.old terminal.new papers.old papers.new result.2 }
{
    let mut printer: Printer<H, B> = Printer::new(host);
    let done = trace(alloc, terminal, most, flags, papers, &mut printer);
    let (host, fault) = printer.finish();
    (host, fault, done)
}

/// Prints the profile of at most so many steps of a program, with the line of their end. What is on the disks then is saved, and what was
/// put on paper.
pub(crate) fn profile_8e<H: Host>(
    host: &mut H,
    alloc: Global,
    form: &DiskForm,
    asked: &DeviceForm,
    run: Run,
    most: u64,
) -> Result<(), Ending>
    requires { length run.flags.items ≡ CORE }
    ensures { ProfilesDrives form.now asked.now most run (H.history host.old) result (H.history host.new) }
{
    let Run {
        program,
        keys,
        flags,
    } = run;
    let station = open_station(host, alloc, form, asked, program)?;
    profile_station(host, alloc, station, &keys, &flags, most)
}

/// The same where the files are opened.
fn profile_station<H: Host>(
    host: &mut H,
    alloc: Global,
    station: Station,
    keys: &[u8],
    flags: &[bool],
    most: u64,
) -> Result<(), Ending>
    requires flags { length flags.now ≡ CORE }
    requires room { most < 2 ^ 64 }
    ensures { ProfilesSaving most station keys.now flags.now (H.history host.old) result (H.history host.new) }
{
    let Station {
        machine,
        places,
        papers,
    } = station;
    let mut papers = papers;
    let mut terminal = Terminal::new(machine, keys);
    let text = count_steps(alloc, &mut terminal, flags, most, &mut papers);
    let mut machine = terminal.into_machine();
    let mut places = places;
    let saved = save_drives(host, alloc, &mut machine, &mut places);
    let filed = save_papers(host, alloc, &papers, &places.papers);
    let printed = print_if(host, text);
    earlier(saved, earlier(filed, printed))
}

/// The profile of at most so many steps of a terminal, for a tape that gives the flagged cells a word.
fn count_steps(
    alloc: Global,
    terminal: &mut Terminal<'_>,
    flags: &[bool],
    most: u64,
    papers: &mut Papers,
) -> Result<Vec<u8>, Ending>
    requires flags { length flags.now ≡ CORE }
    requires room { terminal.old.since + most < 2 ^ 64 }
    ensures { CountsSteps most terminal.old terminal.new papers.old papers.new flags.now result }
{
    let mut counts = no_counts(alloc)?;
    let ended = count_fetches(terminal, most, &mut counts, papers);
    let cell = terminal.machine().processor().next_cell();
    counts_text(alloc, &counts, flags, ended, cell)
}

/// Prints a text, if there is one.
fn print_if<H: Host>(host: &mut H, text: Result<Vec<u8>, Ending>) -> Result<(), Ending>
    ensures { PrintsIf text (H.history host.old) result (H.history host.new) }
{
    match text {
        Ok(text) => print(host, &text),
        Err(ending) => Err(ending),
    }
}
