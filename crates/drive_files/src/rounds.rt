//! The run of a machine with disks at the console, in rounds. Between two of them disks and papers are saved, and an end may be asked for.
ghost use Rattle.std.specs.Prelude.{◌≡◌, ℕ, None, Some, true, is_some, Ok, Option, List, IfErr};
ghost use Rattle.byte_reader.specs.Readings.{reading};
ghost use Rattle.terminal8e.specs.AnyRun.{RunsProgram};
ghost use Rattle.terminal8e.specs.Parts.{ComesTo, HasCome, IsPause, IsWithin};
ghost use Rattle.terminal8.specs.declared.keyboards.Form.{Form};
ghost use Rattle.terminal8.specs.declared.outcomes.TerminalFault.TheVariants as terminal;
ghost use Rattle.hosts.specs.Streams.{output_text};
ghost use Rattle.host_output.specs.Printing.{HasPrinted};
ghost use Rattle.drive_files.specs.Rounds.{AsksForEnd, DoesBetween, FilesIfGrown, RunsRounds, SavesIfDue, last_after};
ghost use Rattle.drive_files.specs.Saving.{SavesDrives};
ghost use Rattle.drive_files.specs.Rounds as spec;
ghost use Rattle.drive_files.specs.Consoles.{console_acts};

use crate::consoles::Console;
use crate::devices::save_papers;
use crate::inputs::{form_of, input_of};
use crate::mounting::Places;
use crate::saving::save_drives;
use byte_reader::ByteReader;
use host_output::{Before, Printer};
use hosts::{Host, PrintFault};
use outcome::Ending;
use program_tasks::{ConsoleForm, DeviceForm};
use std::alloc::Global;
use std::marker::Brand;
use terminal8::{Absences, Ended, TerminalFault};
use terminal8e::Sitting;

/// The most steps of a round, so that an end that is asked for is soon seen.
const ROUND: u64 = 1_048_576;

/// How a run at the console went.
#[derive(Drop)]
pub struct Ran {
    /// Why the last print failed, if it did.
    pub fault: Option<PrintFault>,
    pub answer: Result<Ended, TerminalFault>,

    /// The IOTs of devices that aren't there which it did: the first of each device, of eight devices at most.
    pub absences: Absences,

    /// What could not be saved in the run, which then ended there.
    pub save: Result<(), Unsaved>,
}

/// What could not be saved, and how the command ends by that.
#[derive(Drop)]
pub enum Unsaved {
    Disk(Ending),

    /// What was punched, or printed on the line printer.
    Paper(Ending),
}

/// When the disks were last saved, and how much of the papers was.
#[derive(Clone, Copy)]
pub(crate) struct LastSave {
    /// The steps that were made by then.
    pub(crate) steps: u64,

    /// The transfers of the disk that had ended when a save was last tried.
    pub(crate) transfers: u64,

    /// How many bytes were on the papers when they were last saved.
    pub(crate) bytes: usize,
}

/// Runs a machine, whose paper is standard output. Disks that were written are saved while its program waits for a key, once so many
/// instructions were made since the last save as the form says. The files of the papers get what was put on paper before a key is waited for.
/// Where a save fails, or an end is asked for, the run is broken off.
pub fn run_rounds<H: Host, I: ByteReader>(
    host: H,
    alloc: Global,
    keys: &mut I,
    form: &ConsoleForm,
    console: &mut Console,
    places: &mut Places,
) -> (H, Ran)
    requires { console_acts.is_running console.old ≡ true }
    ensures { RunsRounds form.now console.old console.new places.old places.new (reading I.remaining I.has_failed keys.old keys.new)
        (H.history host) result.1 (H.history result.0) }
{
    let most = form.steps.unwrap_or(u64::MAX);
    let mut sitting = Sitting::new(&*console, form_of(form.is_raw), input_of(form.is_live));
    let mut last = LastSave {
        steps: 0,
        transfers: 0,
        bytes: 0,
    };
    let mut host = host;
    loop {
        let soonest = soonest_pause(form, last.steps);
        let (given, fault, part) = make_round::<H, I, Brand>(
            host,
            keys,
            most,
            soonest,
            console,
            &mut sitting,
        );
        host = given;
        match part {
            Ok(None) => {
                if fault.is_some() {
                    return (host, break_run(sitting, console, fault, Ok(())));
                }
            }
            Ok(Some(ended)) => return (host, end_in_round(sitting, fault, Ok(ended))),
            Err(why) => return (host, end_in_round(sitting, fault, Err(why))),
        }
        let steps = sitting.steps();
        match pause(&mut host, alloc, form, steps, console, places, &mut last) {
            Ok(false) => {}
            Ok(true) => return (host, break_run(sitting, console, None, Ok(()))),
            Err(unsaved) => return (host, break_run(sitting, console, None, Err(unsaved))),
        }
    }
}

/// How a run went that came to its end in a round.
fn end_in_round(
    sitting: Sitting,
    fault: Option<PrintFault>,
    answer: Result<Ended, TerminalFault>,
) -> Ran
    ensures fault { result.fault ≡ fault }
    ensures answer { result.answer ≡ answer }
    ensures absences { result.absences ≡ sitting.absences }
    ensures save { result.save ≡ Ok tt }
{
    Ran {
        fault,
        answer,
        absences: sitting.into_absences(),
        save: Ok(()),
    }
}

/// How a run went that is broken off, whether a print failed, and how the save before that went.
fn break_run(
    sitting: Sitting,
    console: &Console,
    fault: Option<PrintFault>,
    save: Result<(), Unsaved>,
) -> Ran
    ensures runs { (first : Console) (keyed : Form) (before left written contents : Option (List ℕ))
        → HasCome console_acts keyed sitting.operator.input first console.now sitting before left written contents
        → RunsProgram console_acts keyed sitting.operator.input sitting.steps first console.now before left written contents result.absences result.answer }
    ensures ended { IfErr result.answer (λ _. ⊥) }
    ensures fault { result.fault ≡ fault }
    ensures save { result.save ≡ save }
{
    let ended = sitting.end_at_break(console);
    Ran {
        fault,
        answer: Ok(ended),
        absences: sitting.into_absences(),
        save,
    }
}

/// After how many steps the next look for a key ends a round. It is at once where an end may be asked for, since no key may come for long, and
/// where a file gets what is put on paper. Else it is where a save may be due, or never.
fn soonest_pause(form: &ConsoleForm, saved: u64) -> u64 {
    if form.ends_with.is_some() || has_papers(&form.devices) {
        return 0;
    }
    if form.every == 0 || form.disk.is_look {
        return u64::MAX;
    }
    saved.saturating_add(u64::from(form.every))
}

/// Whether a file gets what is put on a paper.
fn has_papers(form: &DeviceForm) -> bool {
    form.punch.is_some() || (form.printer.is_some() || form.transfers.is_some())
}

/// Makes a round.
fn make_round<H: Host, I: ByteReader, B: Before>(
    host: H,
    keys: &mut I,
    most: u64,
    soonest: u64,
    console: &mut Console,
    sitting: &mut Sitting,
) -> (H, Option<PrintFault>, Result<Option<Ended>, TerminalFault>)
    requires calls { H.history host ≡ B.calls }
    requires within { IsWithin most sitting.old }
    ensures runs { (first : Console) (keyed : Form) (before written : Option (List ℕ))
        → HasCome console_acts keyed sitting.old.operator.input first console.old sitting.old before (I.remaining keys.old) written (Some (output_text (H.history host)))
        → ComesTo console_acts keyed sitting.old.operator.input most first console.new sitting.new before (I.remaining keys.new) written (Some (output_text (H.history result.0))) result.2 }
    ensures pause { IsPause most 1048576 soonest sitting.old sitting.new result.2 }
    ensures input { sitting.new.operator.input ≡ sitting.old.operator.input }
    ensures prints { HasPrinted (H.history host) (H.history result.0) result.1 }
    ensures cause { IfErr result.2 (λ it. it ≡ terminal.Writer → is_some result.1 ≡ true) }
    ensures failed { IfErr result.2 (λ it. it ≡ terminal.Reader → I.has_failed keys.new) }
{
    let mut printer: Printer<H, B> = Printer::new(host);
    let part = sitting.go_on(console, most, ROUND, soonest, keys, &mut printer);
    let (host, fault) = printer.finish();
    (host, fault, part)
}

/// What is done between two rounds. The disks are saved where that is due, and the papers where they have grown. Then it is asked whether the run
/// is to end.
fn pause<H: Host>(
    host: &mut H,
    alloc: Global,
    form: &ConsoleForm,
    steps: u64,
    console: &mut Console,
    places: &mut Places,
    last: &mut LastSave,
) -> Result<bool, Unsaved>
    ensures does { DoesBetween form.now steps console.old (places.old, last.old) (places.new, last.new) (H.history host.old) result (H.history host.new) }
    ensures console { console.new ≡ console.old }
{
    match save_if_due(host, alloc, form, steps, console, places, last) {
        Ok(()) => match file_if_grown(host, alloc, console, places, last) {
            Ok(()) => Ok(asks_for_end(host, &form.ends_with)),
            Err(ending) => Err(Unsaved::Paper(ending)),
        },
        Err(ending) => Err(Unsaved::Disk(ending)),
    }
}

/// Saves the disks where that is due after so many steps.
fn save_if_due<H: Host>(
    host: &mut H,
    alloc: Global,
    form: &ConsoleForm,
    steps: u64,
    console: &mut Console,
    places: &mut Places,
    last: &mut LastSave,
) -> Result<(), Ending>
    ensures saves { SavesIfDue form.now steps console.old (places.old, last.old) (places.new, last.new) (H.history host.old) result (H.history host.new) }
    ensures console { console.new ≡ console.old }
{
    if !is_due(form, steps, console, last) {
        return Ok(());
    }
    save_there(host, alloc, steps, console, places, last)
}

/// Has the files of the papers hold what was put on paper, where that is more than they hold, and the program waits for a key.
fn file_if_grown<H: Host>(
    host: &mut H,
    alloc: Global,
    console: &Console,
    places: &Places,
    last: &mut LastSave,
) -> Result<(), Ending>
    ensures { FilesIfGrown console.now places.now last.old last.new (H.history host.old) result (H.history host.new) }
{
    if !is_grown(console, last) {
        return Ok(());
    }
    match save_papers(host, alloc, &console.papers, &places.papers) {
        Ok(()) => {
            *last = LastSave {
                steps: last.steps,
                transfers: last.transfers,
                bytes: console.papers.len(),
            };
            Ok(())
        }
        Err(ending) => Err(ending),
    }
}

/// Whether the program waits for a key, and more bytes are on the papers than were saved.
fn is_grown(console: &Console, last: &LastSave) -> bool
    ensures { result ≡ spec.is_grown console.now last.now }
{
    console.papers.len() != last.bytes && console.is_waiting()
}

/// Saves the disks after so many steps. It counts as the last save where a file was written, and as the last one that was tried where none failed.
fn save_there<H: Host>(
    host: &mut H,
    alloc: Global,
    steps: u64,
    console: &mut Console,
    places: &mut Places,
    last: &mut LastSave,
) -> Result<(), Ending>
    ensures saves { SavesDrives console.old.machine.disk places.old places.new (H.history host.old) result (H.history host.new) }
    ensures last { last.new ≡ last_after result steps console.old places.new (places.old, last.old) }
    ensures console { console.new ≡ console.old }
{
    let saves = places.saves;
    match save_drives(host, alloc, &mut console.machine, places) {
        Ok(()) => {
            *last = LastSave {
                steps: if places.saves == saves {
                    last.steps
                } else {
                    steps
                },
                transfers: console.transfers,
                bytes: last.bytes,
            };
            Ok(())
        }
        Err(ending) => Err(ending),
    }
}

/// Whether a save is due: the program waits for a key, so many instructions were made since the last one, and disks may have changed.
fn is_due(form: &ConsoleForm, steps: u64, console: &Console, last: &LastSave) -> bool
    ensures { result ≡ spec.is_due form.now steps console.now last.now }
{
    form.every > 0
        && steps.saturating_sub(last.steps) >= u64::from(form.every)
        && console.transfers != last.transfers
        && console.is_at_wait()
}

/// Whether there is a file of this name, if one is given.
fn asks_for_end<H: Host>(host: &mut H, name: &Option<String>) -> bool
    ensures { AsksForEnd name.now (H.history host.old) result (H.history host.new) }
{
    match name {
        None => false,
        Some(name) => host.is_there(name.as_str()),
    }
}
