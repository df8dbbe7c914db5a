//! The 8/E: how it runs a program at the Teletype.
ghost use Rattle.std.specs.Prelude.{◌≡◌, ◌-◌, ◌^◌, Some, true, is_some, unwrap_or, IfErr};
ghost use Rattle.byte_reader.specs.Readings.{reading};
ghost use Rattle.terminal8e.specs.Run.{RunsProgram};
ghost use Rattle.terminal8.specs.declared.outcomes.TerminalFault.TheVariants as terminal;
ghost use Rattle.hosts.specs.Streams.{output_text};
ghost use Rattle.host_output.specs.Printing.{HasPrinted};
ghost use Rattle.run_commands.specs.Machines8e as spec;
ghost use Rattle.run_commands.specs.Machines8e.{RunsTo};
ghost use Rattle.drive_files.specs.Inputs.{form_of, input_of};
ghost use Rattle.run_commands.specs.Printing.{PrintsRun};

use crate::core_programs::CoreProgram;
use crate::printing::{Stand, end_run};
use byte_reader::ByteReader;
use cpu8e::Machine;
use drive_files::{form_of, input_of};
use host_output::{Before, Printer};
use hosts::{Host, PrintFault};
use outcome::Ending;
use program_tasks::TeletypeForm;
use std::alloc::Global;
use std::marker::Brand;
use terminal8::{Absences, Ended, TerminalFault};
use terminal8e::run;

/// An 8/E that stands where a program starts.
fn machine_of(program: CoreProgram) -> Machine
    ensures { result ≡ spec.machine_of program }
{
    let CoreProgram {
        core,
        start,
        switches,
    } = program;
    let mut machine = Machine::new(core);
    if let Some(word) = switches {
        machine.switches(word);
    }
    machine.start(start);
    machine
}

/// Where an 8/E stands.
pub(crate) fn stand_of(machine: &Machine) -> Stand
    ensures { result ≡ spec.stand_of machine.now }
{
    let cell = machine.next_cell();
    Stand {
        cell,
        word: machine.core().get(cell),
        ac: machine.ac(),
        l: machine.l(),
        mq: Some(machine.mq()),
    }
}

/// Runs a program at the Teletype of a machine without disks, and prints the line of its end.
pub(crate) fn run_plain<H: Host, I: ByteReader>(
    host: H,
    alloc: Global,
    keys: &mut I,
    form: &TeletypeForm,
    program: CoreProgram,
) -> (H, Result<(), Ending>)
    ensures { PrintsRun (RunsTo form.now program (reading I.remaining I.has_failed keys.old keys.new))
        (reading I.remaining I.has_failed keys.old keys.new) (H.history host) result.1 (H.history result.0) }
{
    let mut machine = machine_of(program);
    let mut absences = Absences::new();
    let (host, fault, done) = run_onto::<H, I, Brand>(
        host,
        keys,
        form,
        &mut machine,
        &mut absences,
    );
    let mut host = host;
    let work = end_run(&mut host, alloc, stand_of(&machine), &absences, fault, done);
    (host, work)
}

/// Runs a machine, whose paper is standard output.
fn run_onto<H: Host, I: ByteReader, B: Before>(
    host: H,
    keys: &mut I,
    form: &TeletypeForm,
    machine: &mut Machine,
    absences: &mut Absences,
) -> (H, Option<PrintFault>, Result<Ended, TerminalFault>)
    requires { H.history host ≡ B.calls }
    ensures runs { RunsProgram (form_of form.now.console.is_raw) (input_of form.now.console.is_live) (unwrap_or form.now.console.steps (2 ^ 64 - 1))
        machine.old machine.new (I.remaining keys.old) (I.remaining keys.new)
        (Some (output_text (H.history host))) (Some (output_text (H.history result.0))) absences.new result.2 }
    ensures prints { HasPrinted (H.history host) (H.history result.0) result.1 }
    ensures cause { IfErr result.2 (λ it. it ≡ terminal.Writer → is_some result.1 ≡ true) }
    ensures failed { IfErr result.2 (λ it. it ≡ terminal.Reader → I.has_failed keys.new) }
{
    let steps = form.console.steps.unwrap_or(u64::MAX);
    let mut printer: Printer<H, B> = Printer::new(host);
    let done = run(
        machine,
        steps,
        form_of(form.console.is_raw),
        input_of(form.console.is_live),
        absences,
        keys,
        &mut printer,
    );
    let (host, fault) = printer.finish();
    (host, fault, done)
}
