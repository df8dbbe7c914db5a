//! The 8/I: how it runs a program at the Teletype, and how its steps are printed and counted.
ghost use Rattle.std.specs.Prelude.{◌≡◌, ◌+◌, ◌-◌, ◌^◌, ◌<◌, Some, true, is_some, length, unwrap_or, IfErr};
ghost use Rattle.word12.specs.declared.sizes.TheConstants.{CORE};
ghost use Rattle.byte_reader.specs.Readings.{reading};
ghost use Rattle.tape_source.specs.Tags.{is_flagged};
ghost use Rattle.terminal8.specs.Run.{RunsProgram};
ghost use Rattle.terminal8.specs.declared.outcomes.TerminalFault.TheVariants as terminal;
ghost use Rattle.trace8.specs.Tracing.{Traces};
ghost use Rattle.trace8.specs.declared.faults.TraceFault.TheVariants as fault;
ghost use Rattle.hosts.specs.Streams.{output_text};
ghost use Rattle.host_output.specs.Printing.{HasPrinted};
ghost use Rattle.run_commands.specs.Machines8i as spec;
ghost use Rattle.run_commands.specs.Machines8i.{CountsTo, RunsTo, TracesTo, terminal_of};
ghost use Rattle.drive_files.specs.Inputs.{form_of, input_of};
ghost use Rattle.run_commands.specs.Printing.{GivesProfile, PrintsRun, PrintsTrace};

use crate::core_programs::CoreProgram;
use crate::printing::{Stand, counts_text, end_run, end_trace};
use crate::runs::Run;
use byte_reader::ByteReader;
use cpu8::Machine;
use drive_files::{form_of, input_of};
use host_output::{Before, Printer};
use hosts::{Host, PrintFault};
use outcome::Ending;
use profile8::{count_fetches, no_counts};
use program_tasks::TeletypeForm;
use std::alloc::Global;
use std::marker::Brand;
use terminal8::{Absences, Ended, Terminal, TerminalFault, run};
use trace8::{TraceFault, trace};

/// An 8/I that stands where a program starts.
fn machine_of(program: CoreProgram) -> Machine
    ensures { result ≡ spec.machine_of program }
{
    let CoreProgram {
        core,
        start,
        switches,
    } = program;
    let mut machine = Machine::new(core);
    if let Some(word) = switches {
        machine.switches(word);
    }
    machine.start(start);
    machine
}

/// Where an 8/I stands.
fn stand_of(machine: &Machine) -> Stand
    ensures { result ≡ spec.stand_of machine.now }
{
    let cell = machine.next_cell();
    Stand {
        cell,
        word: machine.core().get(cell),
        ac: machine.ac(),
        l: machine.l(),
        mq: None,
    }
}

/// Runs a program at the Teletype, and prints the line of its end.
pub(crate) fn run_8i<H: Host, I: ByteReader>(
    host: H,
    alloc: Global,
    keys: &mut I,
    form: &TeletypeForm,
    program: CoreProgram,
) -> (H, Result<(), Ending>)
    ensures { PrintsRun (RunsTo form.now program (reading I.remaining I.has_failed keys.old keys.new))
        (reading I.remaining I.has_failed keys.old keys.new) (H.history host) result.1 (H.history result.0) }
{
    let mut machine = machine_of(program);
    let mut absences = Absences::new();
    let (host, fault, done) = run_onto::<H, I, Brand>(
        host,
        keys,
        form,
        &mut machine,
        &mut absences,
    );
    let mut host = host;
    let work = end_run(&mut host, alloc, stand_of(&machine), &absences, fault, done);
    (host, work)
}

/// Runs a machine, whose paper is standard output.
fn run_onto<H: Host, I: ByteReader, B: Before>(
    host: H,
    keys: &mut I,
    form: &TeletypeForm,
    machine: &mut Machine,
    absences: &mut Absences,
) -> (H, Option<PrintFault>, Result<Ended, TerminalFault>)
    requires { H.history host ≡ B.calls }
    ensures runs { RunsProgram (form_of form.now.console.is_raw) (input_of form.now.console.is_live) (unwrap_or form.now.console.steps (2 ^ 64 - 1))
        machine.old machine.new (I.remaining keys.old) (I.remaining keys.new)
        (Some (output_text (H.history host))) (Some (output_text (H.history result.0))) absences.new result.2 }
    ensures prints { HasPrinted (H.history host) (H.history result.0) result.1 }
    ensures cause { IfErr result.2 (λ it. it ≡ terminal.Writer → is_some result.1 ≡ true) }
    ensures failed { IfErr result.2 (λ it. it ≡ terminal.Reader → I.has_failed keys.new) }
{
    let steps = form.console.steps.unwrap_or(u64::MAX);
    let mut printer: Printer<H, B> = Printer::new(host);
    let done = run(
        machine,
        steps,
        form_of(form.console.is_raw),
        input_of(form.console.is_live),
        absences,
        keys,
        &mut printer,
    );
    let (host, fault) = printer.finish();
    (host, fault, done)
}

/// Prints a line for each of at most so many steps, and how far they went.
pub(crate) fn trace_8i<H: Host>(
    host: H,
    alloc: Global,
    run: Run,
    most: u64,
) -> (H, Result<(), Ending>)
    requires { length run.flags.items ≡ CORE }
    ensures { PrintsTrace (TracesTo most (terminal_of run) run.flags.items) (H.history host) result.1 (H.history result.0) }
{
    let Run {
        program,
        keys,
        flags,
    } = run;
    let mut terminal = Terminal::new(machine_of(program), &keys);
    trace_steps(host, alloc, &mut terminal, &flags, most)
}

/// The same of a terminal, with the flagged cells tagged.
fn trace_steps<H: Host>(
    host: H,
    alloc: Global,
    terminal: &mut Terminal<'_>,
    flags: &[bool],
    most: u64,
) -> (H, Result<(), Ending>)
    requires flags { length flags.now ≡ CORE }
    requires room { terminal.old.since + most < 2 ^ 64 }
    ensures { PrintsTrace (TracesTo most terminal.old flags.now) (H.history host) result.1 (H.history result.0) }
{
    let (host, fault, done) = trace_onto::<H, Brand>(host, alloc, terminal, most, flags);
    let mut host = host;
    let cell = terminal.machine().next_cell();
    let work = end_trace(&mut host, alloc, cell, fault, done);
    (host, work)
}

/// Prints a line for each step on standard output.
fn trace_onto<H: Host, B: Before>(
    host: H,
    alloc: Global,
    terminal: &mut Terminal<'_>,
    most: u64,
    flags: &[bool],
) -> (H, Option<PrintFault>, Result<Ended, TraceFault>)
    requires calls { H.history host ≡ B.calls }
    requires tags { length flags.now ≡ CORE }
    requires room { terminal.old.since + most < 2 ^ 64 }
    ensures traces { Traces (is_flagged flags.now) most terminal.old terminal.new
        (Some (output_text (H.history host))) (Some (output_text (H.history result.0))) result.2 }
    ensures prints { HasPrinted (H.history host) (H.history result.0) result.1 }
    ensures cause { IfErr result.2 (λ it. it ≡ fault.Writer → is_some result.1 ≡ true) }
{
    let mut printer: Printer<H, B> = Printer::new(host);
    let done = trace(alloc, terminal, most, flags, &mut printer);
    let (host, fault) = printer.finish();
    (host, fault, done)
}

/// The profile of at most so many steps of a program, with the line of their end.
pub(crate) fn profile_8i(alloc: Global, run: Run, most: u64) -> Result<Vec<u8>, Ending>
    requires { length run.flags.items ≡ CORE }
    ensures { GivesProfile (CountsTo most (terminal_of run)) run.flags.items result }
{
    let Run {
        program,
        keys,
        flags,
    } = run;
    let mut terminal = Terminal::new(machine_of(program), &keys);
    count_steps(alloc, &mut terminal, &flags, most)
}

/// The same of a terminal, for a tape that gives the flagged cells a word.
fn count_steps(
    alloc: Global,
    terminal: &mut Terminal<'_>,
    flags: &[bool],
    most: u64,
) -> Result<Vec<u8>, Ending>
    requires flags { length flags.now ≡ CORE }
    requires room { terminal.old.since + most < 2 ^ 64 }
    ensures { GivesProfile (CountsTo most terminal.old) flags.now result }
{
    let mut counts = no_counts(alloc)?;
    let ended = count_fetches(terminal, most, &mut counts);
    let cell = terminal.machine().next_cell();
    counts_text(alloc, &counts, flags, ended, cell)
}
