//! A run at a terminal: the keys come from a reader, and a writer gets what is printed.

ghost use Rattle.std.specs.Prelude.{◌≡◌, ℕ, ◌+◌, ◌<◌, ◌≤◌, [], true, false, None, IfOk, OnOk, IfErr};
ghost use Rattle.cpu8.specs.Go.{after, answer, printing_step, character_of};
ghost use Rattle.cpu8.specs.declared.outcomes.Stepped.TheVariants.{Ran};
ghost use Rattle.terminal8.specs.Absences.{absence_at};
ghost use Rattle.terminal8.specs.Asks.{asks_for_key};
ghost use Rattle.terminal8.specs.Terminal.{visible_characters, stop_of};
ghost use Rattle.terminal8.specs.Run.{RunsProgram};
ghost use Rattle.terminal8.specs.Papers.{Passes};
ghost use Rattle.terminal8.specs.RunSteps.{RunsInto};
ghost use Rattle.terminal8.specs.declared.outcomes.TerminalFault.TheVariants as fault;

use crate::absences::Absences;
use crate::asking::{absence_at, steps_before_look};
use crate::inputs::Input;
use crate::keyboards::Form;
use crate::operators::Operator;
use crate::outcomes::{Ended, TerminalEnd, TerminalFault};
use crate::outputs::Output;
use crate::writing::Paper;
use byte_reader::ByteReader;
use cpu8::{Machine, Stepped};

/// Runs a machine, at most n steps of it, each an instruction or an interrupt, with a printer that ends its character
/// before the next step. A key is looked for only where the program asks for one, and is struck there. What is printed
/// goes to the writer without its top bit, and NUL is left out. Bytes are read some ahead: those that are not struck are
/// no part of the run. Before the reader is asked for bytes, what was printed so far is handed on, and the writer flushed.
///
/// It ends at a HLT, or where the machine stands stopped, or at an unassigned word. It ends where the keys have ended and the
/// machine waits for one for ever, or after n steps. Live keys never end: a look that finds none is made again where the
/// program next asks for one. The answer is `Reader` or `Writer` only where one of these has failed. `absences` gets
/// the IOTs of devices that aren't there, in place of what it had. It takes no memory.
pub fn run<R: ByteReader, O: Output>(
    machine: &mut Machine,
    n: u64,
    form: Form,
    input: Input,
    absences: &mut Absences,
    reader: &mut R,
    writer: &mut O,
) -> Result<Ended, TerminalFault>
    ensures runs { RunsProgram form input n machine.old machine.new
        (R.remaining reader.old) (R.remaining reader.new)
        (O.contents writer.old) (O.contents writer.new) absences.new result }
    ensures cause { IfErr result (λ e. e ≡ fault.Writer → O.has_failed writer.new) }
    ensures failed { IfErr result (λ e. e ≡ fault.Reader → R.has_failed reader.new) }
{
    let mut paper = Paper::new();
    *absences = Absences::new();
    let ran = run_steps(
        machine, n, form, input, &mut paper, absences, reader, writer,
    );
    match ran {
        Err(TerminalFault::Writer) => Err(TerminalFault::Writer),
        _ => {
            paper.flush(writer)?;
            ran
        }
    }
}

/// The same, but what was printed last may still be on the paper. Each round of the loop is one step, and then, for speed
/// alone, several at once: without `go_on` each step is a round.
fn run_steps<R: ByteReader, O: Output>(
    machine: &mut Machine,
    n: u64,
    form: Form,
    input: Input,
    paper: &mut Paper,
    absences: &mut Absences,
    reader: &mut R,
    writer: &mut O,
) -> Result<Ended, TerminalFault>
    requires paper { paper.old ≡ [] }
    requires absences { absences.old ≡ [] }
    ensures runs { RunsInto form input n machine.old machine.new (R.remaining reader.old) (R.remaining reader.new)
        (O.contents writer.old) (O.contents writer.new) paper.new absences.new result }
    ensures cause { IfErr result (λ e. e ≡ fault.Writer → O.has_failed writer.new) }
    ensures failed { IfErr result (λ e. e ≡ fault.Reader → R.has_failed reader.new) }
{
    if !machine.is_running() {
        return Ok(Ended {
            steps: 0,
            why: TerminalEnd::Halt,
        });
    }
    let mut operator = Operator::new(form, input);
    let mut made = 0;
    while made < n {
        if operator.attend(machine, paper, reader, writer)? {
            return Ok(Ended {
                steps: made,
                why: TerminalEnd::Keys,
            });
        }
        let absence = absence_at(machine);
        let did = step(machine, paper, writer)?;
        absences.add(absence);
        operator.since += 1;
        made += 1;
        if let Some(why) = stop_of(did) {
            return Ok(Ended { steps: made, why });
        }
        let more = go_on(machine, n - made, operator.since);
        operator.since += more;
        made += more;
    }
    Ok(Ended {
        steps: n,
        why: TerminalEnd::Limit,
    })
}

/// A step, before which the printer ends its character; and what it prints is put on paper.
#[inline(always)]
fn step<O: Output>(
    machine: &mut Machine,
    paper: &mut Paper,
    writer: &mut O,
) -> Result<Stepped, TerminalFault>
    ensures state { machine.new ≡ (printing_step true machine.old).0 }
    ensures ok { IfOk result (λ did. (did ≡ (printing_step true machine.old).1)
        × Passes (O.contents writer.old) (O.contents writer.new) paper.old paper.new
        (visible_characters (character_of did))) }
    ensures err { IfErr result (λ e. e ≡ fault.Writer) }
    ensures cause { IfErr result (λ _. O.has_failed writer.new) }
{
    let did = take_turn(machine);
    paper.print(writer, &did)?;
    Ok(did)
}

/// A step, before which the printer ends its character.
#[inline(always)]
fn take_turn(machine: &mut Machine) -> Stepped
    ensures state { machine.new ≡ (printing_step true machine.old).0 }
    ensures answer { result ≡ (printing_step true machine.old).1 }
{
    if machine.is_busy() {
        machine.end_character();
    }
    machine.step()
}

/// Makes up to n steps that print nothing, go on, and in which the program asks for no key and for no device that isn't there. So
/// many steps were made since it last asked for one. The answer is how many steps are made.
#[inline(always)]
fn go_on(machine: &mut Machine, n: u64, since: u64) -> u64
    ensures within { result ≤ n }
    ensures state { machine.new ≡ after true result machine.old }
    ensures answers { (m : ℕ) → m < result → answer true m machine.old ≡ Ran None }
    ensures asks { (m : ℕ) → m < result → asks_for_key (since + m) (after true m machine.old) ≡ false }
    ensures absences { (m : ℕ) → m < result → absence_at (after true m machine.old) ≡ None }
{
    let most = steps_before_look(since, machine, n);
    machine.run_unasked(most) as u64
}

/// Why a run ends after a step that did this, if it does. The step was a HLT, or the machine stood stopped, or the step met a
/// word that is unassigned.
pub fn stop_of(did: Stepped) -> Option<TerminalEnd>
    ensures { result ≡ stop_of did }
{
    match did {
        Stepped::Halted | Stepped::Stopped => Some(TerminalEnd::Halt),
        Stepped::Unassigned(_) => Some(TerminalEnd::Unassigned),
        _ => None,
    }
}
