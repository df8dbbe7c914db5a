//! A run at a terminal that is made in parts.

ghost use Rattle.std.specs.Prelude.{◌≡◌, ◌≤◌, ℕ, [], true, false, Option, List, Ok, IfOk, IfErr};
ghost use Rattle.cpu8.specs.Go.{character_of};
ghost use Rattle.terminal8.specs.Absences.{with_absence_if};
ghost use Rattle.terminal8.specs.Keys.{fresh};
ghost use Rattle.terminal8.specs.Papers.{Passes};
ghost use Rattle.terminal8.specs.Terminal.{visible_characters};
ghost use Rattle.terminal8.specs.declared.outcomes.TerminalEnd.TheVariants as why;
ghost use Rattle.terminal8.specs.declared.outcomes.TerminalFault.TheVariants as fault;
ghost use Rattle.terminal8e.specs.AnyRun.{RunsProgram};
ghost use Rattle.terminal8e.specs.Parts.{ComesTo, HasCome, IsPause, IsWithin};
ghost use Rattle.terminal8e.specs.PartSteps.{ComesInto};

use crate::machines::TerminalMachine;
use crate::operators::Operator;
use byte_reader::ByteReader;
use cpu8::Stepped;
use terminal8::{Absences, Ended, Form, Input, Output, Paper, TerminalEnd, TerminalFault, stop_of};

/// A run at a terminal that is made in parts: who strikes its keys, how many steps are made, and what they found.
#[derive(Drop)]
pub struct Sitting {
    operator: Operator,
    steps: u64,
    /// The IOTs of devices that aren't there which these steps did.
    absences: Absences,
}

impl Sitting {
    /// A run of a machine of which no step is made. The machine must run.
    pub fn new<M: TerminalMachine>(_machine: &M, form: Form, input: Input) -> Sitting
        requires { M.acts.is_running _machine.now ≡ true }
        ensures begun { (reader writer : Option (List ℕ)) → HasCome M.acts form input _machine.now _machine.now result reader reader writer writer }
        ensures operator { result.operator ≡ record { keyboard = fresh form; ahead = []; input = input; is_over = false; since = 0 } }
        ensures steps { result.steps ≡ 0 }
        ensures absences { result.absences ≡ [] }
    {
        Sitting {
            operator: Operator::new(form, input),
            steps: 0,
            absences: Absences::new(),
        }
    }

    /// How many steps are made.
    pub fn steps(&self) -> u64
        ensures { result ≡ self.now.steps }
    {
        self.steps
    }

    /// The IOTs of devices that aren't there which its steps did: the first of each device, of eight devices at most.
    pub fn absences(&self) -> &Absences
        ensures { result.now ≡ self.now.absences }
    {
        &self.absences
    }

    /// The same, when it ends.
    pub fn into_absences(self) -> Absences
        ensures { result ≡ self.absences }
    {
        self.absences
    }

    /// Makes a further part of a run of at most n steps of a machine, as `run_machine` makes them all. The part ends where the run does, or
    /// after so many steps of its own, 1 up. Once so many steps of the run are made, it ends also where the program asks for a key, but not
    /// at its first step. The answer is none where the run goes on later. What was printed is with the writer then. It takes no memory.
    pub fn go_on<M: TerminalMachine, R: ByteReader, O: Output>(
        &mut self,
        machine: &mut M,
        n: u64,
        most: u64,
        soonest: u64,
        reader: &mut R,
        writer: &mut O,
    ) -> Result<Option<Ended>, TerminalFault>
        requires within { IsWithin n self.old }
        requires most { 1 ≤ most }
        ensures runs { (first : M) (form : Form) (before written : Option (List ℕ))
            → HasCome M.acts form self.old.operator.input first machine.old self.old before (R.remaining reader.old) written (O.contents writer.old)
            → ComesTo M.acts form self.old.operator.input n first machine.new self.new before (R.remaining reader.new) written (O.contents writer.new) result }
        ensures pause { IsPause n most soonest self.old self.new result }
        ensures input { self.new.operator.input ≡ self.old.operator.input }
        ensures cause { IfErr result (λ e. e ≡ fault.Writer → O.has_failed writer.new) }
        ensures failed { IfErr result (λ e. e ≡ fault.Reader → R.has_failed reader.new) }
    {
        let mut paper = Paper::new();
        let ran = self.make_steps(machine, n, most, soonest, &mut paper, reader, writer);
        match ran {
            Err(TerminalFault::Writer) => Err(TerminalFault::Writer),
            _ => {
                paper.flush(writer)?;
                ran
            }
        }
    }

    /// How far a run of a machine went that is broken off here, as its limit of steps does where it is met.
    pub fn end_at_break<M: TerminalMachine>(&self, _machine: &M) -> Ended
        ensures ended { result ≡ record { steps = self.now.steps; why = why.Limit } }
        ensures runs { (first : M) (form : Form) (before left written contents : Option (List ℕ))
            → HasCome M.acts form self.now.operator.input first _machine.now self.now before left written contents
            → RunsProgram M.acts form self.now.operator.input self.now.steps first _machine.now before left written contents self.now.absences (Ok result) }
    {
        Ended {
            steps: self.steps,
            why: TerminalEnd::Limit,
        }
    }

    /// Makes a part of a run, as `go_on` does. What was printed last may still be on the paper at its end. Each round of the loop is one
    /// step, and then, for speed alone, several at once: without `make_quick_steps` each step is a round.
    fn make_steps<M: TerminalMachine, R: ByteReader, O: Output>(
        &mut self,
        machine: &mut M,
        n: u64,
        most: u64,
        soonest: u64,
        paper: &mut Paper,
        reader: &mut R,
        writer: &mut O,
    ) -> Result<Option<Ended>, TerminalFault>
        requires within { IsWithin n self.old }
        requires most { 1 ≤ most }
        requires paper { paper.old ≡ [] }
        ensures runs { (first : M) (form : Form) (before written : Option (List ℕ))
            → HasCome M.acts form self.old.operator.input first machine.old self.old before (R.remaining reader.old) written (O.contents writer.old)
            → ComesInto M.acts form self.old.operator.input n first machine.new self.new before (R.remaining reader.new) written (O.contents writer.new) paper.new result }
        ensures pause { IsPause n most soonest self.old self.new result }
        ensures input { self.new.operator.input ≡ self.old.operator.input }
        ensures cause { IfErr result (λ e. e ≡ fault.Writer → O.has_failed writer.new) }
        ensures failed { IfErr result (λ e. e ≡ fault.Reader → R.has_failed reader.new) }
    {
        let begun = self.steps;
        let last = begun.saturating_add(most).min(n);
        while self.steps < last {
            if self.steps >= soonest
                && self.steps > begun
                && machine.asks_for_key(self.operator.since)
            {
                return Ok(None);
            }
            if self.operator.attend(machine, paper, reader, writer)? {
                return Ok(Some(Ended {
                    steps: self.steps,
                    why: TerminalEnd::Keys,
                }));
            }
            let did = step(machine, &mut self.absences, paper, writer)?;
            self.operator.since += 1;
            self.steps += 1;
            if let Some(why) = stop_of(did) {
                return Ok(Some(Ended {
                    steps: self.steps,
                    why,
                }));
            }
            let more = machine.make_quick_steps(self.operator.since, last - self.steps);
            self.operator.since += more;
            self.steps += more;
        }
        if self.steps < n {
            return Ok(None);
        }
        Ok(Some(Ended {
            steps: n,
            why: TerminalEnd::Limit,
        }))
    }
}

/// A step, before which the printer ends its character. What it prints is put on paper, and what it does is added, if it is an IOT of a
/// device that isn't there.
#[inline(always)]
fn step<M: TerminalMachine, O: Output>(
    machine: &mut M,
    absences: &mut Absences,
    paper: &mut Paper,
    writer: &mut O,
) -> Result<Stepped, TerminalFault>
    ensures state { machine.new ≡ (M.acts.printing_step machine.old).0 }
    ensures absences { absences.new ≡ with_absence_if (M.acts.absence_at machine.old) absences.old }
    ensures ok { IfOk result (λ did. (did ≡ (M.acts.printing_step machine.old).1)
        × Passes (O.contents writer.old) (O.contents writer.new) paper.old paper.new
        (visible_characters (character_of did))) }
    ensures err { IfErr result (λ e. e ≡ fault.Writer) }
    ensures cause { IfErr result (λ _. O.has_failed writer.new) }
{
    let (did, absence) = machine.make_step();
    absences.add(absence);
    paper.print(writer, &did)?;
    Ok(did)
}
