//! Who strikes the keys.

ghost use Rattle.std.specs.Prelude.{◌≡◌, false, [], IfOk, OnOk, IfErr};
ghost use Rattle.terminal8.specs.Keys.{fresh};
ghost use Rattle.terminal8.specs.Papers.{Holds};
ghost use Rattle.terminal8.specs.RunSteps.{Misses, is_ending};
ghost use Rattle.terminal8e.specs.AnySteps.{Attends, Looks};
ghost use Rattle.terminal8.specs.declared.outcomes.TerminalFault.TheVariants as fault;

use crate::machines::TerminalMachine;
use byte_reader::ByteReader;
use terminal8::{Form, Input, Keyboard, Output, Paper, ReadAhead, TerminalFault, next_key};

/// Who strikes the keys of a reader.
#[derive(Drop)]
pub(crate) struct Operator {
    pub(crate) keyboard: Keyboard,
    pub(crate) ahead: ReadAhead,
    pub(crate) input: Input,
    /// Whether the keys have ended.
    pub(crate) is_over: bool,
    /// How many steps were made since a key was last looked for.
    pub(crate) since: u64,
}

impl Operator {
    pub(crate) fn new(form: Form, input: Input) -> Operator
        ensures keyboard { result.keyboard ≡ fresh form }
        ensures ahead { result.ahead ≡ [] }
        ensures input { result.input ≡ input }
        ensures is_over { result.is_over ≡ false }
        ensures since { result.since ≡ 0 }
    {
        Operator {
            keyboard: Keyboard::new(form),
            ahead: ReadAhead::new(),
            input,
            is_over: false,
            since: 0,
        }
    }

    /// Looks for a key where the program asks for one. The answer is whether the keys have ended and the machine waits
    /// for one.
    #[inline(always)]
    pub(crate) fn attend<M: TerminalMachine, R: ByteReader, O: Output>(
        &mut self,
        machine: &mut M,
        paper: &mut Paper,
        reader: &mut R,
        writer: &mut O,
    ) -> Result<bool, TerminalFault>
        ensures ok { IfOk result (Attends M.acts self.old.input self.old.keyboard self.new.keyboard
            self.old.ahead self.new.ahead self.old.is_over self.new.is_over machine.old machine.new
            self.old.since self.new.since (R.remaining reader.old) (R.remaining reader.new)) }
        ensures paper { Holds (O.contents writer.old) (O.contents writer.new) paper.old paper.new result }
        ensures cause { IfErr result (λ e. e ≡ fault.Writer → O.has_failed writer.new) }
        ensures failed { IfErr result (λ e. e ≡ fault.Reader → R.has_failed reader.new) }
        ensures err { IfErr result
            (λ _. Misses self.old.keyboard self.new.keyboard self.old.ahead self.new.ahead
            self.old.is_over (R.remaining reader.old) (R.remaining reader.new)) }
        ensures input { self.new.input ≡ self.old.input }
        ensures same { IfErr result (λ _. machine.new ≡ machine.old) }
    {
        if !machine.asks_for_key(self.since) {
            return Ok(false);
        }
        self.look(machine, paper, reader, writer)?;
        Ok(self.is_over && machine.waits_for_key())
    }

    /// Looks for the reader's next key, and strikes it if there is one.
    fn look<M: TerminalMachine, R: ByteReader, O: Output>(
        &mut self,
        machine: &mut M,
        paper: &mut Paper,
        reader: &mut R,
        writer: &mut O,
    ) -> Result<(), TerminalFault>
        ensures ok { OnOk result (Looks M.acts self.old.input self.old.keyboard self.new.keyboard
            self.old.ahead self.new.ahead self.old.is_over self.new.is_over machine.old machine.new
            (R.remaining reader.old) (R.remaining reader.new)) }
        ensures paper { Holds (O.contents writer.old) (O.contents writer.new) paper.old paper.new result }
        ensures cause { IfErr result (λ e. e ≡ fault.Writer → O.has_failed writer.new) }
        ensures failed { IfErr result (λ e. e ≡ fault.Reader → R.has_failed reader.new) }
        ensures since { OnOk result (self.new.since ≡ 0) }
        ensures input { self.new.input ≡ self.old.input }
        ensures err { IfErr result
            (λ _. Misses self.old.keyboard self.new.keyboard self.old.ahead self.new.ahead
            self.old.is_over (R.remaining reader.old) (R.remaining reader.new)) }
        ensures same { IfErr result (λ _. machine.new ≡ machine.old) }
    {
        self.since = 0;
        if self.is_over {
            return Ok(());
        }
        match next_key(&mut self.keyboard, &mut self.ahead, paper, reader, writer)? {
            Some(key) => machine.strike_key(key),
            None => self.is_over = is_ending(self.input),
        }
        Ok(())
    }
}

/// Whether the keys end where a read gives no byte.
fn is_ending(input: Input) -> bool
    ensures { result ≡ is_ending input }
{
    match input {
        Input::Ending => true,
        Input::Live => false,
    }
}
