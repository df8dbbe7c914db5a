//! The operator's console.
ghost use Rattle.std.specs.Prelude.{◌≡◌, ◌≤◌, [], true, false, IfOk};
ghost use Rattle.word12.specs.declared.sizes.TheConstants.{CORE};
ghost use Rattle.core_load.specs.Core.{zeros};
ghost use Rattle.cpu8.specs.State.{new_machine, next_cell};
ghost use Rattle.debug8.specs.Breaks.{no_breaks};
ghost use Rattle.volume_jobs.specs.Calls.{TakesTurn};
ghost use Rattle.volume_jobs.specs.Settled.{IsSettled};
ghost use Rattle.system_session.specs.Work.{with_core};
ghost use Rattle.system_session.specs.Console.{ConsoleReplies, why_of};
ghost use Rattle.system_session.specs.ConsoleSteps.{ConsoleDoes};
ghost use Rattle.script8.specs.declared.entries.ConsoleEntry.TheVariants as entry;
ghost use Rattle.script8.specs.declared.replies.Reply.TheVariants.{Line};
ghost use Rattle.script8.specs.declared.replies.LineReply.TheVariants as line;

use core_load::Core;
use cpu8::{Gone, Machine};
use debug8::{DebugFault, Debugger};
use os8_files::FileService;
use script8::{Bytes, ConsoleEntry, LineReply, Reply, Report, StepEnd};
use std::alloc::Global;
use std::marker::Model;
use volume_image::BlockStore;
use volume_jobs::{JobFault, Jobs, Turned};
use word12::{Cell, Word};

/// The processor with its core and Teletype, the breaks, and what was printed.
#[derive(Drop)]
pub(crate) struct Console {
    machine: Machine,
    debugger: Debugger,
    printed: Vec<u8>,
}

impl Model for Console {
    ghost use Rattle.system_session.specs.State as spec;

    ghost Value = { spec.Console };

    ghost view = { λ c. record { machine = c.machine; breaks = c.debugger; printed = c.printed.items } };
}

impl Console {
    /// A console with a stopped processor whose core is 0, no breaks, and nothing printed.
    pub(crate) fn new(alloc: Global) -> Result<Console, DebugFault>
        ensures { IfOk result (λ c. c
            ≡ record { machine = new_machine (zeros CORE); breaks = no_breaks CORE; printed = [] }) }
    {
        let Ok(core) = Core::new(alloc) else {
            return Err(DebugFault::Memory);
        };
        let debugger = Debugger::new(alloc)?;
        Ok(Console {
            machine: Machine::new(core),
            debugger,
            printed: Vec::new(alloc),
        })
    }

    /// Does an entry of the console (Small Computer Handbook).
    pub(crate) fn enter(&mut self, alloc: Global, entry: &ConsoleEntry) -> Result<Reply, DebugFault>
        ensures { ConsoleDoes entry.now self.old result self.new }
    {
        match entry {
            ConsoleEntry::Start(cell) => Ok(self.start(*cell)),
            ConsoleEntry::Step(steps) => self.step(*steps),
            ConsoleEntry::Go(steps) => self.go(*steps),
            ConsoleEntry::Run { cell, steps } => self.run(*cell, *steps),
            ConsoleEntry::Key(character) => Ok(self.key(*character)),
            ConsoleEntry::Done => Ok(self.done_reply()),
            ConsoleEntry::Switches(word) => Ok(self.switches(*word)),
            ConsoleEntry::Examine(cell) => Ok(self.examine(*cell)),
            ConsoleEntry::Deposit { cell, word } => Ok(self.deposit(*cell, *word)),
            ConsoleEntry::Break { cell, is_on: true } => self.set_break(*cell),
            ConsoleEntry::Break { cell, is_on: false } => Ok(self.clear_break(*cell)),
            ConsoleEntry::Registers => self.registers(alloc),
            ConsoleEntry::Printed => self.printed_reply(alloc),
        }
    }

    /// Lets the job of a number take a turn over core, whose words alone it may change.
    pub(crate) fn turn<S: BlockStore>(
        &mut self,
        alloc: Global,
        jobs: &mut Jobs,
        files: &mut FileService<S>,
        number: u32,
    ) -> Result<Turned, JobFault>
        requires { IsSettled files.old jobs.old }
        ensures turn { TakesTurn files.old self.old.machine.core jobs.old number result files.new
            self.new.machine.core jobs.new }
        ensures others { self.new ≡ with_core self.old self.new.machine.core }
    {
        jobs.turn(alloc, files, self.machine.core_mut(), number)
    }

    fn start(&mut self, cell: Cell) -> Reply
        ensures { ConsoleReplies self.old (entry.Start cell) result self.new }
    {
        self.machine.start(cell);
        Reply::Line(LineReply::Started(cell))
    }

    /// So many steps, whatever breaks are set.
    fn step(&mut self, steps: u32) -> Result<Reply, DebugFault>
        ensures { ConsoleDoes (entry.Step steps) self.old result self.new }
    {
        self.printed.reserve(steps as usize)?;
        let gone = Debugger::step(&mut self.machine, steps as usize, &mut self.printed);
        Ok(self.steps_reply(gone))
    }

    fn go(&mut self, steps: u32) -> Result<Reply, DebugFault>
        ensures { ConsoleDoes (entry.Go steps) self.old result self.new }
    {
        self.printed.reserve(steps as usize)?;
        let gone = self.debugger.go(&mut self.machine, steps as usize, false, &mut self.printed);
        Ok(self.steps_reply(gone))
    }

    /// A start, and then a go with a printer that is always quick.
    fn run(&mut self, cell: Cell, steps: u32) -> Result<Reply, DebugFault>
        ensures { ConsoleDoes (entry.Run cell steps) self.old result self.new }
    {
        self.printed.reserve(steps as usize)?;
        self.machine.start(cell);
        let gone = self
            .debugger
            .go(&mut self.machine, steps as usize, true, &mut self.printed);
        Ok(self.steps_reply(gone))
    }

    /// The reply to steps that were made.
    fn steps_reply(&self, gone: Gone) -> Reply
        requires { gone.steps ≤ 4294967295 }
        ensures { result ≡ Line (line.Steps gone.steps (why_of gone.why) (next_cell self.now.machine)) }
    {
        Reply::Line(LineReply::Steps {
            steps: gone.steps as u32,
            why: why_of(gone.why),
            cell: self.machine.next_cell(),
        })
    }

    fn key(&mut self, character: u8) -> Reply
        ensures { ConsoleReplies self.old (entry.Key character) result self.new }
    {
        self.machine.key(character);
        Reply::Line(LineReply::Key(character))
    }

    fn done_reply(&mut self) -> Reply
        ensures { ConsoleReplies self.old entry.Done result self.new }
    {
        self.machine.end_character();
        Reply::Line(LineReply::Done)
    }

    fn switches(&mut self, word: Word) -> Reply
        ensures { ConsoleReplies self.old (entry.Switches word) result self.new }
    {
        self.machine.switches(word);
        Reply::Line(LineReply::Switches(word))
    }

    fn examine(&self, cell: Cell) -> Reply
        ensures { ConsoleReplies self.now (entry.Examine cell) result self.now }
    {
        let word = Debugger::examine(&self.machine, cell);
        Reply::Line(LineReply::Core { cell, word })
    }

    fn deposit(&mut self, cell: Cell, word: Word) -> Reply
        ensures { ConsoleReplies self.old (entry.Deposit cell word) result self.new }
    {
        Debugger::deposit(&mut self.machine, cell, word);
        Reply::Line(LineReply::Core { cell, word })
    }

    fn set_break(&mut self, cell: Cell) -> Result<Reply, DebugFault>
        ensures { ConsoleDoes (entry.Break cell true) self.old result self.new }
    {
        self.debugger.set_break(cell)?;
        Ok(Reply::Line(LineReply::Break { cell, is_on: true }))
    }

    fn clear_break(&mut self, cell: Cell) -> Reply
        ensures { ConsoleReplies self.old (entry.Break cell false) result self.new }
    {
        self.debugger.clear_break(cell);
        Reply::Line(LineReply::Break { cell, is_on: false })
    }

    fn registers(&self, alloc: Global) -> Result<Reply, DebugFault>
        ensures { ConsoleDoes entry.Registers self.now result self.now }
    {
        let text = Debugger::snapshot(alloc, &self.machine)?;
        Ok(Reply::Report(Report::Registers(Bytes::new(text.into_bytes()))))
    }

    fn printed_reply(&self, alloc: Global) -> Result<Reply, DebugFault>
        ensures { ConsoleDoes entry.Printed self.now result self.now }
    {
        let characters = self.printed.to_vec(alloc)?;
        Ok(Reply::Report(Report::Printed(Bytes::new(characters))))
    }
}

/// Why steps ended, as a reply says it.
fn why_of(why: cpu8::Why) -> StepEnd
    ensures { result ≡ why_of why }
{
    match why {
        cpu8::Why::Halt => StepEnd::Halt,
        cpu8::Why::Unassigned => StepEnd::Unassigned,
        cpu8::Why::Break => StepEnd::Break,
        cpu8::Why::Limit => StepEnd::Limit,
    }
}
