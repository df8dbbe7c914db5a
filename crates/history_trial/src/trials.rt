//! A machine with its history, as the lines of a script have it.

ghost use Rattle.std.specs.Prelude.{◌≡◌, ◌+◌, ◌^◌, ◌<◌, true, length};

use crate::commands::{Change, Command, Condition};
use crate::showing::{print_counts, print_found, print_run, print_step, print_unasked, show};
use core_load::Core;
use cpu8::{Machine, Why};
use history8::{AtCell, History, OnPrint, OnReturn, OnWrite, Run};
use std::alloc::{AllocError, Global};
use word12::{CORE, Cell};

/// A machine with its history, and what lines have set for those after them.
#[derive(Drop)]
pub struct Trial {
    alloc: Global,
    history: History,
    /// The core that the history began with.
    first: Core,
    /// For each cell whether it has a break, or nothing where none has.
    breaks: Vec<bool>,
    is_quick: bool,
}

/// The steps that the processor's own run makes in one go.
const PART: usize = 0o200000;

impl Trial {
    /// A machine with no words, of which nothing is known.
    pub fn new(alloc: Global) -> Option<Trial> {
        let machine = Machine::new(Core::new(alloc).ok()?);
        Trial::of(alloc, machine, Vec::new(alloc), true)
    }

    /// A machine with no history.
    fn of(alloc: Global, machine: Machine, breaks: Vec<bool>, is_quick: bool) -> Option<Trial> {
        let mut first = Core::new(alloc).ok()?;
        copy_words(machine.core(), &mut first);
        let mut history = History::new(alloc).ok()?;
        history.begin(machine);
        Some(Trial {
            alloc,
            history,
            first,
            breaks,
            is_quick,
        })
    }

    /// What it is after a command, whose answer is printed.
    pub fn after<R: Print>(self, rt: &R, command: Command) -> Option<Trial> {
        match command {
            Command::Begin => self.without_history(rt, 0),
            Command::Plain(steps) => self.without_history(rt, steps),
            _ => {
                let mut trial = self;
                trial.obey(rt, command)?;
                Some(trial)
            }
        }
    }

    /// Makes steps by the processor's own run, and begins the history anew.
    fn without_history<R: Print>(self, rt: &R, steps: usize) -> Option<Trial> {
        let Trial {
            alloc,
            history,
            first: _,
            breaks,
            is_quick,
        } = self;
        let mut machine = history.into_machine();
        let made = run_plainly(alloc, &mut machine, is_quick, &breaks, steps)?;
        println!(rt; "plain {made}").ok()?;
        Trial::of(alloc, machine, breaks, is_quick)
    }

    /// Does a command that goes on with the history.
    fn obey<R: Print>(&mut self, rt: &R, command: Command) -> Option<()> {
        match command {
            Command::Make(change) => self.make(change),
            Command::Printer(is_quick) => {
                self.is_quick = is_quick;
                Some(())
            }
            Command::Break(cell) => self.turn_break(cell),
            Command::Step(steps) => self.step(rt, steps),
            Command::Run(condition, most) => print_run(rt, self.run(condition, most)?),
            Command::Unasked(most) => print_unasked(rt, self.run_unasked(most)?),
            Command::Back(changes) => {
                self.history.back(changes);
                print_counts(rt, &self.history)
            }
            Command::Goto(steps) => {
                self.history.back_to_step(steps);
                print_counts(rt, &self.history)
            }
            Command::Reverse(condition) => {
                let found = self.last(condition)?;
                self.history.back(found.unwrap_or(0));
                print_found(rt, found)
            }
            Command::Last(condition) => print_found(rt, self.last(condition)?),
            Command::Show => show(rt, &self.history, &self.first),
            Command::Begin | Command::Plain(_) => Some(()),
        }
    }

    /// Makes a change that is no step.
    fn make(&mut self, change: Change) -> Option<()> {
        if !has_room(&self.history, 1) {
            return None;
        }
        let made = match change {
            Change::Deposit(cell, word) => self.history.deposit(cell, word),
            Change::Switches(word) => self.history.switches(word),
            Change::Key(character) => self.history.key(character),
            Change::Start(cell) => self.history.start(cell),
        };
        made.ok()
    }

    /// Sets a break, or takes it away.
    fn turn_break(&mut self, cell: Cell) -> Option<()> {
        if self.breaks.is_empty() {
            self.breaks = no_cells(self.alloc, CORE).ok()?;
        }
        let flag = self.breaks.get_mut(cell.index())?;
        *flag = !*flag;
        Some(())
    }

    /// Makes steps one by one, and prints what each did.
    fn step<R: Print>(&mut self, rt: &R, steps: usize) -> Option<()> {
        print!(rt; "step").ok()?;
        for _ in 0..steps {
            if !has_room(&self.history, 1) {
                return None;
            }
            let did = self.history.step(self.is_quick).ok()?;
            print_step(rt, &did)?;
        }
        println!(rt; "").ok()
    }

    /// Makes steps until a condition holds of one.
    fn run(&mut self, condition: Condition, most: usize) -> Option<Run> {
        if !has_room(&self.history, most) {
            return None;
        }
        let (history, is_quick) = (&mut self.history, self.is_quick);
        match condition {
            Condition::Break => Some(history.go(is_quick, &self.breaks, most)),
            Condition::At(cell) => Some(history.run_to(is_quick, &AtCell(cell), most)),
            Condition::Write(cell) => {
                let cells = one_cell(self.alloc, cell)?;
                Some(history.run_to(is_quick, &OnWrite { cells: &cells }, most))
            }
            Condition::Print => Some(history.run_to(is_quick, &OnPrint, most)),
            Condition::Return(entry) => Some(history.run_to(is_quick, &OnReturn { entry }, most)),
        }
    }

    /// Makes steps that ask for no key.
    fn run_unasked(&mut self, most: usize) -> Option<usize> {
        if !has_room(&self.history, most) {
            return None;
        }
        self.history.go_unasked(most).ok()
    }

    /// How many changes ago a condition held last, if it did.
    fn last(&mut self, condition: Condition) -> Option<Option<usize>> {
        let history = &mut self.history;
        match condition {
            Condition::Break => Some(history.last_break(&self.breaks)),
            Condition::At(cell) => Some(history.last_where(&AtCell(cell))),
            Condition::Write(cell) => {
                let cells = one_cell(self.alloc, cell)?;
                Some(history.last_where(&OnWrite { cells: &cells }))
            }
            Condition::Print => Some(history.last_where(&OnPrint)),
            Condition::Return(entry) => Some(history.last_where(&OnReturn { entry })),
        }
    }
}

/// Whether so many changes more may be made.
fn has_room(history: &History, more: usize) -> bool
    ensures { result ≡ true → length history.now.changes + more < 2 ^ 64 }
{
    more <= usize::MAX - history.change_count()
}

/// Makes steps by the processor's own run, at most so many, until the machine stops. The answer is how many.
fn run_plainly(
    alloc: Global,
    machine: &mut Machine,
    is_quick: bool,
    breaks: &[bool],
    most: usize,
) -> Option<usize> {
    let mut made = 0usize;
    for _ in 0..most {
        let part = most.saturating_sub(made).min(PART);
        let mut printed = Vec::with_capacity(alloc, part).ok()?;
        let gone = machine.run(part, is_quick, breaks, &mut printed);
        made = made.saturating_add(gone.steps);
        if gone.why != Why::Limit || made >= most {
            break;
        }
    }
    Some(made)
}

/// A flag for each cell, of which that of one cell is set.
fn one_cell(alloc: Global, cell: Cell) -> Option<Vec<bool>> {
    let mut cells = no_cells(alloc, CORE).ok()?;
    *cells.get_mut(cell.index())? = true;
    Some(cells)
}

/// So many flags, of which none is set.
fn no_cells(alloc: Global, count: usize) -> Result<Vec<bool>, AllocError> {
    let cells = vec![in alloc; false; count]?;
    Ok(cells)
}

/// Gives core the words of another.
fn copy_words(from: &Core, to: &mut Core) {
    for number in 0..CORE {
        let cell = Cell::of(number as u32);
        to.set(cell, from.get(cell));
    }
}
