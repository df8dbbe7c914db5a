//! What a line asks for. Cells, words and characters are five, four and three octal digits, numbers of steps and changes decimal.

use word12::{Cell, Word, octal, octal_cell, octal_word};

/// A change that is no step.
#[derive(Clone, Copy)]
pub enum Change {
    /// `deposit CELL WORD`
    Deposit(Cell, Word),
    /// `switches WORD`
    Switches(Word),
    /// `key CHARACTER`
    Key(u8),
    /// `start CELL`
    Start(Cell),
}

/// A condition of a step.
#[derive(Clone, Copy)]
pub enum Condition {
    /// `break`: it came to a break.
    Break,
    /// `at CELL`: it came to this cell.
    At(Cell),
    /// `write CELL`: it stored in this cell.
    Write(Cell),
    /// `print`: it printed.
    Print,
    /// `return CELL`: the subroutine with this first word returned.
    Return(Cell),
}

/// What a line asks for.
#[derive(Clone, Copy)]
pub enum Command {
    Make(Change),
    /// `quick` and `slow`: whether the printer ends its character before each step that follows.
    Printer(bool),
    /// `break CELL` sets a break, or takes it away.
    Break(Cell),
    /// `step N` makes steps, and prints what each did.
    Step(usize),
    /// `run CONDITION N` makes steps until the condition holds of one, at most so many. It prints how many, and why it ended.
    Run(Condition, usize),
    /// `unasked N` makes steps without a look at the Teletype, and prints how many.
    Unasked(usize),
    /// `back N` goes back by so many changes.
    Back(usize),
    /// `goto N` goes back to where so many steps were made.
    Goto(usize),
    /// `reverse CONDITION` goes back to where the condition held last, and prints by how many changes.
    Reverse(Condition),
    /// `last CONDITION` prints how many changes ago that was.
    Last(Condition),
    /// `begin` forgets the history, and keeps the machine.
    Begin,
    /// `plain N` makes steps by the processor's own run, and begins a history after them. It prints how many.
    Plain(usize),
    /// `show` prints the machine, what its changes printed, and how many they are.
    Show,
}

impl Command {
    /// What the words of a line ask for, if they ask for anything.
    pub fn of(words: &[&str]) -> Option<Command> {
        match words {
            ["quick"] => Some(Command::Printer(true)),
            ["slow"] => Some(Command::Printer(false)),
            ["break", cell] => Some(Command::Break(cell_of(cell)?)),
            ["step", steps] => Some(Command::Step(number(steps)?)),
            ["run", condition @ .., steps] => {
                Some(Command::Run(Condition::of(condition)?, number(steps)?))
            }
            ["unasked", steps] => Some(Command::Unasked(number(steps)?)),
            ["back", changes] => Some(Command::Back(number(changes)?)),
            ["goto", steps] => Some(Command::Goto(number(steps)?)),
            ["reverse", condition @ ..] => Some(Command::Reverse(Condition::of(condition)?)),
            ["last", condition @ ..] => Some(Command::Last(Condition::of(condition)?)),
            ["begin"] => Some(Command::Begin),
            ["plain", steps] => Some(Command::Plain(number(steps)?)),
            ["show"] => Some(Command::Show),
            _ => Some(Command::Make(Change::of(words)?)),
        }
    }
}

impl Change {
    fn of(words: &[&str]) -> Option<Change> {
        match words {
            ["deposit", cell, word] => Some(Change::Deposit(cell_of(cell)?, word_of(word)?)),
            ["switches", word] => Some(Change::Switches(word_of(word)?)),
            ["key", character] => Some(Change::Key(character_of(character)?)),
            ["start", cell] => Some(Change::Start(cell_of(cell)?)),
            _ => None,
        }
    }
}

impl Condition {
    fn of(words: &[&str]) -> Option<Condition> {
        match words {
            ["break"] => Some(Condition::Break),
            ["at", cell] => Some(Condition::At(cell_of(cell)?)),
            ["write", cell] => Some(Condition::Write(cell_of(cell)?)),
            ["print"] => Some(Condition::Print),
            ["return", cell] => Some(Condition::Return(cell_of(cell)?)),
            _ => None,
        }
    }
}

fn number(text: &str) -> Option<usize> {
    text.parse::<usize>().ok()
}

fn cell_of(text: &str) -> Option<Cell> {
    octal_cell(text.as_bytes())
}

fn word_of(text: &str) -> Option<Word> {
    octal_word(text.as_bytes())
}

/// A character of eight bits.
fn character_of(text: &str) -> Option<u8> {
    u8::try_from(octal(text.as_bytes(), 3)?).ok()
}
