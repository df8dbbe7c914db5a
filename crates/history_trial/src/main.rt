//! Does the lines on standard input with a machine and its history, to try `history8` and to measure it. What a line does stands at its
//! command in `commands.rt`. The status is 1 where a line is none, or memory ran out.
#![tactic(auto)]

mod commands;
mod showing;
mod trials;

use commands::Command;
use std::process::ExitCode;
use trials::Trial;

fn main(rt: HostRuntime) -> ExitCode {
    match run_lines(&rt) {
        Some(()) => ExitCode::SUCCESS,
        None => ExitCode::FAILURE,
    }
}

/// Does the lines of standard input.
fn run_lines<R: Input + Print + AllocGlobal>(rt: &R) -> Option<()> {
    let mut trial = Trial::new(rt.alloc())?;
    for line in rt.lines(rt.alloc()) {
        let line = line.ok()?;
        let words: Vec<&str> = line.split_whitespace().collect(rt.alloc()).ok()?;
        let command = Command::of(&words)?;
        trial = trial.after(rt, command)?;
    }
    Some(())
}
