//! The program over the system that it runs in.

use byte_reader::WatchedReader;
use hosts::Recorded;
use program::run_program;
use std::env::Env;
use std::fs::{File, Files};
use std::io::{Input, IsTerminal};
use std::process::ExitCode;
use std::random::RandomSource;
use std::time::Clock;
use system::{Outputs, System};

/// Does what the words of the command line ask for, over the system, as `run_program` does it. The answer is the exit status.
pub fn program<
    R: Env
        + Files<File = File>
        + Input
        + Outputs
        + Print
        + Eprint
        + Clock
        + RandomSource
        + AllocGlobal,
>(rt: &R) -> ExitCode
where
    R::Reader: IsTerminal,
{
    let mut reader = rt.reader();
    let mut input = WatchedReader::new(&mut reader);
    let (_, status) = run_program(Recorded::new(System::new(rt)), rt.alloc(), &mut input);
    ExitCode::from(status)
}
