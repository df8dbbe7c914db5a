//! `host_trial` has each call of a host in memory fail in turn, and prints what that leaves. `host_trial WHAT PATH` saves standard input as
//! a file of the system. `save` is for a file that is there, `make` for one that is not, and `lay` for either.
#![tactic(auto)]

mod rows;

use hosts::{Durability, Host, HostFault, Recorded, hold_file, lay, make, save_file};
use rows::{TIME, print_rows};
use std::alloc::Global;
use std::env::Env;
use std::fs::{File, Files};
use std::io::Input;
use std::process::ExitCode;
use std::time::Clock;
use system::System;

/// The most bytes that are read.
const MOST: usize = 1_000_000;

fn main(rt: HostRuntime) -> ExitCode {
    let mut host = Recorded::new(System::new(&rt));
    match (
        word(&mut host, rt.alloc(), 1),
        word(&mut host, rt.alloc(), 2),
    ) {
        (Some(what), Some(path)) => {
            let done = keep_input(&mut host, rt.alloc(), what.as_str(), path.as_str());
            let text = match done {
                Ok(Durability::Certain) => "certain\n",
                Ok(Durability::Unknown) => "unknown\n",
                Err(_) => "fault\n",
            };
            let _ = host.print(text.as_bytes());
            ExitCode::SUCCESS
        }
        _ => match print_rows(&rt) {
            Some(()) => ExitCode::SUCCESS,
            None => ExitCode::from(3),
        },
    }
}

/// The word at a place of the command line, if it is a text.
fn word<H: Host>(host: &mut H, alloc: Global, place: usize) -> Option<String> {
    let bytes = host.word(alloc, place).ok()??;
    String::from_utf8(bytes).ok()
}

/// Has a path hold what standard input gives.
fn keep_input<H: Host>(
    host: &mut H,
    alloc: Global,
    what: &str,
    path: &str,
) -> Result<Durability, HostFault> {
    if what == "save" {
        let held = hold_file(host, alloc, path)?;
        let bytes = host.take_input(alloc, MOST)?;
        return match save_file(host, alloc, held.path.as_str(), 4, &bytes, "") {
            Ok(durability) => Ok(durability),
            Err(_) => Err(HostFault::Failed),
        };
    }
    let bytes = host.take_input(alloc, MOST)?;
    if what == "make" {
        return make(host, alloc, path, &bytes);
    }
    lay(host, alloc, path, &bytes, Some(TIME), true)?;
    Ok(Durability::Unknown)
}
