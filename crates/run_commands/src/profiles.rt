//! A program of a tape whose steps are counted.
ghost use Rattle.std.specs.Prelude.{◌≡◌, length};
ghost use Rattle.word12.specs.declared.sizes.TheConstants.{CORE};
ghost use Rattle.run_commands.specs.Profiles.{ProfilesOn, ProfilesPlain, ProfilesTape};

use crate::drives8e::profile_8e;
use crate::machines8i::profile_8i;
use crate::runs::{Run, read_run};
use hosts::Host;
use image_files::print;
use outcome::Ending;
use program_tasks::{Cpu, TraceForm};
use std::alloc::Global;

/// How many steps are counted where nothing else is said: some three seconds of the machine.
const PROFILE_STEPS: u64 = 1_000_000;

/// Prints how often each cell was fetched, which cells of the tape never were, and how far the program went. On an 8/E each file whose disk was
/// written gets what is on it, and the files of the papers get what was put there.
pub fn profile_tape<H: Host>(host: &mut H, alloc: Global, form: &TraceForm) -> Result<(), Ending>
    ensures { ProfilesTape form.now (H.history host.old) result (H.history host.new) }
{
    let run = read_run(host, alloc, form)?;
    profile_run(host, alloc, form, run, form.steps.unwrap_or(PROFILE_STEPS))
}

/// Prints the profile of at most so many steps of the machine that is asked for, with the line of their end.
fn profile_run<H: Host>(
    host: &mut H,
    alloc: Global,
    form: &TraceForm,
    run: Run,
    most: u64,
) -> Result<(), Ending>
    requires { length run.flags.items ≡ CORE }
    ensures { ProfilesOn form.now.cpu form.now.disk form.now.devices most run (H.history host.old) result (H.history host.new) }
{
    match form.cpu {
        Cpu::EightI => profile_plain(host, alloc, run, most),
        Cpu::EightE => profile_8e(host, alloc, &form.disk, &form.devices, run, most),
    }
}

/// The same of an 8/I.
fn profile_plain<H: Host>(host: &mut H, alloc: Global, run: Run, most: u64) -> Result<(), Ending>
    requires { length run.flags.items ≡ CORE }
    ensures { ProfilesPlain most run (H.history host.old) result (H.history host.new) }
{
    let text = profile_8i(alloc, run, most)?;
    print(host, &text)
}
