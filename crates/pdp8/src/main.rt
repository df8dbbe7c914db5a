//! `pdp8`: a proved PDP-8 programming system. `pdp8 --help` says what it does.
#![tactic(auto)]

use monitor8::program;
use std::process::ExitCode;

fn main(rt: HostRuntime) -> ExitCode {
    program(&rt)
}
