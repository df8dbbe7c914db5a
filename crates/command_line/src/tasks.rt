ghost use Rattle.std.specs.Prelude.{◌≡◌, true, find, map, option_map, IfErr, IfOk};
ghost use Rattle.std.specs.Str.{bytes_eq};
ghost use Rattle.clap.specs.Words.{subcommand_rows_of, takes};
ghost use Rattle.command_table.specs.Tables.{pdp8, entry_of};
ghost use Rattle.command_line.specs.Steps.{Gives, GivesMet, HasMet, IsAskedBy, IsWhole, Needs};
ghost use Rattle.command_table.specs.Values.{values_in};
ghost use Rattle.command_line.specs.Tasks.{Answers, IsPastClap};

use crate::archives::{dump, index, patch, rescue, scan};
use crate::boots::boot;
use crate::files::{copy, delete, get, put, rename};
use crate::tapes::{assemble, rim, source, tape, teletype, trace_form};
use crate::volumes::{changed_image, check, create, list, run};
use clap::ArgMatches;
use command_refusals::{TaskFault, judge_arguments};
use command_table::table::table;
use command_table::{Entry, Read, Verb, command_line};
use program_tasks::Task;
use std::alloc::Global;

/// What the arguments of a command line ask for, the program's own name first (this project's profile). The table of `table.rt` says which
/// there are, what each takes and which exclude each other. A request for help or the version comes back as an error of `clap`, as it gives
/// it. What `clap` takes is refused where a `TaskFault` says so, and nothing is done before all of it is judged.
pub fn task(alloc: Global, words: &[&str]) -> Result<Task, TaskFault>
    ensures answer { Answers (map (λ given. given.now) words.now) result }
    ensures taken { takes pdp8 (map (λ given. given.now) words.now) ≡ true
        → IfErr result IsPastClap }
{
    let command = command_line(alloc)?;
    let matches = command.try_get_matches_from(words)?;
    task_of_matches(alloc, &matches)
}

/// The result of the subcommand that was met.
fn task_of_matches(alloc: Global, matches: &ArgMatches<'_>) -> Result<Task, TaskFault>
    requires { HasMet (subcommand_rows_of matches.now) }
    ensures { GivesMet (subcommand_rows_of matches.now) result }
{
    match matches.subcommand() {
        Some((name, found)) => task_of_name(alloc, name, found),
        None => unreachable!(),
    }
}

/// The result of the subcommand of a name, with what was found for it.
fn task_of_name(alloc: Global, name: &str, found: &ArgMatches<'_>) -> Result<Task, TaskFault>
    requires { IsWhole name.now (values_in found.now) }
    ensures { Gives name.now (values_in found.now) result }
{
    match entry_of_name(table(), name) {
        Some(entry) => {
            judge_arguments(alloc, found, entry)?;
            let task = task_of_verb(alloc, entry.verb, found)?;
            Ok(task)
        }
        None => unreachable!(),
    }
}

/// The subcommand of a name.
fn entry_of_name(entries: &'static [Entry], name: &str) -> Option<&'static Entry>
    ensures { option_map (λ entry. entry_of entry.now) result
        ≡ find (λ entry. bytes_eq name.now entry.word) (map entry_of entries.now) }
{
    for entry in entries {
        if name == entry.word {
            return Some(entry);
        }
    }
    None
}

/// What a subcommand asks for, with what was found for it.
fn task_of_verb(alloc: Global, verb: Verb, found: &ArgMatches<'_>) -> Read<Task>
    requires { Needs verb (values_in found.now) }
    ensures { IfOk result (IsAskedBy verb (values_in found.now)) }
{
    match verb {
        Verb::Tape => tape(alloc, found),
        Verb::Rim => rim(alloc, found),
        Verb::Source => source(alloc, found),
        Verb::Assemble => assemble(alloc, found),
        Verb::Teletype => teletype(alloc, found),
        Verb::Trace => Ok(Task::Trace(trace_form(alloc, found)?)),
        Verb::Profile => Ok(Task::Profile(trace_form(alloc, found)?)),
        Verb::Boot => boot(alloc, found),
        Verb::Run => run(alloc, found),
        Verb::Create => create(alloc, found),
        Verb::List => list(alloc, found),
        Verb::Get => get(alloc, found),
        Verb::Put => put(alloc, found),
        Verb::Delete => delete(alloc, found),
        Verb::Rename => rename(alloc, found),
        Verb::Copy => copy(alloc, found),
        Verb::Squeeze => {
            let image = changed_image(alloc, found, Verb::Squeeze, "IMAGE")?;
            Ok(Task::Squeeze(image))
        }
        Verb::Check => check(alloc, found),
        Verb::Dump => dump(alloc, found),
        Verb::Patch => patch(alloc, found),
        Verb::Index => index(alloc, found),
        Verb::Rescue => rescue(alloc, found),
        Verb::Scan => scan(alloc, found),
    }
}
