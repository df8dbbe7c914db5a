//! What `clap` makes of the table: one loop over the arguments of a subcommand, one over the subcommands.
ghost use Rattle.std.specs.Prelude.{◌≡◌, ◌<◌, true, codes, map, None};
ghost use Rattle.std.specs.List.{list_all};
ghost use Rattle.clap.specs.Words.{new_app};
ghost use Rattle.command_table.specs.Steps.{IsArgument, fits, is_fit, is_sound, option_rule, options_rule};
ghost use Rattle.command_table.specs.Tables.{IsCommand, IsDraft, entry_of, row_of, bare_app, kind_rule, leaf_app, rule_with_letter, pdp8, rule_for};
ghost use Rattle.command_table.specs.Tables as spec;
ghost use Rattle.command_table.specs.declared.table.Kind.TheVariants as kind;

use crate::table::{Argument, Entry, Kind, arguments_of, table};
use crate::texts::{HELP, texts_of};
use clap::{Arg, ArgAction, Command};
use std::alloc::{AllocError, Global};
use word12::MOST_BLOCKS;

/// A command, or want of the memory for it.
pub type Draft<'a> = Result<Command<'a>, AllocError>;

/// An argument as `clap` has it.
fn argument_of<'a>(alloc: Global, row: &'a Argument) -> Arg<'a>
    requires { is_fit row.now.kind row.now.letter ≡ true }
    ensures { IsArgument result (rule_for (row_of row.now)) }
{
    let argument = of_kind(alloc, row.id, row.kind, row.value)
        .help(row.help)
        .required(row.is_required)
        .hide(row.is_hidden);
    with_letter(argument, row.letter)
}

/// An option with its letter, if it has one.
#[tactic(auto, unfolding(crate::specs::Steps::IsArgument))]
fn with_letter<'a>(argument: Arg<'a>, letter: Option<char>) -> Arg<'a>
    ensures { (rule : _) → IsArgument argument.entry rule → rule.short ≡ None → IsArgument result (rule_with_letter letter rule) }
{
    match letter {
        Some(letter) => argument.short(letter),
        None => argument,
    }
}

/// An argument of a kind.
#[tactic(auto, unfolding(crate::specs::Steps::IsArgument))]
fn of_kind<'a>(alloc: Global, id: &'a str, kind: Kind, value: &'a str) -> Arg<'a>
    requires { fits kind ≡ true }
    ensures { IsArgument result (kind_rule id.entry.now kind) }
{
    match kind {
        Kind::Word => Arg::new(alloc, id),
        Kind::Value(_) => Arg::new(alloc, id),
        Kind::Words(most) => Arg::new(alloc, id).num_args(1..=most),
        Kind::Size => with_size(alloc, id),
        Kind::Flag => Arg::new(alloc, id).long(id).action(ArgAction::SetTrue),
        Kind::One(_) => with_value(alloc, id, value),
        Kind::Many(_) => with_values(alloc, id, value),
        Kind::Count => with_count(alloc, id, value),
    }
}

/// An option with a value of this name.
#[tactic(auto, unfolding(crate::specs::Steps::IsArgument))]
fn with_value<'a>(alloc: Global, id: &'a str, value: &'a str) -> Arg<'a>
    ensures { IsArgument result (option_rule id.entry.now) }
{
    Arg::new(alloc, id).long(id).value_name(value)
}

/// An option with a value of this name, which may be given several times.
#[tactic(auto, unfolding(crate::specs::Steps::IsArgument))]
fn with_values<'a>(alloc: Global, id: &'a str, value: &'a str) -> Arg<'a>
    ensures { IsArgument result (options_rule id.entry.now) }
{
    with_value(alloc, id, value).action(ArgAction::Append)
}

/// An option with a number from 1 up.
#[tactic(auto, unfolding(crate::specs::Steps::IsArgument))]
fn with_count<'a>(alloc: Global, id: &'a str, value: &'a str) -> Arg<'a>
    ensures { IsArgument result (kind_rule id.entry.now kind.Count) }
{
    let option = with_value(alloc, id, value);
    option.value_parser(clap::value_parser!(u64).range(1..))
}

/// A number of blocks, 8 to 4095, in its place.
#[tactic(auto, unfolding(crate::specs::Steps::IsArgument))]
fn with_size<'a>(alloc: Global, id: &'a str) -> Arg<'a>
    ensures { IsArgument result (kind_rule id.entry.now kind.Size) }
{
    let word = Arg::new(alloc, id);
    word.value_parser(clap::value_parser!(usize).range(8..=MOST_BLOCKS as i64))
}

/// A subcommand of the table.
#[tactic(auto, using(crate::proofs::CommandLemmas::row_fits, crate::proofs::CommandLemmas::row_more, crate::proofs::CommandLemmas::rows_all))]
fn leaf_of<'a>(alloc: Global, entry: &'a Entry) -> Draft<'a>
    requires { is_sound (entry_of entry.now) ≡ true }
    ensures { IsDraft result (leaf_app (entry_of entry.now)) }
{
    let mut command = bare_leaf(alloc, entry);
    for row in arguments_of(entry.verb) {
        command = command.arg(argument_of(alloc, row))?;
    }
    Ok(command)
}

/// A subcommand before it has its arguments, with its texts.
#[tactic(auto, unfolding(crate::specs::Tables::IsCommand))]
fn bare_leaf<'a>(alloc: Global, entry: &'a Entry) -> Command<'a>
    ensures { IsCommand result (new_app entry.now.word.now) }
{
    let texts = texts_of(entry.verb);
    Command::new(alloc, entry.word)
        .about(texts.about)
        .long_about(texts.long_about)
        .after_long_help(texts.examples)
}

/// The command `pdp8` with its subcommands.
pub fn command_line<'a>(alloc: Global) -> Draft<'a>
    ensures { IsDraft result pdp8 }
{
    with_leaves(alloc, bare_command_line(alloc)?, table())
}

/// A command with the subcommands of a table.
#[tactic(auto, using(crate::proofs::CommandLemmas::entry_fits, crate::proofs::CommandLemmas::entry_more, crate::proofs::CommandLemmas::entries_all))]
fn with_leaves<'a>(alloc: Global, bare: Command<'a>, entries: &'a [Entry]) -> Draft<'a>
    requires sound { list_all is_sound (map entry_of entries.now) ≡ true }
    requires bare { IsCommand bare bare_app }
    ensures { IsDraft result (spec.app_of_table (map entry_of entries.now)) }
{
    let mut command = bare;
    for entry in entries {
        command = command.subcommand(leaf_of(alloc, entry)?)?;
    }
    Ok(command)
}

/// The command `pdp8` before it has its subcommands.
fn bare_command_line<'a>(alloc: Global) -> Draft<'a>
    ensures { IsDraft result bare_app }
{
    let command = named_command_line(alloc)?;
    Ok(with_version(with_texts(command)))
}

/// The command of the name `pdp8`, by which its texts call it, whatever the first word is.
#[tactic(auto, unfolding(crate::specs::Tables::IsCommand))]
fn named_command_line<'a>(alloc: Global) -> Draft<'a>
    ensures { IsDraft result (new_app (codes "pdp8")) }
{
    Command::new(alloc, "pdp8").bin_name("pdp8")
}

/// The program's command with its texts for help.
#[tactic(auto, unfolding(crate::specs::Tables::IsCommand))]
fn with_texts<'a>(command: Command<'a>) -> Command<'a>
    ensures { (app : _) → IsCommand command.entry app → IsCommand result app }
{
    command
        .about("A PDP-8 programming system on OS/8 volumes")
        .override_help(HELP)
}

/// The program's command with its version, which wants a subcommand.
#[tactic(auto, unfolding(crate::specs::Tables::IsCommand))]
fn with_version<'a>(command: Command<'a>) -> Command<'a>
    ensures { IsCommand command.entry (new_app (codes "pdp8")) → IsCommand result bare_app }
{
    command.version("0.1.0").subcommand_required(true)
}
