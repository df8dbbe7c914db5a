//! The subcommands of a command line and their arguments, in one table, and what the library `clap` reads by it: the command, and what was found for
//! an argument.
#![tactic(auto)]

mod build;
mod found;
mod laws;
mod lists;
mod numbers;
mod rows;
pub mod table;
mod texts;

pub use build::{Draft, command_line};
pub use found::{
    Read, block_of, cell_of, count_of, date_of, date_year, flag, has, is_set, layout_of,
    name_if_given, name_of, names_drive, names_of, octal_of, size_of, span_of, text_given, text_of,
    texts_in, time_of, value_if_given, value_of, values_of, wait_of, word_at, year_of,
};
pub use laws::{excluded_arguments, letters};
pub use lists::{blocks_of, cells_of, info_of};
pub use numbers::{bits_in, cell_in, date_in, number_in, number_of, span_in, time_in, word_in};
pub use table::{
    Argument, ArgumentOf, COMMANDS, Entry, EntryOf, Form, Kind, PAIRS, Pair, Verb, arguments_of,
    pairs,
};
pub use texts::SCRIPT_LINES;
