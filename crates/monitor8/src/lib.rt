//! The whole programming system, over the system that it runs in. It also shows the public calls of the crates below that a program may
//! want.
#![tactic(auto)]

mod programs;

pub use command_line::{plain_words, task};
pub use command_refusals::TaskFault;
pub use program::run_program;
pub use program_reports::{
    ProgramLine, SourceFault, core_tape, put_program, with_line_feeds, with_prefix,
};
pub use program_tasks::Task;
pub use programs::program;
pub use refusals::SessionFault;
pub use system_session::{Ran, Session, laws};
pub use tape_reports::{first_cell, given_cells, rim_output, source_lines, tape_lines};
