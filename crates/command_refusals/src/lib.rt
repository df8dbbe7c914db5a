//! What is refused of a command line that the library `clap` takes, and why.
#![tactic(auto)]

mod faults;
mod judging;
mod missing;
mod reasons;

pub use faults::TaskFault;
pub use judging::{blocks_word, judge_arguments};
pub use missing::{copies_pattern, prints_texts};
pub use reasons::{Refusal, What};
