//! A machine at a terminal. The bytes of a reader are struck as keys, each where the program asks for one, and a writer gets what
//! is printed. Or the keys are known, and steps are made one by one, or several at once that are counted.
//!
//! Nothing here takes memory but lists of keys.
#![tactic(auto)]

mod absences;
mod asking;
mod inputs;
mod keyboards;
pub mod laws;
mod operators;
mod outcomes;
mod outputs;
mod readings;
mod runs;
mod terminals;
mod writing;

pub use absences::{Absence, Absences};
pub use asking::{asks_for_key, waits_for_key};
pub use inputs::Input;
pub use keyboards::{Form, Keyboard, keys_of};
pub use outcomes::{Ended, TerminalEnd, TerminalFault};
pub use outputs::Output;
pub use readings::{ReadAhead, next_key};
pub use runs::{run, stop_of};
pub use terminals::Terminal;
pub use writing::Paper;
