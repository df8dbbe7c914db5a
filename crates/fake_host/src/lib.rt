//! A host in memory of which one call fails, for tests.
#![tactic(auto)]

mod calls;
mod memory;

pub use memory::InMemory;
