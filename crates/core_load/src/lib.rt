//! Core of eight fields, and the loader that lays a BIN tape over it.
#![tactic(auto)]

mod cores;
mod loaders;

pub use cores::Core;
pub use loaders::{Loader, load};
