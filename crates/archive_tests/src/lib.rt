//! Worked examples of the libraries for archives, each with ample memory.
#![tactic(auto)]

#[cfg(test)]
mod blocks;
#[cfg(test)]
mod dates;
#[cfg(test)]
mod indexes;
#[cfg(test)]
mod kinds;
#[cfg(test)]
mod names;
#[cfg(test)]
mod volumes;
