//! Tests of the libraries below the jobs and the session, for what no run of the program can show. They are about stores that count or
//! fail, calls of the file service, the greatest file, large sources, and the places of tokens. Each law is called once.
#![tactic(auto)]

#[cfg(test)]
mod files;
#[cfg(test)]
mod large;
#[cfg(test)]
mod laws;
#[cfg(test)]
mod packing;
#[cfg(test)]
mod segments;
#[cfg(test)]
mod spans;
