//! Tests of sessions over stores that fail or count, of a run of entries, and of the lines and texts of faults: what no run of the
//! program can show.
#![tactic(auto)]

#[cfg(test)]
mod failing;
#[cfg(test)]
mod fault_lines;
#[cfg(test)]
mod items;
#[cfg(test)]
mod storing;
