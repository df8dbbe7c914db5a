use crate::{Assembly, Loading};

/// What a job does.
pub enum Work {
    /// It assembles files to another one.
    Assembling(Assembly),

    /// It loads a file.
    Loading(Loading),

    /// It moves files down. It is clean while no other entry has changed the directory since its start.
    Squeezing { clean: bool },
}

/// A job, and how many turns it may still take.
pub struct Job {
    pub work: Work,
    pub turns: usize,
}
