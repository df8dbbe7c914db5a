/// How far a run went.
#[derive(Clone, Copy, PartialEq, Eq, Debug)]
pub struct Run {
    /// How many steps were made.
    pub steps: usize,
    /// Why no more were made.
    pub end: End,
}

/// Why a run goes no further, the first of these that holds.
#[derive(Clone, Copy, PartialEq, Eq, Debug)]
pub enum End {
    /// The machine stands stopped.
    Stopped,
    /// The condition holds of the last step.
    Met,
    /// So many steps were made as were asked for.
    Limit,
    /// There was no memory for what the next steps may print.
    Memory,
}
