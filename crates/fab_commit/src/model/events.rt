//! The events that moves judged ahead go through. Part of the model: no run executes it.

/// How a committed move got its answer.
#[derive(Clone, Copy, Debug, PartialEq, Eq)]
pub enum Way {
    /// From its verdict.
    Taken,
    /// It was judged again, because an accepted swap touched its verdict's footprint.
    Redone,
    /// It was judged at its commit, because it had no verdict.
    Late,
}

/// An event. The number names a worker. An event that does not apply changes nothing.
#[derive(Clone, Copy, Debug, PartialEq, Eq)]
pub enum Event {
    /// A worker without a claim claims the first move of the running stage that is not made, claimed or judged yet.
    Claim(u64),
    /// A worker judges the move that it claimed, on the older placement. If the move is made already, only the claim is dropped.
    Judge(u64),
    /// A worker loses its claim or, if it has none, its verdict with the greatest number.
    Lose(u64),
    /// The next move of the stage is committed.
    Commit,
    /// The older placement becomes the live one.
    Refresh,
}
