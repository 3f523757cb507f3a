//! What a single turn returns. A run of the program makes no single turns.

/// Whether moves are left.
#[derive(Clone, Copy, Debug, PartialEq, Eq)]
pub enum Turn {
    /// More moves are left.
    More,
    /// No move is left.
    Finished,
}
