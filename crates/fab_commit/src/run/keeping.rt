//! What an annealer keeps of the moves that it makes: the number of each accepted move, or only how many there are. And whether it counts
//! every move that turns redo.

ghost use Rattle.std.specs.Prelude.{◌≡◌, Bool};

/// What is kept of the moves.
pub trait Keeping {
    /// Whether the numbers of accepted moves are kept, as contracts see it.
    ghost numbers: { Bool };

    /// Whether the annealer counts every move that turns redo, as contracts see it.
    ghost again: { Bool };

    /// Whether the numbers of accepted moves are kept.
    fn keeps() -> bool
        ensures { result ≡ numbers };

    /// Whether the annealer counts every move that turns redo. Then a move that the calling thread makes alone is counted if turns would
    /// redo it.
    fn tells_redone() -> bool
        ensures { result ≡ again };
}

/// Keeps the number of each accepted move, eight bytes a move, and counts every move that turns redo.
pub struct KeepsNumbers;

impl Keeping for KeepsNumbers {
    ghost use Rattle.std.specs.Prelude.{true};

    ghost numbers = { true };

    ghost again = { true };

    fn keeps() -> bool {
        true
    }

    fn tells_redone() -> bool {
        true
    }
}

/// Keeps only how many moves were accepted, so memory does not grow with the moves. If the calling thread makes moves alone, this does not
/// find out which of them turns would redo, since that takes time.
pub struct KeepsCount;

impl Keeping for KeepsCount {
    ghost use Rattle.std.specs.Prelude.{false};

    ghost numbers = { false };

    ghost again = { false };

    fn keeps() -> bool {
        false
    }

    fn tells_redone() -> bool {
        false
    }
}
