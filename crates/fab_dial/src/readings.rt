//! What a dial shows.
use crossbeam_utils::atomic::Words;

/// How far a run has come.
#[derive(Clone, Copy, Debug, PartialEq, Eq)]
pub struct Reading {
    /// How many moves were made.
    pub moves: u64,
    /// How many of these moves were accepted.
    pub accepted: u64,
    /// The cost, in ten-thousandths.
    pub cost: u64,
}

impl Words<3> for Reading {
    ghost use Rattle.std.specs.Prelude.{[], ◌∷◌};

    ghost words = { λ r. r.moves ∷ r.accepted ∷ r.cost ∷ [] };

    fn to_words(self) -> [u64; 3] {
        [self.moves, self.accepted, self.cost]
    }

    fn from_words(bits: &[u64; 3]) -> Reading {
        Reading {
            moves: bits[0],
            accepted: bits[1],
            cost: bits[2],
        }
    }
}
