//! The invariant of the board's one word and of what its seats know, and the names of the steps that keep it.
use atomic_table::{Join, Play, Split, TableRule};
use std::collections::LinkedList;

/// How many numbers a board has, and how many seats.
#[derive(Clone, Copy)]
pub struct Size {
    pub count: u64,
    pub seats: u64,
}

/// What a seat knows: the board's count, its parts of the right to close, the numbers that it was given, and how many of its claims found
/// no number left. It exists only in proofs: no value of it is made.
pub struct View {
    pub count: u64,
    pub parts: u64,
    pub list: LinkedList<u64>,
    pub told: u64,
}

/// The rule of the table.
pub struct Deal;

impl TableRule<(), View, Size> for Deal {
    ghost use Rattle.fab_board.specs.Dealt.{Dealt, opened};

    ghost holds = { Dealt };

    ghost first = { opened };
}

/// The one step that changes the word: a seat adds 1.
pub struct Claim;

impl Play<(), View> for Claim {
    ghost use Rattle.fab_board.specs.Dealt.{Claimed};

    ghost then = { Claimed };
}

/// A seat gives one of its parts to a new seat.
pub struct OnePart;

impl Split<View> for OnePart {
    ghost use Rattle.fab_board.specs.Dealt.{kept_back, one_part};

    ghost left = { kept_back };

    ghost right = { one_part };
}

/// Two seats become one, which knows what both knew.
pub struct Gather;

impl Join<View> for Gather {
    ghost use Rattle.fab_board.specs.Dealt.{together, nothing};

    ghost both = { together };

    ghost spent = { nothing };
}
