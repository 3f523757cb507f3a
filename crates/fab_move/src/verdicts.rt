//! What a judgement reads, and what it returns.

use crate::marks::Footprint;
use fab_arch::Grid;
use fab_net::Design;
use fab_site::{Fixed, Placement, Swap};

/// What a judgement reads: a placement with its wire cost, the words of all moves, and the temperature `t` (in ten-thousandths) and the
/// `range` (in thousandths) of the running stage. A view only borrows, and changes nothing.
#[derive(Drop)]
pub struct View<'a, C, W> {
    pub design: &'a Design,
    pub grid: &'a Grid,
    pub fixed: &'a Fixed,
    pub placement: &'a Placement,
    pub cost: &'a C,
    pub words: &'a W,
    pub t: u64,
    pub range: u64,
}

/// The judgement of a move.
#[derive(Drop)]
pub struct Verdict {
    /// The move's number.
    pub k: u64,
    /// The proposed swap; `None` if the move proposes nothing or is void.
    pub swap: Option<Swap>,
    /// The change of cost that the swap makes, in ten-thousandths; 0 without a swap.
    pub delta: i64,
    /// Whether the move is accepted. Without a swap it never is.
    pub accepted: bool,
    /// The marks that the judgement rests on.
    pub footprint: Footprint,
}

/// The judgement of a move without its number and footprint.
#[derive(Clone, Copy, Debug, PartialEq, Eq)]
pub struct Decision {
    /// The proposed swap; `None` if the move proposes nothing or is void.
    pub swap: Option<Swap>,
    /// The change of cost that the swap makes, in ten-thousandths; 0 without a swap.
    pub delta: i64,
    /// Whether the move is accepted. Without a swap it never is.
    pub accepted: bool,
}
