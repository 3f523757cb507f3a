//! What a run is given, and what it answers.

use fab_commit::Point;
use fab_file::Labels;
use fab_sched::Cooling;
use fab_site::Placement;

/// The texts of a run, and the file names that its place text shows.
#[derive(Clone, Copy, Debug)]
pub struct Inputs<'a> {
    /// The architecture text.
    pub arch: &'a [u8],
    /// The netlist text.
    pub net: &'a [u8],
    /// The location text, which fixes blocks at sites or starts them there.
    pub pads: Option<&'a [u8]>,
    pub labels: Labels<'a>,
}

/// How the number of moves of a stage is given.
#[derive(Clone, Copy, Debug, PartialEq, Eq)]
pub enum Moves {
    /// This number, 1 to 1,073,741,824.
    Given(u64),
    /// By VPR's rule: this factor, 1 to 10,000, times the number of all blocks to the power 4/3, rounded down, and at least 1. The result
    /// has the limits of `Given`.
    Inner(u64),
}

/// The numbers of a run. Temperatures are in ten-thousandths, 1 to 1,073,741,824.
#[derive(Clone, Copy, Debug, PartialEq, Eq)]
pub struct Options {
    /// The seed of the random words.
    pub seed: u64,
    /// The columns and rows of the array, 1 to 1,000 each. Without them, the smallest square array that holds the design is taken.
    pub size: Option<(u16, u16)>,
    /// The first temperature.
    pub init_t: u64,
    /// The lowest temperature that is run before the frozen stage.
    pub exit_t: u64,
    /// How the temperature falls. A factor is in thousandths, 1 to 999.
    pub cooling: Cooling,
    /// How many moves a stage has.
    pub moves: Moves,
    /// How many moves a turn commits at most, 1 to 4,096. The placement does not depend on it.
    pub batch: u64,
    /// The most threads that judge moves ahead, 1 to 64. The calling thread makes some stages alone (docs/ARCHITECTURE.md, "When the owner
    /// goes alone"). The placement does not depend on it.
    pub workers: u64,
    /// After how many moves the run stops, counted from its first move. A stop before the beginning of a piece has no effect on the piece.
    /// Neither has a stop after which no move is left.
    pub stop: Option<u64>,
}

/// The checkpoint text that a run goes on from, and the numbers that it is given, as in [`Options`].
#[derive(Clone, Copy, Debug)]
pub struct Restart<'a> {
    /// The checkpoint text.
    pub point: &'a [u8],
    /// How many moves a turn commits at most, 1 to 4,096.
    pub batch: u64,
    /// The most threads that judge moves ahead, 1 to 64.
    pub workers: u64,
    /// After how many moves the run stops, counted from its first move.
    pub stop: Option<u64>,
}

/// How a run ended.
#[derive(Drop)]
pub enum Ending {
    /// No move is left.
    Finished,
    /// The run is at its stop, and moves are left: `resume_run` continues from the text of this point.
    Stopped(Point),
}

/// What a run answers.
#[derive(Drop)]
pub struct Outcome {
    pub ending: Ending,
    /// The sites of the blocks at the end.
    pub placement: Placement,
    /// The numbers of the moves that were accepted in the piece, in order.
    pub accepted: Vec<u64>,
    /// The cost before the first move of the piece, and after each stage that ended in it, in ten-thousandths.
    pub costs: Vec<u64>,
    /// How many moves turns of the batch redo, because a move accepted since their judgement's base had touched their footprint. In a stage
    /// that the calling thread makes alone nothing is judged twice, but the number is the same. It depends on the batch, and not on the
    /// workers.
    pub redone: u64,
}

/// What a run answers that only counts the accepted moves and keeps no numbers of them, so that its memory does not grow with its moves. It
/// does not count the moves that turns redo.
#[derive(Drop)]
pub struct CountedOutcome {
    pub ending: Ending,
    /// The sites of the blocks at the end.
    pub placement: Placement,
    /// How many moves were accepted in the piece.
    pub accepted: u64,
    /// The cost before the first move of the piece, and after each stage that ended in it, in ten-thousandths.
    pub costs: Vec<u64>,
}
