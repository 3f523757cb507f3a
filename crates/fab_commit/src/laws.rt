//! Laws about moves made one at a time and about moves judged ahead, for code that builds on them. Each law is the contract of a
//! function that does nothing.

ghost use Rattle.fab_commit.specs.Laws.EverySchedule.{EveryScheduleIsSerial};
ghost use Rattle.fab_commit.specs.Laws.Moves.{AcceptedSwapsAreSerial, MovesCompose, PlacementsStayLegal, PlacementsStayLegalByKinds, RedoneIsSerial, SeedsGiveWords, StampsTell, VerdictsAreOfTheirBase};
ghost use Rattle.fab_commit.specs.Run.Points.{PointsAreToldAgain};
ghost use Rattle.fab_commit.specs.Laws.Runs.{RedoneInRuns, WaysOfABeginning, WaysOfATurn, WaysOfRuns};
ghost use Rattle.fab_commit.specs.Laws.Turns.{CutTurnsLeadOn, EveryBatchIsSerial, RedoneByStamps, TurnsAreReached, TurnsLeadOn, WaysOfTurns};

use fab_site::Words;

/// Law: start from a standing with nothing claimed or judged, and take any list of events. It leads to the same live standing as n moves
/// made one at a time, if n is the number of moves that the events committed. Each verdict that is taken is the judgement of its move on
/// the live placement.
pub fn every_schedule_is_serial()
    ensures { EveryScheduleIsSerial }
{}

/// Law: making m moves and then n moves is making m + n moves.
pub fn moves_compose()
    ensures { MovesCompose }
{}

/// Law: if all words are below 2^32, moves lead from a legal placement only to legal ones. The words of each seed are below 2^32 (`seeds`).
/// Legal means that each block is on a site of its kind, no two blocks share a site, and each fixed block is at its site. The same holds
/// for words of any size that propose sites of the block's kind (`kinds`).
pub fn placements_stay_legal()
    ensures legal { PlacementsStayLegal }
    ensures seeds { SeedsGiveWords }
    ensures kinds { PlacementsStayLegalByKinds }
{}

/// Law: after every list of events, each verdict is the judgement of its move on the placement of its base. Moves made one at a time lead
/// through that placement. The move belongs to the stage and is not made yet.
pub fn verdicts_are_of_their_base()
    ensures { VerdictsAreOfTheirBase }
{}

/// Law: after every list of events, the accepted swaps are those of moves made one at a time. These swaps and a verdict's base determine
/// whether the verdict is stale.
pub fn spoiled_verdicts_are_serial()
    ensures accepted { AcceptedSwapsAreSerial }
    ensures redone { RedoneIsSerial }
{}

/// Law: for each mark it suffices to keep the number of the last accepted move that touched it. These numbers decide what was touched since
/// a base exactly as the list of accepted swaps does.
pub fn stamps_tell()
    ensures { StampsTell }
{}

/// Law of a turn. The turn discards the verdicts beyond its batch, judges the missing moves of the batch and then the next batch of
/// the stage, commits the batch, and refreshes the older placement. This leads from the world after one turn to the world after the
/// next. In that world both placements are those of moves made one at a time, nothing is claimed, and the only verdicts are those of the
/// next batch, on the placement at the turn's start. If a turn is cut short because memory ran out, there are no verdicts after it. A
/// move is redone exactly if a stamp of a mark of its footprint is above its base.
pub fn turns_are_serial()
    ensures reached { TurnsAreReached }
    ensures turn { TurnsLeadOn }
    ensures cut { CutTurnsLeadOn }
    ensures batches { EveryBatchIsSerial }
    ensures ways { WaysOfTurns }
    ensures stamps { RedoneByStamps }
{}

/// Law of how many moves are redone, for the first moves of a turn, for a turn, and for turns of any batches. The number follows from moves
/// made one at a time and their bases. If all turns have the same batch, the bases follow from arithmetic alone: the run's part of a stage
/// is cut into batches, and a move is first judged on the placement at the start of the batch before its own. A move of the first batch is
/// first judged on the placement at the start of that batch.
pub fn redone_is_told()
    ensures beginning { WaysOfABeginning }
    ensures turn { WaysOfATurn }
    ensures ways { WaysOfRuns }
    ensures runs { RedoneInRuns }
{}

/// Law: an annealer that goes on from a snapshot, with any words, has a lawful standing of its run and returns the same snapshot.
pub fn points_are_told_again<W: Words>()
    ensures { PointsAreToldAgain W.moves }
{}
