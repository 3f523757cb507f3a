//! Laws about runs, for code that builds on them. A function whose contract is a law has an empty body.

ghost use Rattle.fab_run.specs.Chains.{CallsAreRuns, ChainsAreRuns, ResumedCallsAreRuns};
ghost use Rattle.fab_run.specs.SameAnswers.{AnswersAreTold, RedoneIsTold, ResumedAreTold, ResumedRedoneIsTold, ShownIsTold};
ghost use Rattle.fab_run.specs.Standings.{MovesKeepStandings, ResumedBeginLawfully, RunsBeginLawfully, WatchersReadLawful};
ghost use Rattle.fab_run.specs.Watched.{PiecesShowStandings, TurnsShowStandings, WatchersReadInOrder, WatchersReadStandings};

use fab_site::Words;

/// The law that the texts and numbers alone determine what a run answers. Take two runs of the same texts, with the same seed, size,
/// schedule, moves and stop, and with any batches and numbers of workers. They end alike, and have the same placement, accepted moves,
/// costs, report and place text. The same holds for two runs that are resumed from one checkpoint text with the same stop. With the same
/// batch, they also redo the same number of moves, and two runs of the same texts show the same readings on a dial.
pub fn answers_are_told()
    ensures placed { AnswersAreTold }
    ensures resumed { ResumedAreTold }
    ensures redone { RedoneIsTold }
    ensures resumed_redone { ResumedRedoneIsTold }
    ensures shown { ShownIsTold }
{}

/// The law that pieces of a run are the unbroken run, wherever they stop. The pieces anneal one move at a time, each from where the one
/// before stopped. Their accepted moves, joined, are those of the run. So are the lines of their stages, and the costs at the ends of these
/// stages. The last piece ends where the run ends.
pub fn chains_are_runs()
    ensures { ChainsAreRuns }
{}

/// The law that calls of a run are one call without a stop, whatever their stops, batches and workers. The first call is `place_run`; each
/// later one is `resume_run`, with the same architecture and netlist and a checkpoint text of the point where the call before it stopped.
/// Their reports joined are the report of the one call. So are the accepted moves, and the costs without the first cost of each later call.
/// The last call has the placement of the one call, and its place text with the names that the last call shows. The same holds for calls of
/// `resume_run` alone and one such call without a stop.
pub fn calls_are_runs()
    ensures placed { CallsAreRuns }
    ensures resumed { ResumedCallsAreRuns }
{}

/// The law of a dial on which only turns and runs show, as `Anneal::turn_shown` and `place_run_shown` do. The turns of an annealer, or a
/// piece of a run, show readings after moves of their run, in the order of the moves, even if they fail. So each reading that a watcher
/// took before it was gathered is the first one of the dial, or one after moves of these annealers and runs. If only one of them showed,
/// the watcher's readings are in the order of its moves.
pub fn watchers_read_standings<W: Words>()
    ensures turns { TurnsShowStandings W.moves }
    ensures pieces { PiecesShowStandings }
    ensures watched { WatchersReadStandings W.moves }
    ensures order { WatchersReadInOrder W.moves }
{}

/// The law that runs lead only through lawful standings. In these, the placement is legal, with each fixed block at its site; the running
/// stage can have the range and the temperature; and no more moves are accepted than made. Moves keep this if the schedule is within its
/// limits and the words are below 2^32. A run or a resumed run begins lawfully if its checks pass.
pub fn standings_are_lawful()
    ensures moves { MovesKeepStandings }
    ensures runs { RunsBeginLawfully }
    ensures resumed { ResumedBeginLawfully }
{}

/// The law that each reading of a watcher belongs to a lawful standing, or is the dial's first one, if only lawful runs and turns of lawful
/// annealers showed on the dial. The runs of `place_run_shown` are lawful, by `standings_are_lawful`; the standing of an annealer is, by
/// the contract of `Anneal::done`.
pub fn readings_are_of_lawful_standings<W: Words>()
    ensures { WatchersReadLawful W.moves }
{}
