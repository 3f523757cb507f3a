//! Makes the stages of a run one after another, decides which of them a crew judges ahead, and reports each as it ends.

ghost use Rattle.std.specs.Prelude.{◌≡◌, ℕ, ◌+◌, ◌-◌, ◌<◌, ◌≤◌, ◌++◌, min, true, Some, OnOk, OnErr, IfOk, IfErr, MatchOption};
ghost use Rattle.fab_sched.specs.Annealing.{IsLawful};
ghost use Rattle.fab_commit.specs.Serial.{moves_left, stage_of};
ghost use Rattle.fab_commit.specs.Run.Commits.{IsSameRun, run_of};
ghost use Rattle.fab_commit.specs.Run.Readings.{readings};
ghost use Rattle.fab_run.specs.Piece.{stage_costs, stage_lines};
ghost use Rattle.fab_run.specs.Placed.{IsReportFault};
ghost use Rattle.fab_run.specs.Shown.{AreShownBegun};
ghost use Rattle.fab_run.specs.Stages.{AreCut, AreMade, LeadsOn};

use crate::fault::RunFault;
use crate::report::stage_line;
use fab_board::Gate;
use fab_commit::{Anneal, Keeping, StagePlan};
use fab_dial::{Dial, Shower};
use fab_sched::Stage;
use fab_site::Words;
use fab_text::{Sink, write_whole};
use std::alloc::AllocError;
use std::sync::Wait;
use std::thread;
use std::thread::Threads;

/// What a run is made in: the system, the gate of its judgements and commits, and the dial that shows how far it has come.
#[derive(Clone, Copy)]
pub(crate) struct Environment<'g, R: Wait, G: Gate> {
    pub(crate) rt: &'g R,
    pub(crate) gate: &'g G,
    pub(crate) dial: &'g Dial,
}

/// How a piece of a run is made.
#[derive(Clone, Copy)]
pub(crate) struct Pace {
    /// How many moves a stage has.
    pub(crate) moves: u64,
    /// How many moves a turn commits at most.
    pub(crate) batch: u64,
    /// How many workers are asked for.
    pub(crate) workers: u64,
    /// How many of the workers find a processor beside the one of the calling thread.
    pub(crate) helpers: u64,
    /// The longer side of the array: its columns or its rows.
    pub(crate) side: u64,
    /// After how many moves of the run the piece stops.
    pub(crate) stop: Option<u64>,
}

/// How many moves the running stage makes before the stop; `None` if the run does not stop before the stage ends. The run has made `done`
/// moves, and `left` moves of the stage are left.
fn moves_before(stop: Option<u64>, done: u64, left: u64) -> Option<u64>
    ensures { MatchOption result ((m : ℕ) → stop ≡ Some (done + m) → left ≤ m) (λ rest.
        (stop ≡ Some (done + rest)) × (rest < left)) }
{
    let Some(stop) = stop else {
        return None;
    };
    if stop < done {
        return None;
    }
    let rest = stop - done;
    if left <= rest {
        return None;
    }
    Some(rest)
}

/// How many of `workers` workers find one of `processors` processors beside the one of the calling thread.
fn helpers_beside(workers: u64, processors: u64) -> u64
    ensures { result ≡ min workers (processors - 1) }
{
    workers.min(processors.saturating_sub(1))
}

/// How many of `workers` workers find a processor beside the one of the calling thread; 0 if the system does not report its processors.
pub(crate) fn helpers_of<R: Threads>(rt: &R, workers: u64) -> u64 {
    match thread::available_parallelism(rt) {
        Ok(processors) => helpers_beside(workers, processors.get() as u64),
        Err(_) => 0,
    }
}

/// The fewest moves of a stage for which a crew pays if three or more workers help: starting it takes the time of some thousands of moves.
const FEWEST_MOVES: u64 = 5_000;

/// The same if two workers help: such a crew lost time in stages of 185,000 and of 300,000 moves, and saved a little in stages of a
/// million.
const FEWEST_MOVES_OF_TWO: u64 = 1_000_000;

/// The smallest batch for which a crew pays: with a smaller one, handing over takes as much time as judging.
const LEAST_BATCH: u64 = 16;

/// The fewest blocks for which a crew pays even in stages that are not cold yet.
const MIDDLE_DESIGN: usize = 2_500;

/// The greatest range of such a stage, in thousandths of the array's longer side.
const MIDDLE_RANGE: u64 = 750;

/// The least range of a stage, in thousandths. A stage has it if few moves of the stages before were accepted.
const LEAST_RANGE: u64 = 1000;

/// Whether a crew judges this stage's moves ahead. Otherwise the owner judges each when its turn comes. A crew saves time if two or more
/// workers get a processor of their own and few moves are accepted. The range shows whether few are accepted: it shrinks while fewer than
/// 44 of 100 moves are. Only the standing, the design, the options and the machine decide. So a resumed run decides as the unbroken run
/// does on the same machine. The bounds were measured on programs built with other bounds. A gate that does something sees who judges; with
/// such a gate a crew judges all moves.
pub(crate) fn is_judged_ahead(
    stage: &Stage,
    blocks: usize,
    pace: &Pace,
    does_nothing: bool,
) -> bool {
    if !does_nothing {
        return true;
    }
    let fewest = if pace.helpers >= 3 {
        FEWEST_MOVES
    } else {
        FEWEST_MOVES_OF_TWO
    };
    if pace.helpers < 2 || pace.batch < LEAST_BATCH || pace.moves < fewest {
        return false;
    }
    let is_cold = stage.frozen || stage.range <= LEAST_RANGE;
    let is_cooler = stage.range <= pace.side.saturating_mul(MIDDLE_RANGE);
    is_cold || is_cooler && blocks >= MIDDLE_DESIGN
}

/// How many workers a crew has, at least one. If the gate does nothing, it has those that find a processor, since a worker without one
/// holds the others up. With any other gate, it has all workers that were asked for: the gate may hold a worker until another makes a call.
pub(crate) fn crew_size(pace: &Pace, does_nothing: bool) -> u64
    requires { (1 ≤ pace.now.workers) × (pace.now.workers ≤ 64) }
    ensures { (1 ≤ result) × (result ≤ 64) }
{
    if does_nothing {
        pace.helpers.max(1).min(pace.workers)
    } else {
        pace.workers
    }
}

/// Makes the next `count` moves of the running stage, in turns of one batch, and a shorter turn for the rest. The stage must have at least
/// one move left, and at least `count`. If `ahead`, a crew that lives for these moves judges them ahead. Otherwise the owner judges each
/// when its turn comes. The moves, their costs and, if counted, the number of redone moves are the same.
pub(crate) fn make_moves<
    V: Words + Send + Sync + Drop,
    K: Keeping,
    G: Gate,
    R: Threads + Wait + Sync,
>(
    rt: &R,
    anneal: &mut Anneal<'_, V, K>,
    count: u64,
    ahead: bool,
    plan: &StagePlan<'_, G>,
    shower: &mut Shower,
) -> Result<(), AllocError>
    requires some { (count ≤ moves_left (run_of V.moves anneal.old) anneal.old.standing) ×
        (0 < moves_left (run_of V.moves anneal.old) anneal.old.standing) }
    requires own { shower.old.dial ≡ plan.now.dial.now }
    requires limits { (1 ≤ plan.now.batch) × (plan.now.batch ≤ 4096) × (1 ≤ plan.now.workers) ×
        (plan.now.workers ≤ 64) }
    ensures made { LeadsOn V.moves K.again plan.now.batch count anneal.old anneal.new result
        shower.old.shown shower.new.shown }
    ensures dial { shower.new.dial ≡ shower.old.dial }
{
    if ahead && count > 0 {
        return anneal.make_beside(rt, count, plan, shower);
    }
    anneal.make_alone(rt, count, plan, shower)
}

/// The running stage, how many moves a stage has, and whether a crew judges them ahead.
#[derive(Drop)]
struct Running {
    stage: Stage,
    moves: u64,
    ahead: bool,
}

/// Makes the moves that are left in the running stage, in turns of one batch, and appends the cost after them to `costs`. Returns the
/// report's line of the stage.
fn end_stage<V: Words + Send + Sync + Drop, K: Keeping, G: Gate, R: Threads + Wait + Sync>(
    rt: &R,
    anneal: &mut Anneal<'_, V, K>,
    running: &Running,
    plan: &StagePlan<'_, G>,
    shower: &mut Shower,
    costs: &mut Vec<u64>,
) -> Result<Vec<u8>, AllocError>
    requires stage { Some running.now.stage ≡
        stage_of (run_of V.moves anneal.old) anneal.old.standing }
    requires moves { running.now.moves ≡ anneal.old.plan.moves }
    requires some { 1 ≤ running.now.moves }
    requires own { shower.old.dial ≡ plan.now.dial.now }
    requires limits { (1 ≤ plan.now.batch) × (plan.now.batch ≤ 4096) × (1 ≤ plan.now.workers) ×
        (plan.now.workers ≤ 64) }
    ensures made { LeadsOn V.moves K.again plan.now.batch
        (moves_left (run_of V.moves anneal.old) anneal.old.standing) anneal.old anneal.new result
        shower.old.shown shower.new.shown }
    ensures costs { OnOk result
        (costs.new.items ≡
        costs.old.items ++
        stage_costs (run_of V.moves anneal.old) anneal.old.standing
        (moves_left (run_of V.moves anneal.old) anneal.old.standing)) }
    ensures line { IfOk result (λ v.
        v.items ≡ stage_lines (run_of V.moves anneal.old) anneal.old.standing
        (moves_left (run_of V.moves anneal.old) anneal.old.standing)) }
    ensures dial { shower.new.dial ≡ shower.old.dial }
{
    let before = anneal.total();
    let _begun = anneal.done();
    let Running {
        stage,
        moves,
        ahead,
    } = running;
    let left = *moves - stage.done;
    make_moves(rt, anneal, left, *ahead, plan, shower)?;
    let _made = anneal.done();
    let cost = anneal.cost();
    let accepted = stage.accepted + (anneal.total() - before);
    costs.push(cost)?;
    stage_line(*costs.allocator(), stage, *moves, accepted, cost)
}

/// Makes the moves of a piece, up to its stop or to the last move, and writes the line of each stage as it ends.
pub(crate) fn anneal_all<
    V: Words + Send + Sync + Drop,
    K: Keeping,
    G: Gate,
    W: Sink,
    R: Threads + Wait + Sync,
>(
    environment: &Environment<'_, R, G>,
    anneal: &mut Anneal<'_, V, K>,
    pace: &Pace,
    shower: &mut Shower,
    report: &mut W,
    costs: &mut Vec<u64>,
) -> Result<(), RunFault>
    requires moves { pace.now.moves ≡ anneal.old.plan.moves }
    requires plan { IsLawful anneal.old.plan }
    requires own { shower.old.dial ≡ environment.now.dial.now }
    requires limits { (1 ≤ pace.now.batch) × (pace.now.batch ≤ 4096) × (1 ≤ pace.now.workers) ×
        (pace.now.workers ≤ 64) }
    ensures same { IsSameRun anneal.old anneal.new }
    ensures made { OnOk result
        (AreMade V.moves K.again pace.now.stop pace.now.batch anneal.old anneal.new costs.old.items
        costs.new.items (W.contents report.old) (W.contents report.new)) }
    ensures cut { IfErr result
        (AreCut (run_of V.moves anneal.old) anneal.old.standing pace.now.stop
        (W.contents report.old) (W.contents report.new)) }
    ensures sound { OnOk result (W.failed report.new ≡ W.failed report.old) }
    ensures fault { IfErr result (IsReportFault (W.failed report.old) (W.failed report.new)) }
    ensures dial { shower.new.dial ≡ shower.old.dial }
    ensures shown { OnOk result
        (shower.new.shown ≡
        shower.old.shown ++
        readings (run_of V.moves anneal.old) anneal.old.standing pace.now.batch
        (anneal.new.standing.done - anneal.old.standing.done)) }
    ensures shown_cut { OnErr result
        (AreShownBegun (run_of V.moves anneal.old) anneal.old.standing pace.now.stop pace.now.batch
        shower.old.shown shower.new.shown) }
{
    let Environment { rt, gate, dial } = *environment;
    let does_nothing = gate.does_nothing();
    let blocks = anneal.placement().blocks();
    let plan = StagePlan {
        batch: pace.batch,
        workers: crew_size(pace, does_nothing),
        gate,
        dial,
    };
    while let Some(stage) = anneal.stage() {
        let ahead = is_judged_ahead(&stage, blocks, pace, does_nothing);
        if let Some(rest) = moves_before(pace.stop, anneal.done(), pace.moves - stage.done) {
            make_moves(rt, anneal, rest, ahead, &plan, shower)?;
            return Ok(());
        }
        let running = Running {
            stage,
            moves: pace.moves,
            ahead,
        };
        let line = end_stage(rt, anneal, &running, &plan, shower, costs)?;
        write_whole(report, &line)?;
    }
    Ok(())
}
