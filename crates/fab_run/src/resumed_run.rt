//! Resumes a run from a checkpoint text.

ghost use Rattle.std.specs.Prelude.{◌≡◌, true, OnOk, IfOk, IfErr};
ghost use Rattle.fab_file.specs.Written.{are_labels as labels_are};
ghost use Rattle.fab_run.specs.Check.{IsTextFault, report_failed_with};
ghost use Rattle.fab_run.specs.Counted.{Answers};
ghost use Rattle.fab_run.specs.Ends.{AreRedone, Piece as PieceAsked, answer_of};
ghost use Rattle.fab_run.specs.Going.{Going, HasPoint, IsGoing, IsGoingFault, IsGoingNumberFault, IsGoingTextFault};
ghost use Rattle.fab_run.specs.Setting.{Within, texts_of};
ghost use Rattle.fab_run.specs.RunChecks.{IsRefusal, place_failed_with};
ghost use Rattle.fab_run.specs.Shown.{HaveShown};
ghost use Rattle.fab_run.specs.CutShort.{IsCutShort, IsShownShort};
ghost use Rattle.fab_run.specs.Placed.{AskToGoOn, IsPlaced};
ghost use Rattle.fab_run.specs.declared.fault.RunFault.TheVariants.{NoMemory};

use crate::designs::read_design;
use crate::fault::RunFault;
use crate::inputs::{Inputs, Outcome, Restart};
use crate::piece::{Piece, run_piece, unwatched};
use crate::point_reading::point_for;
use crate::run_answer::{Ended, outcome_of};
use crate::setting::check_threads;
use crate::stages::{Environment, Pace, helpers_of};
use fab_arch::Grid;
use fab_board::{Gate, NoGate};
use fab_commit::{Anneal, Keeping, KeepsNumbers, Point};
use fab_dial::Shower;
use fab_file::{PlaceFault, are_labels};
use fab_move::StreamWords;
use fab_net::Design;
use fab_text::Sink;
use std::alloc::Global;
use std::sync::Wait;
use std::thread::Threads;

/// Reads the design from the architecture and netlist texts, then the seed, the array and the point that the checkpoint text stands for
/// with this design.
fn read_texts(
    alloc: Global,
    inputs: &Inputs,
    point: &[u8],
) -> Result<(Design, u64, Grid, Point), RunFault>
    ensures found { IfOk result (λ r.
        HasPoint (texts_of inputs.now) point.now
        (record { design = r.0; grid = r.2; seed = r.1; point = r.3 })) }
    ensures only { (s : Going) → HasPoint (texts_of inputs.now) point.now s →
        IfErr result (λ e. e ≡ NoMemory) }
    ensures fault { IfErr result (IsGoingTextFault (texts_of inputs.now) point.now) }
    ensures text { IfErr result IsTextFault }
{
    let (io_rat, design) = read_design(alloc, inputs.arch, inputs.net)?;
    let (seed, grid, point) = point_for(alloc, point, io_rat, &design)?;
    Ok((design, seed, grid, point))
}

/// Checks what comes after the texts: the labels, then the batch, then the workers.
fn check_numbers(inputs: &Inputs, batch: u64, workers: u64) -> Result<(), RunFault>
    ensures labels { OnOk result
        (labels_are inputs.now.labels.net.now inputs.now.labels.arch.now ≡ true) }
    ensures batch { OnOk result (Within 4096 batch) }
    ensures workers { OnOk result (Within 64 workers) }
    ensures fault { IfErr result (IsGoingNumberFault (texts_of inputs.now) batch workers) }
{
    if !are_labels(&inputs.labels) {
        return Err(RunFault::Place(PlaceFault::BadLabel));
    }
    check_threads(batch, workers)
}

/// Reads and checks all that a resumed run is given; fails with the first check that fails.
fn read_going(
    alloc: Global,
    inputs: &Inputs,
    point: &[u8],
    batch: u64,
    workers: u64,
) -> Result<(Design, u64, Grid, Point), RunFault>
    ensures found { IfOk result (λ r.
        IsGoing (texts_of inputs.now) point.now batch workers
        (record { design = r.0; grid = r.2; seed = r.1; point = r.3 })) }
    ensures only { (s : Going) → IsGoing (texts_of inputs.now) point.now batch workers s →
        IfErr result (λ e. e ≡ NoMemory) }
    ensures fault { IfErr result (IsGoingFault (texts_of inputs.now) point.now batch workers) }
    ensures text { IfErr result IsTextFault }
{
    let (design, seed, grid, point) = read_texts(alloc, inputs, point)?;
    check_numbers(inputs, batch, workers)?;
    Ok((design, seed, grid, point))
}

/// Resumes a run as `resume_run` does, shows its progress on the dial as `place_run_shown` does, and keeps of the accepted moves what `K`
/// selects.
pub(crate) fn resume_ended<
    K: Keeping,
    G: Gate,
    R: AllocGlobal + Threads + Wait + Sync,
    W: Sink,
    P: Sink,
>(
    environment: &Environment<'_, R, G>,
    inputs: &Inputs,
    restart: &Restart<'_>,
    shower: &mut Shower,
    report: &mut W,
    place: &mut P,
) -> Result<Ended, RunFault>
    requires own { shower.old.dial ≡ environment.now.dial.now }
    ensures headline { IfOk result (λ out.
        Answers K.numbers out (λ a.
        IsPlaced
        (AskToGoOn (texts_of inputs.now) restart.now.point.now restart.now.batch
        restart.now.workers restart.now.stop)
        (texts_of inputs.now) a (W.contents report.old) (W.contents report.new)
        (P.contents place.old) (P.contents place.new))) }
    ensures redone { IfOk result (λ out.
        (p : PieceAsked) ×
        AskToGoOn (texts_of inputs.now) restart.now.point.now restart.now.batch
        restart.now.workers restart.now.stop p ×
        (K.again ≡ true → AreRedone p restart.now.batch out.redone)) }
    ensures only { (s : Going) →
        IsGoing (texts_of inputs.now) restart.now.point.now restart.now.batch
        restart.now.workers s →
        IfErr result (λ e. ¬ IsRefusal e) }
    ensures fault { IfErr result
        (IsGoingFault (texts_of inputs.now) restart.now.point.now restart.now.batch
        restart.now.workers) }
    ensures cut_short { IfErr result
        (IsCutShort
        (AskToGoOn (texts_of inputs.now) restart.now.point.now restart.now.batch
        restart.now.workers restart.now.stop)
        (texts_of inputs.now) P.may_be_unready (W.contents report.old) (W.contents report.new)
        (P.contents place.old) (P.contents place.new)) }
    ensures sound { OnOk result ((W.failed report.new ≡ W.failed report.old) ×
        (P.failed place.new ≡ P.failed place.old)) }
    ensures failed { IfErr result (λ e.
        (W.failed report.new ≡ report_failed_with e (W.failed report.old)) ×
        (P.failed place.new ≡ place_failed_with e (P.failed place.old))) }
    ensures shown { OnOk result
        (HaveShown
        (AskToGoOn (texts_of inputs.now) restart.now.point.now restart.now.batch
        restart.now.workers restart.now.stop) restart.now.batch
        shower.old.shown shower.new.shown) }
    ensures shown_short { IfErr result
        (IsShownShort
        (AskToGoOn (texts_of inputs.now) restart.now.point.now restart.now.batch
        restart.now.workers restart.now.stop) restart.now.batch
        shower.old.shown shower.new.shown) }
    ensures dial { shower.new.dial ≡ shower.old.dial }
{
    let alloc = environment.rt.alloc();
    let (batch, workers) = (restart.batch, restart.workers);
    let (design, seed, grid, point) = read_going(alloc, inputs, restart.point, batch, workers)?;
    let pace = Pace {
        moves: point.schedule.moves(),
        batch,
        workers,
        helpers: helpers_of(environment.rt, workers),
        side: u64::from(grid.nx().max(grid.ny())),
        stop: restart.stop,
    };
    let words = StreamWords::new(seed);
    let numbered = Anneal::from_point(alloc, &design, &grid, point, words)?;
    let anneal = numbered.keeping::<K>();
    let piece = Piece {
        inputs,
        design: &design,
        grid: &grid,
        head: Vec::new(alloc),
        pace,
    };
    run_piece(environment, anneal, &piece, shower, report, place)
}

/// Resumes a run from a checkpoint text, and makes its moves up to the last one or the stop. It returns and writes what annealing one move
/// at a time from there gives. The report continues the report of the piece before: it does not repeat the first two lines, and the line of
/// the running stage also counts the moves before the checkpoint. `inputs.pads` is not read: the fixed blocks are those of the point.
///
/// An error is the first check that fails, in the order architecture, netlist, checkpoint text, labels, batch, workers; then nothing is
/// written. If no check fails, an error is the failure of a writer. Memory may run out for any inputs.
pub fn resume_run<R: AllocGlobal + Threads + Wait + Sync, W: Sink, P: Sink>(
    rt: &R,
    inputs: &Inputs,
    point: &[u8],
    batch: u64,
    workers: u64,
    stop: Option<u64>,
    report: &mut W,
    place: &mut P,
) -> Result<Outcome, RunFault>
    // The headline, from the point on.
    ensures headline { IfOk result (λ out.
        IsPlaced (AskToGoOn (texts_of inputs.now) point.now batch workers stop)
        (texts_of inputs.now) (answer_of out) (W.contents report.old) (W.contents report.new)
        (P.contents place.old) (P.contents place.new)) }
    // The texts, the stop and the batch determine how many moves were redone; the number of workers does not.
    ensures redone { IfOk result (λ out.
        (p : PieceAsked) × AskToGoOn (texts_of inputs.now) point.now batch workers stop p ×
        AreRedone p batch out.redone) }
    // If no check fails, the run succeeds unless memory runs out or a writer fails.
    ensures only { (s : Going) → IsGoing (texts_of inputs.now) point.now batch workers s →
        IfErr result (λ e. ¬ IsRefusal e) }
    // An error is the first check that fails, a lack of memory, or the failure of a writer.
    ensures fault { IfErr result (IsGoingFault (texts_of inputs.now) point.now batch workers) }
    // A refused run writes nothing. Any other fault leaves a beginning of the report. Only the place text's own writer can cut that text
    // short, and only once the whole report is written; if it is not ready, no move is made.
    ensures cut_short { IfErr result
        (IsCutShort (AskToGoOn (texts_of inputs.now) point.now batch workers stop)
        (texts_of inputs.now) P.may_be_unready (W.contents report.old) (W.contents report.new)
        (P.contents place.old) (P.contents place.new)) }
    // A writer failed only if the answer says so.
    ensures sound { OnOk result ((W.failed report.new ≡ W.failed report.old) ×
        (P.failed place.new ≡ P.failed place.old)) }
    ensures failed { IfErr result (λ e.
        (W.failed report.new ≡ report_failed_with e (W.failed report.old)) ×
        (P.failed place.new ≡ place_failed_with e (P.failed place.old))) }
{
    let (dial, mut shower) = unwatched(rt, rt.alloc())?;
    let restart = Restart {
        point,
        batch,
        workers,
        stop,
    };
    let environment = Environment {
        rt,
        gate: &NoGate,
        dial: &dial,
    };
    match resume_ended::<KeepsNumbers, NoGate, R, W, P>(
        &environment,
        inputs,
        &restart,
        &mut shower,
        report,
        place,
    ) {
        Ok(ended) => Ok(outcome_of(ended)),
        Err(fault) => Err(fault),
    }
}
