//! Runs that only count the accepted moves and keep no numbers of them, so the memory that they need does not grow with their moves. Each
//! is the same run as the one that returns the numbers. They do not return how many moves turns of the batch redo, so footprints are looked
//! at only in stages with a crew. In all else their contracts are the same.

ghost use Rattle.std.specs.Prelude.{◌≡◌, OnOk, IfOk, IfErr};
ghost use Rattle.fab_run.specs.Check.{report_failed_with};
ghost use Rattle.fab_run.specs.Counted.{Counts};
ghost use Rattle.fab_run.specs.Going.{Going, IsGoing, IsGoingFault};
ghost use Rattle.fab_run.specs.Setting.{IsSetting, Setting, texts_of};
ghost use Rattle.fab_run.specs.RunChecks.{IsRefusal, IsRunFault, place_failed_with};
ghost use Rattle.fab_run.specs.CutShort.{IsCutShort};
ghost use Rattle.fab_run.specs.Placed.{AskFor, AskToGoOn, IsPlaced};

use crate::fault::RunFault;
use crate::fresh_run::place_ended;
use crate::inputs::{CountedOutcome, Inputs, Options, Restart};
use crate::piece::unwatched;
use crate::resumed_run::resume_ended;
use crate::run_answer::counted_of;
use crate::stages::Environment;
use fab_board::NoGate;
use fab_commit::KeepsCount;
use fab_text::Sink;
use std::sync::Wait;
use std::thread::Threads;

/// Places the design of a run as [`place_run`](crate::place_run) does, and returns how many moves were accepted, without their numbers.
pub fn place_run_counted<R: AllocGlobal + Threads + Wait + Sync, W: Sink, P: Sink>(
    rt: &R,
    inputs: &Inputs,
    options: &Options,
    report: &mut W,
    place: &mut P,
) -> Result<CountedOutcome, RunFault>
    // The headline: placement, number of accepted moves, costs, report, ending and place text are those of annealing one move at a time.
    ensures headline { IfOk result (λ out.
        Counts out (λ a.
        IsPlaced (AskFor (texts_of inputs.now) options.now) (texts_of inputs.now) a
        (W.contents report.old) (W.contents report.new) (P.contents place.old)
        (P.contents place.new))) }
    // If no check fails, the run succeeds unless memory runs out or a writer fails.
    ensures only { (s : Setting) → IsSetting (texts_of inputs.now) options.now s →
        IfErr result (λ e. ¬ IsRefusal e) }
    // An error is the first check that fails, a lack of memory, or the failure of a writer.
    ensures fault { IfErr result (IsRunFault (texts_of inputs.now) options.now) }
    // A refused run writes nothing. Any other fault leaves a beginning of the report. Only the place text's own writer can cut that text
    // short, and only once the whole report is written; if it is not ready, no move is made.
    ensures cut_short { IfErr result
        (IsCutShort (AskFor (texts_of inputs.now) options.now) (texts_of inputs.now)
        P.may_be_unready (W.contents report.old) (W.contents report.new) (P.contents place.old)
        (P.contents place.new)) }
    // A writer failed only if the answer says so.
    ensures sound { OnOk result ((W.failed report.new ≡ W.failed report.old) ×
        (P.failed place.new ≡ P.failed place.old)) }
    ensures failed { IfErr result (λ e.
        (W.failed report.new ≡ report_failed_with e (W.failed report.old)) ×
        (P.failed place.new ≡ place_failed_with e (P.failed place.old))) }
{
    let (dial, mut shower) = unwatched(rt, rt.alloc())?;
    let environment = Environment {
        rt,
        gate: &NoGate,
        dial: &dial,
    };
    match place_ended::<KeepsCount, NoGate, R, W, P>(
        &environment,
        inputs,
        options,
        &mut shower,
        report,
        place,
    ) {
        Ok(ended) => Ok(counted_of(ended)),
        Err(fault) => Err(fault),
    }
}

/// Resumes a run from a checkpoint text as [`resume_run`](crate::resume_run) does, and returns how many moves were accepted, without their
/// numbers.
pub fn resume_run_counted<R: AllocGlobal + Threads + Wait + Sync, W: Sink, P: Sink>(
    rt: &R,
    inputs: &Inputs,
    restart: &Restart<'_>,
    report: &mut W,
    place: &mut P,
) -> Result<CountedOutcome, RunFault>
    // The headline, from the point on.
    ensures headline { IfOk result (λ out.
        Counts out (λ a.
        IsPlaced
        (AskToGoOn (texts_of inputs.now) restart.now.point.now restart.now.batch
        restart.now.workers restart.now.stop)
        (texts_of inputs.now) a (W.contents report.old) (W.contents report.new)
        (P.contents place.old) (P.contents place.new))) }
    // If no check fails, the run succeeds unless memory runs out or a writer fails.
    ensures only { (s : Going) →
        IsGoing (texts_of inputs.now) restart.now.point.now restart.now.batch
        restart.now.workers s →
        IfErr result (λ e. ¬ IsRefusal e) }
    // An error is the first check that fails, a lack of memory, or the failure of a writer.
    ensures fault { IfErr result
        (IsGoingFault (texts_of inputs.now) restart.now.point.now restart.now.batch
        restart.now.workers) }
    // A refused run writes nothing. Any other fault leaves a beginning of the report. Only the place text's own writer can cut that text
    // short, and only once the whole report is written; if it is not ready, no move is made.
    ensures cut_short { IfErr result
        (IsCutShort
        (AskToGoOn (texts_of inputs.now) restart.now.point.now restart.now.batch
        restart.now.workers restart.now.stop)
        (texts_of inputs.now) P.may_be_unready (W.contents report.old) (W.contents report.new)
        (P.contents place.old) (P.contents place.new)) }
    // A writer failed only if the answer says so.
    ensures sound { OnOk result ((W.failed report.new ≡ W.failed report.old) ×
        (P.failed place.new ≡ P.failed place.old)) }
    ensures failed { IfErr result (λ e.
        (W.failed report.new ≡ report_failed_with e (W.failed report.old)) ×
        (P.failed place.new ≡ place_failed_with e (P.failed place.old))) }
{
    let (dial, mut shower) = unwatched(rt, rt.alloc())?;
    let environment = Environment {
        rt,
        gate: &NoGate,
        dial: &dial,
    };
    match resume_ended::<KeepsCount, NoGate, R, W, P>(
        &environment,
        inputs,
        restart,
        &mut shower,
        report,
        place,
    ) {
        Ok(ended) => Ok(counted_of(ended)),
        Err(fault) => Err(fault),
    }
}
