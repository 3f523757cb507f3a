//! A run from its start placement: from texts and numbers to a placement, or to a point where it stops.

ghost use Rattle.std.specs.Prelude.{◌≡◌, true, [], OnOk, IfOk, IfErr};
ghost use Rattle.fab_arch.specs.Grid.{Holds};
ghost use Rattle.fab_net.specs.Netlist.{logic_count, pad_count};
ghost use Rattle.fab_site.specs.Pins.{ArePins};
ghost use Rattle.fab_run.specs.Check.{report_failed_with};
ghost use Rattle.fab_run.specs.Counted.{Answers};
ghost use Rattle.fab_run.specs.Ends.{AreRedone, Piece as PieceAsked, answer_of};
ghost use Rattle.fab_run.specs.Setting.{IsSetting, Setting, setting_of, texts_of};
ghost use Rattle.fab_run.specs.RunChecks.{IsRefusal, IsRunFault, place_failed_with};
ghost use Rattle.fab_run.specs.Shown.{HaveShown};
ghost use Rattle.fab_run.specs.CutShort.{IsCutShort, IsShownShort};
ghost use Rattle.fab_run.specs.Placed.{AskFor, IsPlaced, head_by, start_by};

use crate::fault::RunFault;
use crate::inputs::{Inputs, Options, Outcome};
use crate::piece::{Piece, run_piece, unwatched};
use crate::report::head_lines;
use crate::run_answer::{Ended, outcome_of};
use crate::setting::read_setting;
use crate::stages::{Environment, Pace, helpers_of};
use fab_arch::Grid;
use fab_board::{Gate, NoGate};
use fab_commit::{Anneal, Keeping, KeepsNumbers};
use fab_dial::{Dial, Shower};
use fab_move::StreamWords;
use fab_net::Design;
use fab_sched::Schedule;
use fab_site::{Pins, start};
use fab_text::Sink;
use std::alloc::{AllocError, Global};
use std::sync::Wait;
use std::thread::Threads;

/// An annealer before its first move, on the start placement that the seed draws.
pub(crate) fn annealer<'a>(
    alloc: Global,
    design: &'a Design,
    grid: &'a Grid,
    pins: Pins,
    schedule: Schedule,
    seed: u64,
) -> Result<Anneal<'a, StreamWords>, AllocError>
    requires room { Holds grid.now (logic_count design.now) (pad_count design.now) }
    requires pins { ArePins design.now grid.now pins.fixed pins.begun }
    ensures stands { IfOk result (λ a.
        a ≡ record {
          design = design.now;
          grid = grid.now;
          fixed = pins.fixed;
          plan = schedule;
          words = seed;
          standing = start_by (setting_of design.now grid.now pins.fixed pins.begun schedule)
              seed;
          ahead = [];
          swaps = [];
          accepted = [];
          redone = 0;
        }) }
{
    let words = StreamWords::new(seed);
    let placement = start(alloc, design, grid, &pins, &words)?;
    Anneal::new(alloc, design, grid, placement, pins.fixed, schedule, words)
}

/// The same annealer, but it keeps of the accepted moves what `K` selects; and the first two lines of its report.
fn begin<'a, K: Keeping>(
    alloc: Global,
    design: &'a Design,
    grid: &'a Grid,
    pins: Pins,
    schedule: Schedule,
    seed: u64,
) -> Result<(Anneal<'a, StreamWords, K>, Vec<u8>), AllocError>
    requires room { Holds grid.now (logic_count design.now) (pad_count design.now) }
    requires pins { ArePins design.now grid.now pins.fixed pins.begun }
    ensures stands { IfOk result (λ r.
        r.0 ≡ record {
          design = design.now;
          grid = grid.now;
          fixed = pins.fixed;
          plan = schedule;
          words = seed;
          standing = start_by (setting_of design.now grid.now pins.fixed pins.begun schedule)
              seed;
          ahead = [];
          swaps = [];
          accepted = [];
          redone = 0;
        }) }
    ensures head { IfOk result (λ r.
        r.1.items ≡ head_by (setting_of design.now grid.now pins.fixed pins.begun schedule) seed) }
{
    let numbered = annealer(alloc, design, grid, pins, schedule, seed)?;
    let anneal = numbered.keeping::<K>();
    let head = head_lines(alloc, design, grid, anneal.cost())?;
    Ok((anneal, head))
}

/// Places the design of a run as `place_run_shown` does, and keeps of the accepted moves what `K` selects.
pub(crate) fn place_ended<
    K: Keeping,
    G: Gate,
    R: AllocGlobal + Threads + Wait + Sync,
    W: Sink,
    P: Sink,
>(
    environment: &Environment<'_, R, G>,
    inputs: &Inputs,
    options: &Options,
    shower: &mut Shower,
    report: &mut W,
    place: &mut P,
) -> Result<Ended, RunFault>
    requires own { shower.old.dial ≡ environment.now.dial.now }
    ensures headline { IfOk result (λ out.
        Answers K.numbers out (λ a.
        IsPlaced (AskFor (texts_of inputs.now) options.now) (texts_of inputs.now) a
        (W.contents report.old) (W.contents report.new) (P.contents place.old)
        (P.contents place.new))) }
    ensures redone { IfOk result (λ out.
        (p : PieceAsked) × AskFor (texts_of inputs.now) options.now p ×
        (K.again ≡ true → AreRedone p options.now.batch out.redone)) }
    ensures only { (s : Setting) → IsSetting (texts_of inputs.now) options.now s →
        IfErr result (λ e. ¬ IsRefusal e) }
    ensures fault { IfErr result (IsRunFault (texts_of inputs.now) options.now) }
    ensures cut_short { IfErr result
        (IsCutShort (AskFor (texts_of inputs.now) options.now) (texts_of inputs.now)
        P.may_be_unready (W.contents report.old) (W.contents report.new) (P.contents place.old)
        (P.contents place.new)) }
    ensures sound { OnOk result ((W.failed report.new ≡ W.failed report.old) ×
        (P.failed place.new ≡ P.failed place.old)) }
    ensures failed { IfErr result (λ e.
        (W.failed report.new ≡ report_failed_with e (W.failed report.old)) ×
        (P.failed place.new ≡ place_failed_with e (P.failed place.old))) }
    ensures shown { OnOk result
        (HaveShown (AskFor (texts_of inputs.now) options.now) options.now.batch shower.old.shown
        shower.new.shown) }
    ensures shown_short { IfErr result
        (IsShownShort (AskFor (texts_of inputs.now) options.now) options.now.batch
        shower.old.shown shower.new.shown) }
    ensures dial { shower.new.dial ≡ shower.old.dial }
{
    let alloc = environment.rt.alloc();
    let (design, grid, pins, schedule) = read_setting(alloc, inputs, options)?;
    let pace = Pace {
        moves: schedule.moves(),
        batch: options.batch,
        workers: options.workers,
        helpers: helpers_of(environment.rt, options.workers),
        side: u64::from(grid.nx().max(grid.ny())),
        stop: options.stop,
    };
    let (anneal, head) = begin::<K>(alloc, &design, &grid, pins, schedule, options.seed)?;
    let piece = Piece {
        inputs,
        design: &design,
        grid: &grid,
        head,
        pace,
    };
    run_piece(environment, anneal, &piece, shower, report, place)
}

/// Places the design of a run as `place_run` does, and shows its progress on the dial: the moves made, how many of them were accepted, and
/// the cost, in ten-thousandths. There is one reading for each turn that succeeds: at the start of each turn except the first, and at the
/// end of the last one. Turns have `batch` moves, counted from the first move of each stage. The last turn of a stage or of a stopped run
/// may be shorter. The shower must be one of this dial.
///
/// The gate is called before and after each judgement that is made ahead, and before each commit. Stages in which nothing is judged ahead
/// are made only if the gate does nothing. If its calls return, the placement and the output are those of `place_run`, whatever the gate
/// does.
pub fn place_run_shown<G: Gate, R: AllocGlobal + Threads + Wait + Sync, W: Sink, P: Sink>(
    rt: &R,
    inputs: &Inputs,
    options: &Options,
    gate: &G,
    dial: &Dial,
    shower: &mut Shower,
    report: &mut W,
    place: &mut P,
) -> Result<Outcome, RunFault>
    requires own { shower.old.dial ≡ dial.now }
    // The headline: placement, accepted moves, costs, report, ending and place text are those of annealing one move at a time.
    ensures headline { IfOk result (λ out.
        IsPlaced (AskFor (texts_of inputs.now) options.now) (texts_of inputs.now) (answer_of out)
        (W.contents report.old) (W.contents report.new) (P.contents place.old)
        (P.contents place.new)) }
    // Setting, seed, stop and batch determine how many moves were redone; the number of workers does not.
    ensures redone { IfOk result (λ out.
        (p : PieceAsked) × AskFor (texts_of inputs.now) options.now p ×
        AreRedone p options.now.batch out.redone) }
    // If no check fails, the run succeeds unless memory runs out or a writer fails.
    ensures only { (s : Setting) → IsSetting (texts_of inputs.now) options.now s →
        IfErr result (λ e. ¬ IsRefusal e) }
    // An error is the first check that fails, a lack of memory, or the failure of a writer.
    ensures fault { IfErr result (IsRunFault (texts_of inputs.now) options.now) }
    // A refused run writes nothing. Any other fault leaves a beginning of the report. Only the place text's own writer can cut that text
    // short, and only once the whole report is written; if it is not ready, no move is made.
    ensures cut_short { IfErr result
        (IsCutShort (AskFor (texts_of inputs.now) options.now) (texts_of inputs.now)
        P.may_be_unready (W.contents report.old) (W.contents report.new) (P.contents place.old)
        (P.contents place.new)) }
    // A writer failed only if the answer says so.
    ensures sound { OnOk result ((W.failed report.new ≡ W.failed report.old) ×
        (P.failed place.new ≡ P.failed place.old)) }
    ensures failed { IfErr result (λ e.
        (W.failed report.new ≡ report_failed_with e (W.failed report.old)) ×
        (P.failed place.new ≡ place_failed_with e (P.failed place.old))) }
    // The progress is shown at the start of each turn but the first, and at the end if moves were made.
    ensures shown { OnOk result
        (HaveShown (AskFor (texts_of inputs.now) options.now) options.now.batch shower.old.shown
        shower.new.shown) }
    // A refused run shows nothing. Any other fault leaves a beginning of these readings.
    ensures shown_short { IfErr result
        (IsShownShort (AskFor (texts_of inputs.now) options.now) options.now.batch
        shower.old.shown shower.new.shown) }
    ensures dial { shower.new.dial ≡ shower.old.dial }
{
    let environment = Environment { rt, gate, dial };
    match place_ended::<KeepsNumbers, G, R, W, P>(
        &environment,
        inputs,
        options,
        shower,
        report,
        place,
    ) {
        Ok(ended) => Ok(outcome_of(ended)),
        Err(fault) => Err(fault),
    }
}

/// Places the design of a run: anneals it from a start placement, with random words of the seed, up to the last move or the stop. The
/// calling thread makes some stages alone (docs/ARCHITECTURE.md, "When the owner goes alone"). In the other stages, workers judge moves
/// ahead. Moves are committed in order of number, so the answer is that of one move after another. The report's lines are written as their
/// stages end, and the place text once the report is whole. A run that stops writes no place text: it returns the point where it stopped,
/// and `resume_run` goes on from there. After the report's first two lines and before the first move, the writer of the place text is asked
/// whether it is ready. What is placed and written does not depend on batch and workers, if these are within their limits.
///
/// An error is the first check that fails, in the order architecture, netlist, size (range, logic sites, pad sites), location text, labels,
/// schedule, batch, workers; then nothing is written. If no check fails, an error is the failure of a writer. Memory may run out for any
/// inputs.
pub fn place_run<R: AllocGlobal + Threads + Wait + Sync, W: Sink, P: Sink>(
    rt: &R,
    inputs: &Inputs,
    options: &Options,
    report: &mut W,
    place: &mut P,
) -> Result<Outcome, RunFault>
    // The headline: placement, accepted moves, costs, report, ending and place text are those of annealing one move at a time.
    ensures headline { IfOk result (λ out.
        IsPlaced (AskFor (texts_of inputs.now) options.now) (texts_of inputs.now) (answer_of out)
        (W.contents report.old) (W.contents report.new) (P.contents place.old)
        (P.contents place.new)) }
    // Setting, seed, stop and batch determine how many moves were redone; the number of workers does not.
    ensures redone { IfOk result (λ out.
        (p : PieceAsked) × AskFor (texts_of inputs.now) options.now p ×
        AreRedone p options.now.batch out.redone) }
    // If no check fails, the run succeeds unless memory runs out or a writer fails.
    ensures only { (s : Setting) → IsSetting (texts_of inputs.now) options.now s →
        IfErr result (λ e. ¬ IsRefusal e) }
    // An error is the first check that fails, a lack of memory, or the failure of a writer.
    ensures fault { IfErr result (IsRunFault (texts_of inputs.now) options.now) }
    // A refused run writes nothing. Any other fault leaves a beginning of the report. Only the place text's own writer can cut that text
    // short, and only once the whole report is written; if it is not ready, no move is made.
    ensures cut_short { IfErr result
        (IsCutShort (AskFor (texts_of inputs.now) options.now) (texts_of inputs.now)
        P.may_be_unready (W.contents report.old) (W.contents report.new) (P.contents place.old)
        (P.contents place.new)) }
    // A writer failed only if the answer says so.
    ensures sound { OnOk result ((W.failed report.new ≡ W.failed report.old) ×
        (P.failed place.new ≡ P.failed place.old)) }
    ensures failed { IfErr result (λ e.
        (W.failed report.new ≡ report_failed_with e (W.failed report.old)) ×
        (P.failed place.new ≡ place_failed_with e (P.failed place.old))) }
{
    let (dial, mut shower) = unwatched(rt, rt.alloc())?;
    place_run_shown(
        rt,
        inputs,
        options,
        &NoGate,
        &dial,
        &mut shower,
        report,
        place,
    )
}
