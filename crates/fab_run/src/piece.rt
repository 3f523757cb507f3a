//! A piece of a run: from an annealer's standing to its stop or to the last move, and its part of the report.

ghost use Rattle.std.specs.Prelude.{◌≡◌, ◌≢◌, ◌≤◌, ◌⊎◌, true, [], ◌∷◌, None, OnOk, OnErr, IfOk, IfErr};
ghost use Rattle.std.specs.Io.KnownBytes.{Appends};
ghost use Rattle.fab_site.specs.Placement.{IsLegal};
ghost use Rattle.fab_sched.specs.Annealing.{IsLawful};
ghost use Rattle.fab_move.specs.Stream.{stream_moves};
ghost use Rattle.fab_commit.specs.Run.Commits.{run_of};
ghost use Rattle.fab_run.specs.Piece.{end_line};
ghost use Rattle.fab_run.specs.Ends.{AreRedone, EndsAs, IsBegun, IsReportCutOf, IsReportOf, IsRoomFor, IsToldPiece, piece_of};
ghost use Rattle.fab_run.specs.Counted.{Answers, TellsMoves};
ghost use Rattle.fab_run.specs.Setting.{texts_of};
ghost use Rattle.fab_run.specs.Placed.{IsDeviceFault, IsMade, IsPlaceFault, IsPlaceOut, IsReportFault, IsTextCut, IsUnreadyFor};
ghost use Rattle.fab_run.specs.Shown.{AreShown, AreShownInPart};
ghost use Rattle.fab_run.specs.Stages.{IsNew};
ghost use Rattle.fab_run.specs.declared.fault.RunFault.TheVariants.{Place, Report};
ghost use Rattle.fab_file.specs.declared.fault.PlaceFault.TheVariants.{Write};
ghost use Rattle.fab_file.specs.Written.{IsCut, are_labels};

use crate::fault::RunFault;
use crate::inputs::{Ending, Inputs};
use crate::report::final_line;
use crate::run_answer::{Ended, ended_by};
use crate::stages::{Environment, Pace, anneal_all};
use fab_arch::Grid;
use fab_board::Gate;
use fab_commit::{Anneal, Keeping, Point};
use fab_dial::{Dial, Reading, Shower};
use fab_file::{PlaceFault, write_place};
use fab_move::StreamWords;
use fab_net::Design;
use fab_text::{Sink, write_whole};
use std::alloc::{AllocError, Global};
use std::sync::Wait;
use std::thread::Threads;

/// A requested piece, without the annealer that is to make it.
#[derive(Drop)]
pub(crate) struct Piece<'i, 't, 'd, 'g> {
    /// The texts of the run, and the file names that its place text shows.
    pub(crate) inputs: &'i Inputs<'t>,
    /// The design of the run.
    pub(crate) design: &'d Design,
    /// Its array.
    pub(crate) grid: &'g Grid,
    /// What the report shows before the first move.
    pub(crate) head: Vec<u8>,
    /// How the piece is made.
    pub(crate) pace: Pace,
}

/// A dial that nobody watches, for a run that shows nothing.
pub(crate) fn unwatched<R: Wait>(rt: &R, alloc: Global) -> Result<(Dial, Shower), AllocError>
    ensures { IfOk result (λ r. r.1.dial ≡ r.0) }
{
    let first = Reading {
        moves: 0,
        accepted: 0,
        cost: 0,
    };
    let (dial, shower, _watchers) = Dial::new(rt, alloc, 0, first)?;
    Ok((dial, shower))
}

/// Gets, before the first move, the memory of the point at which a piece with a stop may end. So the piece cannot be lost because memory
/// runs out after its last move. `None` for a piece that has no stop, or no move.
fn room_for<K: Keeping>(
    anneal: &Anneal<'_, StreamWords, K>,
    stop: Option<u64>,
) -> Result<Option<Point>, AllocError>
    ensures room { IfOk result (λ room. IsRoomFor anneal.now room) }
    ensures none { IfOk result (λ room.
        room ≡ None → (stop ≡ None) ⊎ (anneal.now.standing.heat ≡ None)) }
{
    match stop {
        None => Ok(None),
        Some(_) => anneal.point(),
    }
}

/// How the piece of an annealer ended. Its point takes the memory of `room`.
fn ending_of<K: Keeping>(anneal: &Anneal<'_, StreamWords, K>, room: Option<Point>) -> Ending
    requires room { IsRoomFor anneal.now room }
    requires none { room ≡ None → anneal.now.standing.heat ≡ None }
    ensures { EndsAs (run_of stream_moves anneal.now) anneal.now.standing result }
{
    let Some(room) = room else {
        return Ending::Finished;
    };
    match anneal.point_in(room) {
        None => Ending::Finished,
        Some(point) => Ending::Stopped(point),
    }
}

/// Writes what the report shows before the first move, and asks the writer of the place text whether it is ready. Returns a list with the
/// cost as its only item.
fn write_head<W: Sink, P: Sink>(
    alloc: Global,
    cost: u64,
    head: &[u8],
    report: &mut W,
    place: &mut P,
) -> Result<Vec<u64>, RunFault>
    ensures costs { IfOk result (λ v. v.items ≡ cost ∷ []) }
    ensures told { OnOk result (Appends (W.contents report.old) (W.contents report.new) head.now) }
    ensures cut { OnErr result (IsBegun (W.contents report.old) (W.contents report.new) head.now) }
    ensures short { IfErr result (λ e.
        e ≡ Report → IsCut head.now (W.contents report.old) (W.contents report.new)) }
    ensures unready { IfErr result (λ e.
        e ≡ Place Write → (P.may_be_unready ≡ true) ×
        Appends (W.contents report.old) (W.contents report.new) head.now) }
    ensures place { P.contents place.new ≡ P.contents place.old }
    ensures sound { OnOk result ((W.failed report.new ≡ W.failed report.old) ×
        (P.failed place.new ≡ P.failed place.old)) }
    ensures fault { IfErr result
        (IsDeviceFault (W.failed report.old) (W.failed report.new) (P.failed place.old)
        (P.failed place.new)) }
{
    let mut costs = Vec::new(alloc);
    costs.push(cost)?;
    write_whole(report, head)?;
    if !place.is_ready() {
        return Err(RunFault::Place(PlaceFault::Write));
    }
    Ok(costs)
}

/// Writes the last line of a report, if no move is left.
fn write_final_line<K: Keeping, W: Sink>(
    alloc: Global,
    anneal: &Anneal<'_, StreamWords, K>,
    report: &mut W,
) -> Result<(), RunFault>
    ensures told { OnOk result
        (Appends (W.contents report.old) (W.contents report.new)
        (end_line (run_of stream_moves anneal.now) anneal.now.standing)) }
    ensures cut { OnErr result
        (IsBegun (W.contents report.old) (W.contents report.new)
        (end_line (run_of stream_moves anneal.now) anneal.now.standing)) }
    ensures short { IfErr result (λ e.
        e ≡ Report →
        IsCut (end_line (run_of stream_moves anneal.now) anneal.now.standing)
        (W.contents report.old) (W.contents report.new)) }
    ensures sound { OnOk result (W.failed report.new ≡ W.failed report.old) }
    ensures fault { IfErr result (IsReportFault (W.failed report.old) (W.failed report.new)) }
{
    if anneal.stage().is_some() {
        return Ok(());
    }
    let line = final_line(alloc, anneal.cost(), anneal.total(), anneal.done())?;
    write_whole(report, &line)?;
    Ok(())
}

/// Writes the last line of a report, if no move is left. Returns the answer of the run. Only the text of that line needs memory.
fn finish_report<K: Keeping, W: Sink>(
    alloc: Global,
    anneal: Anneal<'_, StreamWords, K>,
    room: Option<Point>,
    costs: Vec<u64>,
    report: &mut W,
) -> Result<Ended, RunFault>
    requires room { IsRoomFor anneal room }
    requires none { room ≡ None → anneal.standing.heat ≡ None }
    ensures ending { IfOk result (λ out.
        EndsAs (run_of stream_moves anneal.entry) anneal.entry.standing out.ending) }
    ensures array { IfOk result (λ out. out.placement.grid ≡ anneal.entry.grid) }
    ensures sites { IfOk result (λ out. out.placement.sites ≡ anneal.entry.standing.sites) }
    ensures legal { IfOk result (λ out.
        IsLegal anneal.entry.design anneal.entry.grid anneal.entry.fixed out.placement.sites) }
    ensures moves { IfOk result (TellsMoves K.numbers anneal.entry.accepted) }
    ensures costs { IfOk result (λ out. out.costs.items ≡ costs.items) }
    ensures redone { IfOk result (λ out. out.redone ≡ anneal.entry.redone) }
    ensures told { OnOk result
        (Appends (W.contents report.old) (W.contents report.new)
        (end_line (run_of stream_moves anneal.entry) anneal.entry.standing)) }
    ensures cut { OnErr result
        (IsBegun (W.contents report.old) (W.contents report.new)
        (end_line (run_of stream_moves anneal.entry) anneal.entry.standing)) }
    ensures short { IfErr result (λ e.
        e ≡ Report →
        IsCut (end_line (run_of stream_moves anneal.entry) anneal.entry.standing)
        (W.contents report.old) (W.contents report.new)) }
    ensures sound { OnOk result (W.failed report.new ≡ W.failed report.old) }
    ensures fault { IfErr result (IsReportFault (W.failed report.old) (W.failed report.new)) }
{
    let ending = ending_of(&anneal, room);
    write_final_line(alloc, &anneal, report)?;
    Ok(ended_by(anneal, ending, costs))
}

/// Makes the moves of a piece, and reports them. The gate is called around the first judgement of each move, and before each commit. If the
/// gate does nothing, calls may be left out.
fn anneal_reported<K: Keeping, G: Gate, W: Sink, P: Sink, R: AllocGlobal + Threads + Wait + Sync>(
    environment: &Environment<'_, R, G>,
    mut anneal: Anneal<'_, StreamWords, K>,
    piece: &Piece<'_, '_, '_, '_>,
    shower: &mut Shower,
    report: &mut W,
    place: &mut P,
) -> Result<Ended, RunFault>
    requires own { shower.old.dial ≡ environment.now.dial.now }
    requires fresh { IsNew anneal }
    requires moves { piece.now.pace.moves ≡ anneal.plan.moves }
    requires plan { IsLawful anneal.plan }
    requires limits { (1 ≤ piece.now.pace.batch) × (piece.now.pace.batch ≤ 4096) ×
        (1 ≤ piece.now.pace.workers) × (piece.now.pace.workers ≤ 64) }
    ensures redone { IfOk result (λ out.
        K.again ≡ true →
        AreRedone (piece_of stream_moves anneal.entry piece.now.head.items piece.now.pace.stop)
        piece.now.pace.batch out.redone) }
    ensures annealed { IfOk result (λ out.
        Answers K.numbers out (λ a.
        IsToldPiece (piece_of stream_moves anneal.entry piece.now.head.items
        piece.now.pace.stop) a (W.contents report.old) (W.contents report.new))) }
    ensures cut { OnErr result
        (IsReportOf (piece_of stream_moves anneal.entry piece.now.head.items piece.now.pace.stop)
        (W.contents report.old) (W.contents report.new)) }
    ensures short { IfErr result (λ e.
        e ≡ Report →
        IsReportCutOf (piece_of stream_moves anneal.entry piece.now.head.items piece.now.pace.stop)
        (W.contents report.old) (W.contents report.new)) }
    ensures unready { IfErr result (λ e.
        e ≡ Place Write → (P.may_be_unready ≡ true) ×
        Appends (W.contents report.old) (W.contents report.new) piece.now.head.items) }
    ensures place { P.contents place.new ≡ P.contents place.old }
    ensures sound { OnOk result ((W.failed report.new ≡ W.failed report.old) ×
        (P.failed place.new ≡ P.failed place.old)) }
    ensures fault { IfErr result
        (IsDeviceFault (W.failed report.old) (W.failed report.new) (P.failed place.old)
        (P.failed place.new)) }
    ensures dial { shower.new.dial ≡ shower.old.dial }
    ensures shown { OnOk result
        (AreShown (piece_of stream_moves anneal.entry piece.now.head.items piece.now.pace.stop)
        piece.now.pace.batch shower.old.shown shower.new.shown) }
    ensures shown_cut { OnErr result
        (AreShownInPart
        (piece_of stream_moves anneal.entry piece.now.head.items piece.now.pace.stop)
        piece.now.pace.batch shower.old.shown shower.new.shown) }
{
    let alloc = environment.rt.alloc();
    let pace = piece.pace;
    let room = room_for(&anneal, pace.stop)?;
    let mut costs = write_head(alloc, anneal.cost(), &piece.head, report, place)?;
    anneal_all(environment, &mut anneal, &pace, shower, report, &mut costs)?;
    finish_report(alloc, anneal, room, costs, report)
}

/// Writes the place text of a run that is finished.
fn write_placement<P: Sink>(
    alloc: Global,
    piece: &Piece<'_, '_, '_, '_>,
    outcome: &Ended,
    place: &mut P,
) -> Result<(), RunFault>
    requires labels { are_labels piece.now.inputs.now.labels.net.now
        piece.now.inputs.now.labels.arch.now ≡ true }
    requires legal { IsLegal piece.now.design.now piece.now.grid.now []
        outcome.now.placement.sites }
    ensures whole { OnOk result
        (IsPlaceOut (texts_of piece.now.inputs.now) piece.now.design.now piece.now.grid.now
        outcome.now.placement.sites outcome.now.ending (P.contents place.old)
        (P.contents place.new)) }
    ensures sound { OnOk result (P.failed place.new ≡ P.failed place.old) }
    ensures fault { IfErr result
        (IsPlaceFault (texts_of piece.now.inputs.now) piece.now.design.now piece.now.grid.now
        outcome.now.placement.sites outcome.now.ending (P.contents place.old)
        (P.contents place.new) (P.failed place.old) (P.failed place.new)) }
{
    match &outcome.ending {
        Ending::Stopped(_) => Ok(()),
        Ending::Finished => {
            let labels = &piece.inputs.labels;
            let placement = &outcome.placement;
            write_place(alloc, place, labels, piece.design, piece.grid, placement)?;
            Ok(())
        }
    }
}

/// Makes a piece. Writes the lines of its report as its stages end. If the piece finishes the run, writes the place text once the report is
/// whole. After the head of the report and before the first move, asks the writer of the place text whether it is ready. The gate is called
/// around the first judgement of each move, and before each commit. If the gate does nothing, calls may be left out. The dial shows the
/// run's progress, once for each turn that succeeds and made moves.
pub(crate) fn run_piece<
    K: Keeping,
    G: Gate,
    R: AllocGlobal + Threads + Wait + Sync,
    W: Sink,
    P: Sink,
>(
    environment: &Environment<'_, R, G>,
    anneal: Anneal<'_, StreamWords, K>,
    piece: &Piece<'_, '_, '_, '_>,
    shower: &mut Shower,
    report: &mut W,
    place: &mut P,
) -> Result<Ended, RunFault>
    requires own { shower.old.dial ≡ environment.now.dial.now }
    requires fresh { IsNew anneal }
    requires design { piece.now.design.now ≡ anneal.design }
    requires grid { piece.now.grid.now ≡ anneal.grid }
    requires labels { are_labels piece.now.inputs.now.labels.net.now
        piece.now.inputs.now.labels.arch.now ≡ true }
    requires moves { piece.now.pace.moves ≡ anneal.plan.moves }
    requires plan { IsLawful anneal.plan }
    requires limits { (1 ≤ piece.now.pace.batch) × (piece.now.pace.batch ≤ 4096) ×
        (1 ≤ piece.now.pace.workers) × (piece.now.pace.workers ≤ 64) }
    ensures made { IfOk result (λ out.
        Answers K.numbers out (λ a.
        IsMade (texts_of piece.now.inputs.now)
        (piece_of stream_moves anneal.entry piece.now.head.items piece.now.pace.stop) a
        (W.contents report.old) (W.contents report.new) (P.contents place.old)
        (P.contents place.new))) }
    ensures redone { IfOk result (λ out.
        K.again ≡ true →
        AreRedone (piece_of stream_moves anneal.entry piece.now.head.items piece.now.pace.stop)
        piece.now.pace.batch out.redone) }
    ensures cut { OnErr result
        (IsReportOf (piece_of stream_moves anneal.entry piece.now.head.items piece.now.pace.stop)
        (W.contents report.old) (W.contents report.new)) }
    ensures report_cut { IfErr result (λ e.
        e ≡ Report →
        IsReportCutOf (piece_of stream_moves anneal.entry piece.now.head.items piece.now.pace.stop)
        (W.contents report.old) (W.contents report.new)) }
    ensures unplaced { IfErr result (λ e.
        e ≢ Place Write → P.contents place.new ≡ P.contents place.old) }
    ensures place_cut { IfErr result (λ e.
        e ≡ Place Write →
        IsUnreadyFor P.may_be_unready
        (piece_of stream_moves anneal.entry piece.now.head.items piece.now.pace.stop)
        (W.contents report.old) (W.contents report.new) (P.contents place.old)
        (P.contents place.new) ⊎
        IsTextCut (texts_of piece.now.inputs.now)
        (piece_of stream_moves anneal.entry piece.now.head.items piece.now.pace.stop)
        (W.contents report.old) (W.contents report.new) (P.contents place.old)
        (P.contents place.new)) }
    ensures sound { OnOk result ((W.failed report.new ≡ W.failed report.old) ×
        (P.failed place.new ≡ P.failed place.old)) }
    ensures fault { IfErr result
        (IsDeviceFault (W.failed report.old) (W.failed report.new) (P.failed place.old)
        (P.failed place.new)) }
    ensures dial { shower.new.dial ≡ shower.old.dial }
    ensures shown { OnOk result
        (AreShown (piece_of stream_moves anneal.entry piece.now.head.items piece.now.pace.stop)
        piece.now.pace.batch shower.old.shown shower.new.shown) }
    ensures shown_cut { OnErr result
        (AreShownInPart
        (piece_of stream_moves anneal.entry piece.now.head.items piece.now.pace.stop)
        piece.now.pace.batch shower.old.shown shower.new.shown) }
{
    let outcome = anneal_reported(environment, anneal, piece, shower, report, place)?;
    write_placement(environment.rt.alloc(), piece, &outcome, place)?;
    Ok(outcome)
}
