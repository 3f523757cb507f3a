//! The state of a run, and how one move changes it.

ghost use Rattle.std.specs.Prelude.{◌≡◌, ℕ, ◌+◌, ◌-◌, ◌*◌, ◌^◌, ◌<◌, ◌≤◌, List, [], ◌∷◌, max, true, false, Option, Some, IfOk};
ghost use Rattle.fab_sched.specs.Annealing.{IsStage, next_range};
ghost use Rattle.fab_site.specs.Placement.{IsLegal, IsSwapOf};
ghost use Rattle.fab_cost.specs.Swapping.{CountedStandsFor};
ghost use Rattle.fab_move.specs.Judge.{IsDecision, Judged, moved, says};
ghost use Rattle.fab_commit.specs.Serial.{Run, after_move, at_start, judged_here, left_at, numbers_if, one_if, side, stage_of};
ghost use Rattle.fab_commit.specs.Run.Noted.{HasRoomFor, noted, noted_more};
ghost use Rattle.fab_commit.specs.Run.Commits.{IsAdvanced, IsSound, heat_of, run, run_for, standing_in, standing_of};

use crate::run::numbers::note;
use fab_arch::Grid;
use fab_cost::{EdgeBoxes, WireCost};
use fab_move::{Decision, Verdict, View, judge, weigh};
use fab_net::Design;
use fab_sched::{Schedule, Stage};
use fab_site::{Fixed, Placement, Swap, Words};
use std::alloc::{AllocError, Global};

/// What a run is given.
pub(crate) struct Given<'a, W> {
    pub(crate) alloc: Global,
    pub(crate) design: &'a Design,
    pub(crate) grid: &'a Grid,
    pub(crate) fixed: Fixed,
    pub(crate) schedule: Schedule,
    pub(crate) words: W,
}

impl<'a, W: Drop> Drop for Given<'a, W> {
    // This is one call wherever a value goes out of scope. A derived `drop` would be proved again at each place.
    fn drop(self) {
        let Given {
            alloc: _,
            design: _,
            grid: _,
            fixed: _,
            schedule: _,
            words: _,
        } = self;
    }
}

/// The state of a run.
pub(crate) struct State {
    pub(crate) placement: Placement,
    pub(crate) cost: EdgeBoxes,
    /// The running stage; after the last move, an empty stage after the frozen one.
    pub(crate) stage: Stage,
    pub(crate) ended: bool,
    pub(crate) done: u64,
    pub(crate) total: u64,
    /// The numbers of the moves that were accepted; `None` if no numbers are kept.
    pub(crate) accepted: Option<Vec<u64>>,
}

impl Drop for State {
    // This is one call wherever a value goes out of scope. A derived `drop` would be proved again at each place.
    fn drop(self) {
        let State {
            placement: _,
            cost: _,
            stage: _,
            ended: _,
            done: _,
            total: _,
            accepted: _,
        } = self;
    }
}

impl State {
    /// The placement, and the numbers of accepted moves that are kept.
    pub(crate) fn into_parts(self) -> (Placement, Option<Vec<u64>>)
        ensures { (result.0 ≡ self.placement) × (result.1 ≡ self.accepted) }
    {
        let State {
            placement,
            cost: _,
            stage: _,
            ended: _,
            done: _,
            total: _,
            accepted,
        } = self;
        (placement, accepted)
    }
}

/// The longer side of an array.
fn side_of(grid: &Grid) -> u16
    ensures value { result ≡ max grid.now.nx grid.now.ny }
    ensures limits { (1 ≤ result) × (result ≤ 1000) }
{
    grid.nx().max(grid.ny())
}

/// Counts one more move of a stage, and goes on to the next stage after its last one. Returns whether that was the last move of all.
#[inline(always)]
fn advance(schedule: &Schedule, side: u16, stage: &mut Stage, accepted: bool) -> bool
    requires side { (1 ≤ side) × (side ≤ 1000) }
    requires stage { IsStage schedule.now side stage.old }
    requires left { stage.old.done < schedule.now.moves }
    ensures { IsAdvanced schedule.now side stage.old accepted stage.new result }
{
    let moves = schedule.moves();
    stage.done += 1;
    stage.accepted += u64::from(accepted);
    if stage.done < moves {
        return false;
    }
    let made = *stage;
    match schedule.next_stage(&made, made.accepted, side) {
        Some(next) => {
            *stage = next;
            false
        }
        None => {
            *stage = stage_after_frozen(schedule, side, &made);
            true
        }
    }
}

/// The empty stage after the frozen one.
fn stage_after_frozen(schedule: &Schedule, side: u16, frozen: &Stage) -> Stage
    requires side { (1 ≤ side) × (side ≤ 1000) }
    requires stage { IsStage schedule.now side frozen.now }
    ensures { result ≡
        record {
          index = frozen.now.index + 1;
          t = 0;
          range = next_range schedule.now side frozen.now.range frozen.now.accepted;
          done = 0;
          accepted = 0;
          frozen = true;
        } }
{
    let _moves = schedule.moves();
    Stage {
        index: frozen.index + 1,
        t: 0,
        range: schedule.next_range(side, frozen.range, frozen.accepted),
        done: 0,
        accepted: 0,
        frozen: true,
    }
}

/// Counts a move, if it is accepted.
fn count(accepted: &mut Option<Vec<u64>>, total: &mut u64, number: u64, took: bool)
    requires room { HasRoomFor accepted.old 1 }
    requires few { total.old < 2 ^ 61 }
    ensures accepted { noted accepted.new ≡
        noted_more (noted accepted.old) (numbers_if number took) }
    ensures total { total.new ≡ total.old + one_if took }
    ensures room { (n : ℕ) → HasRoomFor accepted.old (n + 1) → HasRoomFor accepted.new n }
{
    if took {
        note(accepted, number);
        *total += 1;
    }
}

/// Commits the next move as it was decided.
#[inline(always)]
pub(crate) fn commit<W: Words>(given: &Given<'_, W>, state: &mut State, decision: &Decision)
    requires sound { IsSound (run_for W.moves given.now) state.old }
    requires going { state.old.ended ≡ false }
    requires room { HasRoomFor state.old.accepted 1 }
    requires lawful { (s : Swap) → decision.now.swap ≡ Some s →
        IsSwapOf given.now.grid.now state.old.placement.sites s }
    requires decides { IsDecision decision.now
        (judged_here (run_for W.moves given.now) (standing_of state.old) state.old.done) }
    ensures stands { standing_of state.new ≡
        after_move (run_for W.moves given.now) (standing_of state.old)
        (judged_here (run_for W.moves given.now) (standing_of state.old) state.old.done) }
    ensures accepted { noted state.new.accepted ≡
        noted_more (noted state.old.accepted)
        (numbers_if state.old.done
        (judged_here (run_for W.moves given.now) (standing_of state.old)
        state.old.done).accepted) }
    ensures room { (n : ℕ) → HasRoomFor state.old.accepted (n + 1) →
        HasRoomFor state.new.accepted n }
    ensures sound { IsSound (run_for W.moves given.now) state.new }
{
    let side = side_of(given.grid);
    let _moves = given.schedule.moves();
    if decision.accepted {
        if let Some(swap) = decision.swap {
            state.cost.apply_known(
                given.design,
                given.grid,
                &state.placement,
                &swap,
                decision.delta,
            );
            state.placement.apply(&swap);
        }
    }
    count(
        &mut state.accepted,
        &mut state.total,
        state.done,
        decision.accepted,
    );
    state.ended = advance(&given.schedule, side, &mut state.stage, decision.accepted);
    state.done += 1;
}

/// The decision of a verdict.
pub(crate) fn decision_of(verdict: &Verdict) -> Decision
    ensures { IsDecision result (says verdict.now) }
{
    Decision {
        swap: verdict.swap,
        delta: verdict.delta,
        accepted: verdict.accepted,
    }
}

/// What a judgement in the running stage reads.
#[inline(always)]
pub(crate) fn view_of<'a, W: Words>(
    given: &'a Given<'_, W>,
    state: &'a State,
) -> View<'a, EdgeBoxes, W>
    ensures design { result.design.now ≡ given.now.design.now }
    ensures grid { result.grid.now ≡ given.now.grid.now }
    ensures fixed { result.fixed.now ≡ given.now.fixed }
    ensures placement { result.placement.now ≡ state.now.placement }
    ensures cost { result.cost.now ≡ state.now.cost }
    ensures words { result.words.now ≡ given.now.words }
    ensures t { result.t ≡ state.now.stage.t }
    ensures range { result.range ≡ state.now.stage.range }
{
    View {
        design: given.design,
        grid: given.grid,
        fixed: &given.fixed,
        placement: &state.placement,
        cost: &state.cost,
        words: &given.words,
        t: state.stage.t,
        range: state.stage.range,
    }
}

/// Judges a move of the running stage on the current placement.
pub(crate) fn judge_on<W: Words>(
    given: &Given<'_, W>,
    state: &State,
    number: u64,
) -> Result<Verdict, AllocError>
    requires sound { IsSound (run_for W.moves given.now) state.now }
    requires going { state.now.ended ≡ false }
    ensures number { IfOk result (λ v. v.k ≡ number) }
    ensures lawful { IfOk result (λ v.
        (s : Swap) → v.swap ≡ Some s → IsSwapOf given.now.grid.now state.now.placement.sites s) }
    ensures says { IfOk result (λ v.
        says v ≡ judged_here (run_for W.moves given.now) (standing_of state.now) number) }
{
    judge(given.alloc, &view_of(given, state), number)
}

/// Decides a move of the running stage on the current placement, from its words: the result of [`judge_on`] without the footprint. Allocates
/// nothing.
#[inline(always)]
pub(crate) fn decide_by<W: Words>(
    given: &Given<'_, W>,
    state: &State,
    number: u64,
    words: [u32; 4],
) -> Decision
    requires sound { IsSound (run_for W.moves given.now) state.now }
    requires going { state.now.ended ≡ false }
    requires words { words ≡ W.moves given.now.words number }
    ensures lawful { (s : Swap) → result.swap ≡ Some s →
        IsSwapOf given.now.grid.now state.now.placement.sites s }
    ensures decides { IsDecision result
        (judged_here (run_for W.moves given.now) (standing_of state.now) number) }
{
    let _number = number;
    let view = view_of(given, state);
    let proposal = view.propose(words);
    weigh(&view, proposal, words[3])
}

/// The running stage; `None` after the last move.
pub(crate) fn running<W: Words>(given: &Given<'_, W>, state: &State) -> Option<Stage>
    requires { IsSound (run_for W.moves given.now) state.now }
    ensures { result ≡ stage_of (run_for W.moves given.now) (standing_of state.now) }
{
    let _moves = given.schedule.moves();
    if state.ended { None } else { Some(state.stage) }
}

/// How many moves the running stage still has.
pub(crate) fn moves_left(schedule: &Schedule, state: &State) -> u64
    requires inside { state.now.ended ≡ false → state.now.stage.done < schedule.now.moves }
    requires place { state.now.done ≡
        state.now.stage.index * schedule.now.moves + state.now.stage.done }
    ensures { result ≡
        left_at schedule.now.moves state.now.done (heat_of state.now.ended state.now.stage.t) }
{
    if state.ended {
        0
    } else {
        schedule.moves() - state.stage.done
    }
}

/// The state of a run within a stage, with `total` moves accepted in all. The placement is put on the array first.
pub(crate) fn state_at<W: Words>(
    given: &Given<'_, W>,
    placement: Placement,
    stage: Stage,
    total: u64,
) -> Result<State, AllocError>
    requires legal { IsLegal given.now.design.now given.now.grid.now given.now.fixed
        placement.sites }
    requires stage { IsStage given.now.schedule (max given.now.grid.now.nx given.now.grid.now.ny)
        stage }
    requires left { stage.done < given.now.schedule.moves }
    requires counted { (stage.accepted ≤ total) ×
        (total ≤ stage.index * given.now.schedule.moves + stage.done) }
    ensures sound { IfOk result (IsSound (run_for W.moves given.now)) }
    ensures stands { IfOk result (λ s.
        standing_of s ≡ standing_in given.now.schedule stage placement.sites total) }
    ensures accepted { IfOk result (λ s. noted s.accepted ≡ Some []) }
{
    let moves = given.schedule.moves();
    let live = placement.on_array(given.design, given.grid)?;
    let cost = EdgeBoxes::new(given.alloc, given.design, given.grid, &live)?;
    Ok(State {
        placement: live,
        cost,
        stage,
        ended: false,
        done: stage.index * moves + stage.done,
        total,
        accepted: Some(Vec::new(given.alloc)),
    })
}

/// The state before the first move.
pub(crate) fn first_state<W: Words>(
    given: &Given<'_, W>,
    placement: Placement,
) -> Result<State, AllocError>
    requires legal { IsLegal given.now.design.now given.now.grid.now given.now.fixed
        placement.sites }
    ensures sound { IfOk result (IsSound (run_for W.moves given.now)) }
    ensures stands { IfOk result (λ s.
        standing_of s ≡ at_start (run_for W.moves given.now) placement.sites) }
    ensures accepted { IfOk result (λ s. noted s.accepted ≡ Some []) }
{
    let _moves = given.schedule.moves();
    let first = given.schedule.first(side_of(given.grid));
    state_at(given, placement, first, 0)
}

/// A copy with the same standing. It keeps no numbers of accepted moves.
pub(crate) fn copy_of(state: &State) -> Result<State, AllocError>
    ensures stands { IfOk result (λ s. standing_of s ≡ standing_of state.now) }
    ensures sound { IfOk result (λ s. (r : Run) → IsSound r state.now → IsSound r s) }
{
    Ok(State {
        placement: state.placement.copy()?,
        cost: state.cost.copy()?,
        stage: state.stage,
        ended: state.ended,
        done: state.done,
        total: state.total,
        accepted: None,
    })
}
