//! What a world keeps, and how each event changes it. Part of the model: no run executes it.

ghost use Rattle.std.specs.Prelude.{◌≡◌, ◌+◌, ◌<◌, ◌≤◌, ◌∷◌, ◌++◌, [], false, Some, vec_len, vec_capacity, IfOk, OnOk, OnErr};
ghost use Rattle.std.specs.List.{All};
ghost use Rattle.fab_site.specs.Placement.{IsSwapOf};
ghost use Rattle.fab_sched.specs.Annealing.{IsLawful};
ghost use Rattle.fab_move.specs.Judge.{IsDecision, Judged};
ghost use Rattle.fab_commit.specs.declared.model.events.Event.TheVariants.{Claim, Judge, Lose, Commit, Refresh};
ghost use Rattle.fab_commit.specs.Serial.{Run, after_move, judged_here};
ghost use Rattle.fab_commit.specs.Run.Commits.{IsSound, run_for, standing_of};
ghost use Rattle.fab_commit.specs.Run.Noted.{HasRoomFor};
ghost use Rattle.fab_commit.specs.Model.World.{accepted_now, commit as commit_of, end, happens, stage_end, usable, verdict_here, way_of, ways_now, without_number, world};
ghost use Rattle.fab_commit.specs.Model.Worlds.{HasBlocks, IsReached, IsWhole, world_of};

use crate::model::claims::{
    claim_of, drop_claim, drop_last_verdict, drop_verdict_for, first_free, verdict_for,
};
use crate::model::clashes::clash;
use crate::model::events::{Event, Way};
use crate::model::judged::{Claimed, JudgedMove, Judgement};
use crate::run::numbers::reserve_numbers;
use crate::run::state::{Given, State, commit, copy_of, decision_of, judge_on, moves_left};
use crate::run::swaps::{Accepted, enter};
use fab_move::Decision;
use fab_sched::Schedule;
use fab_site::{Swap, Words};
use std::alloc::{AllocError, Global};

/// The state of a world.
pub(crate) struct WorldState {
    pub(crate) live: State,
    /// What workers judge on.
    pub(crate) older: State,
    pub(crate) claims: Vec<Claimed>,
    pub(crate) verdicts: Vec<JudgedMove>,
    pub(crate) accepted: Vec<Accepted>,
    /// The way of each move that was committed.
    pub(crate) ways: Vec<Way>,
}

impl Drop for WorldState {
    // This is one call wherever a value goes out of scope. A derived `drop` would be proved again at each place.
    fn drop(self) {
        let WorldState {
            live: _,
            older: _,
            claims: _,
            verdicts: _,
            accepted: _,
            ways: _,
        } = self;
    }
}

/// The number after the last move of the running stage; the number of moves made if the run is over.
fn end_of<W: Words>(given: &Given<'_, W>, state: &State) -> u64
    requires plan { IsLawful given.now.schedule }
    requires sound { IsSound (run_for W.moves given.now) state.now }
    ensures { result ≡ stage_end (run_for W.moves given.now) (standing_of state.now) }
{
    state.done + moves_left(&given.schedule, state)
}

/// A worker without a claim claims the first move that is free.
fn claim<W: Words>(
    given: &Given<'_, W>,
    state: &mut WorldState,
    worker: u64,
) -> Result<(), AllocError>
    requires whole { IsWhole (run_for W.moves given.now) state.old }
    ensures whole { IsWhole (run_for W.moves given.now) state.new }
    ensures ways { state.new.ways.items ≡ state.old.ways.items }
    ensures ok { OnOk result
        (world_of state.new ≡
        happens (run_for W.moves given.now) (world_of state.old) (Claim worker)) }
    ensures err { OnErr result (world_of state.new ≡ world_of state.old) }
{
    if claim_of(&state.claims, worker).is_some() {
        return Ok(());
    }
    let end = end_of(given, &state.older);
    if let Some(number) = first_free(&state.claims, &state.verdicts, state.live.done, end) {
        state.claims.push(Claimed { worker, number })?;
    }
    Ok(())
}

/// A worker judges the move that it claimed, on the older placement. If the move is made already, only the claim is dropped.
fn judge<W: Words>(
    alloc: Global,
    given: &Given<'_, W>,
    state: &mut WorldState,
    worker: u64,
) -> Result<(), AllocError>
    requires whole { IsWhole (run_for W.moves given.now) state.old }
    requires reached { IsReached (run_for W.moves given.now) (world_of state.old)
        state.old.ways.items }
    ensures whole { IsWhole (run_for W.moves given.now) state.new }
    ensures ways { state.new.ways.items ≡ state.old.ways.items }
    ensures ok { OnOk result
        (world_of state.new ≡
        happens (run_for W.moves given.now) (world_of state.old) (Judge worker)) }
    ensures err { OnErr result (world_of state.new ≡ world_of state.old) }
{
    let Some(number) = claim_of(&state.claims, worker) else {
        return Ok(());
    };
    if number < state.live.done {
        drop_claim(&mut state.claims, worker);
        return Ok(());
    }
    let answer = judge_on(given, &state.older, number)?;
    state.verdicts.push(JudgedMove {
        worker,
        number,
        base: state.older.done,
        judged: Judgement::of(answer),
    })?;
    drop_claim(&mut state.claims, worker);
    Ok(())
}

/// A worker loses its claim or, if it has none, its verdict with the greatest number.
fn lose<W: Words>(given: &Given<'_, W>, state: &mut WorldState, worker: u64)
    requires whole { IsWhole (run_for W.moves given.now) state.old }
    ensures whole { IsWhole (run_for W.moves given.now) state.new }
    ensures ways { state.new.ways.items ≡ state.old.ways.items }
    ensures lost { world_of state.new ≡
        happens (run_for W.moves given.now) (world_of state.old) (Lose worker) }
{
    if claim_of(&state.claims, worker).is_some() {
        drop_claim(&mut state.claims, worker);
    } else {
        drop_last_verdict(&mut state.verdicts, worker);
    }
}

/// The older placement becomes the live one.
fn refresh<W: Words>(
    alloc: Global,
    given: &Given<'_, W>,
    state: &mut WorldState,
) -> Result<(), AllocError>
    requires whole { IsWhole (run_for W.moves given.now) state.old }
    ensures whole { IsWhole (run_for W.moves given.now) state.new }
    ensures ways { state.new.ways.items ≡ state.old.ways.items }
    ensures ok { OnOk result
        (world_of state.new ≡ happens (run_for W.moves given.now) (world_of state.old) Refresh) }
    ensures err { OnErr result (world_of state.new ≡ world_of state.old) }
{
    state.older = copy_of(&state.live)?;
    Ok(())
}

/// Makes the next move as it was decided.
fn make<W: Words>(
    given: &Given<'_, W>,
    live: &mut State,
    accepted: &mut Vec<Accepted>,
    decision: &Decision,
)
    requires sound { IsSound (run_for W.moves given.now) live.old }
    requires going { live.old.ended ≡ false }
    requires blocks { All (HasBlocks given.now.design.now) accepted.old.items }
    requires room { HasRoomFor live.old.accepted 1 }
    requires swap_room { vec_len accepted.old < vec_capacity accepted.old }
    requires lawful { (s : Swap) → decision.now.swap ≡ Some s →
        IsSwapOf given.now.grid.now live.old.placement.sites s }
    requires decides { IsDecision decision.now
        (judged_here (run_for W.moves given.now) (standing_of live.old) live.old.done) }
    ensures sound { IsSound (run_for W.moves given.now) live.new }
    ensures blocks { All (HasBlocks given.now.design.now) accepted.new.items }
    ensures stands { standing_of live.new ≡
        after_move (run_for W.moves given.now) (standing_of live.old)
        (judged_here (run_for W.moves given.now) (standing_of live.old) live.old.done) }
    ensures accepted { accepted.new.items ≡
        accepted.old.items ++
        accepted_now live.old.done
        (judged_here (run_for W.moves given.now) (standing_of live.old) live.old.done) }
{
    enter(accepted, live.done, decision);
    commit(given, live, decision);
}

/// Judges the next move on the live placement, and makes it.
fn judge_and_make<W: Words>(
    alloc: Global,
    given: &Given<'_, W>,
    live: &mut State,
    accepted: &mut Vec<Accepted>,
) -> Result<(), AllocError>
    requires sound { IsSound (run_for W.moves given.now) live.old }
    requires going { live.old.ended ≡ false }
    requires blocks { All (HasBlocks given.now.design.now) accepted.old.items }
    requires room { HasRoomFor live.old.accepted 1 }
    requires swap_room { vec_len accepted.old < vec_capacity accepted.old }
    ensures sound { IsSound (run_for W.moves given.now) live.new }
    ensures blocks { All (HasBlocks given.now.design.now) accepted.new.items }
    ensures stands { OnOk result
        (standing_of live.new ≡
        after_move (run_for W.moves given.now) (standing_of live.old)
        (judged_here (run_for W.moves given.now) (standing_of live.old) live.old.done)) }
    ensures accepted { OnOk result
        (accepted.new.items ≡
        accepted.old.items ++
        accepted_now live.old.done
        (judged_here (run_for W.moves given.now) (standing_of live.old) live.old.done)) }
    ensures err { OnErr result ((standing_of live.new ≡ standing_of live.old) ×
        (accepted.new.items ≡ accepted.old.items)) }
{
    let answer = judge_on(given, live, live.done)?;
    make(given, live, accepted, &decision_of(&answer));
    Ok(())
}

/// Records the way of a move that was made, and drops its verdict.
fn settle(state: &mut WorldState, number: u64, way: Way)
    requires room { vec_len state.old.ways < vec_capacity state.old.ways }
    ensures live { state.new.live ≡ state.old.live }
    ensures older { state.new.older ≡ state.old.older }
    ensures claims { state.new.claims.items ≡ state.old.claims.items }
    ensures accepted { state.new.accepted.items ≡ state.old.accepted.items }
    ensures verdicts { state.new.verdicts.items ≡ without_number number state.old.verdicts.items }
    ensures ways { state.new.ways.items ≡ state.old.ways.items ++ way ∷ [] }
{
    state.ways.push_reserved(way);
    drop_verdict_for(&mut state.verdicts, number);
}

/// Makes the next move of the stage: by its verdict if that still holds; otherwise the move is judged on the live placement.
fn commit_next<W: Words>(
    alloc: Global,
    given: &Given<'_, W>,
    state: &mut WorldState,
) -> Result<(), AllocError>
    requires whole { IsWhole (run_for W.moves given.now) state.old }
    requires reached { IsReached (run_for W.moves given.now) (world_of state.old)
        state.old.ways.items }
    requires before { state.old.live.done < end (run_for W.moves given.now) (world_of state.old) }
    requires room { HasRoomFor state.old.live.accepted 1 }
    requires swap_room { vec_len state.old.accepted < vec_capacity state.old.accepted }
    requires way_room { vec_len state.old.ways < vec_capacity state.old.ways }
    ensures whole { IsWhole (run_for W.moves given.now) state.new }
    ensures ways { OnOk result
        (state.new.ways.items ≡
        state.old.ways.items ++
        way_of (verdict_here (world_of state.old))
        (usable (run_for W.moves given.now) (world_of state.old)
        (verdict_here (world_of state.old))) ∷ []) }
    ensures ok { OnOk result
        (world_of state.new ≡ commit_of (run_for W.moves given.now) (world_of state.old)) }
    ensures err { OnErr result ((world_of state.new ≡ world_of state.old) ×
        (state.new.ways.items ≡ state.old.ways.items)) }
{
    let number = state.live.done;
    match verdict_for(&state.verdicts, number) {
        None => {
            judge_and_make(alloc, given, &mut state.live, &mut state.accepted)?;
            settle(state, number, Way::Late);
        }
        Some(verdict) => {
            let footprint = verdict.judged.footprint();
            if clash(given.design, &state.accepted, verdict.base, footprint) {
                judge_and_make(alloc, given, &mut state.live, &mut state.accepted)?;
                settle(state, number, Way::Redone);
            } else {
                make(
                    given,
                    &mut state.live,
                    &mut state.accepted,
                    &decision_of(verdict.judged.answer()),
                );
                settle(state, number, Way::Taken);
            }
        }
    }
    Ok(())
}

/// Commits the next move of the running stage, if one is left.
fn commit_one<W: Words>(
    alloc: Global,
    given: &Given<'_, W>,
    state: &mut WorldState,
) -> Result<(), AllocError>
    requires whole { IsWhole (run_for W.moves given.now) state.old }
    requires reached { IsReached (run_for W.moves given.now) (world_of state.old)
        state.old.ways.items }
    ensures whole { IsWhole (run_for W.moves given.now) state.new }
    ensures ways { OnOk result
        (state.new.ways.items ≡
        state.old.ways.items ++
        ways_now (run_for W.moves given.now) (world_of state.old) Commit) }
    ensures ok { OnOk result
        (world_of state.new ≡ happens (run_for W.moves given.now) (world_of state.old) Commit) }
    ensures err { OnErr result ((world_of state.new ≡ world_of state.old) ×
        (state.new.ways.items ≡ state.old.ways.items)) }
{
    if state.live.done >= end_of(given, &state.older) {
        return Ok(());
    }
    reserve_numbers(&mut state.live.accepted, 1)?;
    state.accepted.reserve(1)?;
    state.ways.reserve(1)?;
    commit_next(alloc, given, state)
}

/// Applies one event.
fn one_event<W: Words>(
    alloc: Global,
    given: &Given<'_, W>,
    state: &mut WorldState,
    event: Event,
) -> Result<(), AllocError>
    requires whole { IsWhole (run_for W.moves given.now) state.old }
    requires reached { IsReached (run_for W.moves given.now) (world_of state.old)
        state.old.ways.items }
    ensures whole { IsWhole (run_for W.moves given.now) state.new }
    ensures ways { OnOk result
        (state.new.ways.items ≡
        state.old.ways.items ++
        ways_now (run_for W.moves given.now) (world_of state.old) event) }
    ensures ok { OnOk result
        (world_of state.new ≡ happens (run_for W.moves given.now) (world_of state.old) event) }
    ensures err { OnErr result ((world_of state.new ≡ world_of state.old) ×
        (state.new.ways.items ≡ state.old.ways.items)) }
{
    match event {
        Event::Claim(worker) => claim(given, state, worker),
        Event::Judge(worker) => judge(alloc, given, state, worker),
        Event::Lose(worker) => {
            lose(given, state, worker);
            Ok(())
        }
        Event::Commit => commit_one(alloc, given, state),
        Event::Refresh => refresh(alloc, given, state),
    }
}

/// Applies one event to a world that events led to. Events lead to the new world too.
pub(crate) fn step<W: Words>(
    alloc: Global,
    given: &Given<'_, W>,
    state: &mut WorldState,
    event: Event,
) -> Result<(), AllocError>
    requires whole { IsWhole (run_for W.moves given.now) state.old }
    requires reached { IsReached (run_for W.moves given.now) (world_of state.old)
        state.old.ways.items }
    ensures whole { IsWhole (run_for W.moves given.now) state.new }
    ensures reached { IsReached (run_for W.moves given.now) (world_of state.new)
        state.new.ways.items }
    ensures ways { OnOk result
        (state.new.ways.items ≡
        state.old.ways.items ++
        ways_now (run_for W.moves given.now) (world_of state.old) event) }
    ensures ok { OnOk result
        (world_of state.new ≡ happens (run_for W.moves given.now) (world_of state.old) event) }
    ensures err { OnErr result ((world_of state.new ≡ world_of state.old) ×
        (state.new.ways.items ≡ state.old.ways.items)) }
{
    one_event(alloc, given, state, event)
}

/// The world before the first move: nothing is claimed or judged.
pub(crate) fn first_world(alloc: Global, live: State) -> Result<WorldState, AllocError>
    ensures whole { IfOk result (λ s. (r : Run) → IsLawful r.plan → IsSound r live → IsWhole r s) }
    ensures stands { IfOk result (λ s. world_of s ≡ world (standing_of live)) }
    ensures ways { IfOk result (λ s. s.ways.items ≡ []) }
{
    let older = copy_of(&live)?;
    Ok(WorldState {
        live,
        older,
        claims: Vec::new(alloc),
        verdicts: Vec::new(alloc),
        accepted: Vec::new(alloc),
        ways: Vec::new(alloc),
    })
}
