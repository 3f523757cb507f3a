//! The moves of a stage, made by turns of one batch: beside a crew, or by the owner alone.

ghost use Rattle.std.specs.Prelude.{◌≡◌, ◌<◌, ◌≤◌, ◌++◌, [], ◌∷◌, false, true, min, None, IfSome, MatchResult, OnOk, OnErr};
ghost use Rattle.fab_commit.specs.Serial.{moves_left};
ghost use Rattle.fab_commit.specs.Run.Stages.{HasFinished, HasGone, MayFinish};
ghost use Rattle.fab_commit.specs.Run.Commits.{run_for, standing_of};
ghost use Rattle.fab_commit.specs.Run.Followed.{IsBeside, IsTied};
ghost use Rattle.fab_commit.specs.Run.Further.{IsFurther};
ghost use Rattle.fab_commit.specs.Run.Pipelines.{HasTurn, IsAtTurn};
ghost use Rattle.fab_commit.specs.Run.Readings.{reading_at};
ghost use Rattle.fab_commit.specs.Model.TurnEvents.{LastTurn, next_turn};

use crate::run::alone::{OnBase, show_state};
use crate::run::behind::Pursue;
use crate::run::followed::{Course, TurnPlan, turn_of};
use crate::run::followers::Followers;
use crate::run::pipeline::{Pipeline, cut_turn};
use crate::run::state::{Given, moves_left};
use fab_board::{Boarding, Gate, Naming, Origin};
use fab_dial::{Dial, Shower};
use fab_site::Words;
use std::alloc::AllocError;
use std::sync::Wait;

/// How moves of a stage are made.
#[derive(Drop)]
pub(crate) struct MovesPlan<'g, R: Wait, G: Gate> {
    /// The system, whose threads wait for each other.
    pub(crate) rt: &'g R,
    /// How many moves a turn has at most.
    pub(crate) batch: u64,
    /// How many moves are made.
    pub(crate) count: u64,
    /// The gate of the judgements and the commits.
    pub(crate) gate: &'g G,
    /// The dial that shows each turn.
    pub(crate) dial: &'g Dial,
}

/// Makes a turn of at most `batch` moves, and shows how far the run has come. An error means that memory ran out; then no move was made.
fn one_turn<
    W: Words,
    G: Gate,
    S: Pursue,
    J: Naming + Boarding + Origin<S>,
    R: Wait,
    const COUNTED: bool,
>(
    given: &Given<'_, W>,
    state: &mut Pipeline,
    followers: &mut Option<Followers<S, J>>,
    plan: &MovesPlan<'_, R, G>,
    batch: u64,
    course: &mut Course,
    shower: &mut Shower,
) -> Result<(), AllocError>
    requires at_turn { (t : LastTurn) ×
        IsAtTurn (run_for W.moves given.now) t state.old.owner course.old.ahead ×
        IsBeside S.run S.standing S.after J.start (run_for W.moves given.now) t state.old.owner
        course.old.begun followers.old }
    requires nobody { COUNTED ≡ false → followers.old ≡ None }
    requires batch { (1 ≤ batch) × (batch ≤ 4096) }
    requires own { shower.old.dial ≡ plan.now.dial.now }
    ensures further { MatchResult result
        (λ _. IsFurther (run_for W.moves given.now) state.old.owner.state
        (min batch (moves_left (run_for W.moves given.now)
        (standing_of state.old.owner.state))) state.new.owner.state)
        (λ _. IsFurther (run_for W.moves given.now) state.old.owner.state 0
        state.new.owner.state) }
    ensures counted { COUNTED ≡ true → MatchResult result (λ _.
        (t : LastTurn) → IsAtTurn (run_for W.moves given.now) t state.old.owner course.old.ahead →
        HasGone (run_for W.moves given.now) t state.old.owner
        (next_turn (run_for W.moves given.now) batch t).made
        (next_turn (run_for W.moves given.now) batch t).ahead state.new.owner course.new.ahead)
        (λ _.
        (t : LastTurn) →
        IsAtTurn (run_for W.moves given.now) t state.old.owner course.old.ahead →
        HasGone (run_for W.moves given.now) t state.old.owner 0 0 state.new.owner
        course.new.ahead) }
    ensures same { COUNTED ≡ false → state.new.owner.redone ≡ state.old.owner.redone }
    ensures base { state.new.base ≡ course.new.ahead.base }
    ensures empty { (state.new.ahead ≡ state.old.ahead) × (state.new.foreseen ≡ state.old.foreseen) }
    ensures led { (t : LastTurn) ×
        IsAtTurn (run_for W.moves given.now) t state.new.owner course.new.ahead ×
        OnOk result (IsBeside S.run S.standing S.after J.start (run_for W.moves given.now) t
        state.new.owner course.new.begun followers.new) }
    ensures nobody { COUNTED ≡ false → followers.new ≡ None }
    ensures none { OnErr result (course.new.ahead.moves ≡ 0) }
    ensures dial { shower.new.dial ≡ shower.old.dial }
    ensures shown { OnOk result
        (shower.new.shown ≡
        shower.old.shown ++
        reading_at (run_for W.moves given.now) (standing_of state.new.owner.state) ∷ []) }
    ensures kept { OnErr result (shower.new.shown ≡ shower.old.shown) }
{
    let before = state.owner.state.done;
    let each = TurnPlan {
        rt: plan.rt,
        batch,
        gate: plan.gate,
    };
    let turned = turn_of::<W, G, S, J, R, COUNTED>(
        given,
        &mut state.owner,
        followers,
        &[],
        *course,
        &each,
        &mut state.ready,
    );
    let Ok(next) = turned else {
        course.ahead = OnBase {
            base: before,
            moves: 0,
        };
        state.base = before;
        return Err(AllocError);
    };
    course.ahead = next;
    course.begun = true;
    state.base = next.base;
    show_state(plan.rt, given, &state.owner.state, plan.dial, shower);
    Ok(())
}

/// The batch of the next turn: that of the plan, unless fewer moves are left of the plan and the stage goes on after them. `rest` of the
/// plan's `count` moves are still to be made, in a stage that had `left` moves.
fn next_batch(rest: u64, batch: u64, count: u64, left: u64) -> u64
    requires some { 0 < rest }
    requires batch { (1 ≤ batch) × (batch ≤ 4096) }
    ensures range { (1 ≤ result) × (result ≤ 4096) }
    ensures whole { batch ≤ rest → result ≡ batch }
    ensures last { left ≤ count → result ≡ batch }
    ensures shorter { rest < batch → count < left → result ≡ rest }
{
    if rest < batch && count < left {
        rest
    } else {
        batch
    }
}

/// Makes the plan's moves of the running stage in turns of one batch, beside a crew if there is one; the crew stands where the owner does.
/// The last turn is shorter if fewer moves are left and the stage goes on. If memory runs out, the turns that were made stay. In either case
/// nothing is judged ahead afterwards. If redone moves are not counted (not `COUNTED`), there is no crew, and their count stays the same.
pub(crate) fn finish<
    W: Words,
    G: Gate,
    S: Pursue,
    J: Naming + Boarding + Origin<S>,
    R: Wait,
    const COUNTED: bool,
>(
    given: &Given<'_, W>,
    state: &mut Pipeline,
    followers: &mut Option<Followers<S, J>>,
    plan: &MovesPlan<'_, R, G>,
    shower: &mut Shower,
) -> Result<(), AllocError>
    requires may { MayFinish (run_for W.moves given.now) plan.now.batch plan.now.count state.old }
    requires beside { IfSome followers.old (λ f.
        IsTied S.run S.standing S.after J.start f.0 (run_for W.moves given.now)
        (standing_of state.old.owner.state)) }
    requires nobody { COUNTED ≡ false → followers.old ≡ None }
    requires own { shower.old.dial ≡ plan.now.dial.now }
    ensures finished { HasFinished COUNTED (run_for W.moves given.now) plan.now.batch plan.now.count
        state.old state.new result shower.old.shown shower.new.shown }
    ensures dial { shower.new.dial ≡ shower.old.dial }
{
    let mut course = Course {
        ahead: OnBase {
            base: state.base,
            moves: state.ahead.len() as u64,
        },
        begun: false,
    };
    state.ahead.clear();
    state.foreseen.clear();
    let left = moves_left(&given.schedule, &state.owner.state);
    let mut rest = plan.count;
    'turns: while rest > 0 {
        let before = state.owner.state.done;
        let batch = next_batch(rest, plan.batch, plan.count, left);
        one_turn::<W, G, S, J, R, COUNTED>(
            given,
            state,
            followers,
            plan,
            batch,
            &mut course,
            shower,
        )?;
        rest -= state.owner.state.done - before;
    }
    Ok(())
}

/// Makes the plan's moves of the running stage as [`finish`] does, without a crew: the owner judges each. `S` and `J` are the types of a
/// crew, but no crew is made.
pub(crate) fn finish_alone<
    W: Words,
    G: Gate,
    S: Pursue,
    J: Naming + Boarding + Origin<S>,
    R: Wait,
    const COUNTED: bool,
>(
    given: &Given<'_, W>,
    state: &mut Pipeline,
    plan: &MovesPlan<'_, R, G>,
    shower: &mut Shower,
) -> Result<(), AllocError>
    requires may { MayFinish (run_for W.moves given.now) plan.now.batch plan.now.count state.old }
    requires own { shower.old.dial ≡ plan.now.dial.now }
    ensures finished { HasFinished COUNTED (run_for W.moves given.now) plan.now.batch plan.now.count
        state.old state.new result shower.old.shown shower.new.shown }
    ensures dial { shower.new.dial ≡ shower.old.dial }
{
    let mut nobody: Option<Followers<S, J>> = None;
    finish::<W, G, S, J, R, COUNTED>(given, state, &mut nobody, plan, shower)
}

/// Ends a call for which memory ran out before its first move. Nothing is judged ahead afterwards.
pub(crate) fn refuse<W: Words, G: Gate, R: Wait>(
    given: &Given<'_, W>,
    state: &mut Pipeline,
    plan: &MovesPlan<'_, R, G>,
    _shower: &Shower,
) -> Result<(), AllocError>
    requires behind { HasTurn (run_for W.moves given.now) state.old }
    ensures finished { HasFinished true (run_for W.moves given.now) plan.now.batch plan.now.count
        state.old state.new result _shower.now.shown _shower.now.shown }
{
    cut_turn(given, state);
    Err(AllocError)
}
