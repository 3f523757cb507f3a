//! Moves of a stage that are made beside a crew, which judges them ahead. The crew lives for these moves.

ghost use Rattle.std.specs.Prelude.{All, ◌≡◌, ◌^◌, ◌≤◌, true, length, Some, IfOk, IfSome};
ghost use Rattle.std.specs.Arc.{arc_value};
ghost use Rattle.std.specs.Thread.{IsSync};
ghost use Rattle.fab_commit.specs.Run.Stages.{HasFinished, MayFinish};
ghost use Rattle.fab_commit.specs.Run.Commits.{IsSound, run_for, standing_of};
ghost use Rattle.fab_commit.specs.Run.Followed.{IsTied};
ghost use Rattle.fab_board.specs.Plans.{IsSharedOut};

use crate::run::behind::{Behind, Pursue};
use crate::run::followers::Followers;
use crate::run::foreseen::Foreseen;
use crate::run::pipeline::Pipeline;
use crate::run::post::Post;
use crate::run::stage::{MovesPlan, finish, finish_alone, refuse};
use crate::run::state::{Given, State, copy_of};
use fab_board::follow_crew::{beside, close_board};
use fab_board::follow_lead::{CrewParts, new_crew};
use fab_board::{Board, Boarding, Gate, Naming, Opened, Origin, Plan};
use fab_dial::{Dial, Shower};
use fab_site::Words;
use std::alloc::AllocError;
use std::marker::Brand;
use std::sync::{Arc, Wait};
use std::thread::Threads;

/// How moves of a stage are made, beside a crew or alone. Without a crew, `workers` is not used.
#[derive(Drop)]
pub struct StagePlan<'g, G: Gate> {
    /// How many moves a turn has at most, from 1 to 4,096.
    pub batch: u64,
    /// How many workers judge moves ahead, from 1 to 64.
    pub workers: u64,
    /// The gate of the judgements and the commits.
    pub gate: &'g G,
    /// The dial that shows each turn.
    pub dial: &'g Dial,
}

/// Makes the plan's moves of the running stage if there is no memory for a crew. If the gate does nothing, the owner makes them alone. Any
/// other gate may wait in one call for another, and would wait for ever if one thread made all calls; so this makes no move.
fn without_crew<W: Words, G: Gate, S: Pursue, J: Naming + Boarding + Origin<S>, R: Wait>(
    given: &Given<'_, W>,
    state: &mut Pipeline,
    plan: &MovesPlan<'_, R, G>,
    shower: &mut Shower,
) -> Result<(), AllocError>
    requires may { MayFinish (run_for W.moves given.now) plan.now.batch plan.now.count state.old }
    requires own { shower.old.dial ≡ plan.now.dial.now }
    ensures finished { HasFinished true (run_for W.moves given.now) plan.now.batch plan.now.count
        state.old state.new result shower.old.shown shower.new.shown }
    ensures dial { shower.new.dial ≡ shower.old.dial }
{
    if plan.gate.does_nothing() {
        finish_alone::<W, G, S, J, R, true>(given, state, plan, shower)
    } else {
        refuse(given, state, plan, shower)
    }
}

/// Makes the plan's moves of the running stage beside a crew whose name is `J`.
fn made_beside<
    W: Words + Sync,
    G: Gate,
    S: Pursue + Send,
    J: Naming + Boarding + Origin<S> + Send + Sync,
    R: Threads + Wait + Sync,
>(
    opened: Opened<Post>,
    parts: CrewParts<S>,
    given: &Given<'_, W>,
    state: &mut Pipeline,
    plan: &MovesPlan<'_, R, G>,
    shower: &mut Shower,
) -> Result<(), AllocError>
    requires book { opened ≡ J.book }
    requires board { parts.board.name ≡ J.board }
    requires claims { All (λ s. s.board ≡ J.board) parts.claims.items }
    requires start { J.start ≡ Some parts.first }
    requires starts { All (λ s. J.start ≡ Some s) parts.others.items }
    requires many { length parts.claims.items ≡ length parts.others.items }
    requires units { IsSharedOut parts.units plan.now.batch (length parts.others.items) }
    requires run { S.run parts.first ≡ (run_for W.moves given.now) }
    requires stands { S.standing parts.first ≡ standing_of state.old.owner.state }
    requires may { MayFinish (run_for W.moves given.now) plan.now.batch plan.now.count state.old }
    requires own { shower.old.dial ≡ plan.now.dial.now }
    ensures finished { HasFinished true (run_for W.moves given.now) plan.now.batch plan.now.count
        state.old state.new result shower.old.shown shower.new.shown }
    ensures dial { shower.new.dial ≡ shower.old.dial }
{
    let alloc = given.alloc;
    let Ok((crew, lead)) = new_crew::<S, Post, Foreseen, J>(alloc, opened, parts) else {
        return without_crew::<W, G, S, J, R>(given, state, plan, shower);
    };
    let Ok(mut followers) = Followers::new(alloc, lead) else {
        return without_crew::<W, G, S, J, R>(given, state, plan, shower);
    };
    // A gate that does something may hold a commit until a later move is judged, so with it the crew judges all.
    if plan.gate.does_nothing() {
        followers.leave_to_owner();
    }
    let mut followers = Some(followers);
    let made = beside(
        plan.rt,
        &crew,
        &mut followers,
        &mut |f: &mut Option<Followers<S, J>>| -> Result<(), AllocError>
            requires { IsSync R.row ×
                MayFinish (run_for W.moves given.now) plan.now.batch plan.now.count state.now ×
                IfSome f.old (λ p.
                IsTied S.run S.standing S.after J.start p.0 (run_for W.moves given.now)
                (standing_of state.now.owner.state)) ×
                (shower.now.dial ≡ plan.now.dial.now) }
            ensures finished { HasFinished true (run_for W.moves given.entry.now)
                plan.entry.now.batch plan.entry.now.count state.entry.now state.exit.now result
                shower.entry.now.shown shower.exit.now.shown }
            ensures dial { shower.exit.now.dial ≡ shower.entry.now.dial }
        { finish::<W, G, S, J, R, true>(given, state, f, plan, shower) },
    );
    drop(followers);
    close_board(crew);
    made
}

/// A follower of the owner, which stands where `state` does.
fn behind<'a, 'g, W: Words + Drop, G: Gate>(
    given: &Arc<Given<'a, W>>,
    state: &State,
    gate: &'g G,
) -> Result<Behind<'a, 'g, W, G>, AllocError>
    requires sound { IsSound (run_for W.moves (arc_value given.now)) state.now }
    ensures { IfOk result (λ b.
        b ≡ record { given = arc_value given.now; standing = standing_of state.now }) }
{
    let copy = copy_of(state)?;
    Ok(Behind::new(Arc::try_clone(given)?, copy, gate))
}

/// How the moves of a turn are cut into units. A gate that does something may hold one judgement until another begins. With such a gate a
/// unit is one move, so no judgement of a worker waits for another one of the same worker.
fn units_of<G: Gate>(batch: u64, workers: u64, gate: &G) -> Plan
    requires { batch ≤ 4096 }
    ensures { IsSharedOut result batch workers }
{
    if gate.does_nothing() {
        Plan::of(batch, workers)
    } else {
        Plan::single(batch)
    }
}

/// The parts of a crew of `workers` workers for turns of at most `batch` moves. The crew's states stand where `state` does. An error means
/// that memory ran out.
pub(crate) fn crew_parts<'a, 'g, W: Words + Drop, G: Gate>(
    given: &Arc<Given<'a, W>>,
    state: &State,
    batch: u64,
    workers: u64,
    gate: &'g G,
) -> Result<CrewParts<Behind<'a, 'g, W, G>>, AllocError>
    requires sound { IsSound (run_for W.moves (arc_value given.now)) state.now }
    requires batch { batch ≤ 4096 }
    requires workers { (1 ≤ workers) × (workers ≤ 64) }
    ensures board { IfOk result (λ f. f.board.name.count ≡ 2 ^ 62) }
    ensures units { IfOk result (λ f. IsSharedOut f.units batch workers) }
    ensures claims { IfOk result (λ f. All (λ s. s.board ≡ f.board.name) f.claims.items) }
    ensures first { IfOk result (λ f.
        f.first ≡ record { given = arc_value given.now; standing = standing_of state.now }) }
    ensures others { IfOk result (λ f.
        All (λ s.
        s ≡ record { given = arc_value given.now; standing = standing_of state.now })
        f.others.items) }
    ensures many { IfOk result (λ f.
        (length f.claims.items ≡ workers) × (length f.others.items ≡ workers)) }
{
    let alloc = given.alloc;
    let first = behind(given, state, gate)?;
    let mut others = Vec::new(alloc);
    for _worker in 0..workers {
        others.push(behind(given, state, gate)?)?;
    }
    let (board, claims) = Board::new(alloc, 1 << 62, workers)?;
    Ok(CrewParts {
        board,
        claims,
        first,
        others,
        units: units_of(batch, workers, gate),
    })
}

/// Makes `count` moves of the running stage beside a crew of `plan.workers` workers, which is started for them.
pub(crate) fn finish_beside<
    'a,
    'g,
    W: Words + Send + Sync + Drop,
    G: Gate,
    R: Threads + Wait + Sync,
>(
    rt: &R,
    given: &Arc<Given<'a, W>>,
    state: &mut Pipeline,
    plan: &StagePlan<'g, G>,
    count: u64,
    shower: &mut Shower,
) -> Result<(), AllocError>
    requires may { MayFinish (run_for W.moves (arc_value given.now)) plan.now.batch count state.old }
    requires workers { (1 ≤ plan.now.workers) × (plan.now.workers ≤ 64) }
    requires own { shower.old.dial ≡ plan.now.dial.now }
    ensures finished { HasFinished true (run_for W.moves (arc_value given.now)) plan.now.batch count
        state.old state.new result shower.old.shown shower.new.shown }
    ensures dial { shower.new.dial ≡ shower.old.dial }
{
    let lent: &Given<'a, W> = given;
    let moves = MovesPlan {
        rt,
        batch: plan.batch,
        count,
        gate: plan.gate,
        dial: plan.dial,
    };
    let Ok(parts) = crew_parts(
        given,
        &state.owner.state,
        plan.batch,
        plan.workers,
        plan.gate,
    ) else {
        return without_crew::<W, G, Behind<'a, 'g, W, G>, Brand, R>(lent, state, &moves, shower);
    };
    made_beside::<W, G, Behind<'a, 'g, W, G>, Brand, R>(
        Opened::new(),
        parts,
        lent,
        state,
        &moves,
        shower,
    )
}
