//! One turn beside a crew that is started for it, whose judgements of the next batch are kept. For callers that make single turns; a run of
//! the program makes none.

ghost use Rattle.std.specs.Prelude.{All, ◌≡◌, ◌^◌, ◌≤◌, true, false, length, Some, IfOk, IfSome};
ghost use Rattle.std.specs.Arc.{arc_value};
ghost use Rattle.std.specs.Thread.{IsSync};
ghost use Rattle.fab_commit.specs.Serial.{Standing};
ghost use Rattle.fab_commit.specs.Run.Behind.{MayBeFollowed};
ghost use Rattle.fab_commit.specs.Run.Commits.{run_for, standing_of};
ghost use Rattle.fab_commit.specs.Run.Followed.{IsTied};
ghost use Rattle.fab_commit.specs.Run.Pipelines.{AreJudged, HasTurn, TurnsOn};

use crate::run::alone::OnBase;
use crate::run::behind::{Behind, Pursue};
use crate::run::beside::crew_parts;
use crate::run::followed::{Course, TurnPlan, turn_of};
use crate::run::followers::Followers;
use crate::run::foreseen::Foreseen;
use crate::run::pipeline::{Pipeline, cut_turn};
use crate::run::post::{MoveRange, Post};
use crate::run::posting::post_of;
use crate::run::state::Given;
use crate::run::verdicts::{sights_of, verdicts_of};
use fab_board::follow_crew::{beside, close_board};
use fab_board::follow_lead::{CrewParts, new_crew};
use fab_board::{Boarding, Gate, Naming, Opened, Origin};
use fab_move::Verdict;
use fab_site::Words;
use std::alloc::AllocError;
use std::marker::Brand;
use std::sync::{Arc, Wait};
use std::thread::Threads;

/// What a crew judged ahead, as verdicts and as it was foreseen.
#[derive(Drop)]
struct Judged {
    answers: Vec<Verdict>,
    foreseen: Vec<Foreseen>,
}

/// Posts `last`, an empty request, which makes the moves of `range` due. Returns what the crew judged of them. An error means that memory
/// ran out, or that the crew was let go.
fn judged_ahead<W: Words, S: Pursue, J: Naming + Boarding + Origin<S>, R: Wait>(
    rt: &R,
    given: &Given<'_, W>,
    followers: &mut Option<Followers<S, J>>,
    last: Post,
    range: MoveRange,
) -> Result<Judged, AllocError>
    requires may { (x : Standing) × MayBeFollowed (run_for W.moves given.now) x last ×
        IfSome followers.old (λ f.
        IsTied S.run S.standing S.after J.start f.0 (run_for W.moves given.now) x) }
    requires limits { (range.first ≤ 2 ^ 62) × (range.moves ≤ 4096) }
    ensures many { IfOk result (λ j. length j.answers.items ≡ range.moves) }
    ensures judged { IfOk result (λ j.
        (x : Standing) → IfSome followers.old (λ f.
        IsTied S.run S.standing S.after J.start f.0 (run_for W.moves given.now) x) →
        AreJudged (run_for W.moves given.now) x range.first j.answers.items j.foreseen.items) }
{
    let Some(crew) = followers else {
        return Err(AllocError);
    };
    if !crew.post(rt, last) {
        return Err(AllocError);
    }
    let foreseen = sights_of(rt, given, crew, range)?;
    let answers = verdicts_of(given, range.first, &foreseen)?;
    Ok(Judged { answers, foreseen })
}

/// Makes a turn beside a crew, which stands where the owner does, and keeps what the crew judges ahead meanwhile. If memory runs out, the
/// moves that were committed stay, and nothing is judged ahead.
fn make_turn<W: Words, G: Gate, S: Pursue, J: Naming + Boarding + Origin<S>, R: Wait>(
    given: &Given<'_, W>,
    state: &mut Pipeline,
    followers: &mut Option<Followers<S, J>>,
    plan: &TurnPlan<'_, R, G>,
) -> Result<(), AllocError>
    requires behind { HasTurn (run_for W.moves given.now) state.old }
    requires going { state.old.owner.state.ended ≡ false }
    requires batch { (1 ≤ plan.now.batch) × (plan.now.batch ≤ 4096) }
    requires tied { IfSome followers.old (λ f.
        IsTied S.run S.standing S.after J.start f.0 (run_for W.moves given.now)
        (standing_of state.old.owner.state)) }
    ensures { TurnsOn (run_for W.moves given.now) plan.now.batch state.old state.new result }
{
    let start = state.owner.state.done;
    let course = Course {
        ahead: OnBase {
            base: state.base,
            moves: state.ahead.len() as u64,
        },
        begun: false,
    };
    let nothing = MoveRange {
        first: start,
        moves: 0,
    };
    let last = post_of(&state.owner.state, Vec::new(given.alloc), nothing);
    let owner = &mut state.owner;
    let kept = &state.foreseen;
    let ready = &mut state.ready;
    let turned = turn_of::<W, G, S, J, R, true>(given, owner, followers, kept, course, plan, ready);
    state.base = start;
    state.ahead.clear();
    state.foreseen.clear();
    let next = match turned {
        Ok(ahead) => MoveRange {
            first: state.owner.state.done,
            moves: ahead.moves,
        },
        Err(error) => return Err(error),
    };
    let judged = judged_ahead(plan.rt, given, followers, last, next)?;
    let Judged { answers, foreseen } = judged;
    state.ahead = answers;
    state.foreseen = foreseen;
    Ok(())
}

/// Ends a turn that has no memory for its crew, in a run that is not over. No move is made: an owner alone would make all calls of the gate,
/// and a gate that waits in one call for another would wait for ever.
fn refused<W: Words>(
    given: &Given<'_, W>,
    state: &mut Pipeline,
    _batch: u64,
) -> Result<(), AllocError>
    requires behind { HasTurn (run_for W.moves given.now) state.old }
    requires going { state.old.owner.state.ended ≡ false }
    ensures { TurnsOn (run_for W.moves given.now) _batch state.old state.new result }
{
    cut_turn(given, state);
    Err(AllocError)
}

/// Makes a turn beside a crew whose name is `J`. If there is no memory for the crew, this makes no move.
fn turned_by<
    W: Words + Sync,
    G: Gate,
    S: Pursue + Send,
    J: Naming + Boarding + Origin<S> + Send + Sync,
    R: Threads + Wait + Sync,
>(
    opened: Opened<Post>,
    parts: CrewParts<S>,
    given: &Given<'_, W>,
    state: &mut Pipeline,
    plan: &TurnPlan<'_, R, G>,
) -> Result<(), AllocError>
    requires book { opened ≡ J.book }
    requires board { parts.board.name ≡ J.board }
    requires claims { All (λ s. s.board ≡ J.board) parts.claims.items }
    requires start { J.start ≡ Some parts.first }
    requires starts { All (λ s. J.start ≡ Some s) parts.others.items }
    requires many { length parts.claims.items ≡ length parts.others.items }
    requires run { S.run parts.first ≡ (run_for W.moves given.now) }
    requires stands { S.standing parts.first ≡ standing_of state.old.owner.state }
    requires behind { HasTurn (run_for W.moves given.now) state.old }
    requires going { state.old.owner.state.ended ≡ false }
    requires batch { (1 ≤ plan.now.batch) × (plan.now.batch ≤ 4096) }
    ensures { TurnsOn (run_for W.moves given.now) plan.now.batch state.old state.new result }
{
    let alloc = given.alloc;
    let Ok((crew, lead)) = new_crew::<S, Post, Foreseen, J>(alloc, opened, parts) else {
        return refused(given, state, plan.batch);
    };
    let Ok(followers) = Followers::new(alloc, lead) else {
        return refused(given, state, plan.batch);
    };
    let mut followers = Some(followers);
    let turned = beside(
        plan.rt,
        &crew,
        &mut followers,
        &mut |f: &mut Option<Followers<S, J>>| -> Result<(), AllocError>
            requires { IsSync R.row × HasTurn (run_for W.moves given.now) state.now ×
                (state.now.owner.state.ended ≡ false) ×
                ((1 ≤ plan.now.batch) × (plan.now.batch ≤ 4096)) ×
                IfSome f.old (λ p.
                IsTied S.run S.standing S.after J.start p.0 (run_for W.moves given.now)
                (standing_of state.now.owner.state)) }
            ensures turned { TurnsOn (run_for W.moves given.entry.now) plan.entry.now.batch
                state.entry.now
                state.exit.now result }
        { make_turn(given, state, f, plan) },
    );
    drop(followers);
    close_board(crew);
    turned
}

/// Makes a turn beside a crew of `workers` workers, which is started for it. If there is no memory for the crew, this makes no move.
pub(crate) fn turn_beside<'a, 'g, W: Words + Send + Sync + Drop, G: Gate, R: Threads + Wait + Sync>(
    rt: &R,
    given: &Arc<Given<'a, W>>,
    state: &mut Pipeline,
    batch: u64,
    workers: u64,
    gate: &'g G,
) -> Result<(), AllocError>
    requires behind { HasTurn (run_for W.moves (arc_value given.now)) state.old }
    requires batch { (1 ≤ batch) × (batch ≤ 4096) }
    requires workers { (1 ≤ workers) × (workers ≤ 64) }
    ensures turned { TurnsOn (run_for W.moves (arc_value given.now)) batch state.old state.new
        result }
{
    let lent: &Given<'a, W> = given;
    // If the run is over, no crew is needed.
    if state.owner.state.ended {
        cut_turn(lent, state);
        return Ok(());
    }
    let Ok(parts) = crew_parts(given, &state.owner.state, batch, workers, gate) else {
        return refused(lent, state, batch);
    };
    let plan = TurnPlan { rt, batch, gate };
    turned_by::<W, G, Behind<'a, 'g, W, G>, Brand, R>(Opened::new(), parts, lent, state, &plan)
}
