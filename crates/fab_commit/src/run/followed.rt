//! Turns whose redone moves are counted, beside a crew if there is one. Its workers judge the next moves, each on a state of its own that
//! follows the owner.

ghost use Rattle.std.specs.Prelude.{◌≡◌, ◌<◌, ◌≤◌, Option, false, true, length, min, None, IfSome, MatchResult, OnOk};
ghost use Rattle.fab_commit.specs.Serial.{moves_left};
ghost use Rattle.fab_commit.specs.Run.Stages.{HasForgotten, TurnsOnce};
ghost use Rattle.fab_commit.specs.Run.Commits.{run_for, standing_of};
ghost use Rattle.fab_commit.specs.Run.Followed.{IsBeside, IsTied};
ghost use Rattle.fab_commit.specs.Run.Foreseen.{AreForeseen};
ghost use Rattle.fab_commit.specs.Run.Owners.{AreOpen, HasMadeFrom, Leads, MayMake};
ghost use Rattle.fab_commit.specs.Run.Pipelines.{IsAtTurn};
ghost use Rattle.fab_commit.specs.Model.TurnEvents.{LastTurn};

use crate::run::alone::{OnBase, Ready, commit_alone, turn_uncounted};
use crate::run::behind::Pursue;
use crate::run::followers::Followers;
use crate::run::foreseen::Foreseen;
use crate::run::owner::Owner;
use crate::run::pipeline::reserve;
use crate::run::posting::{ask, shape_of, taken_swaps};
use crate::run::sheet::commit_foreseen;
use crate::run::state::{Given, moves_left};
use fab_board::{Boarding, Gate, Naming, Origin};
use fab_site::Words;
use std::alloc::AllocError;
use std::sync::Wait;

/// How a turn is made.
#[derive(Drop)]
pub(crate) struct TurnPlan<'g, R: Wait, G: Gate> {
    /// The system, whose threads wait for each other.
    pub(crate) rt: &'g R,
    /// How many moves it has at most.
    pub(crate) batch: u64,
    /// The gate of the judgements and the commits.
    pub(crate) gate: &'g G,
}

/// Where a turn begins.
#[derive(Clone, Copy)]
pub(crate) struct Course {
    /// The moves that count as judged ahead.
    pub(crate) ahead: OnBase,
    /// Whether a turn came before this one in this call. The crew begins with the first turn.
    pub(crate) begun: bool,
}

/// Moves in a row of a turn that count as judged on one placement, and whose judgements are used.
#[derive(Clone, Copy)]
struct Part<'k> {
    /// How many moves were made in the placement that they count as judged on.
    base: u64,
    moves: u64,
    /// What was foreseen of the first of them.
    kept: &'k [Foreseen],
    /// Whether the crew judges the others, if there is a crew. The owner decides the moves that nobody judges.
    by_crew: bool,
}

/// Makes some of the next `ahead.moves` moves of the running stage: those that a worker has judged together, or those that are left to the
/// owner, or one move if its answer is missing. Returns how many it made. Allocates nothing of its own.
#[inline(always)]
fn commit_next<W: Words, G: Gate, S: Pursue, J: Naming + Boarding + Origin<S>, R: Wait>(
    given: &Given<'_, W>,
    owner: &mut Owner,
    followers: &mut Followers<S, J>,
    ahead: OnBase,
    plan: &TurnPlan<'_, R, G>,
    ready: &mut Ready,
) -> u64
    requires some { 0 < ahead.moves }
    requires may { MayMake true (run_for W.moves given.now) owner.old ahead.base ahead.moves }
    requires due { (due : AreOpen (run_for W.moves given.now) owner.old ahead.base ahead.moves) ×
        IsTied S.run S.standing S.after J.start followers.old.1 (run_for W.moves given.now)
        due.start }
    ensures some { (0 < result) × (result ≤ ahead.moves) }
    ensures same { followers.new ≡ followers.old }
    ensures made { HasMadeFrom true (run_for W.moves given.now) owner.old ahead.base result
        owner.new }
{
    let number = owner.state.done;
    let left = followers.look(plan.rt, number).min(ahead.moves);
    if left == 0 {
        let foreseen = followers.foreseen_from(number, ahead.moves);
        let count = foreseen.len() as u64;
        if count > 0 {
            commit_foreseen(given, owner, foreseen, ahead.base, plan.gate);
            return count;
        }
    }
    let moves = left.max(1);
    let own = OnBase {
        base: ahead.base,
        moves,
    };
    commit_alone::<W, G, true>(given, owner, own, true, plan.gate, ready);
    moves
}

/// Makes the next `ahead.moves` moves of the running stage, which the crew judges on the placement after `ahead.base` moves. The owner
/// decides the moves that are left to it on the live placement. Allocates nothing of its own.
fn commit_followed<W: Words, G: Gate, S: Pursue, J: Naming + Boarding + Origin<S>, R: Wait>(
    given: &Given<'_, W>,
    owner: &mut Owner,
    followers: &mut Followers<S, J>,
    ahead: OnBase,
    plan: &TurnPlan<'_, R, G>,
    ready: &mut Ready,
)
    requires may { MayMake true (run_for W.moves given.now) owner.old ahead.base ahead.moves }
    requires due { (due : AreOpen (run_for W.moves given.now) owner.old ahead.base ahead.moves) ×
        IsTied S.run S.standing S.after J.start followers.old.1 (run_for W.moves given.now)
        due.start }
    ensures same { followers.new ≡ followers.old }
    ensures made { HasMadeFrom true (run_for W.moves given.now) owner.old ahead.base ahead.moves
        owner.new }
{
    let mut made = 0;
    while made < ahead.moves {
        let rest = OnBase {
            base: ahead.base,
            moves: ahead.moves - made,
        };
        made += commit_next(given, owner, followers, rest, plan, ready);
    }
}

/// Makes the moves of a part of a turn: those that are kept as they were foreseen, and the others by the crew or by the owner. Allocates
/// nothing of its own.
fn commit_part<W: Words, G: Gate, S: Pursue, J: Naming + Boarding + Origin<S>, R: Wait>(
    given: &Given<'_, W>,
    owner: &mut Owner,
    followers: &mut Option<Followers<S, J>>,
    part: Part<'_>,
    plan: &TurnPlan<'_, R, G>,
    ready: &mut Ready,
)
    requires few { length part.kept.now ≤ part.moves }
    requires may { MayMake true (run_for W.moves given.now) owner.old part.base part.moves }
    requires due { (due : AreOpen (run_for W.moves given.now) owner.old part.base part.moves) ×
        AreForeseen (run_for W.moves given.now) due.start owner.old.state.done part.kept.now ×
        (part.by_crew ≡ true → IfSome followers.old (λ f.
        IsTied S.run S.standing S.after J.start f.1 (run_for W.moves given.now) due.start)) }
    ensures same { followers.new ≡ followers.old }
    ensures made { HasMadeFrom true (run_for W.moves given.now) owner.old part.entry.base
        part.entry.moves owner.new }
{
    let base = part.base;
    commit_foreseen(given, owner, part.kept, base, plan.gate);
    let others = OnBase {
        base,
        moves: part.moves - part.kept.len() as u64,
    };
    let Some(crew) = followers else {
        commit_alone::<W, G, true>(given, owner, others, false, plan.gate, ready);
        return;
    };
    if part.by_crew {
        commit_followed(given, owner, crew, others, plan, ready);
    } else {
        commit_alone::<W, G, true>(given, owner, others, true, plan.gate, ready);
    }
}

/// Makes a turn of at most a batch of moves. The first of them, as many as are in `kept`, are made as they were foreseen. If there is a
/// crew, first posts the swaps of the turn before, and asks for the moves after this turn. A crew that has begun judges the moves that
/// count as judged ahead; a crew that begins judges the others of this turn. Returns which moves after it count as judged ahead. An error
/// means that memory ran out; then no move was made. If the crew is let go, the owner makes all moves alone. If redone moves are not
/// counted (not `COUNTED`), there is no crew, and no swap or stamp is kept.
pub(crate) fn turn_of<
    W: Words,
    G: Gate,
    S: Pursue,
    J: Naming + Boarding + Origin<S>,
    R: Wait,
    const COUNTED: bool,
>(
    given: &Given<'_, W>,
    owner: &mut Owner,
    followers: &mut Option<Followers<S, J>>,
    kept: &[Foreseen],
    course: Course,
    plan: &TurnPlan<'_, R, G>,
    ready: &mut Ready,
) -> Result<OnBase, AllocError>
    requires at_turn { (t : LastTurn) ×
        IsAtTurn (run_for W.moves given.now) t owner.old course.ahead ×
        IsBeside S.run S.standing S.after J.start (run_for W.moves given.now) t owner.old
        course.begun followers.old ×
        AreForeseen (run_for W.moves given.now) t.start owner.old.state.done kept.now }
    requires few { length kept.now ≤ course.ahead.moves }
    requires nobody { COUNTED ≡ false → followers.old ≡ None }
    requires batch { (1 ≤ plan.now.batch) × (plan.now.batch ≤ 4096) }
    ensures counted { COUNTED ≡ true →
        TurnsOnce (run_for W.moves given.now) plan.now.batch owner.old course.ahead result
        owner.new }
    ensures forgotten { COUNTED ≡ false → MatchResult result
        (HasForgotten (run_for W.moves given.now) owner.old
        (min plan.now.batch
        (moves_left (run_for W.moves given.now) (standing_of owner.old.state))) owner.new)
        (λ _. HasForgotten (run_for W.moves given.now) owner.old 0 owner.new
        (record { base = owner.old.state.done; moves = 0 })) }
    ensures leads { COUNTED ≡ true → OnOk result
        (Leads given.now.grid.now owner.old.state.placement.sites owner.new.swaps.items
        owner.new.state.placement.sites) }
    ensures tied { OnOk result (IfSome followers.new (λ f.
        IsTied S.run S.standing S.after J.start f.0 (run_for W.moves given.now)
        (standing_of owner.old.state))) }
    ensures nobody { COUNTED ≡ false → followers.new ≡ None }
{
    if !COUNTED {
        return turn_uncounted(given, owner, plan.batch, plan.gate, ready);
    }
    let start = owner.state.done;
    let left = moves_left(&given.schedule, &owner.state);
    let shape = shape_of(course.ahead.moves, plan.batch, left);
    let swaps = taken_swaps(given.alloc, &mut owner.swaps, followers, course.begun);
    reserve(owner, shape.moves)?;
    ask(
        plan.rt,
        given,
        &owner.state,
        followers,
        swaps,
        course.begun,
        shape,
    );
    let first = Part {
        base: course.ahead.base,
        moves: shape.judged,
        kept: &kept[..kept.len().min(shape.judged as usize)],
        by_crew: course.begun,
    };
    commit_part(given, owner, followers, first, plan, ready);
    let rest = Part {
        base: start,
        moves: shape.moves - shape.judged,
        kept: &[],
        by_crew: !course.begun,
    };
    commit_part(given, owner, followers, rest, plan, ready);
    Ok(OnBase {
        base: start,
        moves: shape.next,
    })
}
