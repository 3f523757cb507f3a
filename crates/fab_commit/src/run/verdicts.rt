//! What a crew foresees of the moves after a single turn, and the same as verdicts. A run of the program asks for neither.

ghost use Rattle.std.specs.Prelude.{◌≡◌, ◌+◌, ◌≤◌, ◌<◌, ◌^◌, length, IfOk};
ghost use Rattle.fab_commit.specs.Serial.{Standing};
ghost use Rattle.fab_commit.specs.Run.Commits.{run_for};
ghost use Rattle.fab_commit.specs.Run.Followed.{IsTied};
ghost use Rattle.fab_commit.specs.Run.Foreseen.{AreForeseen, IsForeseen};
ghost use Rattle.fab_commit.specs.Run.Owners.{AreAnswers, verdict_of};
ghost use Rattle.fab_commit.specs.Model.TurnEvents.{verdict_on};

use crate::run::behind::Pursue;
use crate::run::followers::Followers;
use crate::run::foreseen::Foreseen;
use crate::run::post::MoveRange;
use crate::run::state::Given;
use fab_board::{Boarding, Naming, Origin};
use fab_move::{Verdict, footprint_of};
use fab_site::Words;
use std::alloc::AllocError;
use std::sync::Wait;

/// What the crew foresees of a move. An error means that memory ran out.
fn sight_of<W: Words, S: Pursue, J: Naming + Boarding + Origin<S>, R: Wait>(
    rt: &R,
    _given: &Given<'_, W>,
    followers: &mut Followers<S, J>,
    number: u64,
) -> Result<Foreseen, AllocError>
    ensures same { followers.new ≡ followers.old }
    ensures is { IfOk result (λ f.
        (x : Standing) →
        IsTied S.run S.standing S.after J.start followers.old.1 (run_for W.moves _given.now) x →
        IsForeseen (run_for W.moves _given.now) x number f) }
{
    followers.seek(rt, number);
    match followers.foreseen(number) {
        Some(sight) => Ok(*sight),
        None => Err(AllocError),
    }
}

/// What the crew foresees of moves. An error means that memory ran out.
pub(crate) fn sights_of<W: Words, S: Pursue, J: Naming + Boarding + Origin<S>, R: Wait>(
    rt: &R,
    given: &Given<'_, W>,
    followers: &mut Followers<S, J>,
    range: MoveRange,
) -> Result<Vec<Foreseen>, AllocError>
    requires limits { (range.first ≤ 2 ^ 62) × (range.moves ≤ 4096) }
    ensures many { IfOk result (λ v. length v.items ≡ range.moves) }
    ensures are { IfOk result (λ v.
        (x : Standing) →
        IsTied S.run S.standing S.after J.start followers.old.1 (run_for W.moves given.now) x →
        AreForeseen (run_for W.moves given.now) x range.first v.items) }
{
    let mut sights = Vec::with_capacity(given.alloc, range.moves as usize)?;
    'moves: for i in 0..range.moves {
        sights.push(sight_of(rt, given, followers, range.first + i)?)?;
    }
    Ok(sights)
}

/// What was foreseen of a move, as its verdict.
fn verdict_from<W: Words>(
    given: &Given<'_, W>,
    number: u64,
    foreseen: &Foreseen,
) -> Result<Verdict, AllocError>
    requires foreseen { (x : Standing) ×
        IsForeseen (run_for W.moves given.now) x number foreseen.now }
    ensures { IfOk result (λ v.
        (x : Standing) → IsForeseen (run_for W.moves given.now) x number foreseen.now →
        verdict_of x.done v ≡ verdict_on (run_for W.moves given.now) x number) }
{
    let footprint = footprint_of(given.alloc, given.design, foreseen.proposal)?;
    let decision = foreseen.decision::<false>();
    Ok(Verdict {
        k: number,
        swap: decision.swap,
        delta: decision.delta,
        accepted: decision.accepted,
        footprint,
    })
}

/// What was foreseen of the moves from `first` on, as verdicts. An error means that memory ran out.
pub(crate) fn verdicts_of<W: Words>(
    given: &Given<'_, W>,
    first: u64,
    sights: &[Foreseen],
) -> Result<Vec<Verdict>, AllocError>
    requires foreseen { (x : Standing) ×
        AreForeseen (run_for W.moves given.now) x first sights.now }
    requires limits { (first ≤ 2 ^ 62) × (length sights.now ≤ 4096) }
    ensures many { IfOk result (λ v. length v.items ≡ length sights.now) }
    ensures are { IfOk result (λ v.
        (x : Standing) → AreForeseen (run_for W.moves given.now) x first sights.now →
        AreAnswers (run_for W.moves given.now) x first v.items) }
{
    let mut verdicts = Vec::with_capacity(given.alloc, sights.len())?;
    'moves: for i in 0..sights.len() {
        verdicts.push(verdict_from(given, first + i as u64, &sights[i])?)?;
    }
    Ok(verdicts)
}
