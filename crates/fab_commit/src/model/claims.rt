//! Claims and verdicts, by worker and by number. Part of the model: no run executes it.

ghost use Rattle.std.specs.Prelude.{◌≡◌, ◌-◌, ◌==◌, ◌&&◌, nat_lt, None, Some, MatchOption};
ghost use Rattle.std.specs.List.{list_any, range_with_len};
ghost use Rattle.fab_commit.specs.declared.model.judged.JudgedMove.{JudgedMove};
ghost use Rattle.fab_commit.specs.Model.World.{claim_of, first_free, is_claimed, is_judged, is_last, verdict_for, without_number, without_worker};
ghost use Rattle.fab_commit.specs.Model.Worlds.{is_number, last_among, without_last, without_verdict};

use crate::model::judged::{Claimed, JudgedMove};

/// The move that a worker has claimed, if any.
pub(crate) fn claim_of(claims: &[Claimed], worker: u64) -> Option<u64>
    ensures { result ≡ claim_of worker claims.now }
{
    for claim in claims {
        if claim.worker == worker {
            return Some(claim.number);
        }
    }
    None
}

fn is_claimed(claims: &[Claimed], number: u64) -> bool
    ensures { result ≡ is_claimed number claims.now }
{
    claims.iter().any(|claim| number == claim.number)
}

fn is_judged(verdicts: &[JudgedMove], number: u64) -> bool
    ensures { result ≡ is_judged number verdicts.now }
{
    verdicts.iter().any(|verdict| number == verdict.number)
}

/// The first of the numbers `from..to` with no claim and no verdict.
pub(crate) fn first_free(
    claims: &[Claimed],
    verdicts: &[JudgedMove],
    from: u64,
    to: u64,
) -> Option<u64>
    ensures { result ≡ first_free claims.now verdicts.now (range_with_len from (to - from)) }
{
    for number in from..to {
        if !is_claimed(claims, number) && !is_judged(verdicts, number) {
            return Some(number);
        }
    }
    None
}

/// Drops the claim of a worker.
pub(crate) fn drop_claim(claims: &mut Vec<Claimed>, worker: u64)
    ensures { claims.new.items ≡ without_worker worker claims.old.items }
{
    claims.retain(|claim| claim.worker != worker);
}

/// The verdict for a move, if there is one.
pub(crate) fn verdict_for(verdicts: &[JudgedMove], number: u64) -> Option<&JudgedMove>
    ensures { MatchOption result (verdict_for number verdicts.now ≡ None) (λ v.
        verdict_for number verdicts.now ≡ Some v.now) }
{
    for verdict in verdicts {
        if verdict.number == number {
            return Some(verdict);
        }
    }
    None
}

/// Drops the verdict for a move.
pub(crate) fn drop_verdict_for(verdicts: &mut Vec<JudgedMove>, number: u64)
    ensures { verdicts.new.items ≡ without_number number verdicts.old.items }
{
    verdicts.retain(|verdict| verdict.number != number);
}

/// Whether a verdict of a worker has a greater number.
fn has_greater(verdicts: &[JudgedMove], worker: u64, number: u64) -> bool
    ensures { result ≡ list_any (λ (v : JudgedMove).
        v.worker == worker && nat_lt number v.number) verdicts.now }
{
    verdicts.iter().any(|verdict| verdict.worker == worker && number < verdict.number)
}

/// Whether a verdict is the worker's, and no verdict of the worker has a greater number.
fn is_last_of(verdicts: &[JudgedMove], worker: u64, verdict: &JudgedMove) -> bool
    ensures { result ≡
        (verdict.now.worker == worker && is_last worker verdicts.now verdict.now.number) }
{
    verdict.worker == worker && !has_greater(verdicts, worker, verdict.number)
}

/// The greatest number of a worker's verdicts.
fn last_number(verdicts: &[JudgedMove], worker: u64) -> Option<u64>
    ensures { result ≡ last_among worker verdicts.now verdicts.now }
{
    for verdict in verdicts {
        if is_last_of(verdicts, worker, verdict) {
            return Some(verdict.number);
        }
    }
    None
}

fn is_number(last: Option<u64>, number: u64) -> bool
    ensures { result ≡ is_number last number }
{
    match last {
        None => false,
        Some(last) => number == last,
    }
}

/// Drops a worker's verdict with the number `last`.
fn drop_verdict(verdicts: &mut Vec<JudgedMove>, worker: u64, last: Option<u64>)
    ensures { verdicts.new.items ≡ without_verdict worker last verdicts.old.items }
{
    verdicts.retain(|verdict| !(verdict.worker == worker && is_number(last, verdict.number)));
}

/// Drops a worker's verdict with the greatest number.
pub(crate) fn drop_last_verdict(verdicts: &mut Vec<JudgedMove>, worker: u64)
    ensures { verdicts.new.items ≡ without_last worker verdicts.old.items }
{
    let last = last_number(verdicts, worker);
    drop_verdict(verdicts, worker, last);
}
