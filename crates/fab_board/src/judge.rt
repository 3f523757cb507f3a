//! A batch of numbers that a crew judges with one borrowed closure. Tests alone call this; a run of the program does not.
ghost use Rattle.std.specs.Prelude.{◌≡◌, ℕ, ◌+◌, ◌-◌, ◌^◌, ◌<◌, ◌≤◌, [], All, true, length, Ok, Some, None, IfOk, IfSome, OnOk, slice_index_or};
ghost use Rattle.std.specs.Fn.{CalledAtMut};
ghost use Rattle.std.specs.Thread.{IsSync};
ghost use Rattle.fab_board.specs.Follows.{IsAnswered};
ghost use Rattle.fab_board.specs.Judged.{AllAnswered};

use crate::board::Board;
use crate::book::{Naming, Opened};
use crate::claimer::Boarding;
use crate::follow::{Follow, Origin, Sheet};
use crate::follow_crew::{beside, close_board};
use crate::follow_lead::{CrewParts, Lead, new_crew};
use crate::gate::Gate;
use crate::plan::Plan;
use crate::slots::{unwrap_all, vacant};
use std::alloc::{AllocError, Global};
use std::marker::{Brand, Model, PhantomData};
use std::sync::{Mutex, Wait};
use std::thread::Threads;

/// What is posted to the crew of a batch: numbers to judge.
#[derive(Clone, Copy)]
pub struct Ask {
    first: u64,
    count: u64,
}

/// A judgement of numbers, which threads make at the same time.
pub trait Judging: Drop {
    type Answer;

    ghost use Rattle.std.specs.Prelude.{ℕ, IfOk, ◌≡◌};

    ghost may: { Self → ℕ → Type 0 };

    ghost gives: { Self → ℕ → Self.Answer → Type 0 };

    /// A copy, for another thread.
    fn again(&self) -> Self
        ensures { result ≡ self.now };

    /// Returns an answer for the number. An error means that memory ran out.
    fn judge(&self, number: u64) -> Result<Self::Answer, AllocError>
        requires { may self.now number }
        ensures { IfOk result (λ x. gives self.now number x) };
}

/// A borrowed closure.
#[derive(Drop)]
pub struct Called<'r, F> {
    by: &'r F,
}

impl<'r, T, F: Fn(u64) -> Result<T, AllocError>> Judging for Called<'r, F> {
    type Answer = T;

    ghost use Rattle.std.specs.Prelude.{Ok};

    ghost may = { λ c k. F.pre c.by.now k };

    ghost gives = { λ c k x. F.post c.by.now k (Ok x) };

    fn again(&self) -> Called<'r, F> {
        Called { by: self.by }
    }

    fn judge(&self, number: u64) -> Result<T, AllocError> {
        (self.by)(number)
    }
}

/// What a worker of a batch has: the judgement, the gate, and the numbers that may be judged. Contracts see the judgement.
#[derive(Drop)]
pub struct Lent<'r, T, G, B: Judging<Answer = T>> {
    gate: &'r G,
    by: B,
    first: u64,
    count: u64,
    of: PhantomData<Mutex<T>>,
}

impl<'r, T, G, B: Judging<Answer = T>> Model for Lent<'r, T, G, B> {
    ghost use Rattle.std.specs.Prelude.{ℕ, ◌+◌, ◌<◌};

    ghost Value = { B };

    ghost view = { λ l. l.by };

    ghost invariant = { λ l. (k : ℕ) → k < l.count → B.may l.by (l.first + k) };
}

impl<'r, T: Drop, G: Gate, B: Judging<Answer = T>> Follow<Ask, Option<T>> for Lent<'r, T, G, B> {
    ghost use Rattle.std.specs.Prelude.{IfSome, ◌≡◌};

    ghost may = { λ l e. e ≡ e };

    ghost after = { λ l e. l };

    ghost answer = { λ l k x. IfSome x (λ a. B.gives l k a) };

    ghost ready = { λ l. l ≡ l };

    fn first(&self, post: &Ask) -> u64 {
        post.first
    }

    fn count(&self, post: &Ask) -> u64 {
        post.count
    }

    fn blank(&self) -> Option<T> {
        None
    }

    fn follow(&mut self, _post: &Ask) {}

    // A place has no answer if memory ran out for its number. The loop is not in a function of its own, because a gate that all threads
    // share cannot be lent to a function of this thread.
    fn judge(&mut self, first: u64, count: u64, places: &mut [Option<T>]) -> bool {
        'places: for i in 0..count as usize {
            let number = first + i as u64;
            places[i] = None;
            if number < self.first || number - self.first >= self.count {
                continue;
            }
            self.gate.before_judge(number);
            let judged = self.by.judge(number);
            self.gate.after_judge(number);
            places[i] = judged.ok();
        }
        true
    }
}

/// The owner's end of a crew, and the sheet that it reads.
#[derive(Drop)]
struct OwnerEnd<S: Follow<Ask, Option<T>>, T: Drop, J: Naming + Boarding + Origin<S>> {
    lead: Lead<S, Ask, Option<T>, J>,
    sheet: Sheet<S, Ask, Option<T>, J>,
}

/// Judges the `count` numbers from `first` on, with `workers` workers, or with `count` workers if that is less. The workers are threads,
/// which claim the numbers; the calling thread judges what none of them has claimed. Each calls `judge` for a number between the gate's two
/// calls, and all have ended when this returns. Entry j is an answer for `first + j`.
///
/// An error means that memory ran out, in `judge` or here. If the system refuses to start a worker, the others judge its numbers.
pub fn judge_batch<
    T: Send + Drop,
    G: Gate,
    F: Fn(u64) -> Result<T, AllocError> + Sync,
    R: Threads + Wait + Sync,
>(
    rt: &R,
    alloc: Global,
    first: u64,
    count: u64,
    workers: u64,
    gate: &G,
    judge: &F,
) -> Result<Vec<T>, AllocError>
    requires first { first ≤ 2 ^ 62 }
    requires count { count ≤ 4096 }
    requires workers { (0 < workers) × (workers ≤ 64) }
    requires calls { (k : ℕ) → k < count → F.pre judge.now (first + k) }
    ensures len { IfOk result (λ v. length v.items ≡ count) }
    ensures each { IfOk result (λ v.
        (j : ℕ) (d : T) → j < count →
        F.post judge.now (first + j) (Ok (slice_index_or v.items j d))) }
{
    judge_with(
        rt,
        alloc,
        Ask { first, count },
        workers,
        gate,
        Called { by: judge },
    )
}

/// Judges the numbers of `ask` with `by`, as [`judge_batch`] does with a closure.
fn judge_with<T: Send + Drop, G: Gate, B: Judging<Answer = T> + Send, R: Threads + Wait + Sync>(
    rt: &R,
    alloc: Global,
    ask: Ask,
    workers: u64,
    gate: &G,
    by: B,
) -> Result<Vec<T>, AllocError>
    requires first { ask.first ≤ 2 ^ 62 }
    requires count { ask.count ≤ 4096 }
    requires workers { (0 < workers) × (workers ≤ 64) }
    requires calls { (k : ℕ) → k < ask.count → B.may by (ask.first + k) }
    ensures len { IfOk result (λ v. length v.items ≡ ask.count) }
    ensures each { IfOk result (λ v. AllAnswered (λ k x. B.gives by (ask.first + k) x) v.items) }
{
    let Ask { first, count } = ask;
    if count == 0 {
        return Ok(Vec::new(alloc));
    }
    let parts = crew_parts(alloc, first, count, workers.min(count), gate, by)?;
    judged_by::<Lent<'_, T, G, B>, T, Brand, R>(rt, alloc, Opened::new(), parts, first, count)
}

/// The parts of a crew of `workers` workers that judges the `count` numbers from `first` on.
fn crew_parts<'r, T, G: Gate, B: Judging<Answer = T>>(
    alloc: Global,
    first: u64,
    count: u64,
    workers: u64,
    gate: &'r G,
    by: B,
) -> Result<CrewParts<Lent<'r, T, G, B>>, AllocError>
    requires workers { (0 < workers) × (workers ≤ 64) }
    requires calls { (k : ℕ) → k < count → B.may by (first + k) }
    ensures claims { IfOk result (λ f. All (λ s. s.board ≡ f.board.name) f.claims.items) }
    ensures first { IfOk result (λ f. f.first ≡ by) }
    ensures others { IfOk result (λ f. All (λ s. s ≡ by) f.others.items) }
    ensures many { IfOk result (λ f.
        (length f.claims.items ≡ workers) × (length f.others.items ≡ workers)) }
{
    let mut others = Vec::new(alloc);
    for _worker in 0..workers {
        others.push(lend(first, count, gate, by.again()))?;
    }
    let (board, claims) = Board::new(alloc, 1 << 62, workers)?;
    // A gate may hold one judgement until another begins, so no worker takes two of them.
    let units = if gate.does_nothing() {
        Plan::of(count, workers)
    } else {
        Plan::single(count)
    };
    Ok(CrewParts {
        board,
        claims,
        first: lend(first, count, gate, by),
        others,
        units,
    })
}

/// The judgement, limited to the `count` numbers from `first` on.
fn lend<'r, T, G: Gate, B: Judging<Answer = T>>(
    first: u64,
    count: u64,
    gate: &'r G,
    by: B,
) -> Lent<'r, T, G, B>
    requires calls { (k : ℕ) → k < count → B.may by (first + k) }
    ensures { result ≡ by }
{
    Lent {
        gate,
        by,
        first,
        count,
        of: PhantomData,
    }
}

/// Judges the `count` numbers from `first` on with a crew whose name is `J`.
fn judged_by<
    S: Follow<Ask, Option<T>> + Send,
    T: Drop + Send,
    J: Naming + Boarding + Origin<S> + Send + Sync,
    R: Threads + Wait + Sync,
>(
    rt: &R,
    alloc: Global,
    opened: Opened<Ask>,
    parts: CrewParts<S>,
    first: u64,
    count: u64,
) -> Result<Vec<T>, AllocError>
    requires book { opened ≡ J.book }
    requires board { parts.board.name ≡ J.board }
    requires claims { All (λ s. s.board ≡ J.board) parts.claims.items }
    requires start { J.start ≡ Some parts.first }
    requires starts { All (λ s. J.start ≡ Some s) parts.others.items }
    requires many { length parts.claims.items ≡ length parts.others.items }
    requires may { (s : S) (e : Ask) → S.may s e }
    requires room { first + count < 2 ^ 64 }
    ensures len { IfOk result (λ v. length v.items ≡ count) }
    ensures each { IfOk result (λ v.
        AllAnswered (λ k x. IsAnswered S.after S.answer J.start (first + k) (Some x)) v.items) }
{
    let (crew, lead) = new_crew::<S, Ask, Option<T>, J>(alloc, opened, parts)?;
    let sheet = lead.sheet(alloc)?;
    let mut owner_end = OwnerEnd { lead, sheet };
    let answers = beside(
        rt,
        &crew,
        &mut owner_end,
        &mut |d: &mut OwnerEnd<S, T, J>| -> Result<Vec<T>, AllocError>
            requires { IsSync R.row × ((s : S) (e : Ask) → S.may s e) × (first + count < 2 ^ 64) }
            ensures len { IfOk result (λ v. length v.items ≡ count) }
            ensures each { IfOk result (λ v.
                AllAnswered (λ k x.
                IsAnswered S.after S.answer J.start (first + k) (Some x)) v.items) }
        { collect(rt, alloc, d, first, count) },
    );
    drop(owner_end);
    close_board(crew);
    answers
}

/// Has the crew judge the `count` numbers from `first` on, and collects the answers. It takes the last numbers first: the owner judges what
/// nobody has taken, so it works towards the workers.
fn collect<S: Follow<Ask, Option<T>>, T: Drop, J: Naming + Boarding + Origin<S>, R: Wait>(
    rt: &R,
    alloc: Global,
    owner_end: &mut OwnerEnd<S, T, J>,
    first: u64,
    count: u64,
) -> Result<Vec<T>, AllocError>
    requires may { (s : S) (e : Ask) → S.may s e }
    requires room { first + count < 2 ^ 64 }
    ensures len { IfOk result (λ v. length v.items ≡ count) }
    ensures each { IfOk result (λ v.
        AllAnswered (λ k x. IsAnswered S.after S.answer J.start (first + k) (Some x)) v.items) }
{
    let mut slots = vacant(alloc, count)?;
    // What one post asks for is due once the next one is posted.
    let _ = owner_end.lead.post(rt, Ask { first, count });
    let _ = owner_end.lead.post(rt, Ask { first, count: 0 });
    let mut place = count;
    while place > 0 {
        place -= 1;
        let number = first + place;
        owner_end.lead.seek(rt, number, &mut owner_end.sheet);
        if let Some(answer) = owner_end.lead.take(number, &mut owner_end.sheet, None) {
            slots[place as usize] = answer;
        }
    }
    unwrap_all(alloc, slots)
}
