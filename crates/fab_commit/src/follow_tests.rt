// A crew of fab_board whose workers have states of this test's own: an owner that gets far ahead of late workers, one that keeps its end of
// a crew that has ended, one to which is left what no worker judges, one that posts before its workers have begun, and one behind more than a
// million units.
ghost use Rattle.std.specs.Prelude.{All, ◌≡◌, ◌<◌, ◌≤◌, Some, IfOk, length};
ghost use Rattle.std.specs.Thread.{IsSync};

use crate::crew_tests::{hold, was_busy};
use crate::in_time::in_time;
use fab_board::follow_crew::{beside, retire};
use fab_board::follow_lead::{CrewParts, Lead, new_crew};
use fab_board::{Board, Boarding, Follow, Naming, Opened, Origin, Plan, Sheet};
use std::alloc::{AllocError, Global};
use std::marker::{Brand, Model};
use std::sync::Wait;
use std::sync::atomic::{AtomicU64, Ordering};
use std::test::*;
use std::thread;
use std::thread::Threads;
use std::time::Duration;

// More posts than the ring of posts has slots.
const POSTS: u64 = 70;

// How many numbers are posted where some are left to the owner, and how many of them at least: it looks for this many before the ring is full.
const NUMBERS: u64 = 200;

const LEFT: u64 = 63;

// How many crews an owner has that posts at once, and how many of them have a worker that claims at least. The system is mostly quick enough
// to start one.
const CREWS: u64 = 16;

const WITH_A_WORKER: u64 = 12;

// If a turn has `UNITS` units, the unit of the number `FAR` is unit 2^20. From it on, workers judge `FAR_NUMBERS` numbers one by one. These are
// more than the turns whose units have a place at a time.
const UNITS: u64 = 4096;

const FAR: u64 = 256;

const FAR_NUMBERS: u64 = 16;

// What is posted: a number to judge.
#[derive(Clone, Copy)]
struct Step {
    number: u64,
}

// How the workers of a crew work.
#[derive(Clone, Copy, PartialEq, Eq)]
enum Pace {
    // They are late with their first post.
    Late,
    // They are late with it, and take a millisecond over each number.
    Slow,
    // They wait for nothing.
    Prompt,
    // They wait for nothing, and a turn has `UNITS` units.
    Far,
}

// How many workers have begun, how many numbers they have judged, and whether one of these was waited for in vain.
#[derive(Drop)]
struct Watch<'a> {
    rt: &'a HostRuntime,
    begun: AtomicU64,
    judged: AtomicU64,
    failed: AtomicU64,
    pace: Pace,
    // Beside slow workers: how many numbers were left to the owner, and how many answers were right.
    left: AtomicU64,
    right: AtomicU64,
    // How many numbers from `FAR` on the workers have judged.
    far: AtomicU64,
}

impl<'a> Watch<'a> {
    fn new(rt: &'a HostRuntime, pace: Pace) -> Watch<'a> {
        Watch {
            rt,
            begun: AtomicU64::new(0),
            judged: AtomicU64::new(0),
            failed: AtomicU64::new(0),
            pace,
            left: AtomicU64::new(0),
            right: AtomicU64::new(0),
            far: AtomicU64::new(0),
        }
    }
}

// Counts the posts that it has followed, and answers with that count. A worker's waits at its first post, unless it is prompt: until `LEFT`
// numbers were left to the owner, or until all other threads sleep. Contracts see nothing of it.
#[derive(Drop)]
struct Counted<'a> {
    watch: &'a Watch<'a>,
    is_worker: bool,
    posts: u64,
}

impl<'a> Model for Counted<'a> {
    ghost use Rattle.std.specs.Prelude.{ℕ};

    ghost Value = { ℕ };

    ghost view = { λ s. 0 };
}

impl<'a> Counted<'a> {
    fn new(watch: &'a Watch<'a>, is_worker: bool) -> Counted<'a>
        ensures { result ≡ 0 }
    {
        Counted {
            watch,
            is_worker,
            posts: 0,
        }
    }
}

impl<'a> Follow<Step, u64> for Counted<'a> {
    ghost use Rattle.std.specs.Prelude.{◌≡◌, true, false};

    ghost may = { λ s e. e ≡ e };

    ghost after = { λ s e. s };

    ghost answer = { λ s k x. x ≡ x };

    // It judges one number and no more.
    ghost ready = { λ s. true ≡ false };

    fn first(&self, post: &Step) -> u64 {
        post.number
    }

    fn count(&self, _post: &Step) -> u64 {
        1
    }

    fn blank(&self) -> u64 {
        0
    }

    fn follow(&mut self, _post: &Step) {
        if self.is_worker && self.posts == 0 {
            let watch = self.watch;
            watch.begun.fetch_add(1, Ordering::SeqCst);
            match watch.pace {
                Pace::Late => {
                    if was_busy(watch.rt) {
                        watch.failed.store(1, Ordering::SeqCst);
                    }
                }
                Pace::Slow => hold(watch.rt, &watch.left, LEFT, &watch.failed),
                Pace::Prompt | Pace::Far => {}
            }
        }
        self.posts = self.posts.saturating_add(1);
    }

    // A unit has one number.
    fn judge(&mut self, _first: u64, count: u64, places: &mut [u64]) -> bool {
        if count == 0 {
            return false;
        }
        places[0] = self.posts;
        if self.is_worker {
            if self.watch.pace == Pace::Slow {
                thread::sleep(self.watch.rt, Duration::from_millis(1));
            }
            self.watch.judged.fetch_add(1, Ordering::SeqCst);
            if self.posts > FAR {
                self.watch.far.fetch_add(1, Ordering::SeqCst);
            }
        }
        count == 1
    }
}

// What a crew of so many late workers is made of.
fn found<'a>(
    alloc: Global,
    watch: &'a Watch<'a>,
    workers: u64,
) -> Result<CrewParts<Counted<'a>>, AllocError>
    requires workers { (0 < workers) × (workers ≤ 64) }
    ensures claims { IfOk result (λ f. All (λ s. s.board ≡ f.board.name) f.claims.items) }
    ensures first { IfOk result (λ f. f.first ≡ 0) }
    ensures others { IfOk result (λ f. All (λ s. s ≡ 0) f.others.items) }
    ensures many { IfOk result (λ f.
        (length f.claims.items ≡ workers) × (length f.others.items ≡ workers)) }
{
    let mut others = Vec::new(alloc);
    for _worker in 0..workers {
        others.push(Counted::new(watch, true))?;
    }
    let numbers = if watch.pace == Pace::Far { UNITS } else { 1 };
    let (board, claims) = Board::new(alloc, 1 << 62, workers)?;
    Ok(CrewParts {
        board,
        claims,
        first: Counted::new(watch, false),
        others,
        units: Plan::single(numbers),
    })
}

// The owner's end of a crew, and the sheet that it reads.
#[derive(Drop)]
struct OwnerEnd<S: Follow<Step, u64>, J: Naming + Boarding + Origin<S>> {
    lead: Lead<S, Step, u64, J>,
    sheet: Sheet<S, Step, u64, J>,
}

// Posts these numbers.
fn post_each<S: Follow<Step, u64>, J: Naming + Boarding + Origin<S>, R: Wait>(
    rt: &R,
    owner_end: &mut OwnerEnd<S, J>,
    first: u64,
    past: u64,
)
    requires may { (s : S) (e : Step) → S.may s e }
{
    for number in first..past {
        let _ = owner_end.lead.post(rt, Step { number });
    }
}

// Posts beside late workers and asks for nothing: once, and when each of them has begun with that post, more often than the ring has slots.
// So the owner has to wait for them, for longer than it looks, and is woken by the last one. Then the workers judge; a number is passed by
// where its worker is slow to take it.
fn run_ahead<S: Follow<Step, u64>, J: Naming + Boarding + Origin<S>, R: Wait>(
    rt: &R,
    owner_end: &mut OwnerEnd<S, J>,
    watch: &Watch<'_>,
    workers: u64,
)
    requires may { (s : S) (e : Step) → S.may s e }
{
    post_each(rt, owner_end, 0, 1);
    hold(watch.rt, &watch.begun, workers, &watch.failed);
    post_each(rt, owner_end, 1, POSTS);
    hold(watch.rt, &watch.judged, POSTS / 2, &watch.failed);
}

// Posts numbers beside slow workers, and looks for each when it is due. What these have not judged is left to the owner. Until an answer is
// right, the owner looks for the later numbers only when workers have judged one more: such an owner has waited for no worker, so it keeps no
// number from them. An owner that waits often does.
fn leave<S: Follow<Step, u64>, J: Naming + Boarding + Origin<S>, R: Wait>(
    rt: &R,
    owner_end: &mut OwnerEnd<S, J>,
    watch: &Watch<'_>,
    workers: u64,
)
    requires may { (s : S) (e : Step) → S.may s e }
{
    owner_end.lead.leave_to_owner();
    post_each(rt, owner_end, 0, 1);
    hold(watch.rt, &watch.begun, workers, &watch.failed);
    for number in 1..NUMBERS {
        let one_more = watch.judged.load(Ordering::SeqCst).saturating_add(1);
        let _ = owner_end.lead.post(rt, Step { number });
        let due = number.saturating_sub(1);
        if number > NUMBERS / 2 && watch.right.load(Ordering::SeqCst) == 0 {
            hold(watch.rt, &watch.judged, one_more, &watch.failed);
        }
        if owner_end.lead.look(rt, due, &mut owner_end.sheet) > 0 {
            watch.left.fetch_add(1, Ordering::SeqCst);
        } else if let Some(posts) = owner_end.lead.answer(due, &owner_end.sheet) {
            if *posts == number {
                watch.right.fetch_add(1, Ordering::SeqCst);
            }
        }
    }
}

// When each worker has begun with the first post, posts so many numbers that later ones are of units behind the first 2^20. Then posts a
// number more whenever a worker has judged the last.
fn go_far<S: Follow<Step, u64>, J: Naming + Boarding + Origin<S>, R: Wait>(
    rt: &R,
    owner_end: &mut OwnerEnd<S, J>,
    watch: &Watch<'_>,
    workers: u64,
)
    requires may { (s : S) (e : Step) → S.may s e }
{
    post_each(rt, owner_end, 0, 1);
    hold(watch.rt, &watch.begun, workers, &watch.failed);
    post_each(rt, owner_end, 1, FAR);
    for more in 0..FAR_NUMBERS {
        post_each(rt, owner_end, FAR + more, FAR + more + 1);
        hold(watch.rt, &watch.far, more + 1, &watch.failed);
    }
}

// Posts as often again, and asks for each number when it is due. Returns how many answers are right: as many posts as there were up to the
// number's own.
fn go_on<S: Follow<Step, u64>, J: Naming + Boarding + Origin<S>, R: Wait>(
    rt: &R,
    owner_end: &mut OwnerEnd<S, J>,
) -> u64
    requires may { (s : S) (e : Step) → S.may s e }
{
    let mut right = 0u64;
    for number in POSTS..2 * POSTS {
        let _ = owner_end.lead.post(rt, Step { number });
        let due = number.saturating_sub(1);
        owner_end.lead.seek(rt, due, &mut owner_end.sheet);
        if let Some(posts) = owner_end.lead.answer(due, &owner_end.sheet) {
            if *posts == number {
                right = right.saturating_add(1);
            }
        }
    }
    right
}

// What the owner does beside its crew.
fn begin<S: Follow<Step, u64>, J: Naming + Boarding + Origin<S>, R: Wait>(
    rt: &R,
    owner_end: &mut OwnerEnd<S, J>,
    watch: &Watch<'_>,
    workers: u64,
)
    requires may { (s : S) (e : Step) → S.may s e }
{
    match watch.pace {
        Pace::Late => run_ahead(rt, owner_end, watch, workers),
        Pace::Slow => leave(rt, owner_end, watch, workers),
        Pace::Prompt => post_each(rt, owner_end, 0, POSTS),
        Pace::Far => go_far(rt, owner_end, watch, workers),
    }
}

// Runs ahead of a crew of this name, and goes on where it has ended; or, beside slow workers, makes what is left to the owner; or posts at
// once. Returns how many answers were right then, and how many units were claimed, if all workers have ended.
fn posted_by<
    S: Follow<Step, u64> + Send,
    J: Naming + Boarding + Origin<S> + Send + Sync,
    R: Threads + Wait + Sync,
>(
    rt: &R,
    alloc: Global,
    opened: Opened<Step>,
    founded: CrewParts<S>,
    watch: &Watch<'_>,
    workers: u64,
) -> Result<(u64, Option<u64>), AllocError>
    requires book { opened ≡ J.book }
    requires board { founded.board.name ≡ J.board }
    requires claims { All (λ s. s.board ≡ J.board) founded.claims.items }
    requires start { J.start ≡ Some founded.first }
    requires starts { All (λ s. J.start ≡ Some s) founded.others.items }
    requires many { length founded.claims.items ≡ length founded.others.items }
    requires may { (s : S) (e : Step) → S.may s e }
{
    let (crew, lead) = new_crew::<S, Step, u64, J>(alloc, opened, founded)?;
    let sheet = lead.sheet(alloc)?;
    let mut owner_end = OwnerEnd { lead, sheet };
    beside(
        rt,
        &crew,
        &mut owner_end,
        &mut |d: &mut OwnerEnd<S, J>| -> ()
            requires { IsSync R.row × ((s : S) (e : Step) → S.may s e) }
        { begin(rt, d, watch, workers) },
    );
    let right = match watch.pace {
        Pace::Late => go_on(rt, &mut owner_end),
        Pace::Slow => watch.right.load(Ordering::SeqCst),
        Pace::Prompt | Pace::Far => 0,
    };
    drop(owner_end);
    let Some(retired) = retire(crew) else {
        return Ok((right, None));
    };
    Ok((right, Some(retired.close().taken)))
}

// What came of a crew.
#[derive(Clone, Copy)]
struct Told {
    failed: u64,
    judged: u64,
    left: u64,
    right: u64,
    taken: Option<u64>,
}

// What comes of a crew of so many workers.
fn crew_run<R: Threads + Wait + Sync>(
    rt: &R,
    alloc: Global,
    clock: &HostRuntime,
    workers: u64,
    pace: Pace,
) -> Result<Told, AllocError>
    requires { (0 < workers) × (workers ≤ 64) }
{
    let watch = Watch::new(clock, pace);
    let founded = found(alloc, &watch, workers)?;
    let (right, taken) = posted_by::<Counted<'_>, Brand, R>(
        rt,
        alloc,
        Opened::new(),
        founded,
        &watch,
        workers,
    )?;
    Ok(Told {
        failed: watch.failed.load(Ordering::SeqCst),
        judged: watch.judged.load(Ordering::SeqCst),
        left: watch.left.load(Ordering::SeqCst),
        right,
        taken,
    })
}

// Each number that a worker judged it claimed. Each worker may hold a number more, which was not posted yet.
#[test]
fn an_owner_waits_for_late_workers_and_outlives_its_crew(rt: HostRuntime) -> Result<(), Fail> {
    in_time(
        &rt,
        &mut || -> Result<(), Fail> {
            for workers in 1..3u64 {
                let told = crew_run(&rt, rt.alloc(), &rt, workers, Pace::Late)?;
                assert_eq!(rt; (told.failed, told.right), (0, POSTS), "{workers} workers");
                let Some(taken) = told.taken else {
                    return Err(Fail::from("a worker has not ended"));
                };
                assert!(rt; told.judged <= taken, "{workers} workers");
                assert!(rt; taken <= POSTS + workers, "{workers} workers");
            }
            Ok(())
        },
    )
}

// Before a worker has begun, `LEFT` numbers are left to the owner. After that each number is either left or answered.
#[test]
fn what_no_worker_judges_is_left_to_the_owner(rt: HostRuntime) -> Result<(), Fail> {
    in_time(
        &rt,
        &mut || -> Result<(), Fail> {
            for workers in 1..3u64 {
                let told = crew_run(&rt, rt.alloc(), &rt, workers, Pace::Slow)?;
                assert_eq!(rt;
                    told.left.saturating_add(told.right),
                    NUMBERS - 1,
                    "{workers} workers"
                );
                assert_eq!(rt; told.failed, 0, "{workers} workers");
                assert!(rt; told.left >= LEFT, "{workers} workers");
                assert!(rt; told.right > 0, "{workers} workers");
                assert!(rt; told.right <= told.judged, "{workers} workers");
                assert!(rt; told.taken.is_some(), "{workers} workers");
            }
            Ok(())
        },
    )
}

// The owner posts more often than the ring has slots before its workers have begun. It waits until they have, so they claim.
#[test]
fn workers_that_have_not_begun_yet_are_waited_for(rt: HostRuntime) -> Result<(), Fail> {
    in_time(
        &rt,
        &mut || -> Result<(), Fail> {
            let mut with_a_worker = 0u64;
            for _crew in 0..CREWS {
                let told = crew_run(&rt, rt.alloc(), &rt, 2, Pace::Prompt)?;
                let Some(taken) = told.taken else {
                    return Err(Fail::from("a worker has not ended"));
                };
                if taken > 0 {
                    with_a_worker = with_a_worker.saturating_add(1);
                }
            }
            assert!(rt; with_a_worker >= WITH_A_WORKER, "{with_a_worker} crews");
            Ok(())
        },
    )
}

// Workers take units behind the first million too.
#[test]
fn workers_take_units_behind_a_million(rt: HostRuntime) -> Result<(), Fail> {
    in_time(
        &rt,
        &mut || -> Result<(), Fail> {
            for workers in 1..3u64 {
                let told = crew_run(&rt, rt.alloc(), &rt, workers, Pace::Far)?;
                assert_eq!(rt; told.failed, 0, "{workers} workers");
            }
            Ok(())
        },
    )
}
