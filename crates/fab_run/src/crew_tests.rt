// The crew of a run: all its workers judge, the owner waits for a slow one, and who sleeps is woken. A gate holds what must not come first
// for at most 40 seconds; a run that hangs ends with the test's time.
use crate::run_tests::{INPUTS, OPTIONS};
use crate::watched_tests::{after, hold, last_shown};
use crate::{Moves, Options};
use fab_board::{Gate, NoGate};
use std::sync::atomic::{AtomicU64, Ordering};
use std::test::*;
use std::thread;
use std::time::{CpuClock, Duration};

// Before a run's commit `at` the owner is held until so many judgements of the next batch have begun, and each of these until all of them
// have: so as many threads as that judge at once, and the owner is none of them. In a batch of three, three workers get one move each.
#[derive(Drop)]
struct AtOnce<'a> {
    rt: &'a HostRuntime,
    at: u64,
    batch: u64,
    wanted: u64,
    begun: AtomicU64,
    all: AtomicU64,
    failed: AtomicU64,
}

impl Gate for AtOnce<'_> {
    fn before_judge(&self, k: u64) {
        let next = self.at.saturating_add(self.batch);
        if k < next || k >= next.saturating_add(self.wanted) {
            return;
        }
        let begun = self.begun.fetch_add(1, Ordering::SeqCst);
        if begun.saturating_add(1) == self.wanted {
            self.all.store(1, Ordering::SeqCst);
        }
        hold(self.rt, &self.all, &self.failed);
    }

    fn after_judge(&self, _k: u64) {}

    fn before_commit(&self, k: u64) {
        if k == self.at {
            hold(self.rt, &self.all, &self.failed);
        }
    }
}

// Stages of three batches.
fn paced(batch: u64, workers: u64) -> Options {
    Options {
        moves: Moves::Given(batch.saturating_mul(3)),
        batch,
        workers,
        ..OPTIONS
    }
}

#[test]
fn all_workers_of_a_run_judge_at_once(rt: HostRuntime) -> Result<(), Fail> {
    for (batch, workers) in [(8, 1), (8, 2), (8, 3), (8, 7), (3, 3), (3, 64), (64, 64)] {
        let options = paced(batch, workers);
        let wanted = workers.min(batch);
        // The first batch of the first two stages, and the second one of the second stage.
        for at in [0, batch.saturating_mul(3), batch.saturating_mul(4)] {
            let gate = AtOnce {
                rt: &rt,
                at,
                batch,
                wanted,
                begun: AtomicU64::new(0),
                all: AtomicU64::new(0),
                failed: AtomicU64::new(0),
            };
            let held = last_shown(&rt, &INPUTS, &options, after(0), &gate)?;
            assert_eq!(rt;
                gate.failed.load(Ordering::SeqCst),
                0,
                "{workers} workers at {at}"
            );
            assert_eq!(rt; gate.begun.load(Ordering::SeqCst), wanted);
            assert!(rt; held.1 == last_shown(&rt, &INPUTS, &options, after(0), &NoGate)?.1);
        }
    }
    Ok(())
}

// The batch of the tests below, whose stages have 24 moves.
const BATCH: u64 = 8;

// Waits until all other threads of this process sleep: until it uses a fifth of a processor at most for half a second. If it does not for half
// a minute, the test has failed.
fn wait_for_rest(rt: &HostRuntime, failed: &AtomicU64) {
    for _span in 0..60u64 {
        let before = rt.process_cpu_time();
        thread::sleep(rt, Duration::from_millis(500));
        let after = rt.process_cpu_time();
        let is_at_rest = match (before, after) {
            (Ok(before), Ok(after)) => after.saturating_sub(before) <= Duration::from_millis(100),
            _ => false,
        };
        if is_at_rest {
            return;
        }
    }
    failed.store(1, Ordering::SeqCst);
}

// The first judgement of the second batch takes until all sleep, and the owner begins to commit the first batch only then: so a worker judges
// it, and the owner has to sleep for it. Judgements are counted by number.
#[derive(Drop)]
struct Slow<'a> {
    rt: &'a HostRuntime,
    begun: AtomicU64,
    failed: AtomicU64,
    judged: &'a [AtomicU64],
}

impl Gate for Slow<'_> {
    fn before_judge(&self, k: u64) {
        if let Some(times) = self.judged.get(k as usize) {
            times.fetch_add(1, Ordering::SeqCst);
        }
        if k >= BATCH && self.begun.fetch_add(1, Ordering::SeqCst) == 0 {
            wait_for_rest(self.rt, &self.failed);
        }
    }

    fn after_judge(&self, _k: u64) {}

    fn before_commit(&self, k: u64) {
        if k == 0 {
            hold(self.rt, &self.begun, &self.failed);
        }
    }
}

#[test]
fn the_owner_sleeps_until_a_slow_judgement_is_made(rt: HostRuntime) -> Result<(), Fail> {
    for workers in [1, 3] {
        let mut judged = Vec::new(rt.alloc());
        for _move in 0..120u64 {
            judged.push(AtomicU64::new(0))?;
        }
        let gate = Slow {
            rt: &rt,
            begun: AtomicU64::new(0),
            failed: AtomicU64::new(0),
            judged: &judged,
        };
        let held = last_shown(&rt, &INPUTS, &paced(BATCH, workers), after(0), &gate)?;
        assert_eq!(rt; gate.failed.load(Ordering::SeqCst), 0);
        assert_eq!(rt; held.0, after(120));
        assert!(rt;
            held.1 == last_shown(&rt, &INPUTS, &paced(BATCH, workers), after(0), &NoGate)?.1
        );
        // No answer is lost and made anew.
        for times in &judged {
            assert_eq!(rt; times.load(Ordering::SeqCst), 1);
        }
    }
    Ok(())
}

// Before the second commit of a batch the owner waits until the crew sleeps. Before the next batch's first commit it waits until a worker has
// begun the batch after that. The crew sleeps at the end of the run too.
#[derive(Drop)]
struct Sleepy<'a> {
    rt: &'a HostRuntime,
    begun: AtomicU64,
    failed: AtomicU64,
}

impl Gate for Sleepy<'_> {
    fn before_judge(&self, k: u64) {
        if k >= 2 * BATCH {
            self.begun.store(1, Ordering::SeqCst);
        }
    }

    fn after_judge(&self, _k: u64) {}

    fn before_commit(&self, k: u64) {
        match k {
            1 | 119 => wait_for_rest(self.rt, &self.failed),
            BATCH => hold(self.rt, &self.begun, &self.failed),
            _ => {}
        }
    }
}

#[test]
fn a_sleeping_crew_is_woken_for_a_batch_and_sent_home(rt: HostRuntime) -> Result<(), Fail> {
    for workers in [1, 3] {
        let gate = Sleepy {
            rt: &rt,
            begun: AtomicU64::new(0),
            failed: AtomicU64::new(0),
        };
        let held = last_shown(&rt, &INPUTS, &paced(BATCH, workers), after(0), &gate)?;
        assert_eq!(rt; gate.failed.load(Ordering::SeqCst), 0);
        assert_eq!(rt; held.0, after(120));
    }
    Ok(())
}
