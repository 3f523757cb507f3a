// Crews as the calls of a run found them: each worker judges, whoever sleeps is woken, and each move is judged once and committed in turn.
// A gate holds what must not come first for at most ten seconds, and a test that hangs fails with its time.

use crate::beside_tests::{STAGE, Silent, Together, WORKERS, random, random_hubs, random_net};
use crate::end_tests::{Maker, ended, random_end};
use crate::in_time::{HELD, in_time};
use crate::tests::{Pace, annealer, read_setting};
use crate::world_tests::ARCH;
use fab_board::{Gate, NoGate};
use fab_move::StreamWords;
use fab_sched::Schedule;
use fab_site::{ListWords, Words};
use std::alloc::{AllocError, Global};
use std::process::Termination;
use std::sync::Wait;
use std::sync::atomic::{AtomicU64, Ordering};
use std::test::*;
use std::thread;
use std::thread::Threads;
use std::time::{CpuClock, Duration};

// Follows the calls for each move: 0 before them, and one more with each. They are right if those for a move come before its judgement,
// after it, and before its commit, each once, and if moves are committed in order of number.
#[derive(Drop)]
struct Calls {
    steps: Vec<AtomicU64>,
    commits: AtomicU64,
    wrong: AtomicU64,
}

impl Calls {
    // No call is made yet for these moves.
    fn of(alloc: Global, moves: u64) -> Result<Calls, AllocError> {
        let mut steps = Vec::new(alloc);
        for _move in 0..moves {
            steps.push(AtomicU64::new(0))?;
        }
        Ok(Calls {
            steps,
            commits: AtomicU64::new(0),
            wrong: AtomicU64::new(0),
        })
    }

    // Notes a call, before which so many have to be made for the move.
    fn note(&self, k: u64, before: u64) {
        let is_next = match self.steps.get(k as usize) {
            Some(step) => step.fetch_add(1, Ordering::SeqCst) == before,
            None => false,
        };
        if !is_next {
            self.wrong.fetch_add(1, Ordering::SeqCst);
        }
    }
}

impl Gate for Calls {
    fn before_judge(&self, k: u64) {
        self.note(k, 0);
    }

    fn after_judge(&self, k: u64) {
        self.note(k, 1);
    }

    fn before_commit(&self, k: u64) {
        self.note(k, 2);
        if self.commits.fetch_add(1, Ordering::SeqCst) != k {
            self.wrong.fetch_add(1, Ordering::SeqCst);
        }
    }
}

// How many moves the random design's run has: those of three stages and the frozen one.
const MOVES: u64 = 4 * STAGE;

// How many moves are committed in a run of the random design, and how many calls of its gate are wrong.
fn called<R: Threads + Wait + Sync>(
    rt: &R,
    alloc: Global,
    maker: Maker,
    pace: Pace,
) -> Result<(u64, u64), Fail> {
    let calls = Calls::of(alloc, MOVES)?;
    let _end = random_end(rt, alloc, 5, maker, pace, &calls)?;
    Ok((
        calls.commits.load(Ordering::SeqCst),
        calls.wrong.load(Ordering::SeqCst),
    ))
}

#[test]
fn each_move_is_judged_once_and_committed_in_turn(rt: HostRuntime) -> Result<(), Fail> {
    in_time(
        &rt,
        &mut || -> Result<(), Fail> {
            for (batch, workers) in [
                (1, 1),
                (1, 7),
                (3, 3),
                (3, 64),
                (16, 2),
                (64, 64),
                (4096, 3),
            ] {
                let pace = Pace { batch, workers };
                let calls = called(&rt, rt.alloc(), Maker::Stages, pace)?;
                assert_eq!(rt; calls, (MOVES, 0), "{batch} by {workers} workers");
            }
            Ok(())
        },
    )
}

#[test]
fn each_move_of_turns_is_judged_once_and_committed_in_turn(rt: HostRuntime) -> Result<(), Fail> {
    in_time(
        &rt,
        &mut || -> Result<(), Fail> {
            for (batch, workers) in [(3, 1), (16, 2), (64, 7), (130, 64)] {
                let pace = Pace { batch, workers };
                let calls = called(&rt, rt.alloc(), Maker::Turns, pace)?;
                assert_eq!(rt; calls, (MOVES, 0), "{batch} by {workers} workers");
            }
            Ok(())
        },
    )
}

// Words that count how often those of moves are asked for.
#[derive(Drop)]
struct AskedWords<'a> {
    words: StreamWords,
    asked: &'a AtomicU64,
}

impl<'a> Words for AskedWords<'a> {
    ghost use Rattle.fab_move.specs.Stream.{stream_moves, stream_starts};

    ghost moves = { λ w. stream_moves w.words };

    ghost starts = { λ w. stream_starts w.words };

    fn move_words(&self, k: u64) -> [u32; 4] {
        self.asked.fetch_add(1, Ordering::SeqCst);
        self.words.move_words(k)
    }

    fn start_word(&self, i: u32) -> u32 {
        self.words.start_word(i)
    }
}

// How often the words of moves are asked for in a run, and how many moves are made in it, with those that are judged again.
fn asked<G: Gate, R: Threads + Wait + Sync>(
    rt: &R,
    alloc: Global,
    net: &str,
    maker: Maker,
    pace: Pace,
    gate: &G,
) -> Result<(u64, u64), Fail> {
    let asked = AtomicU64::new(0);
    let words = AskedWords {
        words: StreamWords::new(11),
        asked: &asked,
    };
    let of = read_setting(alloc, ARCH, net.as_bytes())?;
    let mut anneal = random(alloc, &of, words)?;
    let _end = ended(rt, alloc, &mut anneal, maker, pace, gate)?;
    let judged = anneal.done().saturating_add(anneal.redone());
    Ok((asked.load(Ordering::SeqCst), judged))
}

// No answer is lost and made again, also where a worker judges some moves in a row, and where most moves that are judged again are so by
// their nets of many terminals alone.
#[test]
fn words_are_asked_for_once_for_each_judgement(rt: HostRuntime) -> Result<(), Fail> {
    in_time(
        &rt,
        &mut || -> Result<(), Fail> {
            let (few, many) = (random_net(rt.alloc(), 5)?, random_hubs(rt.alloc(), 5, 60)?);
            for net in [few.as_str(), many.as_str()] {
                for (batch, workers) in [(3, 2), (16, 3), (64, 7)] {
                    let pace = Pace { batch, workers };
                    for maker in [Maker::Stages, Maker::Turns] {
                        let (times, judged) = asked(&rt, rt.alloc(), net, maker, pace, &NoGate)?;
                        assert_eq!(rt; times, judged, "{maker:?} of {batch} by {workers} workers");
                        let (times, judged) = asked(&rt, rt.alloc(), net, maker, pace, &Silent)?;
                        assert_eq!(rt; times, judged, "{maker:?} of {batch} by {workers} workers");
                    }
                }
            }
            Ok(())
        },
    )
}

// Waits until the count is at least `wanted`, for at most 40 seconds; then the test has failed, and nothing is waited for any more.
pub(crate) fn hold(rt: &HostRuntime, count: &AtomicU64, wanted: u64, failed: &AtomicU64) {
    for _turn in 0..HELD {
        if count.load(Ordering::SeqCst) >= wanted || failed.load(Ordering::SeqCst) != 0 {
            return;
        }
        thread::sleep(rt, Duration::from_millis(1));
    }
    failed.store(1, Ordering::SeqCst);
}

// Stages of the random design have thirteen batches of so many moves.
const BATCH: u64 = 10;

// Holds the first commit of each batch until a judgement of the batch after it has begun, if that is of the same stage.
#[derive(Drop)]
struct Ahead<'a> {
    rt: &'a HostRuntime,
    batch: u64,
    stage: u64,
    // For each batch of the run, how many judgements have begun.
    begun: Vec<AtomicU64>,
    failed: AtomicU64,
}

impl<'a> Ahead<'a> {
    // Nothing has begun yet in a run of so many moves.
    fn of(
        alloc: Global,
        rt: &'a HostRuntime,
        batch: u64,
        stage: u64,
        moves: u64,
    ) -> Result<Ahead<'a>, AllocError> {
        let mut begun = Vec::new(alloc);
        for _batch in 0..moves / batch.max(1) {
            begun.push(AtomicU64::new(0))?;
        }
        Ok(Ahead {
            rt,
            batch,
            stage,
            begun,
            failed: AtomicU64::new(0),
        })
    }

    // How many judgements of this move's batch have begun.
    fn begun(&self, k: u64) -> Option<&AtomicU64> {
        self.begun.get((k / self.batch.max(1)) as usize)
    }
}

impl Gate for Ahead<'_> {
    fn before_judge(&self, k: u64) {
        if let Some(begun) = self.begun(k) {
            begun.fetch_add(1, Ordering::SeqCst);
        }
    }

    fn after_judge(&self, _k: u64) {}

    fn before_commit(&self, k: u64) {
        let next = k.saturating_add(self.batch);
        if k % self.batch.max(1) != 0 || next % self.stage.max(1) == 0 {
            return;
        }
        if let Some(begun) = self.begun(next) {
            hold(self.rt, begun, 1, &self.failed);
        }
    }
}

// So the judgements are posted before the commits, and one worker is one beside the owner.
#[test]
fn workers_judge_a_batch_while_the_one_before_is_committed(rt: HostRuntime) -> Result<(), Fail> {
    in_time(
        &rt,
        &mut || -> Result<(), Fail> {
            for maker in [Maker::Stages, Maker::Turns] {
                for workers in [1, 3] {
                    let pace = Pace {
                        batch: BATCH,
                        workers,
                    };
                    let gate = Ahead::of(rt.alloc(), &rt, BATCH, STAGE, MOVES)?;
                    let alone = random_end(&rt, rt.alloc(), 5, Maker::Alone, pace, &NoGate)?;
                    let beside = random_end(&rt, rt.alloc(), 5, maker, pace, &gate)?;
                    assert_eq!(rt;
                        beside.as_str(),
                        alone.as_str(),
                        "{maker:?}, {workers} workers"
                    );
                    let failed = gate.failed.load(Ordering::SeqCst);
                    assert_eq!(rt; failed, 0, "{maker:?}, {workers} workers");
                }
            }
            Ok(())
        },
    )
}

// Whether so many threads judge at once in a run at this pace.
fn are_at_once<R: Threads + Wait + Sync>(
    rt: &R,
    alloc: Global,
    clock: &HostRuntime,
    maker: Maker,
    pace: Pace,
    threads: u64,
) -> Result<bool, Fail> {
    let gate = Together {
        rt: clock,
        threads,
        begun: AtomicU64::new(0),
        failed: AtomicU64::new(0),
    };
    let _end = random_end(rt, alloc, 5, maker, pace, &gate)?;
    Ok(gate.failed.load(Ordering::SeqCst) == 0)
}

#[test]
fn all_workers_of_a_turn_judge_at_once(rt: HostRuntime) -> Result<(), Fail> {
    in_time(
        &rt,
        &mut || -> Result<(), Fail> {
            for workers in WORKERS {
                let pace = Pace {
                    batch: 128,
                    workers,
                };
                // The calling thread judges too, while it waits for the first move.
                let threads = workers.saturating_add(1);
                assert!(rt;
                    are_at_once(&rt, rt.alloc(), &rt, Maker::Turns, pace, threads)?,
                    "{workers} workers"
                );
            }
            Ok(())
        },
    )
}

// How many moves a small batch has.
const FEW: u64 = 3;

// The owner is held in its first commit until so many judgements of the second batch have begun, and each of these until all have: so as
// many workers judge at once, and the owner is none of them.
#[derive(Drop)]
struct Each<'a> {
    rt: &'a HostRuntime,
    wanted: u64,
    begun: AtomicU64,
    failed: AtomicU64,
}

impl Gate for Each<'_> {
    fn before_judge(&self, k: u64) {
        if k >= FEW && k < FEW.saturating_add(self.wanted) {
            self.begun.fetch_add(1, Ordering::SeqCst);
            hold(self.rt, &self.begun, self.wanted, &self.failed);
        }
    }

    fn after_judge(&self, _k: u64) {}

    fn before_commit(&self, k: u64) {
        if k == 0 {
            hold(self.rt, &self.begun, self.wanted, &self.failed);
        }
    }
}

// In a batch of three, three workers get one move each.
#[test]
fn workers_of_a_small_batch_get_a_move_each(rt: HostRuntime) -> Result<(), Fail> {
    in_time(
        &rt,
        &mut || -> Result<(), Fail> {
            for maker in [Maker::Stages, Maker::Turns] {
                for (workers, wanted) in [(1, 1), (2, 2), (3, 3), (64, 3)] {
                    let gate = Each {
                        rt: &rt,
                        wanted,
                        begun: AtomicU64::new(0),
                        failed: AtomicU64::new(0),
                    };
                    let pace = Pace {
                        batch: FEW,
                        workers,
                    };
                    let _end = random_end(&rt, rt.alloc(), 5, maker, pace, &gate)?;
                    assert_eq!(rt;
                        gate.begun.load(Ordering::SeqCst),
                        wanted,
                        "{maker:?}, {workers}"
                    );
                    assert_eq!(rt;
                        gate.failed.load(Ordering::SeqCst),
                        0,
                        "{maker:?}, {workers}"
                    );
                }
            }
            Ok(())
        },
    )
}

// In milliseconds: a span of time, and how much processor time the threads of a process at rest use in it at most. A thread that looks for
// work all the time uses more, even on a machine with much other work.
const SPAN: u64 = 500;

const MOST: u64 = 100;

// Waits until this process is at rest, for at most half a minute. Returns whether it was busy all the time: if no thread has anything to do,
// one does not sleep.
pub(crate) fn was_busy(rt: &HostRuntime) -> bool {
    for _span in 0..60u64 {
        let before = rt.process_cpu_time();
        thread::sleep(rt, Duration::from_millis(SPAN));
        let after = rt.process_cpu_time();
        let is_at_rest = match (before, after) {
            (Ok(before), Ok(after)) => after.saturating_sub(before) <= Duration::from_millis(MOST),
            _ => false,
        };
        if is_at_rest {
            return false;
        }
    }
    true
}

// The first judgement of the second batch takes until all sleep. A worker makes it, since the owner begins to commit the first batch only
// then. So the owner has to sleep for it, and so do the other workers, which have judged the third batch by then.
#[derive(Drop)]
struct Slow<'a> {
    rt: &'a HostRuntime,
    begun: AtomicU64,
    busy: AtomicU64,
    failed: AtomicU64,
}

impl Gate for Slow<'_> {
    fn before_judge(&self, k: u64) {
        if k >= BATCH && self.begun.fetch_add(1, Ordering::SeqCst) == 0 && was_busy(self.rt) {
            self.busy.store(1, Ordering::SeqCst);
        }
    }

    fn after_judge(&self, _k: u64) {}

    fn before_commit(&self, k: u64) {
        if k == 0 {
            hold(self.rt, &self.begun, 1, &self.failed);
        }
    }
}

#[test]
fn the_owner_sleeps_and_is_woken_by_a_slow_worker(rt: HostRuntime) -> Result<(), Fail> {
    in_time(
        &rt,
        &mut || -> Result<(), Fail> {
            for maker in [Maker::Stages, Maker::Turns] {
                for workers in [1, 3] {
                    let pace = Pace {
                        batch: BATCH,
                        workers,
                    };
                    let gate = Slow {
                        rt: &rt,
                        begun: AtomicU64::new(0),
                        busy: AtomicU64::new(0),
                        failed: AtomicU64::new(0),
                    };
                    let alone = random_end(&rt, rt.alloc(), 5, Maker::Alone, pace, &NoGate)?;
                    let beside = random_end(&rt, rt.alloc(), 5, maker, pace, &gate)?;
                    assert_eq!(rt;
                        beside.as_str(),
                        alone.as_str(),
                        "{maker:?}, {workers} workers"
                    );
                    assert_eq!(rt; gate.failed.load(Ordering::SeqCst), 0, "{maker:?}");
                    assert_eq!(rt; gate.busy.load(Ordering::SeqCst), 0, "{maker:?}, {workers}");
                }
            }
            Ok(())
        },
    )
}

// Before the last commit of the first batch the owner waits until the crew sleeps, which has judged the second batch by then. Before the
// first commit of the second batch it waits until each worker makes a judgement of the third batch, all at once. The crew sleeps at the end
// of the first stage too.
#[derive(Drop)]
struct Sleepy<'a> {
    rt: &'a HostRuntime,
    workers: u64,
    begun: AtomicU64,
    busy: AtomicU64,
    failed: AtomicU64,
}

impl Gate for Sleepy<'_> {
    fn before_judge(&self, k: u64) {
        let third = 2 * BATCH;
        if k >= third && k < third.saturating_add(self.workers) {
            self.begun.fetch_add(1, Ordering::SeqCst);
            hold(self.rt, &self.begun, self.workers, &self.failed);
        }
    }

    fn after_judge(&self, _k: u64) {}

    fn before_commit(&self, k: u64) {
        let last = k.saturating_add(1);
        if (last == BATCH || last == STAGE) && was_busy(self.rt) {
            self.busy.store(1, Ordering::SeqCst);
        }
        if k == BATCH {
            hold(self.rt, &self.begun, self.workers, &self.failed);
        }
    }
}

#[test]
fn a_sleeping_crew_is_woken_whole_and_sent_home(rt: HostRuntime) -> Result<(), Fail> {
    in_time(
        &rt,
        &mut || -> Result<(), Fail> {
            for workers in [1, 3, 7] {
                let pace = Pace {
                    batch: BATCH,
                    workers,
                };
                let gate = Sleepy {
                    rt: &rt,
                    workers,
                    begun: AtomicU64::new(0),
                    busy: AtomicU64::new(0),
                    failed: AtomicU64::new(0),
                };
                let alone = random_end(&rt, rt.alloc(), 5, Maker::Alone, pace, &NoGate)?;
                let beside = random_end(&rt, rt.alloc(), 5, Maker::Stages, pace, &gate)?;
                assert_eq!(rt; beside.as_str(), alone.as_str(), "{workers} workers");
                assert_eq!(rt; gate.failed.load(Ordering::SeqCst), 0, "{workers} workers");
                assert_eq!(rt; gate.busy.load(Ordering::SeqCst), 0, "{workers} workers");
            }
            Ok(())
        },
    )
}

// The only worker judges the first move of the second batch, since the owner begins to commit the first batch only then. It is held there
// until the owner has judged the next move.
#[derive(Drop)]
struct Helped<'a> {
    rt: &'a HostRuntime,
    begun: AtomicU64,
    ended: AtomicU64,
    failed: AtomicU64,
}

impl Gate for Helped<'_> {
    fn before_judge(&self, k: u64) {
        if k == BATCH {
            self.begun.store(1, Ordering::SeqCst);
            hold(self.rt, &self.ended, 1, &self.failed);
        }
    }

    fn after_judge(&self, k: u64) {
        if k == BATCH + 1 {
            self.ended.store(1, Ordering::SeqCst);
        }
    }

    fn before_commit(&self, k: u64) {
        if k == 0 {
            hold(self.rt, &self.begun, 1, &self.failed);
        }
    }
}

#[test]
fn the_owner_helps_while_it_waits(rt: HostRuntime) -> Result<(), Fail> {
    in_time(
        &rt,
        &mut || -> Result<(), Fail> {
            for maker in [Maker::Stages, Maker::Turns] {
                let pace = Pace {
                    batch: BATCH,
                    workers: 1,
                };
                let gate = Helped {
                    rt: &rt,
                    begun: AtomicU64::new(0),
                    ended: AtomicU64::new(0),
                    failed: AtomicU64::new(0),
                };
                let _end = random_end(&rt, rt.alloc(), 5, maker, pace, &gate)?;
                assert_eq!(rt; gate.failed.load(Ordering::SeqCst), 0, "{maker:?}");
            }
            Ok(())
        },
    )
}

// Two blocks without a common net, on four sites.
const PAIR: &[u8] = b".clb b1\npinlist: x\n.clb b2\npinlist: y\n";

const PAIR_ARCH: &[u8] = b"io_rat 1\noutpin class: 0 top\n";

// Words of moves that send the first block to the second column of the first row and to the first one, in turn. It starts in the first
// column. So each move is a swap, and none changes the cost.
fn to_and_fro(alloc: Global, moves: u64) -> Result<ListWords, AllocError> {
    let mut words = Vec::new(alloc);
    for k in 0..moves {
        let column = if k % 2 == 0 { u32::MAX } else { 0 };
        words.push([0, column, 0, 0])?;
    }
    Ok(ListWords {
        starts: Vec::new(alloc),
        moves: words,
    })
}

// How many of 12,288 such moves are made, accepted and judged again, beside a crew that judges the next batch while one is committed. Only
// the first move rests on nothing that was touched since.
fn all_accepted<R: Threads + Wait + Sync>(
    rt: &R,
    alloc: Global,
    maker: Maker,
    workers: u64,
    gate: &Ahead<'_>,
) -> Result<(u64, u64, u64), Fail> {
    let of = read_setting(alloc, PAIR_ARCH, PAIR)?;
    let schedule = Schedule::new(1, 2, 500, 12_288)?;
    let mut anneal = annealer(alloc, &of, None, schedule, to_and_fro(alloc, 12_288)?)?;
    let pace = Pace {
        batch: 4096,
        workers,
    };
    let _end = ended(rt, alloc, &mut anneal, maker, pace, gate)?;
    Ok((anneal.done(), anneal.accepted_count(), anneal.redone()))
}

#[test]
fn turns_end_whose_moves_are_all_accepted(rt: HostRuntime) -> Result<(), Fail> {
    in_time(
        &rt,
        &mut || -> Result<(), Fail> {
            for maker in [Maker::Stages, Maker::Turns] {
                for workers in [1, 3] {
                    let gate = Ahead::of(rt.alloc(), &rt, 4096, 12_288, 12_288)?;
                    let made = all_accepted(&rt, rt.alloc(), maker, workers, &gate)?;
                    assert_eq!(rt; made, (12_288, 12_288, 12_287), "{maker:?}, {workers}");
                    assert_eq!(rt;
                        gate.failed.load(Ordering::SeqCst),
                        0,
                        "{maker:?}, {workers}"
                    );
                }
            }
            Ok(())
        },
    )
}

// Whether a run ended so. What a failed run tells goes to standard error.
fn is_told(rt: &HostRuntime, told: Result<String, Fail>, wanted: &str) -> bool {
    match told {
        Ok(text) => text.as_str() == wanted,
        Err(fail) => {
            let failed: Result<(), Fail> = Err(fail);
            let _code = failed.report(rt);
            false
        }
    }
}

// Where a frozen stage of thirty moves ends.
fn short_end<R: Threads + Wait + Sync>(
    rt: &R,
    alloc: Global,
    maker: Maker,
    pace: Pace,
) -> Result<String, Fail> {
    let net = random_net(alloc, 5)?;
    let of = read_setting(alloc, ARCH, net.as_bytes())?;
    let schedule = Schedule::new(1, 2, 400, 30)?;
    let mut anneal = annealer(alloc, &of, None, schedule, StreamWords::new(11))?;
    ended(rt, alloc, &mut anneal, maker, pace, &NoGate)
}

#[test]
fn two_hundred_runs_side_by_side_end_in_time(rt: HostRuntime) -> Result<(), Fail> {
    in_time(
        &rt,
        &mut || -> Result<(), Fail> {
            let pace = Pace {
                batch: 16,
                workers: 2,
            };
            let clock = &rt;
            let alone = short_end(&rt, rt.alloc(), Maker::Alone, pace)?;
            let wanted = alone.as_str();
            let right = thread::map_indices(
                &rt,
                rt.alloc(),
                200,
                &|_run: usize| -> bool {
                    let told = short_end(clock, clock.alloc(), Maker::Stages, pace);
                    is_told(clock, told, wanted)
                },
            )?;
            assert!(rt; right.iter().all(|is_right| *is_right));
            Ok(())
        },
    )
}
