ghost use Rattle.std.specs.Prelude.{◌≡◌, ◌<◌, ◌≤◌, true, IfOk};

use crate::beside_tests::{Together, WORKERS};
use crate::crew_tests::{hold, was_busy};
use crate::in_time::{HELD, in_time};
use fab_board::{Board, ClaimSeat, Gate, NoGate, judge_batch};
use std::alloc::{AllocError, Global};
use std::sync::Wait;
use std::sync::atomic::{AtomicU64, Ordering};
use std::test::*;
use std::thread;
use std::thread::Threads;
use std::time::Duration;

// What a seat is told in five claims.
fn five_claims(board: &Board, seat: &mut ClaimSeat) -> [Option<u64>; 5]
    requires { seat.old.board ≡ board.now.name }
    ensures { seat.new.board ≡ seat.old.board }
{
    let first = board.claim(seat);
    let second = board.claim(seat);
    let third = board.claim(seat);
    let fourth = board.claim(seat);
    [first, second, third, fourth, board.claim(seat)]
}

#[test]
fn one_seat_takes_three_numbers_and_the_other_none(rt: HostRuntime) -> Result<(), Fail> {
    in_time(
        &rt,
        &mut || -> Result<(), Fail> {
            let (board, mut seats) = Board::new(rt.alloc(), 3, 2)?;
            assert_eq!(rt; seats.len(), 2);
            let told = five_claims(&board, &mut seats[0]);
            assert!(rt; told == [Some(0), Some(1), Some(2), None, None]);
            assert!(rt; board.claim(&mut seats[1]).is_none());
            assert_eq!(rt; board.close(seats).taken, 3);
            Ok(())
        },
    )
}

#[test]
fn a_board_without_numbers(rt: HostRuntime) -> Result<(), Fail> {
    in_time(
        &rt,
        &mut || -> Result<(), Fail> {
            let (board, mut seats) = Board::new(rt.alloc(), 0, 1)?;
            assert!(rt; board.claim(&mut seats[0]).is_none());
            assert_eq!(rt; board.close(seats).taken, 0);
            Ok(())
        },
    )
}

#[test]
fn a_board_that_is_closed_early(rt: HostRuntime) -> Result<(), Fail> {
    in_time(
        &rt,
        &mut || -> Result<(), Fail> {
            let (board, mut seats) = Board::new(rt.alloc(), 64, 64)?;
            assert!(rt; board.claim(&mut seats[63]) == Some(0));
            assert!(rt; board.claim(&mut seats[0]) == Some(1));
            assert_eq!(rt; board.close(seats).taken, 2);
            Ok(())
        },
    )
}

// Claims until no number is left, and counts how often it was given each number.
fn drain<R: Wait>(rt: &R, board: &Board, given: &[AtomicU64], mut seat: ClaimSeat) -> ClaimSeat
    requires { seat.board ≡ board.now.name }
    ensures { (result.board ≡ board.now.name) × (result.told ≡ true) }
{
    for _turn in rt.forever() {
        let Some(number) = board.claim(&mut seat) else {
            break;
        };
        if let Some(count) = given.get(number as usize) {
            count.fetch_add(1, Ordering::SeqCst);
        }
    }
    seat
}

// Four threads of a caller claim all numbers.
fn drained_by_four<R: Threads + Wait + Sync>(
    rt: &R,
    alloc: Global,
    given: &[AtomicU64],
) -> Result<u64, AllocError>
    ensures { IfOk result (λ n. n ≡ 1000) }
{
    let (board, seats) = Board::new(alloc, 1000, 4)?;
    let claimer = &board;
    let seats = thread::map_vec(
        rt,
        seats,
        &|seat: ClaimSeat| -> ClaimSeat
            requires { seat.board ≡ claimer.now.name }
            ensures { (result.board ≡ claimer.entry.now.name) × (result.told ≡ true) }
        { drain(rt, claimer, given, seat) },
    )?;
    Ok(board.close(seats).taken)
}

#[test]
fn four_threads_take_each_number_once(rt: HostRuntime) -> Result<(), Fail> {
    in_time(
        &rt,
        &mut || -> Result<(), Fail> {
            let mut given = Vec::new(rt.alloc());
            for _number in 0..1000u64 {
                given.push(AtomicU64::new(0))?;
            }
            assert_eq!(rt; drained_by_four(&rt, rt.alloc(), given.as_slice())?, 1000);
            for (number, count) in given.iter().enumerate() {
                assert_eq!(rt; count.load(Ordering::SeqCst), 1, "at {number}");
            }
            Ok(())
        },
    )
}

#[test]
fn a_batch_of_a_thousand_in_four_threads(rt: HostRuntime) -> Result<(), Fail> {
    in_time(
        &rt,
        &mut || -> Result<(), Fail> {
            let halves = judge_batch(
                &rt,
                rt.alloc(),
                5,
                1000,
                4,
                &NoGate,
                &|k: u64| -> Result<u64, AllocError> { Ok(k / 2) },
            )?;
            assert_eq!(rt; halves.len(), 1000);
            for (place, half) in (5..1005u64).zip(halves.iter()) {
                assert_eq!(rt; *half, place / 2, "at {place}");
            }
            Ok(())
        },
    )
}

#[test]
fn a_batch_of_no_numbers(rt: HostRuntime) -> Result<(), Fail> {
    in_time(
        &rt,
        &mut || -> Result<(), Fail> {
            let none = judge_batch(
                &rt,
                rt.alloc(),
                5,
                0,
                3,
                &NoGate,
                &|k: u64| -> Result<u64, AllocError> { Ok(k) },
            )?;
            assert_eq!(rt; none.len(), 0);
            Ok(())
        },
    )
}

// The judgement of one of two numbers waits until that of the other is over, but gives up after ten seconds.
#[derive(Drop)]
struct Held<'a> {
    rt: &'a HostRuntime,
    held: u64,
    other_done: AtomicU64,
    failed: AtomicU64,
}

impl Gate for Held<'_> {
    fn before_judge(&self, k: u64) {
        if k != self.held {
            return;
        }
        hold(self.rt, &self.other_done, 1, &self.failed);
    }

    fn after_judge(&self, k: u64) {
        if k != self.held {
            self.other_done.store(1, Ordering::SeqCst);
        }
    }

    fn before_commit(&self, _k: u64) {}
}

// Whether the numbers 0 and 1 are judged by so many workers while one of the two is held.
fn is_other_judged<R: Threads + Wait + Sync>(
    rt: &R,
    alloc: Global,
    clock: &HostRuntime,
    held: u64,
    workers: u64,
) -> Result<bool, AllocError>
    requires { (0 < workers) × (workers ≤ 64) }
{
    let gate = Held {
        rt: clock,
        held,
        other_done: AtomicU64::new(0),
        failed: AtomicU64::new(0),
    };
    let answers = judge_batch(
        rt,
        alloc,
        0,
        2,
        workers,
        &gate,
        &|k: u64| -> Result<u64, AllocError> { Ok(k.saturating_add(7)) },
    )?;
    Ok(answers.as_slice() == [7, 8].as_slice() && gate.failed.load(Ordering::SeqCst) == 0)
}

#[test]
fn the_second_number_is_judged_while_the_first_is_held(rt: HostRuntime) -> Result<(), Fail> {
    in_time(
        &rt,
        &mut || -> Result<(), Fail> {
            for workers in 1..4u64 {
                assert!(rt;
                    is_other_judged(&rt, rt.alloc(), &rt, 0, workers)?,
                    "{workers} workers"
                );
            }
            Ok(())
        },
    )
}

// The calling thread begins with the last number. So it waits in vain here where no worker judges, and would not in the test before.
#[test]
fn the_first_number_is_judged_while_the_second_is_held(rt: HostRuntime) -> Result<(), Fail> {
    in_time(
        &rt,
        &mut || -> Result<(), Fail> {
            for workers in 1..4u64 {
                assert!(rt;
                    is_other_judged(&rt, rt.alloc(), &rt, 1, workers)?,
                    "{workers} workers"
                );
            }
            Ok(())
        },
    )
}

// The first number of a batch.
const FIRST: u64 = 10;

// Follows the judgement of each number of a batch: 0 before it, and one more with each of the gate's calls and with the closure's.
// Contracts of threads tell nothing of that.
#[derive(Drop)]
struct Rounds {
    steps: Vec<AtomicU64>,
    wrong: AtomicU64,
}

impl Rounds {
    // No number is judged yet.
    fn of(alloc: Global, count: u64) -> Result<Rounds, AllocError> {
        let mut steps = Vec::new(alloc);
        for _number in 0..count {
            steps.push(AtomicU64::new(0))?;
        }
        Ok(Rounds {
            steps,
            wrong: AtomicU64::new(0),
        })
    }

    // Notes a call, before which so many have to be made for the number.
    fn note(&self, number: u64, before: u64) {
        let is_next = match self.steps.get(number.wrapping_sub(FIRST) as usize) {
            Some(step) => step.fetch_add(1, Ordering::SeqCst) == before,
            None => false,
        };
        if !is_next {
            self.wrong.fetch_add(1, Ordering::SeqCst);
        }
    }

    // How many numbers were judged, each with so many calls, and how many calls are wrong.
    fn judged(&self, calls: u64) -> (u64, u64) {
        let mut judged = 0u64;
        for step in &self.steps {
            if step.load(Ordering::SeqCst) == calls {
                judged = judged.saturating_add(1);
            }
        }
        (judged, self.wrong.load(Ordering::SeqCst))
    }
}

impl Gate for Rounds {
    fn before_judge(&self, k: u64) {
        self.note(k, 0);
    }

    fn after_judge(&self, k: u64) {
        self.note(k, 2);
    }

    // No number of a batch is committed.
    fn before_commit(&self, _k: u64) {
        self.wrong.fetch_add(1, Ordering::SeqCst);
    }
}

// Judges so many numbers, each as its half, with so many workers. The closure notes its call, before which so many are to be made.
fn halves<G: Gate, R: Threads + Wait + Sync>(
    rt: &R,
    alloc: Global,
    clock: &HostRuntime,
    count: u64,
    workers: u64,
    gate: &G,
    rounds: &Rounds,
    before: u64,
) -> Result<Vec<u64>, Fail> {
    if 4096 < count || workers < 1 || 64 < workers {
        return Err(Fail::from("no such batch"));
    }
    Ok(judge_batch(
        rt,
        alloc,
        FIRST,
        count,
        workers,
        gate,
        &|k: u64| -> Result<u64, AllocError> {
            rounds.note(k, before);
            // In a short batch a judgement takes long enough that the workers come to some.
            if count <= 64 {
                thread::sleep(clock, Duration::from_millis(1));
            }
            Ok(k / 2)
        },
    )?)
}

// Whether these are the halves of so many numbers.
fn are_halves(halves: &[u64], count: u64) -> bool {
    if halves.len() as u64 != count {
        return false;
    }
    for (number, half) in (FIRST..FIRST + 4096).zip(halves.iter()) {
        if *half != number / 2 {
            return false;
        }
    }
    true
}

// Whether each number is judged once and answered, between the two calls of a gate, and without one, where a worker takes some in a row.
fn is_judged_once<R: Threads + Wait + Sync>(
    rt: &R,
    alloc: Global,
    clock: &HostRuntime,
    count: u64,
    workers: u64,
) -> Result<bool, Fail> {
    let rounds = Rounds::of(alloc, count)?;
    let gated = halves(rt, alloc, clock, count, workers, &rounds, &rounds, 1)?;
    let free = Rounds::of(alloc, count)?;
    let alone = halves(rt, alloc, clock, count, workers, &NoGate, &free, 0)?;
    Ok(
        are_halves(&gated, count)
            && are_halves(&alone, count)
            && rounds.judged(3) == (count, 0)
            && free.judged(1) == (count, 0),
    )
}

#[test]
fn each_number_is_judged_once(rt: HostRuntime) -> Result<(), Fail> {
    in_time(
        &rt,
        &mut || -> Result<(), Fail> {
            for count in 1..=40u64 {
                for workers in [1, 2, 3, 7] {
                    assert!(rt;
                        is_judged_once(&rt, rt.alloc(), &rt, count, workers)?,
                        "{count} by {workers} workers"
                    );
                }
            }
            for (count, workers) in [(3, 64), (64, 64), (4096, 3)] {
                assert!(rt;
                    is_judged_once(&rt, rt.alloc(), &rt, count, workers)?,
                    "{count} by {workers} workers"
                );
            }
            Ok(())
        },
    )
}

// Whether so many threads judge at once in a batch of so many numbers.
fn are_at_once<R: Threads + Wait + Sync>(
    rt: &R,
    alloc: Global,
    clock: &HostRuntime,
    count: u64,
    workers: u64,
    threads: u64,
) -> Result<bool, Fail> {
    let gate = Together {
        rt: clock,
        threads,
        begun: AtomicU64::new(0),
        failed: AtomicU64::new(0),
    };
    let rounds = Rounds::of(alloc, count)?;
    let _halves = halves(rt, alloc, clock, count, workers, &gate, &rounds, 0)?;
    Ok(gate.failed.load(Ordering::SeqCst) == 0)
}

#[test]
fn all_workers_of_a_batch_judge_at_once(rt: HostRuntime) -> Result<(), Fail> {
    in_time(
        &rt,
        &mut || -> Result<(), Fail> {
            for workers in WORKERS {
                // The calling thread judges too.
                let threads = workers.saturating_add(1);
                assert!(rt;
                    are_at_once(&rt, rt.alloc(), &rt, 80, workers, threads)?,
                    "{workers} workers"
                );
            }
            assert!(rt; are_at_once(&rt, rt.alloc(), &rt, 3, 64, 3)?);
            Ok(())
        },
    )
}

// The last number's judgement waits until that of the first has begun, for at most 40 seconds, and the first one's takes until all other
// threads sleep. The owner begins with the last number. So a worker judges the first one, and the owner has to sleep for it.
#[derive(Drop)]
struct Slow<'a> {
    rt: &'a HostRuntime,
    last: u64,
    begun: AtomicU64,
    failed: AtomicU64,
}

impl Gate for Slow<'_> {
    fn before_judge(&self, k: u64) {
        if k == FIRST {
            self.begun.store(1, Ordering::SeqCst);
            if was_busy(self.rt) {
                self.failed.store(1, Ordering::SeqCst);
            }
        }
        if k != self.last {
            return;
        }
        for _turn in 0..HELD {
            if self.begun.load(Ordering::SeqCst) == 1 {
                return;
            }
            thread::sleep(self.rt, Duration::from_millis(1));
        }
        self.failed.store(1, Ordering::SeqCst);
    }

    fn after_judge(&self, _k: u64) {}

    fn before_commit(&self, _k: u64) {}
}

// The other workers sleep at the end of the batch.
#[test]
fn the_owner_of_a_batch_is_woken_and_wakes_its_workers(rt: HostRuntime) -> Result<(), Fail> {
    in_time(
        &rt,
        &mut || -> Result<(), Fail> {
            for workers in [1, 3] {
                let gate = Slow {
                    rt: &rt,
                    last: FIRST + 3,
                    begun: AtomicU64::new(0),
                    failed: AtomicU64::new(0),
                };
                let rounds = Rounds::of(rt.alloc(), 4)?;
                let answers = halves(&rt, rt.alloc(), &rt, 4, workers, &gate, &rounds, 0)?;
                assert_eq!(rt; answers.as_slice(), [5, 5, 6, 6].as_slice());
                assert_eq!(rt; rounds.judged(1), (4, 0), "{workers} workers");
                assert_eq!(rt; gate.failed.load(Ordering::SeqCst), 0, "{workers} workers");
            }
            Ok(())
        },
    )
}

// Judges six numbers, of which the closure refuses those from one on, so many. Whether want of memory is told, and each number is judged
// once all the same, between the two calls of the gate: no thread stops there, no answer is asked for again, and all have ended.
fn is_refused<R: Threads + Wait + Sync>(
    rt: &R,
    alloc: Global,
    clock: &HostRuntime,
    workers: u64,
    from: u64,
    refusals: u64,
) -> Result<bool, AllocError>
    requires { (0 < workers) × (workers ≤ 64) }
{
    let rounds = Rounds::of(alloc, 6)?;
    let answers = judge_batch(
        rt,
        alloc,
        FIRST,
        6,
        workers,
        &rounds,
        &|k: u64| -> Result<u64, AllocError> {
            rounds.note(k, 1);
            if from <= k && k.wrapping_sub(from) < refusals {
                return Err(AllocError);
            }
            // Long enough that a worker which is not joined would be seen at work.
            thread::sleep(clock, Duration::from_millis(1));
            Ok(k)
        },
    );
    Ok(answers.is_err() && rounds.judged(3) == (6, 0))
}

#[test]
fn want_of_memory_in_the_closure_at_each_position(rt: HostRuntime) -> Result<(), Fail> {
    in_time(
        &rt,
        &mut || -> Result<(), Fail> {
            for workers in 1..8u64 {
                for from in FIRST..FIRST + 6 {
                    for refusals in [1, 6] {
                        assert!(rt;
                            is_refused(&rt, rt.alloc(), &rt, workers, from, refusals)?,
                            "{refusals} from {from} on of {workers} workers"
                        );
                    }
                }
            }
            Ok(())
        },
    )
}
