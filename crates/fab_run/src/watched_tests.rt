// Runs that are watched, and gates that hold a crew's judgements back.
ghost use Rattle.std.specs.Prelude.{◌≡◌, All, IfOk};

use crate::asked_tests::{TWO_STAGES, ring, ring_of};
use crate::fresh_run::annealer;
use crate::piece::unwatched;
use crate::point_tests::SECOND;
use crate::resumed_run::resume_ended;
use crate::run_tests::{INPUTS, OPTIONS, PLACE, REPORT, SEVEN, SHORT, run_narrow, writer_with};
use crate::setting::read_setting;
use crate::stages::Environment;
use crate::{Inputs, Moves, Options, Restart, RunFault, place_run_shown};
use fab_board::{Gate, NoGate};
use fab_commit::KeepsNumbers;
use fab_dial::{Dial, Reading, Shower, Watcher};
use std::alloc::{AllocError, Global};
use std::process::Abort;
use std::sync::Wait;
use std::sync::atomic::{AtomicU64, Ordering};
use std::test::*;
use std::thread;
use std::thread::Threads;
use std::time::Duration;

// The reading of the design of three blocks after this many moves: none is accepted, and the cost stays the same.
pub(crate) fn after(moves: u64) -> Reading {
    Reading {
        moves,
        accepted: 0,
        cost: 40000,
    }
}

// What is placed and written, as bytes, with a shower that goes on.
fn shown_bytes<G: Gate, R: AllocGlobal + Threads + Wait + Sync>(
    rt: &R,
    inputs: &Inputs,
    options: &Options,
    gate: &G,
    dial: &Dial,
    mut shower: Shower,
) -> Result<(Shower, Vec<u8>), RunFault>
    requires { shower.dial ≡ dial.now }
    ensures { IfOk result (λ r. r.0.dial ≡ dial.now) }
{
    let alloc = rt.alloc();
    let mut report = writer_with(alloc, 10_000);
    let mut place = writer_with(alloc, 10_000);
    place_run_shown(
        rt,
        inputs,
        options,
        gate,
        dial,
        &mut shower,
        &mut report,
        &mut place,
    )?;
    let mut bytes = report.into_inner().taken;
    bytes.extend_from_slice(&place.into_inner().taken)?;
    Ok((shower, bytes))
}

// The last reading of a run that nobody watches, and what it writes.
pub(crate) fn last_shown<G: Gate, R: AllocGlobal + Threads + Wait + Sync>(
    rt: &R,
    inputs: &Inputs,
    options: &Options,
    first: Reading,
    gate: &G,
) -> Result<(Reading, Vec<u8>), RunFault> {
    let alloc = rt.alloc();
    let (dial, shower, watchers) = Dial::new(rt, alloc, 0, first)?;
    let (shower, bytes) = shown_bytes(rt, inputs, options, gate, &dial, shower)?;
    Ok((dial.gather(rt, shower, watchers), bytes))
}

// The shower after a run of seven blocks or three, which writes these bytes.
fn shown_as<R: AllocGlobal + Threads + Wait + Abort + Sync>(
    rt: &R,
    of_seven: bool,
    options: &Options,
    wanted: &[u8],
    dial: &Dial,
    shower: Shower,
) -> Result<Shower, RunFault>
    requires { shower.dial ≡ dial.now }
    ensures { IfOk result (λ s. s.dial ≡ dial.now) }
{
    let inputs = if of_seven { &SEVEN } else { &INPUTS };
    let (shower, bytes) = shown_bytes(rt, inputs, options, &NoGate, dial, shower)?;
    assert!(rt; bytes.as_slice() == wanted);
    Ok(shower)
}

// Reads without a pause until the run has ended, whose turns are of three moves: each reading is that after its number of single moves, and
// none is older than the one read before it.
fn watch<R: Wait + Abort>(rt: &R, dial: &Dial, mut watcher: Watcher, each: &[Reading]) -> Watcher
    requires { watcher.dial ≡ dial.now }
    ensures { result.dial ≡ dial.now }
{
    let mut last = 0;
    for _turn in 0..100_000_000u64 {
        let seen = dial.read(rt, &mut watcher);
        assert!(rt; seen.moves % 3 == 0 && each.get(seen.moves as usize) == Some(&seen));
        assert!(rt; last <= seen.moves);
        last = seen.moves;
        if each.last() == Some(&seen) {
            break;
        }
    }
    watcher
}

// A run of turns of three moves, which two watchers read on threads of their own and which writes these bytes; the reading that is
// gathered.
fn watched<R: AllocGlobal + Threads + Wait + Abort + Sync>(
    rt: &R,
    of_seven: bool,
    options: &Options,
    wanted: &[u8],
    each: &[Reading],
) -> Result<Reading, RunFault> {
    let Some(first) = each.first() else {
        return Err(RunFault::NoMemory);
    };
    let (dial, shower, watchers) = Dial::new(rt, rt.alloc(), 2, *first)?;
    let shown = &dial;
    let options = Options {
        batch: 3,
        ..*options
    };
    let (answer, watchers) = thread::join(
        rt,
        move || -> Result<Shower, RunFault>
            requires { shower.dial ≡ shown.now }
            ensures { IfOk result (λ s. s.dial ≡ shown.entry.now) }
        { shown_as(rt, of_seven, &options, wanted, shown, shower) },
        move || -> Result<Vec<Watcher>, AllocError>
            requires { All (λ w. w.dial ≡ shown.now) watchers.items }
            ensures { IfOk result (λ v. All (λ w. w.dial ≡ shown.entry.now) v.items) }
        {
            thread::map_vec(
                rt,
                watchers,
                &|w: Watcher| -> Watcher
                    requires { w.dial ≡ shown.now }
                    ensures { result.dial ≡ shown.entry.now }
                { watch(rt, shown, w, each) },
            )
        },
    );
    let shower = answer?;
    Ok(dial.gather(rt, shower, watchers?))
}

// What a whole run writes.
fn whole(alloc: Global) -> Result<Vec<u8>, AllocError> {
    let mut bytes = Vec::from_slice(alloc, REPORT)?;
    bytes.extend_from_slice(PLACE)?;
    Ok(bytes)
}

#[test]
fn two_watchers_read_a_run_in_order(rt: HostRuntime) -> Result<(), Fail> {
    let mut each = Vec::new(rt.alloc());
    for moves in 0..=15 {
        each.push(after(moves))?;
    }
    let wanted = whole(rt.alloc())?;
    assert_eq!(rt; watched(&rt, false, &OPTIONS, &wanted, &each)?, after(15));
    Ok(())
}

#[test]
fn a_stopped_run_shows_its_end(rt: HostRuntime) -> Result<(), Fail> {
    for stop in [0, 5, 6, 15] {
        let options = Options {
            stop: Some(stop),
            ..OPTIONS
        };
        assert_eq!(rt;
            last_shown(&rt, &INPUTS, &options, after(0), &NoGate)?.0,
            after(stop)
        );
    }
    Ok(())
}

// Holds the judgement of move 0 until that of move 1 is over, the commit of move 0 until a move of the next batch is judged, and the
// judgement of move 4 until move 1 is committed. Each is held for at most 40 seconds.
#[derive(Drop)]
struct Overlap<'a> {
    rt: &'a HostRuntime,
    one_judged: AtomicU64,
    next_judged: AtomicU64,
    one_committed: AtomicU64,
    failed: AtomicU64,
    judged: AtomicU64,
}

// Waits until this is no longer 0, for at most 40 seconds; then the test has failed.
pub(crate) fn hold(rt: &HostRuntime, until: &AtomicU64, failed: &AtomicU64) {
    for _turn in 0..40_000u64 {
        if until.load(Ordering::SeqCst) != 0 {
            return;
        }
        thread::sleep(rt, Duration::from_millis(1));
    }
    failed.store(1, Ordering::SeqCst);
}

impl Overlap<'_> {
    fn hold(&self, until: &AtomicU64) {
        hold(self.rt, until, &self.failed);
    }
}

impl Gate for Overlap<'_> {
    fn before_judge(&self, k: u64) {
        match k {
            0 => self.hold(&self.one_judged),
            4 => self.hold(&self.one_committed),
            _ => {}
        }
    }

    fn after_judge(&self, k: u64) {
        self.judged.fetch_add(1, Ordering::SeqCst);
        match k {
            1 => self.one_judged.store(1, Ordering::SeqCst),
            3..=5 => self.next_judged.store(1, Ordering::SeqCst),
            _ => {}
        }
    }

    fn before_commit(&self, k: u64) {
        match k {
            0 => self.hold(&self.next_judged),
            1 => self.one_committed.store(1, Ordering::SeqCst),
            _ => {}
        }
    }
}

#[test]
fn a_crew_judges_the_next_batch_while_a_batch_is_committed(rt: HostRuntime) -> Result<(), Fail> {
    let gate = Overlap {
        rt: &rt,
        one_judged: AtomicU64::new(0),
        next_judged: AtomicU64::new(0),
        one_committed: AtomicU64::new(0),
        failed: AtomicU64::new(0),
        judged: AtomicU64::new(0),
    };
    let options = Options {
        moves: Moves::Given(6),
        batch: 3,
        workers: 2,
        ..OPTIONS
    };
    let held = last_shown(&rt, &INPUTS, &options, after(0), &gate)?;
    assert_eq!(rt; held.0, after(30));
    assert!(rt; held.1 == last_shown(&rt, &INPUTS, &options, after(0), &NoGate)?.1);
    assert_eq!(rt; gate.failed.load(Ordering::SeqCst), 0);
    // Each move is judged once.
    assert_eq!(rt; gate.judged.load(Ordering::SeqCst), 30);
    Ok(())
}

// The last reading of a run that goes on from the point of the fifth move, to a stop or to the end.
fn last_resumed<R: AllocGlobal + Threads + Wait + Sync>(
    rt: &R,
    stop: Option<u64>,
) -> Result<Reading, RunFault> {
    let alloc = rt.alloc();
    let (dial, mut shower, watchers) = Dial::new(rt, alloc, 0, after(5))?;
    let mut report = writer_with(alloc, 10_000);
    let mut place = writer_with(alloc, 10_000);
    let restart = Restart {
        point: SECOND,
        batch: 4,
        workers: 2,
        stop,
    };
    let environment = Environment {
        rt,
        gate: &NoGate,
        dial: &dial,
    };
    resume_ended::<KeepsNumbers, NoGate, R, _, _>(
        &environment,
        &INPUTS,
        &restart,
        &mut shower,
        &mut report,
        &mut place,
    )?;
    Ok(dial.gather(rt, shower, watchers))
}

#[test]
fn a_resumed_run_shows_its_end(rt: HostRuntime) -> Result<(), Fail> {
    for stop in [5, 7, 12] {
        assert_eq!(rt; last_resumed(&rt, Some(stop))?, after(stop));
    }
    assert_eq!(rt; last_resumed(&rt, None)?, after(15));
    Ok(())
}

// A run of 12,000 moves of the seven blocks, in four stages.
const LONG: Options = Options {
    moves: Moves::Given(3000),
    ..SHORT
};

// How far that run has come after each of its moves, made one at a time without a dial.
fn each_move<R: AllocGlobal + Threads + Wait + Sync>(rt: &R) -> Result<Vec<Reading>, RunFault> {
    let alloc = rt.alloc();
    let (design, grid, pins, schedule) = read_setting(alloc, &SEVEN, &LONG)?;
    let mut anneal = annealer(alloc, &design, &grid, pins, schedule, LONG.seed)?;
    let mut each = Vec::new(alloc);
    for _move in 0..=12_000u64 {
        each.push(Reading {
            moves: anneal.done(),
            accepted: anneal.total(),
            cost: anneal.cost(),
        })?;
        anneal.turn(rt, 1, 1, &NoGate)?;
    }
    Ok(each)
}

#[test]
fn each_reading_is_that_after_single_moves(rt: HostRuntime) -> Result<(), Fail> {
    let each = each_move(&rt)?;
    let (Some(first), Some(last)) = (each.first(), each.last()) else {
        return Err(Fail::from("no reading"));
    };
    assert_eq!(rt; last.moves, 12_000);
    let alone = last_shown(&rt, &SEVEN, &LONG, *first, &NoGate)?;
    assert_eq!(rt; alone.0, *last);
    assert_eq!(rt; watched(&rt, true, &LONG, &alone.1, &each)?, *last);
    Ok(())
}

// Holds the first commit of the second stage until a move of the next batch is judged. Judgements are counted.
#[derive(Drop)]
struct SecondStage<'a> {
    rt: &'a HostRuntime,
    first: u64,
    next_judged: AtomicU64,
    failed: AtomicU64,
    judged: AtomicU64,
}

impl Gate for SecondStage<'_> {
    fn before_judge(&self, _k: u64) {}

    fn after_judge(&self, k: u64) {
        self.judged.fetch_add(1, Ordering::SeqCst);
        if k > self.first && k - self.first >= SHORT.batch {
            self.next_judged.store(1, Ordering::SeqCst);
        }
    }

    fn before_commit(&self, k: u64) {
        if k == self.first {
            hold(self.rt, &self.next_judged, &self.failed);
        }
    }
}

// A gate that does nothing lets the owner make these stages alone. With any other a crew judges each of them.
#[test]
fn a_gate_that_may_wait_has_a_crew_in_each_stage(rt: HostRuntime) -> Result<(), Fail> {
    for moves in [3000, 4095, 4096] {
        let gate = SecondStage {
            rt: &rt,
            first: moves,
            next_judged: AtomicU64::new(0),
            failed: AtomicU64::new(0),
            judged: AtomicU64::new(0),
        };
        let options = Options {
            moves: Moves::Given(moves),
            ..SHORT
        };
        let held = last_shown(&rt, &SEVEN, &options, after(0), &gate)?;
        let free = last_shown(&rt, &SEVEN, &options, after(0), &NoGate)?;
        assert_eq!(rt; held.0, free.0);
        assert!(rt; held.1 == free.1);
        assert_eq!(rt; gate.failed.load(Ordering::SeqCst), 0);
        // Each move is judged ahead once.
        assert_eq!(rt; gate.judged.load(Ordering::SeqCst), moves.saturating_mul(4));
    }
    Ok(())
}

// A gate that does nothing, but does not say so.
#[derive(Clone, Copy)]
pub(crate) struct Quiet;

impl Gate for Quiet {
    fn before_judge(&self, _k: u64) {}

    fn after_judge(&self, _k: u64) {}

    fn before_commit(&self, _k: u64) {}
}

// The bytes that a run of the seven blocks writes, and how many moves it judges again.
fn judged_with<G: Gate, R: AllocGlobal + Threads + Wait + Sync>(
    rt: &R,
    options: &Options,
    gate: &G,
) -> Result<(Vec<u8>, u64), RunFault> {
    let alloc = rt.alloc();
    let mut report = writer_with(alloc, 10_000);
    let mut place = writer_with(alloc, 10_000);
    let (dial, mut shower) = unwatched(rt, alloc)?;
    let outcome = place_run_shown(
        rt,
        &SEVEN,
        options,
        gate,
        &dial,
        &mut shower,
        &mut report,
        &mut place,
    )?;
    let mut bytes = report.into_inner().taken;
    bytes.extend_from_slice(&place.into_inner().taken)?;
    Ok((bytes, outcome.redone))
}

// A crew and the owner alone write the same bytes, and count the moves that the reference counts.
#[test]
fn a_crew_and_the_owner_alone_judge_again_alike(rt: HostRuntime) -> Result<(), Fail> {
    for (batch, workers, wanted) in [
        (1, 1, 9),
        (1, 5, 9),
        (3, 1, 13),
        (3, 5, 13),
        (16, 3, 14),
        (4096, 64, 14),
    ] {
        let options = Options {
            seed: 1,
            batch,
            workers,
            ..SHORT
        };
        let crew = judged_with(&rt, &options, &Quiet)?;
        let alone = judged_with(&rt, &options, &NoGate)?;
        assert!(rt; crew.0 == alone.0);
        assert_eq!(rt; (crew.1, alone.1), (wanted, wanted));
    }
    Ok(())
}

// The same, many times, so that crew and owner hand over and end in each order of time.
#[test]
fn many_runs_end_with_a_crew_and_without(rt: HostRuntime) -> Result<(), Fail> {
    let options = Options {
        moves: Moves::Given(300),
        ..SHORT
    };
    let once = judged_with(&rt, &options, &NoGate)?;
    for workers in [1, 2, 3] {
        let options = Options { workers, ..options };
        for _run in 0..20u64 {
            assert!(rt; judged_with(&rt, &options, &Quiet)? == once);
            assert!(rt; judged_with(&rt, &options, &NoGate)? == once);
        }
    }
    Ok(())
}

// The seven blocks on a large array, in stages of a few moves.
const SPARSE: Options = Options {
    size: Some((60, 60)),
    init_t: 4_000_000,
    exit_t: 1_000_000,
    moves: Moves::Given(100),
    batch: 8,
    ..SHORT
};

#[test]
fn many_runs_end_with_short_stages_on_a_large_array(rt: HostRuntime) -> Result<(), Fail> {
    for stop in [None, Some(37), Some(250)] {
        let options = Options { stop, ..SPARSE };
        let crew = judged_with(&rt, &options, &Quiet)?;
        for _run in 0..20u64 {
            assert!(rt; judged_with(&rt, &options, &NoGate)? == crew);
        }
    }
    Ok(())
}

// The owner makes the first stage alone. Where three workers find a processor, a crew judges the frozen stage, whole or up to a stop.
#[test]
fn a_crew_judges_a_cold_stage_behind_a_long_one(rt: HostRuntime) -> Result<(), Fail> {
    let net = ring(rt.alloc(), 2_000)?;
    let inputs = ring_of(&net);
    for stop in [Some(100_700), None] {
        let options = Options {
            moves: Moves::Given(100_000),
            workers: 1,
            stop,
            ..TWO_STAGES
        };
        let alone = run_narrow(&rt, &inputs, &options, (10_000, 2_000_000))?;
        for workers in [3, 4] {
            let options = Options { workers, ..options };
            assert!(rt; run_narrow(&rt, &inputs, &options, (10_000, 2_000_000))? == alone);
        }
    }
    Ok(())
}
