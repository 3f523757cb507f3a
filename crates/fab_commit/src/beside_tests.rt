ghost use Rattle.std.specs.Prelude.{◌≡◌};
ghost use Rattle.fab_commit.specs.Serial.{moves_left};
ghost use Rattle.fab_commit.specs.Run.Commits.{run_of};

use crate::in_time::{HELD, in_time};
use crate::run::state::moves_left;
use crate::tests::{Pace, Setting, annealer, put_sites, read_setting, turned};
use crate::world_tests::ARCH;
use crate::{Anneal, Keeping, StagePlan, Turn};
use fab_board::{Gate, NoGate};
use fab_dial::{Dial, Reading, Shower, Watcher};
use fab_move::StreamWords;
use fab_sched::Schedule;
use fab_site::Words;
use std::alloc::{AllocError, Global};
use std::sync::Wait;
use std::sync::atomic::{AtomicU64, Ordering};
use std::test::*;
use std::thread;
use std::thread::Threads;
use std::time::Duration;

impl<'a, W: Words + Drop, K: Keeping> Anneal<'a, W, K> {
    // How many moves the running stage still has.
    pub(crate) fn left_of_stage(&self) -> u64
        ensures { result ≡ moves_left (run_of W.moves self.now) self.now.standing }
    {
        moves_left(&self.given.schedule, &self.pipeline.owner.state)
    }
}

// Forty logic blocks of a random design.
pub(crate) fn random_net(alloc: Global, seed: u64) -> Result<String, AllocError> {
    random_net_of(alloc, seed, 40)
}

// So many logic blocks, each with two inputs from random nets and an output of its own.
pub(crate) fn random_net_of(alloc: Global, seed: u64, blocks: u64) -> Result<String, AllocError> {
    let mut text = String::new(alloc);
    let mut drawn = seed;
    let nets = blocks.max(1);
    for block in 0..blocks {
        drawn = drawn
            .wrapping_mul(6_364_136_223_846_793_005)
            .wrapping_add(1_442_695_040_888_963_407);
        let (one, other) = ((drawn >> 33) % nets, (drawn >> 45) % nets);
        text.push_str(format!(in alloc;
            ".clb b{block}\npinlist: n{one} n{other} n{block}\n"
        )?.as_str())?;
    }
    Ok(text)
}

// So many logic blocks, each with an input from one of three nets, one from a random net, and an output of its own. So three nets have many
// terminals.
pub(crate) fn random_hubs(alloc: Global, seed: u64, blocks: u64) -> Result<String, AllocError> {
    let mut text = String::new(alloc);
    let mut drawn = seed;
    let nets = blocks.max(1);
    for block in 0..blocks {
        drawn = drawn
            .wrapping_mul(6_364_136_223_846_793_005)
            .wrapping_add(1_442_695_040_888_963_407);
        let (hub, other) = ((drawn >> 33) % 3, (drawn >> 45) % nets);
        text.push_str(format!(in alloc;
            ".clb b{block}\npinlist: n{hub} n{other} n{block}\n"
        )?.as_str())?;
    }
    Ok(text)
}

// Who makes the moves of a run.
#[derive(Clone, Copy)]
pub(crate) enum By {
    // The calling thread alone, by parts of so many moves.
    Alone(u64),
    // The calling thread alone, by whole stages.
    Rest,
    // A crew of so many workers beside it, by parts of so many moves.
    Crew(u64, u64),
}

// Makes the next moves of the stage, if there are any: as many as a part has, or fewer at its end.
pub(crate) fn make_part<W: Words + Send + Sync + Drop, G: Gate, R: Threads + Wait + Sync>(
    rt: &R,
    anneal: &mut Anneal<'_, W>,
    batch: u64,
    by: By,
    gate: &G,
    dial: &Dial,
    shower: &mut Shower,
) -> Result<(), Fail>
    requires { shower.old.dial ≡ dial.now }
    ensures { shower.new.dial ≡ shower.old.dial }
{
    let left = anneal.left_of_stage();
    if left == 0 || batch < 1 || 4096 < batch {
        return Err(Fail::from("no moves to make"));
    }
    let workers = match by {
        By::Crew(workers, _) => workers,
        _ => 1,
    };
    if workers < 1 || 64 < workers {
        return Err(Fail::from("no crew"));
    }
    let plan = StagePlan {
        batch,
        workers,
        gate,
        dial,
    };
    match by {
        By::Alone(part) => anneal.make_alone(rt, part.min(left), &plan, shower)?,
        By::Rest => anneal.make_alone(rt, left, &plan, shower)?,
        By::Crew(_, part) => anneal.make_beside(rt, part.min(left), &plan, shower)?,
    }
    Ok(())
}

// The state of a run: the moves made, accepted and judged again, the cost, the numbers accepted, and the blocks' sites.
pub(crate) fn put_here<W: Words + Drop>(
    alloc: Global,
    text: &mut String,
    anneal: &Anneal<'_, W>,
) -> Result<(), AllocError> {
    let line = format!(in alloc;
        "done {} total {} redone {} cost {} accepted",
        anneal.done(),
        anneal.total(),
        anneal.redone(),
        anneal.cost()
    )?;
    text.push_str(line.as_str())?;
    for number in anneal.accepted() {
        text.push_str(format!(in alloc; " {number}")?.as_str())?;
    }
    text.push_str(" at")?;
    put_sites(alloc, text, anneal.placement())?;
    text.push_str("\n")?;
    Ok(())
}

// Makes a run, and tells its state and the last reading after each part.
fn told_parts<W: Words + Send + Sync + Drop, G: Gate, R: Threads + Wait + Sync>(
    rt: &R,
    alloc: Global,
    anneal: &mut Anneal<'_, W>,
    batch: u64,
    by: By,
    gate: &G,
    dial: &Dial,
    ends: (Shower, Watcher),
) -> Result<String, Fail>
    requires shower { ends.0.dial ≡ dial.now }
    requires watcher { ends.1.dial ≡ dial.now }
{
    let (mut shower, mut watcher) = ends;
    let mut text = String::new(alloc);
    for _part in 0..2000u64 {
        if anneal.stage().is_none() {
            return Ok(text);
        }
        make_part(rt, anneal, batch, by, gate, dial, &mut shower)?;
        put_here(alloc, &mut text, anneal)?;
        let Reading {
            moves,
            accepted,
            cost,
        } = dial.read(rt, &mut watcher);
        text.push_str(format!(in alloc; "reads {moves} {accepted} {cost}\n")?.as_str())?;
    }
    Err(Fail::from("the run does not end"))
}

// The same with a dial of its own.
fn told_by<W: Words + Send + Sync + Drop, G: Gate, R: Threads + Wait + Sync>(
    rt: &R,
    alloc: Global,
    anneal: &mut Anneal<'_, W>,
    batch: u64,
    by: By,
    gate: &G,
) -> Result<String, Fail> {
    let first = Reading {
        moves: 7,
        accepted: 7,
        cost: 7,
    };
    let (dial, shower, mut watchers) = Dial::new(rt, alloc, 1, first)?;
    let Some(watcher) = watchers.pop() else {
        return Err(Fail::from("no watcher"));
    };
    told_parts(rt, alloc, anneal, batch, by, gate, &dial, (shower, watcher))
}

// How many moves a stage of the random design has.
pub(crate) const STAGE: u64 = 130;

// A run of the random design by these words.
pub(crate) fn random<'a, W: Words + Drop>(
    alloc: Global,
    of: &'a Setting,
    words: W,
) -> Result<Anneal<'a, W>, Fail> {
    let schedule = Schedule::new(30_000, 4_000, 400, STAGE)?;
    annealer(alloc, of, None, schedule, words)
}

fn random_run<G: Gate, R: Threads + Wait + Sync>(
    rt: &R,
    alloc: Global,
    batch: u64,
    by: By,
    gate: &G,
) -> Result<String, Fail> {
    let net = random_net(alloc, 5)?;
    let of = read_setting(alloc, ARCH, net.as_bytes())?;
    let mut anneal = random(alloc, &of, StreamWords::new(11))?;
    told_by(rt, alloc, &mut anneal, batch, by, gate)
}

const BATCHES: [u64; 5] = [1, 3, 16, 64, 4096];

pub(crate) const WORKERS: [u64; 5] = [1, 2, 3, 7, 64];

// Does nothing, and does not say so: then units are single moves.
pub(crate) struct Silent;

impl Gate for Silent {
    fn before_judge(&self, _k: u64) {}

    fn after_judge(&self, _k: u64) {}

    fn before_commit(&self, _k: u64) {}
}

#[test]
fn a_crew_makes_the_moves_of_one_thread(rt: HostRuntime) -> Result<(), Fail> {
    in_time(
        &rt,
        &mut || -> Result<(), Fail> {
            for batch in BATCHES {
                let alone = random_run(&rt, rt.alloc(), batch, By::Alone(5000), &NoGate)?;
                for workers in WORKERS {
                    let by = By::Crew(workers, 5000);
                    let beside = random_run(&rt, rt.alloc(), batch, by, &NoGate)?;
                    assert_eq!(rt;
                        beside.as_str(),
                        alone.as_str(),
                        "{batch} by {workers} workers"
                    );
                }
            }
            Ok(())
        },
    )
}

#[test]
fn a_crew_with_a_gate_makes_the_moves_of_one_thread(rt: HostRuntime) -> Result<(), Fail> {
    in_time(
        &rt,
        &mut || -> Result<(), Fail> {
            for batch in BATCHES {
                let alone = random_run(&rt, rt.alloc(), batch, By::Alone(5000), &NoGate)?;
                let beside = random_run(&rt, rt.alloc(), batch, By::Crew(3, 5000), &Silent)?;
                assert_eq!(rt; beside.as_str(), alone.as_str(), "batch {batch}");
            }
            Ok(())
        },
    )
}

#[test]
fn a_stage_is_finished_as_in_one_part(rt: HostRuntime) -> Result<(), Fail> {
    for batch in BATCHES {
        let parts = random_run(&rt, rt.alloc(), batch, By::Alone(5000), &NoGate)?;
        let whole = random_run(&rt, rt.alloc(), batch, By::Rest, &NoGate)?;
        assert_eq!(rt; whole.as_str(), parts.as_str(), "batch {batch}");
        let gated = random_run(&rt, rt.alloc(), batch, By::Rest, &Silent)?;
        assert_eq!(rt; gated.as_str(), parts.as_str(), "batch {batch}");
    }
    Ok(())
}

#[test]
fn parts_of_a_stage_are_made_as_by_one_thread(rt: HostRuntime) -> Result<(), Fail> {
    in_time(
        &rt,
        &mut || -> Result<(), Fail> {
            for (batch, part) in [(3, 1), (16, 37), (64, 64), (4096, 50)] {
                let alone = random_run(&rt, rt.alloc(), batch, By::Alone(part), &NoGate)?;
                let beside = random_run(&rt, rt.alloc(), batch, By::Crew(2, part), &NoGate)?;
                assert_eq!(rt;
                    beside.as_str(),
                    alone.as_str(),
                    "{part} moves in turns of {batch}"
                );
            }
            Ok(())
        },
    )
}

// The state of the random run at the end of each stage, made by single turns.
fn turned_run<R: Threads + Wait + Sync>(rt: &R, alloc: Global, batch: u64) -> Result<String, Fail> {
    let net = random_net(alloc, 5)?;
    let of = read_setting(alloc, ARCH, net.as_bytes())?;
    let mut anneal = random(alloc, &of, StreamWords::new(11))?;
    let mut text = String::new(alloc);
    for _turn in 0..5000u64 {
        let stage = anneal.left_of_stage() <= batch;
        let turn = turned(rt, &mut anneal, Pace { batch, workers: 1 }, &NoGate)?;
        if stage {
            put_here(alloc, &mut text, &anneal)?;
        }
        if turn == Turn::Finished {
            return Ok(text);
        }
    }
    Err(Fail::from("the run does not end"))
}

// The same text without what the dial read.
fn without_readings(alloc: Global, told: &str) -> Result<String, AllocError> {
    let mut text = String::new(alloc);
    for line in told.lines() {
        if !line.starts_with("reads") {
            text.push_str(line)?;
            text.push_str("\n")?;
        }
    }
    Ok(text)
}

#[test]
fn a_crew_makes_the_moves_of_single_turns(rt: HostRuntime) -> Result<(), Fail> {
    in_time(
        &rt,
        &mut || -> Result<(), Fail> {
            for batch in [1, 16, 4096] {
                let turns = turned_run(&rt, rt.alloc(), batch)?;
                let beside = random_run(&rt, rt.alloc(), batch, By::Crew(3, 5000), &NoGate)?;
                assert_eq!(rt;
                    without_readings(rt.alloc(), beside.as_str())?.as_str(),
                    turns.as_str(),
                    "batch {batch}"
                );
            }
            Ok(())
        },
    )
}

// Holds each judgement until `threads` threads are in one, for at most 40 seconds.
#[derive(Drop)]
pub(crate) struct Together<'a> {
    pub(crate) rt: &'a HostRuntime,
    pub(crate) threads: u64,
    pub(crate) begun: AtomicU64,
    pub(crate) failed: AtomicU64,
}

impl Gate for Together<'_> {
    fn before_judge(&self, _k: u64) {
        self.begun.fetch_add(1, Ordering::SeqCst);
        for _wait in 0..HELD {
            if self.begun.load(Ordering::SeqCst) >= self.threads {
                return;
            }
            thread::sleep(self.rt, Duration::from_millis(1));
        }
        self.failed.store(1, Ordering::SeqCst);
    }

    fn after_judge(&self, _k: u64) {}

    fn before_commit(&self, _k: u64) {}
}

#[test]
fn all_workers_judge_at_once(rt: HostRuntime) -> Result<(), Fail> {
    in_time(
        &rt,
        &mut || -> Result<(), Fail> {
            for workers in WORKERS {
                // The calling thread judges too, while it waits for the first move.
                let gate = Together {
                    rt: &rt,
                    threads: workers.saturating_add(1),
                    begun: AtomicU64::new(0),
                    failed: AtomicU64::new(0),
                };
                let alone = random_run(&rt, rt.alloc(), 128, By::Alone(5000), &NoGate)?;
                let beside = random_run(&rt, rt.alloc(), 128, By::Crew(workers, 5000), &gate)?;
                assert_eq!(rt; beside.as_str(), alone.as_str(), "of {workers} workers");
                assert_eq!(rt;
                    gate.failed.load(Ordering::SeqCst),
                    0,
                    "of {workers} workers"
                );
            }
            Ok(())
        },
    )
}
