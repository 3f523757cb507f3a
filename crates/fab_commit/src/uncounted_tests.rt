// Moves of which nobody asks how many turns would judge again: they are made as those that are counted, and show the same.
ghost use Rattle.std.specs.Prelude.{◌≡◌};

use crate::beside_tests::{random, random_hubs, random_net};
use crate::in_time::in_time;
use crate::tests::{put_sites, read_setting};
use crate::world_tests::ARCH;
use crate::{Anneal, Keeping, KeepsCount, StagePlan};
use fab_board::{Gate, NoGate};
use fab_dial::{Dial, Reading, Shower, Watcher};
use fab_move::StreamWords;
use std::alloc::{AllocError, Global};
use std::sync::Wait;
use std::sync::atomic::{AtomicU64, Ordering};
use std::test::*;
use std::thread::Threads;

// How the moves of a run are made.
#[derive(Clone, Copy, Debug)]
struct Way {
    batch: u64,
    // How many moves a part has at most.
    part: u64,
    // Each part whose number this divides is made beside a crew of three workers; none if it is 0.
    crewed: u64,
}

// Makes the next moves of the running stage.
fn make_part<K: Keeping, G: Gate, R: Threads + Wait + Sync>(
    rt: &R,
    anneal: &mut Anneal<'_, StreamWords, K>,
    way: Way,
    number: u64,
    gate: &G,
    dial: &Dial,
    shower: &mut Shower,
) -> Result<(), Fail>
    requires { shower.old.dial ≡ dial.now }
    ensures { shower.new.dial ≡ shower.old.dial }
{
    let left = anneal.left_of_stage();
    let batch = way.batch;
    if left == 0 || batch < 1 || 4096 < batch {
        return Err(Fail::from("no moves to make"));
    }
    let plan = StagePlan {
        batch,
        workers: 3,
        gate,
        dial,
    };
    if way.crewed == 0 || number % way.crewed != 0 {
        anneal.make_alone(rt, way.part.min(left), &plan, shower)?;
        return Ok(());
    }
    anneal.make_beside(rt, way.part.min(left), &plan, shower)?;
    Ok(())
}

// Adds the moves made and accepted, the cost, the sites, and what the dial shows.
fn put_told<K: Keeping>(
    alloc: Global,
    text: &mut String,
    anneal: &Anneal<'_, StreamWords, K>,
    reading: Reading,
) -> Result<(), AllocError> {
    let Reading {
        moves,
        accepted,
        cost,
    } = reading;
    let line = format!(in alloc;
        "done {} total {} cost {} reads {moves} {accepted} {cost} at",
        anneal.done(),
        anneal.total(),
        anneal.cost()
    )?;
    text.push_str(line.as_str())?;
    put_sites(alloc, text, anneal.placement())?;
    text.push_str("\n")?;
    Ok(())
}

// Makes a run, and tells where it is after each part.
fn told_parts<K: Keeping, G: Gate, R: Threads + Wait + Sync>(
    rt: &R,
    alloc: Global,
    anneal: &mut Anneal<'_, StreamWords, K>,
    way: Way,
    gate: &G,
    dial: &Dial,
    ends: (Shower, Watcher),
) -> Result<String, Fail>
    requires shower { ends.0.dial ≡ dial.now }
    requires watcher { ends.1.dial ≡ dial.now }
{
    let (mut shower, mut watcher) = ends;
    let mut text = String::new(alloc);
    for number in 0..2000u64 {
        if anneal.stage().is_none() {
            return Ok(text);
        }
        make_part(rt, anneal, way, number, gate, dial, &mut shower)?;
        let reading = dial.read(rt, &mut watcher);
        put_told(alloc, &mut text, anneal, reading)?;
    }
    Err(Fail::from("the run does not end"))
}

// The same with a dial of its own.
fn told<K: Keeping, G: Gate, R: Threads + Wait + Sync>(
    rt: &R,
    alloc: Global,
    anneal: &mut Anneal<'_, StreamWords, K>,
    way: Way,
    gate: &G,
) -> Result<String, Fail> {
    let first = Reading {
        moves: 7,
        accepted: 7,
        cost: 7,
    };
    let (dial, shower, mut watchers) = Dial::new(rt, alloc, 1, first)?;
    let Some(watcher) = watchers.pop() else {
        return Err(Fail::from("no watcher"));
    };
    told_parts(rt, alloc, anneal, way, gate, &dial, (shower, watcher))
}

// A random design, with nets of many terminals or without.
fn design(alloc: Global, seed: u64) -> Result<String, AllocError> {
    if seed % 2 == 0 {
        random_net(alloc, seed)
    } else {
        random_hubs(alloc, seed, 60)
    }
}

// Whether a run is told alike, counted by one thread and not counted by this way.
fn is_alike<R: Threads + Wait + Sync>(
    rt: &R,
    alloc: Global,
    seed: u64,
    way: Way,
) -> Result<bool, Fail> {
    let net = design(alloc, seed)?;
    let of = read_setting(alloc, ARCH, net.as_bytes())?;
    let mut counted = random(alloc, &of, StreamWords::new(seed))?;
    let mut short = random(alloc, &of, StreamWords::new(seed))?.keeping::<KeepsCount>();
    let wanted = told(rt, alloc, &mut counted, Way { crewed: 0, ..way }, &NoGate)?;
    let made = told(rt, alloc, &mut short, way, &NoGate)?;
    Ok(made.as_str() == wanted.as_str())
}

const WAYS: [(u64, u64); 5] = [(1, 1000), (7, 20), (16, 1000), (64, 50), (4096, 1000)];

#[test]
fn moves_that_are_not_counted_are_made_as_counted_ones(rt: HostRuntime) -> Result<(), Fail> {
    for seed in 0..8u64 {
        for (batch, part) in WAYS {
            let way = Way {
                batch,
                part,
                crewed: 0,
            };
            assert!(rt;
                is_alike(&rt, rt.alloc(), seed, way)?,
                "seed {seed} {way:?}"
            );
        }
    }
    Ok(())
}

// Alone nothing is stamped, so a crew's owner has the stamps of older moves where it begins.
#[test]
fn a_crew_begins_behind_moves_that_are_not_counted(rt: HostRuntime) -> Result<(), Fail> {
    in_time(
        &rt,
        &mut || -> Result<(), Fail> {
            for seed in 0..4u64 {
                for (batch, part) in WAYS {
                    let way = Way {
                        batch,
                        part,
                        crewed: 2,
                    };
                    assert!(rt;
                        is_alike(&rt, rt.alloc(), seed, way)?,
                        "seed {seed} {way:?}"
                    );
                }
            }
            Ok(())
        },
    )
}

// Follows the calls for each move: before and after its judgement, and before its commit.
#[derive(Drop)]
struct Steps {
    // Three times the moves whose calls are all made, and how many calls the next move had.
    next: AtomicU64,
    // How many calls came out of order.
    wrong: AtomicU64,
}

impl Steps {
    fn step(&self, k: u64, call: u64) {
        let wanted = k.wrapping_mul(3).wrapping_add(call);
        if self.next.load(Ordering::SeqCst) == wanted {
            self.next.store(wanted.wrapping_add(1), Ordering::SeqCst);
        } else {
            self.wrong.store(k.wrapping_add(1), Ordering::SeqCst);
        }
    }
}

impl Gate for Steps {
    fn before_judge(&self, k: u64) {
        self.step(k, 0);
    }

    fn after_judge(&self, k: u64) {
        self.step(k, 1);
    }

    fn before_commit(&self, k: u64) {
        self.step(k, 2);
    }
}

#[test]
fn a_gate_is_called_for_each_move_that_is_not_counted(rt: HostRuntime) -> Result<(), Fail> {
    let alloc = rt.alloc();
    let gate = Steps {
        next: AtomicU64::new(0),
        wrong: AtomicU64::new(0),
    };
    let net = random_net(alloc, 3)?;
    let of = read_setting(alloc, ARCH, net.as_bytes())?;
    let mut anneal = random(alloc, &of, StreamWords::new(3))?.keeping::<KeepsCount>();
    let way = Way {
        batch: 16,
        part: 1000,
        crewed: 0,
    };
    let _told = told(&rt, alloc, &mut anneal, way, &gate)?;
    assert_eq!(rt; gate.wrong.load(Ordering::SeqCst), 0);
    assert_eq!(rt;
        gate.next.load(Ordering::SeqCst),
        anneal.done().wrapping_mul(3)
    );
    Ok(())
}
