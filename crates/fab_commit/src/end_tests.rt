// Where runs end that are made beside crews: as one thread makes them, in batches of each size, and as an independent placer does.
ghost use Rattle.std.specs.Prelude.{◌≡◌, IfOk};

use crate::Anneal;
use crate::beside_tests::{
    By, make_part, put_here, random, random_hubs, random_net, random_net_of,
};
use crate::in_time::in_time;
use crate::tests::{Pace, Setting, annealer, read_setting, turned};
use crate::turn_tables::{ENDS, End};
use crate::turn_tests::{finish, told_end};
use crate::world_tables::{ROWS, Row};
use crate::world_tests::{ARCH, schedule_of};
use fab_board::{Gate, NoGate};
use fab_dial::{Dial, Reading, Shower};
use fab_move::StreamWords;
use fab_sched::Schedule;
use fab_site::Words;
use std::alloc::{AllocError, Global};
use std::sync::Wait;
use std::test::*;
use std::thread::Threads;

// Who makes the moves of a run.
#[derive(Clone, Copy, Debug)]
pub(crate) enum Maker {
    // The calling thread alone.
    Alone,
    // A crew for each stage beside it.
    Stages,
    // A crew for each turn beside it.
    Turns,
}

// A dial that nobody watches.
pub(crate) fn unwatched<R: Wait>(rt: &R, alloc: Global) -> Result<(Dial, Shower), AllocError>
    ensures { IfOk result (λ r. r.1.dial ≡ r.0) }
{
    let first = Reading {
        moves: 0,
        accepted: 0,
        cost: 0,
    };
    let (dial, shower, _watchers) = Dial::new(rt, alloc, 0, first)?;
    Ok((dial, shower))
}

// Makes the moves that are left in the running stage.
fn made_stage<W: Words + Send + Sync + Drop, G: Gate, R: Threads + Wait + Sync>(
    rt: &R,
    alloc: Global,
    anneal: &mut Anneal<'_, W>,
    by: By,
    batch: u64,
    gate: &G,
) -> Result<(), Fail> {
    let (dial, mut shower) = unwatched(rt, alloc)?;
    make_part(rt, anneal, batch, by, gate, &dial, &mut shower)
}

// Makes a turn, or the moves that are left in the running stage.
fn made_part<W: Words + Send + Sync + Drop, G: Gate, R: Threads + Wait + Sync>(
    rt: &R,
    alloc: Global,
    anneal: &mut Anneal<'_, W>,
    maker: Maker,
    pace: Pace,
    gate: &G,
) -> Result<(), Fail> {
    let by = match maker {
        Maker::Turns => {
            let _turn = turned(rt, anneal, pace, gate)?;
            return Ok(());
        }
        Maker::Alone => By::Alone(u64::MAX),
        Maker::Stages => By::Crew(pace.workers, u64::MAX),
    };
    made_stage(rt, alloc, anneal, by, pace.batch, gate)
}

// Makes all moves of a run. Returns its state after them.
pub(crate) fn ended<W: Words + Send + Sync + Drop, G: Gate, R: Threads + Wait + Sync>(
    rt: &R,
    alloc: Global,
    anneal: &mut Anneal<'_, W>,
    maker: Maker,
    pace: Pace,
    gate: &G,
) -> Result<String, Fail> {
    for _part in 0..20_000u64 {
        if anneal.stage().is_none() {
            let mut text = String::new(alloc);
            put_here(alloc, &mut text, anneal)?;
            return Ok(text);
        }
        made_part(rt, alloc, anneal, maker, pace, gate)?;
    }
    Err(Fail::from("the run does not end"))
}

// The same of a random design.
pub(crate) fn random_end<G: Gate, R: Threads + Wait + Sync>(
    rt: &R,
    alloc: Global,
    seed: u64,
    maker: Maker,
    pace: Pace,
    gate: &G,
) -> Result<String, Fail> {
    let net = random_net(alloc, seed)?;
    let of = read_setting(alloc, ARCH, net.as_bytes())?;
    let mut anneal = random(alloc, &of, StreamWords::new(11))?;
    ended(rt, alloc, &mut anneal, maker, pace, gate)
}

// Whole runs, each design with one batch.
#[test]
fn runs_of_random_designs_are_made_as_by_one_thread(rt: HostRuntime) -> Result<(), Fail> {
    in_time(
        &rt,
        &mut || -> Result<(), Fail> {
            for seed in 0..50u64 {
                let batch = seed % 40 + 1;
                let pace = Pace { batch, workers: 1 };
                let alone = random_end(&rt, rt.alloc(), seed, Maker::Alone, pace, &NoGate)?;
                for workers in [1, 2, 3, 7] {
                    let pace = Pace { batch, workers };
                    let beside = random_end(&rt, rt.alloc(), seed, Maker::Stages, pace, &NoGate)?;
                    assert_eq!(rt;
                        beside.as_str(),
                        alone.as_str(),
                        "seed {seed} by {workers} workers"
                    );
                }
            }
            Ok(())
        },
    )
}

// The same of a design with three nets of some twenty terminals.
fn hubs_end<R: Threads + Wait + Sync>(
    rt: &R,
    alloc: Global,
    seed: u64,
    maker: Maker,
    pace: Pace,
) -> Result<String, Fail> {
    let net = random_hubs(alloc, seed, 60)?;
    let of = read_setting(alloc, ARCH, net.as_bytes())?;
    let mut anneal = random(alloc, &of, StreamWords::new(seed))?;
    ended(rt, alloc, &mut anneal, maker, pace, &NoGate)
}

// Where a move touched nets with many terminals alone, only these are looked at again. That is so for most moves here.
#[test]
fn runs_with_large_nets_are_made_as_by_one_thread(rt: HostRuntime) -> Result<(), Fail> {
    in_time(
        &rt,
        &mut || -> Result<(), Fail> {
            for (seed, batch) in [(0, 4), (1, 16), (2, 64), (3, 256), (4, 16), (5, 64)] {
                let pace = Pace { batch, workers: 1 };
                let alone = hubs_end(&rt, rt.alloc(), seed, Maker::Alone, pace)?;
                for workers in [1, 3] {
                    let pace = Pace { batch, workers };
                    let beside = hubs_end(&rt, rt.alloc(), seed, Maker::Stages, pace)?;
                    assert_eq!(rt;
                        beside.as_str(),
                        alone.as_str(),
                        "seed {seed} by {workers} workers"
                    );
                }
            }
            Ok(())
        },
    )
}

// Where the first stage of a small design ends. It has 85 moves, so three turns or more of up to 40.
fn small_stage<R: Threads + Wait + Sync>(
    rt: &R,
    alloc: Global,
    of: &Setting,
    maker: Maker,
    pace: Pace,
) -> Result<String, Fail> {
    let schedule = Schedule::new(30_000, 4_000, 400, 85)?;
    let mut anneal = annealer(alloc, of, None, schedule, StreamWords::new(11))?;
    made_part(rt, alloc, &mut anneal, maker, pace, &NoGate)?;
    let mut text = String::new(alloc);
    put_here(alloc, &mut text, &anneal)?;
    Ok(text)
}

// The first batch of up to 40 moves with which that stage of a random design of nine blocks ends elsewhere beside so many workers than
// alone.
fn other_end<R: Threads + Wait + Sync>(
    rt: &R,
    alloc: Global,
    seed: u64,
    workers: u64,
) -> Result<Option<u64>, Fail> {
    let net = random_net_of(alloc, seed, 9)?;
    let of = read_setting(alloc, ARCH, net.as_bytes())?;
    for batch in 1..=40u64 {
        let pace = Pace { batch, workers };
        let alone = small_stage(rt, alloc, &of, Maker::Alone, pace)?;
        let beside = small_stage(rt, alloc, &of, Maker::Stages, pace)?;
        if beside.as_str() != alone.as_str() {
            return Ok(Some(batch));
        }
    }
    Ok(None)
}

// Which of these random designs end elsewhere beside so many workers than alone. Every batch from 1 to 40 is made of each.
fn other_ends<R: Threads + Wait + Sync>(
    rt: &R,
    alloc: Global,
    first: u64,
    past: u64,
    workers: u64,
) -> Result<String, Fail> {
    let mut told = String::new(alloc);
    for seed in first..past {
        if let Some(batch) = other_end(rt, alloc, seed, workers)? {
            told.push_str(format!(in alloc; "seed {seed} batch {batch};")?.as_str())?;
        }
    }
    Ok(told)
}

// Fifty designs, each with every batch from 1 to 40, by 1, 2, 3 and 7 workers: 8,000 crews. On a machine in use by others a crew of seven
// may take some milliseconds to end, and each test has a limit of time, so there are several.
#[test]
fn stages_of_each_batch_are_made_by_one_worker_as_alone(rt: HostRuntime) -> Result<(), Fail> {
    in_time(
        &rt,
        &mut || -> Result<(), Fail> {
            assert_eq!(rt; other_ends(&rt, rt.alloc(), 0, 50, 1)?.as_str(), "");
            Ok(())
        },
    )
}

#[test]
fn stages_of_each_batch_are_made_by_two_workers_as_alone(rt: HostRuntime) -> Result<(), Fail> {
    in_time(
        &rt,
        &mut || -> Result<(), Fail> {
            assert_eq!(rt; other_ends(&rt, rt.alloc(), 0, 50, 2)?.as_str(), "");
            Ok(())
        },
    )
}

#[test]
fn stages_of_each_batch_are_made_by_three_workers_as_alone(rt: HostRuntime) -> Result<(), Fail> {
    in_time(
        &rt,
        &mut || -> Result<(), Fail> {
            assert_eq!(rt; other_ends(&rt, rt.alloc(), 0, 50, 3)?.as_str(), "");
            Ok(())
        },
    )
}

#[test]
fn stages_of_each_batch_are_made_by_seven_workers_as_alone(rt: HostRuntime) -> Result<(), Fail> {
    in_time(
        &rt,
        &mut || -> Result<(), Fail> {
            assert_eq!(rt; other_ends(&rt, rt.alloc(), 0, 25, 7)?.as_str(), "");
            Ok(())
        },
    )
}

#[test]
fn stages_of_other_designs_are_made_by_seven_workers_as_alone(rt: HostRuntime) -> Result<(), Fail> {
    in_time(
        &rt,
        &mut || -> Result<(), Fail> {
            assert_eq!(rt; other_ends(&rt, rt.alloc(), 25, 50, 7)?.as_str(), "");
            Ok(())
        },
    )
}

// The whole run of a row of the tables: how many moves were judged again, and where it ends.
fn row_end<R: Threads + Wait + Sync>(
    rt: &R,
    alloc: Global,
    row: &Row,
    maker: Maker,
    pace: Pace,
) -> Result<(u64, String), Fail> {
    let schedule = schedule_of(row)?;
    let of = read_setting(alloc, ARCH, row.net)?;
    let mut anneal = annealer(alloc, &of, None, schedule, StreamWords::new(row.seed))?;
    let _end = ended(rt, alloc, &mut anneal, maker, pace, &NoGate)?;
    Ok((anneal.redone(), told_end(alloc, &anneal)?))
}

// Whether a row's run ends as expected with each batch, with one worker and with three.
fn leads_to<R: Threads + Wait + Sync>(
    rt: &R,
    alloc: Global,
    row: &Row,
    end: &End,
    maker: Maker,
) -> Result<bool, Fail> {
    for (batch, redone) in [1, 2, 5].iter().zip(end.redone.iter()) {
        for workers in [1, 3] {
            let pace = Pace {
                batch: *batch,
                workers,
            };
            let (again, told) = row_end(rt, alloc, row, maker, pace)?;
            if again != *redone || told.as_str() != end.wanted {
                return Ok(false);
            }
        }
    }
    Ok(row.seed == end.seed)
}

#[test]
fn stages_and_turns_lead_where_the_reference_does(rt: HostRuntime) -> Result<(), Fail> {
    in_time(
        &rt,
        &mut || -> Result<(), Fail> {
            for (row, end) in ROWS.iter().zip(ENDS.iter()) {
                for maker in [Maker::Stages, Maker::Turns] {
                    assert!(rt;
                        leads_to(&rt, rt.alloc(), row, end, maker)?,
                        "{maker:?} of seed {}",
                        end.seed
                    );
                }
            }
            Ok(())
        },
    )
}

// Where a run of stages of 300 moves ends that makes turns of 1, 2, and so on up to 40 moves, again and again; or the same run alone.
fn end_of_each_size<R: Threads + Wait + Sync>(
    rt: &R,
    alloc: Global,
    maker: Maker,
    workers: u64,
) -> Result<String, Fail> {
    let net = random_net(alloc, 50)?;
    let of = read_setting(alloc, ARCH, net.as_bytes())?;
    let schedule = Schedule::new(30_000, 4_000, 400, 300)?;
    let mut anneal = annealer(alloc, &of, None, schedule, StreamWords::new(11))?;
    let mut sizes = Vec::new(alloc);
    for size in 1..=40u64 {
        sizes.push(size)?;
    }
    match maker {
        Maker::Turns => finish(rt, alloc, &mut anneal, &sizes, workers, &NoGate)?,
        _ => {
            let pace = Pace { batch: 40, workers };
            let _end = ended(rt, alloc, &mut anneal, maker, pace, &NoGate)?;
        }
    }
    Ok(told_end(alloc, &anneal)?)
}

#[test]
fn turns_of_each_size_are_made_as_by_one_thread(rt: HostRuntime) -> Result<(), Fail> {
    in_time(
        &rt,
        &mut || -> Result<(), Fail> {
            let alone = end_of_each_size(&rt, rt.alloc(), Maker::Alone, 1)?;
            for workers in [1, 2, 3, 7] {
                let turns = end_of_each_size(&rt, rt.alloc(), Maker::Turns, workers)?;
                assert_eq!(rt; turns.as_str(), alone.as_str(), "{workers} workers");
            }
            Ok(())
        },
    )
}
