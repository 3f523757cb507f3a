// Turns that are refused memory. A test passes as it is, and where one growth of its process is refused: tests/refusals/growths refuses
// each in turn. Since no second one is refused, whatever a test needs beside its turns is made again where it was refused.

ghost use Rattle.std.specs.Prelude.{◌≡◌, IfOk};

use crate::end_tests::unwatched;
use crate::tests::{DISPLACED, HALF, MOST, Pace, Setting, UNJOINED, list_words};
use crate::turn_tests::{EIGHT, EIGHT_END, EIGHT_STAGE, told_end};
use crate::world_tests::ARCH;
use crate::{Anneal, StagePlan, Turn};
use fab_arch::{Grid, read_arch};
use fab_board::{Gate, NoGate};
use fab_dial::{Dial, Shower};
use fab_move::StreamWords;
use fab_net::read_net;
use fab_sched::Schedule;
use fab_site::{Fixed, ListWords, Pins, Words, is_legal, start};
use std::alloc::{AllocError, Global};
use std::process::Abort;
use std::sync::Wait;
use std::test::*;
use std::thread::Threads;

// Tells how many growths later one is refused, if it is among the next 10,000: that is, if what was tried has met none.
// tests/refusals/growths reads it.
fn tell_refusal_to_come(rt: &(impl AllocGlobal + Print)) {
    for later in 0..10_000u64 {
        if Vec::<u8>::with_capacity(rt.alloc(), 1).is_err() {
            let _told = println!(rt; "refused {later} growths later");
            return;
        }
    }
}

// The design of two texts, on a square array.
fn read_once(alloc: Global, arch: &[u8], net: &[u8], side: u16) -> Option<Setting> {
    let arch = read_arch(alloc, arch).ok()?;
    let design = read_net(alloc, net, &arch).ok()?;
    let grid = Grid::new(side, side, arch.io_rat).ok()?;
    Some(Setting { design, grid })
}

fn read_again(alloc: Global, arch: &[u8], net: &[u8], side: u16) -> Result<Setting, Fail> {
    if let Some(setting) = read_once(alloc, arch, net, side) {
        return Ok(setting);
    }
    match read_once(alloc, arch, net, side) {
        Some(setting) => Ok(setting),
        None => Err(Fail::from("two readings were refused")),
    }
}

// An annealer at the start placement, with no block fixed.
fn begun<'a, W: Words + Drop>(
    alloc: Global,
    of: &'a Setting,
    schedule: Schedule,
    words: W,
) -> Option<Anneal<'a, W>> {
    if of
        .grid
        .holds(of.design.logic_blocks(), of.design.pads())
        .is_err()
    {
        return None;
    }
    let pins = Pins {
        fixed: Fixed::none(alloc),
        begun: Fixed::none(alloc),
    };
    let placement = start(alloc, &of.design, &of.grid, &pins, &words).ok()?;
    let fixed = Fixed::none(alloc);
    if !is_legal(&of.design, &of.grid, &fixed, &placement) {
        return None;
    }
    Anneal::new(
        alloc, &of.design, &of.grid, placement, fixed, schedule, words,
    )
    .ok()
}

// Makes a turn at this pace, which may be refused memory.
fn tried<W: Words + Send + Sync + Drop, R: Threads + Wait + Sync>(
    rt: &R,
    anneal: &mut Anneal<'_, W>,
    pace: Pace,
) -> Result<Result<Turn, AllocError>, Fail> {
    if pace.batch < 1 || 4096 < pace.batch || pace.workers < 1 || 64 < pace.workers {
        return Err(Fail::from("no pace of turns"));
    }
    Ok(anneal.turn(rt, pace.batch, pace.workers, &NoGate))
}

// Makes turns until no move is left, of which one may be refused. That one has kept the moves that it made, and nothing judged ahead.
fn finish<W: Words + Send + Sync + Drop, R: Threads + Wait + Sync>(
    rt: &R,
    anneal: &mut Anneal<'_, W>,
    pace: Pace,
) -> Result<(), Fail> {
    let mut was_refused = false;
    for _turn in 0..1000u64 {
        let (done, total) = (anneal.done(), anneal.total());
        match tried(rt, anneal, pace)? {
            Ok(Turn::Finished) => return Ok(()),
            Ok(Turn::More) => {}
            Err(_) => {
                if was_refused {
                    return Err(Fail::from("two turns were refused"));
                }
                was_refused = true;
                if anneal.done() < done || anneal.total() < total || !anneal.ahead().is_empty() {
                    return Err(Fail::from("a refused turn lost moves or kept verdicts"));
                }
            }
        }
    }
    Err(Fail::from("the run does not end"))
}

// The state at the end of a run, told again where that was refused.
fn end_of<W: Words + Drop>(alloc: Global, anneal: &Anneal<'_, W>) -> Result<String, AllocError> {
    match told_end(alloc, anneal) {
        Ok(end) => Ok(end),
        Err(_) => told_end(alloc, anneal),
    }
}

// A run of the frozen stage alone, with a move for each entry of chosen words, all of which are accepted, and its end.
#[derive(Clone, Copy)]
struct Case {
    arch: &'static [u8],
    net: &'static [u8],
    side: u16,
    starts: &'static [u32],
    moves: &'static [[u32; 4]],
    accepted: &'static [u64],
    end: &'static str,
}

// Two blocks go to one empty site.
const ONE_SITE: Case = Case {
    arch: b"io_rat 1\noutpin class: 0 top\n",
    net: UNJOINED,
    side: 2,
    starts: &[],
    moves: &[[0, HALF, 0, 0], [HALF, HALF, 0, 0]],
    accepted: &[0, 1],
    end: "done 2 total 2 cost 40000 at 2,2,0 2,1,0",
};

// The second block displaces one that is on a net of the first.
const ONE_NET: Case = Case {
    arch: b"io_rat 1\ninpin class: 0 left\noutpin class: 0 right\n",
    net: DISPLACED,
    side: 2,
    starts: &[],
    moves: &[[MOST, HALF, 0, 0], [0, HALF, HALF, 0]],
    accepted: &[0, 1],
    end: "done 2 total 2 cost 50000 at 2,2,0 1,1,0 2,1,0",
};

// A block leaves the corner of its net's box, and another terminal is on the new edge.
const ONE_EDGE: Case = Case {
    arch: b"io_rat 1\ninpin class: 0 left\noutpin class: 0 right\n",
    net: b".clb b1\npinlist: open n\n.clb b2\npinlist: n open\n.clb b3\npinlist: n open\n",
    side: 3,
    starts: &[0, HALF, 0],
    moves: &[[0, HALF, 0, 0]],
    accepted: &[0],
    end: "done 1 total 1 cost 50000 at 2,1,0 2,2,0 3,3,0",
};

fn chosen_once<'a>(alloc: Global, of: &'a Setting, case: Case) -> Option<Anneal<'a, ListWords>> {
    let words = list_words(alloc, case.starts, case.moves).ok()?;
    let schedule = Schedule::new(1, 2, 500, case.moves.len() as u64).ok()?;
    begun(alloc, of, schedule, words)
}

fn chosen_again<'a>(
    alloc: Global,
    of: &'a Setting,
    case: Case,
) -> Result<Anneal<'a, ListWords>, Fail> {
    if let Some(anneal) = chosen_once(alloc, of, case) {
        return Ok(anneal);
    }
    match chosen_once(alloc, of, case) {
        Some(anneal) => Ok(anneal),
        None => Err(Fail::from("two beginnings were refused")),
    }
}

// Whether a run ends as it should.
fn is_end_of(case: &Case, end: &str, accepted: &[u64]) -> bool {
    end == case.end && accepted == case.accepted
}

// Makes a chosen run, one of whose growths may be refused.
fn assert_made(
    rt: &(impl Abort + AllocGlobal + Print + Threads + Wait + Sync),
    case: Case,
    pace: Pace,
) -> Result<(), Fail> {
    let alloc = rt.alloc();
    let of = read_again(alloc, case.arch, case.net, case.side)?;
    let mut anneal = chosen_again(alloc, &of, case)?;
    finish(rt, &mut anneal, pace)?;
    let end = end_of(alloc, &anneal)?;
    assert!(rt;
        is_end_of(&case, end.as_str(), anneal.accepted()),
        "{}",
        end.as_str()
    );
    tell_refusal_to_come(rt);
    Ok(())
}

const TWO_BY_ONE: Pace = Pace {
    batch: 2,
    workers: 1,
};

const TWO_BY_FOUR: Pace = Pace {
    batch: 2,
    workers: 4,
};

#[test]
fn growths_of_turns_to_one_site(rt: HostRuntime) -> Result<(), Fail> {
    assert_made(&rt, ONE_SITE, TWO_BY_ONE)
}

#[test]
fn growths_of_turns_to_one_site_with_four_workers(rt: HostRuntime) -> Result<(), Fail> {
    assert_made(&rt, ONE_SITE, TWO_BY_FOUR)
}

#[test]
fn growths_of_turns_on_one_net(rt: HostRuntime) -> Result<(), Fail> {
    assert_made(&rt, ONE_NET, TWO_BY_ONE)
}

#[test]
fn growths_of_turns_on_one_net_with_four_workers(rt: HostRuntime) -> Result<(), Fail> {
    assert_made(&rt, ONE_NET, TWO_BY_FOUR)
}

#[test]
fn growths_of_a_turn_at_an_edge(rt: HostRuntime) -> Result<(), Fail> {
    assert_made(&rt, ONE_EDGE, TWO_BY_ONE)
}

#[test]
fn growths_of_a_turn_at_an_edge_with_four_workers(rt: HostRuntime) -> Result<(), Fail> {
    assert_made(&rt, ONE_EDGE, TWO_BY_FOUR)
}

fn eight_once<'a>(alloc: Global, of: &'a Setting) -> Option<Anneal<'a, StreamWords>> {
    let schedule = Schedule::new(30_000, 3_000, 500, EIGHT_STAGE).ok()?;
    begun(alloc, of, schedule, StreamWords::new(8))
}

fn eight_again<'a>(alloc: Global, of: &'a Setting) -> Result<Anneal<'a, StreamWords>, Fail> {
    if let Some(anneal) = eight_once(alloc, of) {
        return Ok(anneal);
    }
    match eight_once(alloc, of) {
        Some(anneal) => Ok(anneal),
        None => Err(Fail::from("two beginnings were refused")),
    }
}

// Makes the run of the eight blocks in turns of 16 moves, one of which may be refused.
fn assert_eight_made(
    rt: &(impl Abort + AllocGlobal + Print + Threads + Wait + Sync),
    workers: u64,
) -> Result<(), Fail> {
    let alloc = rt.alloc();
    let of = read_again(alloc, ARCH, EIGHT, 3)?;
    let mut anneal = eight_again(alloc, &of)?;
    finish(rt, &mut anneal, Pace { batch: 16, workers })?;
    let end = end_of(alloc, &anneal)?;
    // Moves whose verdicts were lost are not judged again but anew, so their number is not that of a run that is refused nothing.
    let wanted = EIGHT_END.strip_prefix("redone 201 ahead 0 ");
    assert_eq!(rt; Some(end.as_str()), wanted);
    tell_refusal_to_come(rt);
    Ok(())
}

#[test]
fn growths_of_turns_of_a_long_run(rt: HostRuntime) -> Result<(), Fail> {
    assert_eight_made(&rt, 1)
}

#[test]
fn growths_of_turns_of_a_long_run_with_four_workers(rt: HostRuntime) -> Result<(), Fail> {
    assert_eight_made(&rt, 4)
}

fn unwatched_again<R: Wait>(rt: &R, alloc: Global) -> Result<(Dial, Shower), AllocError>
    ensures { IfOk result (λ r. r.1.dial ≡ r.0) }
{
    match unwatched(rt, alloc) {
        Ok(made) => Ok(made),
        Err(_) => unwatched(rt, alloc),
    }
}

// Makes the moves that are left in the running stage beside a crew of four, which may be refused memory.
fn tried_stage<W: Words + Send + Sync + Drop, G: Gate, R: Threads + Wait + Sync>(
    rt: &R,
    alloc: Global,
    anneal: &mut Anneal<'_, W>,
    gate: &G,
) -> Result<Result<(), AllocError>, Fail> {
    let left = anneal.left_of_stage();
    if left == 0 {
        return Err(Fail::from("no moves to make"));
    }
    let (dial, mut shower) = unwatched_again(rt, alloc)?;
    let plan = StagePlan {
        batch: 16,
        workers: 4,
        gate,
        dial: &dial,
    };
    Ok(anneal.make_beside(rt, left, &plan, &mut shower))
}

// Makes stages until no move is left, one of which may be refused. It has kept the moves that it made, and its other moves are made then.
fn finish_stages<W: Words + Send + Sync + Drop, G: Gate, R: Threads + Wait + Sync>(
    rt: &R,
    alloc: Global,
    anneal: &mut Anneal<'_, W>,
    gate: &G,
) -> Result<(), Fail> {
    let mut was_refused = false;
    for _stage in 0..1000u64 {
        if anneal.stage().is_none() {
            return Ok(());
        }
        let (done, total) = (anneal.done(), anneal.total());
        if tried_stage(rt, alloc, anneal, gate)?.is_err() {
            if was_refused {
                return Err(Fail::from("two stages were refused"));
            }
            was_refused = true;
            if anneal.done() < done || anneal.total() < total || !anneal.ahead().is_empty() {
                return Err(Fail::from("a refused stage lost moves or kept verdicts"));
            }
        }
    }
    Err(Fail::from("the run does not end"))
}

// Makes the run of the eight blocks in stages beside crews, one of which may be refused.
fn assert_eight_made_beside<G: Gate>(
    rt: &(impl Abort + AllocGlobal + Print + Threads + Wait + Sync),
    gate: &G,
) -> Result<(), Fail> {
    let alloc = rt.alloc();
    let of = read_again(alloc, ARCH, EIGHT, 3)?;
    let mut anneal = eight_again(alloc, &of)?;
    finish_stages(rt, alloc, &mut anneal, gate)?;
    let end = end_of(alloc, &anneal)?;
    let wanted = EIGHT_END.strip_prefix("redone 201 ahead 0 ");
    assert_eq!(rt; Some(end.as_str()), wanted);
    tell_refusal_to_come(rt);
    Ok(())
}

#[test]
fn growths_of_stages_beside_a_crew(rt: HostRuntime) -> Result<(), Fail> {
    assert_eight_made_beside(&rt, &NoGate)
}

// A gate that holds nothing, and does not say so: its moves are made beside a crew or not at all.
#[derive(Clone, Copy)]
struct Unheld;

impl Gate for Unheld {
    fn before_judge(&self, _k: u64) {}

    fn after_judge(&self, _k: u64) {}

    fn before_commit(&self, _k: u64) {}
}

#[test]
fn growths_of_stages_that_need_a_crew(rt: HostRuntime) -> Result<(), Fail> {
    assert_eight_made_beside(&rt, &Unheld)
}
