use crate::end_tests::Maker;
use crate::in_time::{HELD, in_time};
use crate::tests::{
    ALONE, Chosen, Clash, Pace, Setting, annealer, clashing, put_sites, read_setting, turned,
    void_case,
};
use crate::world_tests::ARCH;
use crate::{Anneal, Turn, end_tests};
use fab_board::{Gate, NoGate};
use fab_move::StreamWords;
use fab_sched::Schedule;
use fab_site::Words;
use std::alloc::{AllocError, Global};
use std::sync::Wait;
use std::sync::atomic::{AtomicU64, Ordering};
use std::test::*;
use std::thread;
use std::thread::Threads;
use std::time::Duration;

/// The state of a run: the moves made and accepted, the cost, and the sites of the blocks.
pub(crate) fn told_end<W: Words + Drop>(
    alloc: Global,
    anneal: &Anneal<'_, W>,
) -> Result<String, AllocError> {
    let mut text = format!(in alloc;
        "done {} total {} cost {} at",
        anneal.done(),
        anneal.total(),
        anneal.cost()
    )?;
    put_sites(alloc, &mut text, anneal.placement())?;
    Ok(text)
}

/// Makes turns with these batches, again and again, until no move is left.
pub(crate) fn finish<W: Words + Send + Sync + Drop, G: Gate, R: Threads + Wait + Sync>(
    rt: &R,
    alloc: Global,
    anneal: &mut Anneal<'_, W>,
    batches: &[u64],
    workers: u64,
    gate: &G,
) -> Result<(), Fail> {
    for _round in 0..1000u64 {
        for batch in batches {
            let pace = Pace {
                batch: *batch,
                workers,
            };
            if turned(rt, anneal, pace, gate)? == Turn::Finished {
                return Ok(());
            }
        }
    }
    Err(Fail::from("the run does not end"))
}

/// The whole run: how many moves were judged again, and where it ends.
fn ended<W: Words + Send + Sync + Drop, G: Gate, R: Threads + Wait + Sync>(
    rt: &R,
    alloc: Global,
    anneal: &mut Anneal<'_, W>,
    pace: Pace,
    gate: &G,
) -> Result<(u64, String), Fail> {
    finish(rt, alloc, anneal, &[pace.batch], pace.workers, gate)?;
    Ok((anneal.redone(), told_end(alloc, anneal)?))
}

/// The same with chosen words.
fn chosen_run<G: Gate, R: Threads + Wait + Sync>(
    rt: &R,
    alloc: Global,
    case: Chosen,
    pace: Pace,
    gate: &G,
) -> Result<(u64, String), Fail> {
    let Chosen {
        of,
        words,
        fixed,
        schedule,
    } = case;
    let mut anneal = annealer(alloc, &of, fixed, schedule, words)?;
    ended(rt, alloc, &mut anneal, pace, gate)
}

/// The same as a text.
fn chosen_end<G: Gate, R: Threads + Wait + Sync>(
    rt: &R,
    alloc: Global,
    case: Chosen,
    pace: Pace,
    gate: &G,
) -> Result<String, Fail> {
    let (redone, end) = chosen_run(rt, alloc, case, pace, gate)?;
    Ok(format!(in alloc; "redone {redone} {}", end.as_str())?)
}

/// The whole run of two moves that clash.
fn clash_end<R: Threads + Wait + Sync>(
    rt: &R,
    alloc: Global,
    clash: Clash,
    pace: Pace,
) -> Result<String, Fail> {
    chosen_end(rt, alloc, clashing(alloc, clash)?, pace, &NoGate)
}

/// A batch of one move, and a batch of two with one worker and with two.
const PACES: [Pace; 3] = [
    ALONE,
    Pace {
        batch: 2,
        workers: 1,
    },
    Pace {
        batch: 2,
        workers: 2,
    },
];

#[test]
fn the_second_of_two_clashing_moves_is_judged_again(rt: HostRuntime) -> Result<(), Fail> {
    for pace in PACES {
        assert_eq!(rt;
            clash_end(&rt, rt.alloc(), Clash::Site, pace)?.as_str(),
            "redone 1 done 2 total 2 cost 40000 at 2,2,0 2,1,0"
        );
        assert_eq!(rt;
            clash_end(&rt, rt.alloc(), Clash::Net, pace)?.as_str(),
            "redone 1 done 2 total 2 cost 50000 at 2,2,0 1,1,0 2,1,0"
        );
    }
    Ok(())
}

/// The whole run of void moves, three a stage.
fn void_end<R: Threads + Wait + Sync>(rt: &R, alloc: Global, pace: Pace) -> Result<String, Fail> {
    let schedule = Schedule::new(100_000, 10_000, 500, 3)?;
    chosen_end(rt, alloc, void_case(alloc, schedule)?, pace, &NoGate)
}

#[test]
fn void_moves_are_not_judged_again(rt: HostRuntime) -> Result<(), Fail> {
    for (batch, workers) in [(4096, 64), (1, 1)] {
        assert_eq!(rt;
            void_end(&rt, rt.alloc(), Pace { batch, workers })?.as_str(),
            "redone 0 done 15 total 0 cost 40000 at 0,1,0 2,1,0 1,1,0"
        );
    }
    Ok(())
}

/// What was judged ahead: each move, whether it is accepted, its change of cost, and its swap.
fn told_ahead<W: Words + Drop>(
    alloc: Global,
    anneal: &Anneal<'_, W>,
) -> Result<String, AllocError> {
    let mut text = String::new(alloc);
    for verdict in anneal.ahead() {
        let line = format!(in alloc;
            "{} {} {} {:?}\n",
            verdict.k, verdict.accepted, verdict.delta, verdict.swap
        )?;
        text.push_str(line.as_str())?;
    }
    Ok(text)
}

/// What is judged ahead after one more turn of one move.
fn told_ahead_of_a_move<W: Words + Send + Sync + Drop, R: Threads + Wait + Sync>(
    rt: &R,
    alloc: Global,
    anneal: &mut Anneal<'_, W>,
) -> Result<String, Fail> {
    let _turn = turned(rt, anneal, ALONE, &NoGate)?;
    Ok(told_ahead(alloc, anneal)?)
}

/// The same after the first of two moves to one site.
fn ahead_of_a_move<R: Threads + Wait + Sync>(rt: &R, alloc: Global) -> Result<String, Fail> {
    let Chosen {
        of,
        words,
        fixed,
        schedule,
    } = clashing(alloc, Clash::Site)?;
    let mut anneal = annealer(alloc, &of, fixed, schedule, words)?;
    told_ahead_of_a_move(rt, alloc, &mut anneal)
}

#[test]
fn the_move_behind_a_turn_is_judged_on_the_placement_before_it(
    rt: HostRuntime,
) -> Result<(), Fail> {
    // The first block is on the site (2, 1) by now.
    assert_eq!(rt;
        ahead_of_a_move(&rt, rt.alloc())?.as_str(),
        "1 true 0 Some(Swap { block: BlockId(1), from: Site { x: 2, y: 2, sub: 0 }, \
        to: Site { x: 2, y: 1, sub: 0 }, other: None })\n"
    );
    Ok(())
}

// Eight logic blocks with three pads. The expected results of their runs come from the slow placer in Python, through
// tests/tables/turns.py.
pub(crate) const EIGHT: &[u8] = b".input p0\npinlist: i0\n.input p1\npinlist: i1\n\
    .clb b0\npinlist: n3 n5 n0\n.clb b1\npinlist: n6 n2 n1\n.clb b2\npinlist: n3 n0 n2\n\
    .clb b3\npinlist: n1 n2 n3\n.clb b4\npinlist: n3 i0 n4\n.clb b5\npinlist: n3 n6 n5\n\
    .clb b6\npinlist: open n0 n6\n.clb b7\npinlist: n7 n7 n7\n.output q0\npinlist: n7\n";

pub(crate) const EIGHT_END: &str =
    "redone 201 ahead 0 done 500 total 205 cost 339336 at 1,0,1 4,3,0 1,2,0 3,1,0 2,2,0 2,1,0 1,1,0 1,3,0 \
    2,3,0 3,3,0 3,4,1";

/// With batches of 16. All moves not listed are judged again.
const EIGHT_ASKED: &str = "redone 420 asked 920 other 0 commits 500 disordered 0 once \
    0 1 2 7 100 101 150 173 180 185 190 199 200 201 202 203 204 205 215 216 232 233 \
    236 249 261 266 269 271 272 276 279 282 289 297 300 301 302 303 304 305 306 307 308 309 310 317 \
    321 329 334 351 352 354 364 369 394 396 400 401 402 404 405 406 407 408 411 417 419 426 429 432 \
    434 438 440 447 448 449 468 472 478 486";

/// The run of the eight blocks.
pub(crate) fn eight<'a, W: Words + Drop>(
    alloc: Global,
    of: &'a Setting,
    words: W,
) -> Result<Anneal<'a, W>, Fail> {
    let schedule = Schedule::new(30_000, 3_000, 500, EIGHT_STAGE)?;
    annealer(alloc, of, None, schedule, words)
}

/// Where a run ends that makes turns of 4, 1, 3 and 2 moves again and again, and then `beyond` turns after its end.
fn ended_in_a_circle<W: Words + Send + Sync + Drop, R: Threads + Wait + Sync>(
    rt: &R,
    alloc: Global,
    anneal: &mut Anneal<'_, W>,
    beyond: u64,
) -> Result<String, Fail> {
    finish(rt, alloc, anneal, &[4, 1, 3, 2], 2, &NoGate)?;
    for _turn in 0..beyond {
        if turned(rt, anneal, ALONE, &NoGate)? != Turn::Finished {
            return Err(Fail::from("a run that is finished goes on"));
        }
    }
    let (redone, ahead) = (anneal.redone(), anneal.ahead().len());
    let end = told_end(alloc, anneal)?;
    Ok(format!(in alloc; "redone {redone} ahead {ahead} {}", end.as_str())?)
}

/// The same for the eight blocks.
fn circle_end<R: Threads + Wait + Sync>(
    rt: &R,
    alloc: Global,
    beyond: u64,
) -> Result<String, Fail> {
    let of = read_setting(alloc, ARCH, EIGHT)?;
    let mut anneal = eight(alloc, &of, StreamWords::new(8))?;
    ended_in_a_circle(rt, alloc, &mut anneal, beyond)
}

#[test]
fn a_batch_less_than_what_was_judged_ahead_changes_nothing(rt: HostRuntime) -> Result<(), Fail> {
    for beyond in [0, 2] {
        assert_eq!(rt; circle_end(&rt, rt.alloc(), beyond)?.as_str(), EIGHT_END);
    }
    Ok(())
}

/// What is seen of a run through its words and its gate.
#[derive(Drop)]
struct Seen {
    /// How often the words of each move were asked for.
    asked: Vec<AtomicU64>,
    /// For each move, 1 while it is being judged, and else 0.
    inside: Vec<AtomicU64>,
    /// For how many moves the words were first asked for outside of the move's judgement.
    outside: AtomicU64,
    /// How many commits were begun, and how many of them were not of the next move.
    commits: AtomicU64,
    disordered: AtomicU64,
    /// How many moves were judged again before the call for their commit.
    early: AtomicU64,
}

/// Stages of the eight blocks' run have so many moves.
pub(crate) const EIGHT_STAGE: u64 = 100;

impl Seen {
    /// Nothing is seen yet of `moves` moves.
    fn of(alloc: Global, moves: u64) -> Result<Seen, AllocError> {
        let mut asked = Vec::new(alloc);
        let mut inside = Vec::new(alloc);
        for _move in 0..moves {
            asked.push(AtomicU64::new(0))?;
            inside.push(AtomicU64::new(0))?;
        }
        Ok(Seen {
            asked,
            inside,
            outside: AtomicU64::new(0),
            commits: AtomicU64::new(0),
            disordered: AtomicU64::new(0),
            early: AtomicU64::new(0),
        })
    }

    /// Notes that the words of this move were asked for.
    fn ask(&self, k: u64) {
        let Some(asked) = self.asked.get(k as usize) else {
            return;
        };
        let before = asked.fetch_add(1, Ordering::SeqCst);
        if before == 0 && !self.is_inside(k) {
            self.outside.fetch_add(1, Ordering::SeqCst);
        }
        if before == 1 && self.commits.load(Ordering::SeqCst) <= k {
            self.early.fetch_add(1, Ordering::SeqCst);
        }
    }

    /// Whether this move is being judged.
    fn is_inside(&self, k: u64) -> bool {
        match self.inside.get(k as usize) {
            Some(inside) => inside.load(Ordering::SeqCst) == 1,
            None => false,
        }
    }

    /// Notes whether this move is being judged.
    fn put_inside(&self, k: u64, inside: u64) {
        if let Some(place) = self.inside.get(k as usize) {
            place.store(inside, Ordering::SeqCst);
        }
    }
}

impl Gate for Seen {
    fn before_judge(&self, k: u64) {
        self.put_inside(k, 1);
    }

    fn after_judge(&self, k: u64) {
        self.put_inside(k, 0);
    }

    fn before_commit(&self, k: u64) {
        if self.commits.fetch_add(1, Ordering::SeqCst) != k {
            self.disordered.fetch_add(1, Ordering::SeqCst);
        }
    }
}

/// Words that note when they are asked for.
#[derive(Drop)]
struct SeenWords<'a, W: Words + Drop> {
    words: W,
    seen: &'a Seen,
}

impl<'a, W: Words + Drop> Words for SeenWords<'a, W> {
    ghost moves = { λ w. W.moves w.words };

    ghost starts = { λ w. W.starts w.words };

    fn move_words(&self, k: u64) -> [u32; 4] {
        self.seen.ask(k);
        self.words.move_words(k)
    }

    fn start_word(&self, i: u32) -> u32 {
        self.words.start_word(i)
    }
}

/// Tells how often the words of moves were asked for in all, and for which moves once. The count `other` is of moves whose words were
/// asked for neither once nor twice.
fn told_asked(alloc: Global, seen: &Seen, redone: u64) -> Result<String, AllocError> {
    let mut once = String::new(alloc);
    let (mut all, mut other) = (0u64, 0u64);
    for (number, count) in seen.asked.iter().enumerate() {
        let count = count.load(Ordering::SeqCst);
        all = all.saturating_add(count);
        match count {
            1 => once.push_str(format!(in alloc; " {number}")?.as_str())?,
            2 => {}
            _ => other = other.saturating_add(1),
        }
    }
    let commits = seen.commits.load(Ordering::SeqCst);
    let disordered = seen.disordered.load(Ordering::SeqCst);
    format!(in alloc;
        "redone {redone} asked {all} other {other} commits {commits} disordered {disordered} once{}",
        once.as_str()
    )
}

/// What is asked for in the whole run.
fn asked<W: Words + Send + Sync + Drop, R: Threads + Wait + Sync>(
    rt: &R,
    alloc: Global,
    anneal: &mut Anneal<'_, W>,
    maker: Maker,
    pace: Pace,
    seen: &Seen,
) -> Result<String, Fail> {
    let _end = end_tests::ended(rt, alloc, anneal, maker, pace, seen)?;
    Ok(told_asked(alloc, seen, anneal.redone())?)
}

/// The same for two moves that clash.
fn clash_asked<R: Threads + Wait + Sync>(
    rt: &R,
    alloc: Global,
    clash: Clash,
    pace: Pace,
    seen: &Seen,
) -> Result<String, Fail> {
    let Chosen {
        of,
        words,
        fixed,
        schedule,
    } = clashing(alloc, clash)?;
    let words = SeenWords { words, seen };
    let mut anneal = annealer(alloc, &of, fixed, schedule, words)?;
    asked(rt, alloc, &mut anneal, Maker::Turns, pace, seen)
}

#[test]
fn words_of_the_clashing_move_are_asked_for_twice(rt: HostRuntime) -> Result<(), Fail> {
    for pace in PACES {
        for clash in [Clash::Site, Clash::Net] {
            let seen = Seen::of(rt.alloc(), 2)?;
            assert_eq!(rt;
                clash_asked(&rt, rt.alloc(), clash, pace, &seen)?.as_str(),
                "redone 1 asked 3 other 0 commits 2 disordered 0 once 0"
            );
        }
    }
    Ok(())
}

/// The same for the eight blocks.
fn eight_asked<R: Threads + Wait + Sync>(
    rt: &R,
    alloc: Global,
    maker: Maker,
    pace: Pace,
    seen: &Seen,
) -> Result<String, Fail> {
    let of = read_setting(alloc, ARCH, EIGHT)?;
    let words = SeenWords {
        words: StreamWords::new(8),
        seen,
    };
    let mut anneal = eight(alloc, &of, words)?;
    asked(rt, alloc, &mut anneal, maker, pace, seen)
}

/// By turns and by stages with a crew each, the same words are asked for.
#[test]
fn words_of_redone_moves_are_asked_for_twice_and_others_once(rt: HostRuntime) -> Result<(), Fail> {
    in_time(
        &rt,
        &mut || -> Result<(), Fail> {
            for maker in [Maker::Turns, Maker::Stages] {
                for workers in [1, 4] {
                    let seen = Seen::of(rt.alloc(), 500)?;
                    let pace = Pace { batch: 16, workers };
                    let asked = eight_asked(&rt, rt.alloc(), maker, pace, &seen)?;
                    assert_eq!(rt; asked.as_str(), EIGHT_ASKED, "{maker:?}, {workers} workers");
                }
            }
            Ok(())
        },
    )
}

#[test]
fn words_are_first_asked_for_in_their_judgement(rt: HostRuntime) -> Result<(), Fail> {
    in_time(
        &rt,
        &mut || -> Result<(), Fail> {
            for maker in [Maker::Turns, Maker::Stages] {
                for (batch, workers) in [(1, 1), (1, 4), (16, 1), (16, 4)] {
                    let seen = Seen::of(rt.alloc(), 500)?;
                    let pace = Pace { batch, workers };
                    let _asked = eight_asked(&rt, rt.alloc(), maker, pace, &seen)?;
                    let outside = seen.outside.load(Ordering::SeqCst);
                    assert_eq!(rt; outside, 0, "{maker:?} of {batch} by {workers}");
                }
            }
            Ok(())
        },
    )
}

/// So the call before a commit does not come behind it.
#[test]
fn a_move_is_judged_again_behind_the_call_for_its_commit(rt: HostRuntime) -> Result<(), Fail> {
    in_time(
        &rt,
        &mut || -> Result<(), Fail> {
            for maker in [Maker::Turns, Maker::Stages] {
                for (batch, workers) in [(2, 1), (16, 1), (16, 4)] {
                    let seen = Seen::of(rt.alloc(), 500)?;
                    let pace = Pace { batch, workers };
                    let _asked = eight_asked(&rt, rt.alloc(), maker, pace, &seen)?;
                    let early = seen.early.load(Ordering::SeqCst);
                    assert_eq!(rt; early, 0, "{maker:?} of {batch} by {workers}");
                }
            }
            Ok(())
        },
    )
}

/// Holds the judgement of move 0 until that of move 1 is over, the commit of move 0 until a move of the next batch is
/// judged, and the judgement of move 4 until move 1 is committed. Each is held for at most 40 seconds.
#[derive(Drop)]
struct Overlap<'a> {
    rt: &'a HostRuntime,
    one_judged: AtomicU64,
    next_judged: AtomicU64,
    one_committed: AtomicU64,
    failed: AtomicU64,
}

impl Overlap<'_> {
    /// Waits until this is no longer 0, for at most 40 seconds.
    fn hold(&self, until: &AtomicU64) {
        for _turn in 0..HELD {
            if until.load(Ordering::SeqCst) != 0 {
                return;
            }
            thread::sleep(self.rt, Duration::from_millis(1));
        }
        self.failed.store(1, Ordering::SeqCst);
    }
}

impl Gate for Overlap<'_> {
    fn before_judge(&self, k: u64) {
        match k {
            0 => self.hold(&self.one_judged),
            4 => self.hold(&self.one_committed),
            _ => {}
        }
    }

    fn after_judge(&self, k: u64) {
        match k {
            1 => self.one_judged.store(1, Ordering::SeqCst),
            3..=5 => self.next_judged.store(1, Ordering::SeqCst),
            _ => {}
        }
    }

    fn before_commit(&self, k: u64) {
        match k {
            0 => self.hold(&self.next_judged),
            1 => self.one_committed.store(1, Ordering::SeqCst),
            _ => {}
        }
    }
}

#[test]
fn workers_judge_the_next_batch_while_a_batch_is_committed(rt: HostRuntime) -> Result<(), Fail> {
    let gate = Overlap {
        rt: &rt,
        one_judged: AtomicU64::new(0),
        next_judged: AtomicU64::new(0),
        one_committed: AtomicU64::new(0),
        failed: AtomicU64::new(0),
    };
    let case = void_case(rt.alloc(), Schedule::new(100_000, 10_000, 500, 6)?)?;
    let pace = Pace {
        batch: 3,
        workers: 2,
    };
    assert_eq!(rt;
        chosen_end(&rt, rt.alloc(), case, pace, &gate)?.as_str(),
        "redone 0 done 30 total 0 cost 40000 at 0,1,0 2,1,0 1,1,0"
    );
    assert_eq!(rt; gate.failed.load(Ordering::SeqCst), 0);
    Ok(())
}
