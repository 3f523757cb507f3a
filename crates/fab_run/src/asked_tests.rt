// How the words of moves are asked for: how often, when, and by how many threads at once.
ghost use Rattle.std.specs.Prelude.{◌≡◌, ◌≤◌, ◌<◌, IfOk};
ghost use Rattle.fab_sched.specs.Annealing.{IsLawful};

use crate::piece::unwatched;
use crate::run_tests::{ARCH, INPUTS, OPTIONS, SEVEN, SHORT, writer_with};
use crate::setting::read_setting;
use crate::stages::{Environment, Pace, anneal_all, crew_size, is_judged_ahead, make_moves};
use crate::watched_tests::Quiet;
use crate::{Inputs, Moves, Options, RunFault};
use fab_board::{Gate, NoGate};
use fab_commit::{Anneal, StagePlan};
use fab_dial::{Dial, Shower};
use fab_file::Labels;
use fab_move::StreamWords;
use fab_sched::Stage;
use fab_site::{Words, start};
use fab_text::push_number;
use std::alloc::{AllocError, Global};
use std::sync::Wait;
use std::sync::atomic::{AtomicU64, Ordering};
use std::test::*;
use std::thread;
use std::thread::Threads;
use std::time::Duration;

// Makes the moves of a run of texts by these words, where so many workers help. The answer is how many moves were made, and how many judged
// again.
fn run_with<V: Words + Send + Sync + Drop, G: Gate, R: AllocGlobal + Threads + Wait + Sync>(
    rt: &R,
    inputs: &Inputs,
    options: &Options,
    helpers: u64,
    words: V,
    gate: &G,
) -> Result<(u64, u64), RunFault> {
    let alloc = rt.alloc();
    let (design, grid, pins, schedule) = read_setting(alloc, inputs, options)?;
    let pace = Pace {
        moves: schedule.moves(),
        batch: options.batch,
        workers: options.workers,
        helpers,
        side: u64::from(grid.nx().max(grid.ny())),
        stop: options.stop,
    };
    let placement = start(alloc, &design, &grid, &pins, &words)?;
    let mut anneal = Anneal::new(
        alloc, &design, &grid, placement, pins.fixed, schedule, words,
    )?;
    let (dial, mut shower) = unwatched(rt, alloc)?;
    let mut report = writer_with(alloc, 10_000);
    let mut costs = Vec::new(alloc);
    let environment = Environment {
        rt,
        gate,
        dial: &dial,
    };
    anneal_all(
        &environment,
        &mut anneal,
        &pace,
        &mut shower,
        &mut report,
        &mut costs,
    )?;
    Ok((anneal.done(), anneal.redone()))
}

// Words that count how often those of moves are asked for.
#[derive(Drop)]
struct AskedWords<'a> {
    words: StreamWords,
    asked: &'a AtomicU64,
}

impl<'a> Words for AskedWords<'a> {
    ghost use Rattle.fab_move.specs.Stream.{stream_moves, stream_starts};

    ghost moves = { λ w. stream_moves w.words };

    ghost starts = { λ w. stream_starts w.words };

    fn move_words(&self, k: u64) -> [u32; 4] {
        self.asked.fetch_add(1, Ordering::SeqCst);
        self.words.move_words(k)
    }

    fn start_word(&self, i: u32) -> u32 {
        self.words.start_word(i)
    }
}

// A run's moves and how often its words were asked for. Fails if that is not once for each move and once more for each that is judged
// again.
fn asked<G: Gate, R: AllocGlobal + Threads + Wait + Sync>(
    rt: &R,
    inputs: &Inputs,
    options: &Options,
    gate: &G,
) -> Result<(u64, u64), Fail> {
    let asked = AtomicU64::new(0);
    let words = AskedWords {
        words: StreamWords::new(options.seed),
        asked: &asked,
    };
    let (made, redone) = run_with(rt, inputs, options, options.workers, words, gate)?;
    if asked.load(Ordering::SeqCst) != made.saturating_add(redone) {
        return Err(Fail::from("words are asked for otherwise"));
    }
    Ok((made, redone))
}

// With a gate that does not say that it does nothing the crew judges each move; with the other one the owner does.
#[test]
fn words_of_a_move_are_asked_for_once_for_each_judgement(rt: HostRuntime) -> Result<(), Fail> {
    for (batch, workers) in [(1, 1), (3, 1), (3, 2), (16, 3)] {
        for (inputs, options, moves) in [(&INPUTS, OPTIONS, 15), (&SEVEN, SHORT, 32)] {
            let options = Options {
                batch,
                workers,
                ..options
            };
            let crew = asked(&rt, inputs, &options, &Quiet)?;
            assert_eq!(rt; crew.0, moves);
            assert_eq!(rt; asked(&rt, inputs, &options, &NoGate)?, crew);
        }
    }
    Ok(())
}

// How long a thread waits for others that must come, and then for one that must not, in milliseconds.
const HELD: u64 = 40_000;

const BEYOND: u64 = 200;

// Words that tell how many threads ask for those of moves at the same time. From move `from` on each thread that asks waits until `least`
// threads do, and then for one more than `most`; after that none waits.
#[derive(Drop)]
struct TogetherWords<'a> {
    clock: &'a HostRuntime,
    words: StreamWords,
    from: u64,
    least: u64,
    most: u64,
    begun: &'a AtomicU64,
    over: &'a AtomicU64,
}

impl TogetherWords<'_> {
    // Waits until more than `count` threads ask, or none waits any more, for at most `millis` milliseconds.
    fn wait(&self, count: u64, millis: u64) {
        for _turn in 0..millis {
            let is_full = self.begun.load(Ordering::SeqCst) > count;
            if is_full || self.over.load(Ordering::SeqCst) != 0 {
                return;
            }
            thread::sleep(self.clock, Duration::from_millis(1));
        }
    }
}

impl<'a> Words for TogetherWords<'a> {
    ghost use Rattle.fab_move.specs.Stream.{stream_moves, stream_starts};

    ghost moves = { λ w. stream_moves w.words };

    ghost starts = { λ w. stream_starts w.words };

    fn move_words(&self, k: u64) -> [u32; 4] {
        if k >= self.from && self.over.load(Ordering::SeqCst) == 0 {
            self.begun.fetch_add(1, Ordering::SeqCst);
            self.wait(self.least.saturating_sub(1), HELD);
            self.wait(self.most, BEYOND);
            self.over.store(1, Ordering::SeqCst);
        }
        self.words.move_words(k)
    }

    fn start_word(&self, i: u32) -> u32 {
        self.words.start_word(i)
    }
}

// How many threads ask for words at the same time from move `from` on, where `helpers` workers help. At least `least` and at most `most` should.
fn threads_from<R: AllocGlobal + Threads + Wait + Sync>(
    rt: &R,
    clock: &HostRuntime,
    inputs: &Inputs,
    options: &Options,
    helpers: u64,
    from: u64,
    least: u64,
    most: u64,
) -> Result<u64, RunFault> {
    let begun = AtomicU64::new(0);
    let over = AtomicU64::new(0);
    let words = TogetherWords {
        clock,
        words: StreamWords::new(options.seed),
        from,
        least,
        most,
        begun: &begun,
        over: &over,
    };
    run_with(rt, inputs, options, helpers, words, &NoGate)?;
    Ok(begun.load(Ordering::SeqCst))
}

// One stage at a temperature, and the frozen stage, of 64 moves each.
pub(crate) const TWO_STAGES: Options = Options {
    seed: 1,
    size: None,
    init_t: 100_000,
    exit_t: 100_000,
    moves: Moves::Given(64),
    batch: 64,
    ..OPTIONS
};

// A netlist of so many logic blocks, of which each reads the net that the one before it drives.
pub(crate) fn ring(alloc: Global, blocks: u64) -> Result<Vec<u8>, AllocError> {
    let mut text = Vec::new(alloc);
    let mut before = blocks.saturating_sub(1);
    for block in 0..blocks {
        text.extend_from_slice(b".clb c")?;
        push_number(&mut text, block)?;
        text.extend_from_slice(b"\npinlist: n")?;
        push_number(&mut text, before)?;
        text.extend_from_slice(b" n")?;
        push_number(&mut text, block)?;
        text.push(b'\n')?;
        before = block;
    }
    Ok(text)
}

// The texts of a run of such a netlist.
pub(crate) fn ring_of(net: &[u8]) -> Inputs<'_> {
    Inputs {
        arch: ARCH,
        net,
        pads: None,
        labels: Labels {
            net: b"ring.net",
            arch: b"t.arch",
        },
    }
}

// How many moves a stage has, how many workers are asked for and help, from which move on threads are counted, and how many come at least and
// at most.
const CREWS: &[(u64, u64, u64, u64, u64, u64)] = &[
    (5000, 3, 3, 5000, 3, 4),
    (1_000_000, 4, 2, 1_000_000, 2, 3),
    (5000, 3, 3, 0, 1, 1),
    (5000, 1, 1, 5000, 1, 1),
    (5000, 4, 1, 5000, 1, 1),
    (4999, 3, 3, 4999, 1, 1),
    (999_999, 4, 2, 999_999, 1, 1),
];

// Three workers judge the first batch of the frozen stage, all at once; two of four where two help. The owner may have taken moves of it
// before they come. It makes the stage before alone, and all stages if one worker helps or there are few moves.
#[test]
fn a_crew_judges_cold_stages(rt: HostRuntime) -> Result<(), Fail> {
    let net = ring(rt.alloc(), 1000)?;
    for (moves, workers, helpers, from, least, most) in CREWS {
        let options = Options {
            moves: Moves::Given(*moves),
            workers: *workers,
            ..TWO_STAGES
        };
        let inputs = ring_of(&net);
        let threads = threads_from(&rt, &rt, &inputs, &options, *helpers, *from, *least, *most)?;
        assert!(rt;
            *least <= threads && threads <= *most,
            "{threads} threads, {helpers} of {workers} workers from move {from}"
        );
    }
    Ok(())
}

// Which way a stage goes, on both sides of each bound: whether it is frozen, its range, the blocks, how many workers help, the moves of a
// stage, the batch, and whether a crew judges.
const WAYS: &[(bool, u64, usize, u64, u64, u64, bool)] = &[
    (false, 1000, 200, 3, 5000, 16, true),
    (false, 1000, 200, 3, 4999, 16, false),
    (false, 1000, 200, 3, 5000, 15, false),
    (false, 1000, 200, 2, 1_000_000, 16, true),
    (false, 1000, 200, 2, 999_999, 16, false),
    (false, 1000, 200, 1, 1_000_000, 16, false),
    (true, 200_000, 200, 3, 5000, 16, true),
    (false, 1001, 2_499, 64, 5000, 16, false),
    (false, 150_000, 2_500, 3, 5000, 16, true),
    (false, 150_000, 2_500, 2, 1_000_000, 16, true),
    (false, 150_001, 65_535, 64, 1_000_000, 16, false),
];

// So many workers are asked for, and so many of them find a processor.
fn pace_with(workers: u64, helpers: u64) -> Pace
    ensures { result.workers ≡ workers }
{
    Pace {
        moves: 1,
        batch: 1,
        workers,
        helpers,
        side: 200,
        stop: None,
    }
}

#[test]
fn the_standing_and_the_options_tell_which_way_a_stage_goes(rt: HostRuntime) -> Result<(), Fail> {
    for (frozen, range, blocks, helpers, moves, batch, wanted) in WAYS {
        let stage = Stage {
            index: 7,
            t: 1,
            range: *range,
            done: 0,
            accepted: 0,
            frozen: *frozen,
        };
        let pace = Pace {
            moves: *moves,
            batch: *batch,
            ..pace_with(*helpers, *helpers)
        };
        let ahead = is_judged_ahead(&stage, *blocks, &pace, true);
        assert_eq!(rt;
            ahead,
            *wanted,
            "range {range}, {blocks} blocks, {helpers} help"
        );
        assert!(rt; is_judged_ahead(&stage, *blocks, &pace, false));
    }
    Ok(())
}

// Of so many workers so many help; whether the gate does nothing; and how many workers a crew has.
const SIZES: &[(u64, u64, bool, u64)] = &[
    (4, 3, true, 3),
    (2, 2, true, 2),
    (64, 1, true, 1),
    (4, 3, false, 4),
    (64, 1, false, 64),
    (4, 0, true, 1),
    (2, 3, true, 2),
];

#[test]
fn a_crew_has_the_workers_that_find_a_processor(rt: HostRuntime) -> Result<(), Fail> {
    for (workers, helpers, does_nothing, wanted) in SIZES {
        if *workers < 1 || 64 < *workers {
            return Err(Fail::from("no such number of workers"));
        }
        let size = crew_size(&pace_with(*workers, *helpers), *does_nothing);
        assert_eq!(rt; size, *wanted, "{helpers} of {workers} workers help");
    }
    Ok(())
}

// Follows the calls of the gate and of the words. They are right if those of each move come by themselves, in order of number: before its
// judgement, for its words, after its judgement, before its commit. Words may be asked for once more then.
#[derive(Drop)]
struct InOrder {
    next: AtomicU64,
    wrong: AtomicU64,
}

impl InOrder {
    fn follow(&self, k: u64, step: u64) {
        let call = k.saturating_mul(4).saturating_add(step);
        let next = self.next.load(Ordering::SeqCst);
        let again = step == 1 && next == call.saturating_add(1);
        if again {
            return;
        }
        if next != call {
            self.wrong.store(1, Ordering::SeqCst);
        }
        self.next.store(call.saturating_add(1), Ordering::SeqCst);
    }
}

impl Gate for InOrder {
    fn before_judge(&self, k: u64) {
        self.follow(k, 0);
    }

    fn after_judge(&self, k: u64) {
        self.follow(k, 2);
    }

    fn before_commit(&self, k: u64) {
        self.follow(k, 3);
    }
}

// The words that such a gate follows.
#[derive(Drop)]
struct FollowedWords<'a> {
    words: StreamWords,
    gate: &'a InOrder,
}

impl<'a> Words for FollowedWords<'a> {
    ghost use Rattle.fab_move.specs.Stream.{stream_moves, stream_starts};

    ghost moves = { λ w. stream_moves w.words };

    ghost starts = { λ w. stream_starts w.words };

    fn move_words(&self, k: u64) -> [u32; 4] {
        self.gate.follow(k, 1);
        self.words.move_words(k)
    }

    fn start_word(&self, i: u32) -> u32 {
        self.words.start_word(i)
    }
}

// Makes the moves that are left in the running stage alone, the first ones, so many, by themselves, and then the rest.
fn stage_alone<V: Words + Send + Sync + Drop, G: Gate, R: Threads + Wait + Sync>(
    rt: &R,
    anneal: &mut Anneal<'_, V>,
    moves: u64,
    part: u64,
    batch: u64,
    gate: &G,
    dial: &Dial,
    shower: &mut Shower,
) -> Result<(), AllocError>
    requires moves { moves ≡ anneal.old.plan.moves }
    requires plan { IsLawful anneal.old.plan }
    requires own { shower.old.dial ≡ dial.now }
    requires limits { (1 ≤ batch) × (batch ≤ 4096) }
{
    let plan = StagePlan {
        batch,
        workers: 1,
        gate,
        dial,
    };
    if let Some(stage) = anneal.stage() {
        if part < moves - stage.done {
            make_moves(rt, anneal, part, false, &plan, shower)?;
        }
    }
    if let Some(stage) = anneal.stage() {
        let left = moves - stage.done;
        make_moves(rt, anneal, left, false, &plan, shower)?;
    }
    Ok(())
}

#[test]
fn the_owner_alone_asks_for_words_between_the_calls_of_a_gate(rt: HostRuntime) -> Result<(), Fail> {
    for batch in 1..5u64 {
        let gate = InOrder {
            next: AtomicU64::new(0),
            wrong: AtomicU64::new(0),
        };
        let alloc = rt.alloc();
        let (design, grid, pins, schedule) = read_setting(alloc, &SEVEN, &SHORT)?;
        let words = FollowedWords {
            words: StreamWords::new(1),
            gate: &gate,
        };
        let placement = start(alloc, &design, &grid, &pins, &words)?;
        let mut anneal = Anneal::new(
            alloc, &design, &grid, placement, pins.fixed, schedule, words,
        )?;
        let (dial, mut shower) = unwatched(&rt, alloc)?;
        let moves = schedule.moves();
        stage_alone(&rt, &mut anneal, moves, 3, batch, &gate, &dial, &mut shower)?;
        assert_eq!(rt; gate.next.load(Ordering::SeqCst), 32);
        assert_eq!(rt; gate.wrong.load(Ordering::SeqCst), 0);
    }
    Ok(())
}
