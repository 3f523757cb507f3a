ghost use Rattle.std.specs.Prelude.{◌≡◌, IfOk};

use crate::{Anneal, Turn};
use fab_arch::{Grid, read_arch};
use fab_board::{Gate, NoGate};
use fab_move::StreamWords;
use fab_net::{BlockId, Design, read_net};
use fab_sched::{SchedFault, Schedule, Stage};
use fab_site::{Fixed, ListWords, Pins, Placement, Words, is_legal, start};
use std::alloc::{AllocError, Global};
use std::sync::Wait;
use std::test::*;
use std::thread::Threads;

pub(crate) const HALF: u32 = 2_147_483_648;

pub(crate) const MOST: u32 = 4_294_967_295;

pub(crate) fn list_words(
    alloc: Global,
    starts: &[u32],
    moves: &[[u32; 4]],
) -> Result<ListWords, AllocError> {
    Ok(ListWords {
        starts: Vec::from_slice(alloc, starts)?,
        moves: Vec::from_slice(alloc, moves)?,
    })
}

/// A design, and the smallest array that holds it.
pub(crate) struct Setting {
    pub(crate) design: Design,
    pub(crate) grid: Grid,
}

impl Drop for Setting {
    // This is one call at each exit of a test. A derived `drop` would be proved again at each.
    fn drop(self) {
        let Setting { design: _, grid: _ } = self;
    }
}

pub(crate) fn read_setting(alloc: Global, arch: &[u8], net: &[u8]) -> Result<Setting, Fail> {
    let arch = read_arch(alloc, arch)?;
    let design = read_net(alloc, net, &arch)?;
    let grid = Grid::fit(design.logic_blocks(), design.pads(), arch.io_rat)?;
    Ok(Setting { design, grid })
}

/// The start placement with no block pinned.
pub(crate) fn started<W: Words>(alloc: Global, of: &Setting, words: &W) -> Result<Placement, Fail>
    ensures { IfOk result (λ p. p.grid ≡ of.now.grid) }
{
    of.grid.holds(of.design.logic_blocks(), of.design.pads())?;
    let pins = Pins {
        fixed: Fixed::none(alloc),
        begun: Fixed::none(alloc),
    };
    Ok(start(alloc, &of.design, &of.grid, &pins, words)?)
}

/// This block, if any, fixed at its site.
fn fixed_there(
    alloc: Global,
    placement: &Placement,
    block: Option<BlockId>,
) -> Result<Fixed, AllocError> {
    let mut fixed = Fixed::none(alloc);
    if let Some(block) = block {
        if (block.0 as usize) < placement.blocks() {
            fixed.fix(block, placement.site_of(block))?;
        }
    }
    Ok(fixed)
}

/// An annealer at the start placement, with this block, if any, fixed at its site.
pub(crate) fn annealer<'a, W: Words + Drop>(
    alloc: Global,
    of: &'a Setting,
    block: Option<BlockId>,
    schedule: Schedule,
    words: W,
) -> Result<Anneal<'a, W>, Fail> {
    let placement = started(alloc, of, &words)?;
    let fixed = fixed_there(alloc, &placement, block)?;
    if !is_legal(&of.design, &of.grid, &fixed, &placement) {
        return Err(Fail::from("the start placement is not legal"));
    }
    Ok(Anneal::new(
        alloc, &of.design, &of.grid, placement, fixed, schedule, words,
    )?)
}

/// Adds the sites of the blocks to a text.
pub(crate) fn put_sites(
    alloc: Global,
    text: &mut String,
    placement: &Placement,
) -> Result<(), AllocError> {
    for block in 0..placement.blocks().min(65_535) {
        let site = placement.site_of(BlockId(block as u32));
        text.push_str(format!(in alloc; " {},{},{}", site.x, site.y, site.sub)?.as_str())?;
    }
    Ok(())
}

/// The state of an annealer: the moves made and accepted, the cost, the numbers accepted, and the blocks' sites.
fn told_here<W: Words + Drop>(alloc: Global, anneal: &Anneal<'_, W>) -> Result<String, AllocError> {
    let mut text = format!(in alloc;
        "done {} total {} cost {}\naccepted",
        anneal.done(),
        anneal.total(),
        anneal.cost()
    )?;
    for number in anneal.accepted() {
        text.push_str(format!(in alloc; " {number}")?.as_str())?;
    }
    text.push_str("\nat")?;
    put_sites(alloc, &mut text, anneal.placement())?;
    Ok(text)
}

/// The line of a stage, if it ended with the last turn.
fn told_stage<W: Words + Drop>(
    alloc: Global,
    anneal: &Anneal<'_, W>,
    stage: Stage,
    total: u64,
) -> Result<Option<String>, AllocError> {
    if let Some(next) = anneal.stage() {
        if next.index == stage.index {
            return Ok(None);
        }
    }
    let accepted = stage
        .accepted
        .saturating_add(anneal.total().saturating_sub(total));
    let line = format!(in alloc;
        "stage {} t {} range {} accepted {accepted} cost {}\n",
        stage.index,
        stage.t,
        stage.range,
        anneal.cost()
    )?;
    Ok(Some(line))
}

/// The most moves that a turn makes, and how many workers judge.
#[derive(Clone, Copy)]
pub(crate) struct Pace {
    pub(crate) batch: u64,
    pub(crate) workers: u64,
}

/// Makes a turn at this pace. Fails if the pace is not one that turns accept.
pub(crate) fn turned<W: Words + Send + Sync + Drop, G: Gate, R: Threads + Wait + Sync>(
    rt: &R,
    anneal: &mut Anneal<'_, W>,
    pace: Pace,
    gate: &G,
) -> Result<Turn, Fail> {
    if pace.batch < 1 || 4096 < pace.batch || pace.workers < 1 || 64 < pace.workers {
        return Err(Fail::from("no pace of turns"));
    }
    Ok(anneal.turn(rt, pace.batch, pace.workers, gate)?)
}

/// Makes turns at this pace. Returns the cost before, a line for each stage that ends, and the state after the turns.
pub(crate) fn told<W: Words + Send + Sync + Drop, R: Threads + Wait + Sync>(
    rt: &R,
    alloc: Global,
    anneal: &mut Anneal<'_, W>,
    pace: Pace,
    turns: u64,
) -> Result<String, Fail> {
    let mut text = format!(in alloc; "cost {}\n", anneal.cost())?;
    let mut turn = Turn::More;
    for _turn in 0..turns {
        let (stage, total) = (anneal.stage(), anneal.total());
        turn = turned(rt, anneal, pace, &NoGate)?;
        if let Some(stage) = stage {
            if let Some(line) = told_stage(alloc, anneal, stage, total)? {
                text.push_str(line.as_str())?;
            }
        }
    }
    text.push_str(format!(in alloc; "{turn:?} ")?.as_str())?;
    text.push_str(told_here(alloc, anneal)?.as_str())?;
    Ok(text)
}

/// A run: two texts, chosen words, a block that is fixed at its site, if any, and a schedule.
#[derive(Clone, Copy)]
struct Case<'a> {
    arch: &'a [u8],
    net: &'a [u8],
    starts: &'a [u32],
    moves: &'a [[u32; 4]],
    fixed: Option<BlockId>,
    schedule: Schedule,
}

/// The same, with the texts read.
#[derive(Drop)]
pub(crate) struct Chosen {
    pub(crate) of: Setting,
    pub(crate) words: ListWords,
    pub(crate) fixed: Option<BlockId>,
    pub(crate) schedule: Schedule,
}

fn read_case(alloc: Global, case: Case<'_>) -> Result<Chosen, Fail> {
    Ok(Chosen {
        of: read_setting(alloc, case.arch, case.net)?,
        words: list_words(alloc, case.starts, case.moves)?,
        fixed: case.fixed,
        schedule: case.schedule,
    })
}

/// Makes turns with chosen words.
fn run_chosen<R: Threads + Wait + Sync>(
    rt: &R,
    alloc: Global,
    case: Chosen,
    pace: Pace,
    turns: u64,
) -> Result<String, Fail> {
    let Chosen {
        of,
        words,
        fixed,
        schedule,
    } = case;
    let mut anneal = annealer(alloc, &of, fixed, schedule, words)?;
    told(rt, alloc, &mut anneal, pace, turns)
}

/// One move a turn, judged by one worker.
pub(crate) const ALONE: Pace = Pace {
    batch: 1,
    workers: 1,
};

/// Only the frozen stage, of `moves` moves.
fn frozen(moves: u64) -> Result<Schedule, SchedFault> {
    Schedule::new(1, 2, 500, moves)
}

const CLOCKED: &[u8] =
    b".global clk\n.input ck\npinlist: clk\n.clb b1\npinlist: clk\n.clb b2\npinlist: clk\n";

/// One move of two blocks whose only net is global, from this first temperature.
fn clocked<R: Threads + Wait + Sync>(rt: &R, alloc: Global, init_t: u64) -> Result<String, Fail> {
    let case = Case {
        arch: b"io_rat 1\ninpin class: 0 global top\n",
        net: CLOCKED,
        starts: &[],
        moves: &[[HALF, HALF, HALF, 0]],
        fixed: None,
        schedule: Schedule::new(init_t, 2, 500, 2)?,
    };
    run_chosen(rt, alloc, read_case(alloc, case)?, ALONE, 1)
}

#[test]
fn a_swap_of_global_nets_costs_nothing(rt: HostRuntime) -> Result<(), Fail> {
    for init_t in [1, 100_000] {
        assert_eq!(rt;
            clocked(&rt, rt.alloc(), init_t)?.as_str(),
            "cost 0\nMore done 1 total 1 cost 0\naccepted 0\nat 0,1,0 2,2,0 1,1,0"
        );
    }
    Ok(())
}

pub(crate) const UNJOINED: &[u8] = b".clb b1\npinlist: x\n.clb b2\npinlist: y\n";

pub(crate) const DISPLACED: &[u8] =
    b".clb b1\npinlist: open x\n.clb b2\npinlist: open n\n.clb b3\npinlist: n open\n";

/// Two moves of which the second rests on what the first touches.
#[derive(Clone, Copy, Debug)]
pub(crate) enum Clash {
    /// Two blocks go to one empty site.
    Site,
    /// They are joined only through the net of the block that the second displaces.
    Net,
}

pub(crate) fn clashing(alloc: Global, clash: Clash) -> Result<Chosen, Fail> {
    let case = match clash {
        Clash::Site => Case {
            arch: b"io_rat 1\noutpin class: 0 top\n",
            net: UNJOINED,
            starts: &[],
            moves: &[[0, HALF, 0, 0], [HALF, HALF, 0, 0]],
            fixed: None,
            schedule: frozen(2)?,
        },
        Clash::Net => Case {
            arch: b"io_rat 1\ninpin class: 0 left\noutpin class: 0 right\n",
            net: DISPLACED,
            starts: &[],
            moves: &[[MOST, HALF, 0, 0], [0, HALF, HALF, 0]],
            fixed: None,
            schedule: frozen(2)?,
        },
    };
    read_case(alloc, case)
}

#[test]
fn the_second_block_at_a_site_takes_it(rt: HostRuntime) -> Result<(), Fail> {
    for (batch, workers) in [(1, 1), (2, 3)] {
        assert_eq!(rt;
            run_chosen(
                &rt,
                rt.alloc(),
                clashing(rt.alloc(), Clash::Site)?,
                Pace { batch, workers },
                3
            )?
            .as_str(),
            "cost 40000\nstage 0 t 0 range 2000 accepted 2 cost 40000\n\
            Finished done 2 total 2 cost 40000\naccepted 0 1\nat 2,2,0 2,1,0"
        );
    }
    Ok(())
}

#[test]
fn a_displaced_block_takes_its_nets_along(rt: HostRuntime) -> Result<(), Fail> {
    for (batch, workers) in [(1, 1), (2, 3)] {
        assert_eq!(rt;
            run_chosen(
                &rt,
                rt.alloc(),
                clashing(rt.alloc(), Clash::Net)?,
                Pace { batch, workers },
                2
            )?
            .as_str(),
            "cost 50000\nstage 0 t 0 range 2000 accepted 2 cost 50000\n\
            Finished done 2 total 2 cost 50000\naccepted 0 1\nat 2,2,0 1,1,0 2,1,0"
        );
    }
    Ok(())
}

pub(crate) const BETWEEN_PADS: &[u8] =
    b".input a\npinlist: n1\n.output z\npinlist: n2\n.clb b\npinlist: n1 n2\n";

/// A block on an array of one site between two pads, one of which is fixed. The words choose the block each time.
pub(crate) fn void_case(alloc: Global, schedule: Schedule) -> Result<Chosen, Fail> {
    let case = Case {
        arch: b"io_rat 1\ninpin class: 0 left\noutpin class: 1 right\n",
        net: BETWEEN_PADS,
        starts: &[0, MOST, 0],
        moves: &[[MOST, HALF, 0, 0]; 36],
        fixed: Some(BlockId(0)),
        schedule,
    };
    read_case(alloc, case)
}

#[test]
fn void_moves_are_counted_and_not_accepted(rt: HostRuntime) -> Result<(), Fail> {
    let schedule = Schedule::new(100_000, 10_000, 500, 3)?;
    for (batch, workers) in [(64, 4), (2, 1)] {
        assert_eq!(rt;
            run_chosen(
                &rt,
                rt.alloc(),
                void_case(rt.alloc(), schedule)?,
                Pace { batch, workers },
                20
            )?
            .as_str(),
            "cost 40000\n\
            stage 0 t 100000 range 1000 accepted 0 cost 40000\n\
            stage 1 t 50000 range 1000 accepted 0 cost 40000\n\
            stage 2 t 25000 range 1000 accepted 0 cost 40000\n\
            stage 3 t 12500 range 1000 accepted 0 cost 40000\n\
            stage 4 t 0 range 1000 accepted 0 cost 40000\n\
            Finished done 15 total 0 cost 40000\naccepted\nat 0,1,0 2,1,0 1,1,0"
        );
    }
    Ok(())
}

#[test]
fn where_nothing_is_accepted_it_cools_in_twelve_stages(rt: HostRuntime) -> Result<(), Fail> {
    let schedule = Schedule::adaptive(100_000, 10_000, 3)?;
    assert_eq!(rt;
        run_chosen(
            &rt,
            rt.alloc(),
            void_case(rt.alloc(), schedule)?,
            Pace {
                batch: 64,
                workers: 4
            },
            20
        )?
        .as_str(),
        "cost 40000\n\
        stage 0 t 100000 range 1000 accepted 0 cost 40000\n\
        stage 1 t 80000 range 1000 accepted 0 cost 40000\n\
        stage 2 t 64000 range 1000 accepted 0 cost 40000\n\
        stage 3 t 51200 range 1000 accepted 0 cost 40000\n\
        stage 4 t 40960 range 1000 accepted 0 cost 40000\n\
        stage 5 t 32768 range 1000 accepted 0 cost 40000\n\
        stage 6 t 26214 range 1000 accepted 0 cost 40000\n\
        stage 7 t 20971 range 1000 accepted 0 cost 40000\n\
        stage 8 t 16776 range 1000 accepted 0 cost 40000\n\
        stage 9 t 13420 range 1000 accepted 0 cost 40000\n\
        stage 10 t 10736 range 1000 accepted 0 cost 40000\n\
        stage 11 t 0 range 1000 accepted 0 cost 40000\n\
        Finished done 36 total 0 cost 40000\naccepted\nat 0,1,0 2,1,0 1,1,0"
    );
    Ok(())
}

/// Two moves where there is no block.
fn without_blocks<R: Threads + Wait + Sync>(rt: &R, alloc: Global) -> Result<String, Fail> {
    let case = Case {
        arch: b"io_rat 1\ninpin class: 0 left\n",
        net: b"",
        starts: &[],
        moves: &[],
        fixed: None,
        schedule: frozen(2)?,
    };
    run_chosen(rt, alloc, read_case(alloc, case)?, ALONE, 3)
}

#[test]
fn without_blocks_nothing_is_proposed(rt: HostRuntime) -> Result<(), Fail> {
    assert_eq!(rt;
        without_blocks(&rt, rt.alloc())?.as_str(),
        "cost 0\nstage 0 t 0 range 1000 accepted 0 cost 0\nFinished done 2 total 0 cost 0\naccepted\nat"
    );
    Ok(())
}

/// One move of the first of two blocks to the first column and the row that the word `row` picks. The second block is on (1, 1), and may
/// be fixed there.
fn located<R: Threads + Wait + Sync>(
    rt: &R,
    alloc: Global,
    fixed: Option<BlockId>,
    row: u32,
) -> Result<String, Fail> {
    let case = Case {
        arch: b"io_rat 1\noutpin class: 0 top\n",
        net: UNJOINED,
        starts: &[HALF / 2, 0],
        moves: &[[0, 0, row, 0]],
        fixed,
        schedule: frozen(2)?,
    };
    run_chosen(rt, alloc, read_case(alloc, case)?, ALONE, 1)
}

#[test]
fn a_fixed_block_is_not_displaced(rt: HostRuntime) -> Result<(), Fail> {
    let rows = [
        (
            Some(BlockId(1)),
            0,
            "cost 40000\nMore done 1 total 0 cost 40000\naccepted\nat 2,1,0 1,1,0",
        ),
        (
            Some(BlockId(1)),
            HALF,
            "cost 40000\nMore done 1 total 1 cost 40000\naccepted 0\nat 1,2,0 1,1,0",
        ),
        (
            None,
            0,
            "cost 40000\nMore done 1 total 1 cost 40000\naccepted 0\nat 1,1,0 2,1,0",
        ),
    ];
    for (fixed, row, wanted) in rows {
        assert_eq!(rt; located(&rt, rt.alloc(), fixed, row)?.as_str(), wanted);
    }
    Ok(())
}

// Twenty blocks, one of them a clock pad. The expected results of their runs were printed by a slow placer in Python that shares no
// code with this one. It sums up every net for each move.
pub(crate) const TWENTY_ARCH: &[u8] =
    b"io_rat 2\ninpin class: 0 left\ninpin class: 0 top\ninpin class: 0 left\noutpin class: 1 right\n";

pub(crate) const TWENTY: &[u8] = b".global ck\n\
    .input i0\npinlist: i0\n\
    .input i1\npinlist: i1\n\
    .input i2\npinlist: i2\n\
    .input i3\npinlist: ck\n\
    .clb b0\npinlist: open n9 ck n0\n\
    .clb b1\npinlist: open n7 ck n1\n\
    .clb b2\npinlist: n11 n2 ck n2\n\
    .clb b3\npinlist: i2 n3 ck n3\n\
    .clb b4\npinlist: open n2 ck n4\n\
    .clb b5\npinlist: n6 n0 ck n5\n\
    .clb b6\npinlist: n7 open ck n6\n\
    .clb b7\npinlist: n3 n5 ck n7\n\
    .clb b8\npinlist: open i1 ck n8\n\
    .clb b9\npinlist: n0 i1 ck n9\n\
    .clb b10\npinlist: n1 n1 ck n10\n\
    .clb b11\npinlist: n1 i1 ck n11\n\
    .output o0\npinlist: n0\n\
    .output o1\npinlist: n4\n\
    .output o2\npinlist: n11\n\
    .output o3\npinlist: n3\n";

const ONE_COOLED_BY_A_FACTOR: &str = "cost 812356\n\
    stage 0 t 30000 range 4000 accepted 28 cost 677388\n\
    stage 1 t 12000 range 4000 accepted 24 cost 628216\n\
    stage 2 t 4800 range 4000 accepted 12 cost 576560\n\
    stage 3 t 0 range 3440 accepted 15 cost 566560\n\
    Finished done 160 total 79 cost 566560\n\
    accepted 0 1 2 4 5 6 7 8 10 11 14 15 16 18 19 20 22 23 24 25 27 29 30 32 34 35 36 38 40 42 43 45 \
    47 48 49 51 53 57 60 61 63 64 65 67 68 69 70 71 72 75 76 78 80 82 85 87 92 95 96 112 115 116 118 \
    119 121 123 124 127 128 130 134 138 139 140 141 143 148 151 159\n\
    at 5,4,1 5,2,1 1,5,0 4,5,0 4,3,0 2,3,0 2,1,0 1,4,0 1,1,0 3,2,0 3,3,0 1,2,0 3,1,0 4,4,0 2,4,0 \
    3,4,0 5,2,0 0,2,1 2,5,1 0,1,0";

const ONE_COOLED_BY_ACCEPTANCE: &str = "cost 812356\n\
    stage 0 t 4000 range 4000 accepted 11 cost 742356\n\
    stage 1 t 3800 range 4000 accepted 11 cost 618216\n\
    stage 2 t 3610 range 4000 accepted 8 cost 618216\n\
    stage 3 t 3429 range 3840 accepted 10 cost 597388\n\
    stage 4 t 3257 range 4000 accepted 9 cost 554904\n\
    stage 5 t 3094 range 4000 accepted 2 cost 554904\n\
    stage 6 t 2939 range 2640 accepted 7 cost 554904\n\
    stage 7 t 2792 range 2402 accepted 7 cost 544904\n\
    stage 8 t 2652 range 2185 accepted 6 cost 544904\n\
    stage 9 t 2519 range 1879 accepted 3 cost 545732\n\
    stage 10 t 0 range 1334 accepted 10 cost 524076\n\
    Finished done 220 total 84 cost 524076\n\
    accepted 0 1 4 5 6 7 10 13 14 15 19 23 24 25 27 28 29 30 32 34 35 38 40 43 45 48 49 51 53 58 60 \
    63 64 65 67 71 75 76 77 78 80 82 85 87 92 93 95 96 98 112 116 121 124 127 128 130 134 139 140 \
    141 143 148 149 153 155 162 165 168 176 177 178 187 194 196 200 205 206 207 208 211 212 215 216 \
    219\n\
    at 5,1,0 5,2,1 1,0,1 3,5,0 4,4,0 2,3,0 1,3,0 1,1,0 1,2,0 4,3,0 3,3,0 2,2,0 3,2,0 4,2,0 2,4,0 \
    3,4,0 5,4,0 0,2,1 1,5,0 0,1,1";

const TWO_COOLED_BY_A_FACTOR: &str = "cost 771528\n\
    stage 0 t 30000 range 4000 accepted 28 cost 678216\n\
    stage 1 t 12000 range 4000 accepted 26 cost 619872\n\
    stage 2 t 4800 range 4000 accepted 9 cost 594904\n\
    stage 3 t 0 range 3140 accepted 9 cost 564904\n\
    Finished done 160 total 72 cost 564904\n\
    accepted 0 1 2 3 4 5 7 8 9 10 11 15 16 17 18 19 21 23 25 27 29 32 33 34 35 37 38 39 40 41 42 43 \
    44 46 47 48 49 52 53 55 56 57 58 61 64 65 69 71 73 74 76 77 78 79 80 82 85 90 97 108 110 117 118 \
    120 121 123 124 132 134 139 142 159\n\
    at 4,0,0 2,5,0 1,0,0 5,1,1 4,2,0 2,3,0 3,2,0 1,2,0 3,1,0 3,3,0 4,4,0 1,4,0 3,4,0 4,3,0 2,1,0 \
    2,4,0 5,2,1 3,0,1 3,5,1 0,2,0";

const TWO_COOLED_BY_ACCEPTANCE: &str = "cost 771528\n\
    stage 0 t 4000 range 4000 accepted 11 cost 627388\n\
    stage 1 t 3800 range 4000 accepted 7 cost 586560\n\
    stage 2 t 3610 range 3640 accepted 12 cost 555732\n\
    stage 3 t 3429 range 4000 accepted 7 cost 555732\n\
    stage 4 t 3257 range 3640 accepted 5 cost 554904\n\
    stage 5 t 3094 range 2948 accepted 4 cost 554904\n\
    stage 6 t 2939 range 2240 accepted 11 cost 534904\n\
    stage 7 t 2792 range 2486 accepted 5 cost 555732\n\
    stage 8 t 2652 range 2013 accepted 8 cost 524076\n\
    stage 9 t 2519 range 1932 accepted 7 cost 534904\n\
    stage 10 t 0 range 1758 accepted 4 cost 524904\n\
    Finished done 220 total 81 cost 524904\n\
    accepted 0 2 4 5 7 8 9 10 16 17 19 23 25 27 33 34 37 39 40 41 42 43 44 46 47 48 49 56 58 59 64 \
    65 69 71 73 76 79 84 85 90 92 94 103 108 113 117 120 121 123 124 125 128 129 130 131 132 136 142 \
    144 148 153 156 161 165 166 169 170 174 176 179 180 181 186 189 190 195 196 207 208 211 213\n\
    at 5,1,1 5,2,1 0,2,1 5,3,1 2,3,0 4,4,0 3,2,0 1,3,0 4,2,0 2,4,0 3,4,0 1,4,0 3,1,0 2,2,0 3,3,0 \
    4,3,0 3,5,0 5,1,0 5,2,0 0,3,1";

const LARGE_COOLED_BY_A_FACTOR: &str = "cost 722356\n\
    stage 0 t 30000 range 4000 accepted 30 cost 630700\n\
    stage 1 t 12000 range 4000 accepted 20 cost 629044\n\
    stage 2 t 4800 range 4000 accepted 18 cost 544904\n\
    stage 3 t 0 range 4000 accepted 7 cost 534904\n\
    Finished done 160 total 75 cost 534904\n\
    accepted 2 3 4 5 6 7 8 9 11 12 13 14 15 16 17 18 19 21 22 23 25 26 27 28 29 30 31 32 34 36 42 43 \
    44 47 48 52 54 56 57 59 60 64 65 66 68 70 71 73 78 79 80 81 83 85 86 88 91 92 96 99 100 103 104 \
    105 106 108 109 117 121 129 132 146 147 154 158\n\
    at 3,5,0 4,5,0 5,1,0 0,2,0 4,1,0 3,3,0 2,2,0 2,1,0 1,2,0 3,2,0 3,4,0 3,1,0 1,4,0 4,2,0 2,4,0 \
    2,3,0 5,2,0 0,2,1 2,5,1 3,0,1";

const LARGE_COOLED_BY_ACCEPTANCE: &str = "cost 722356\n\
    stage 0 t 4000 range 4000 accepted 13 cost 608216\n\
    stage 1 t 3800 range 4000 accepted 8 cost 568216\n\
    stage 2 t 3610 range 3840 accepted 6 cost 568216\n\
    stage 3 t 3429 range 3302 accepted 4 cost 576560\n\
    stage 4 t 3257 range 2509 accepted 9 cost 513248\n\
    stage 5 t 3094 range 2534 accepted 8 cost 514076\n\
    stage 6 t 2939 range 2432 accepted 4 cost 514076\n\
    stage 7 t 2792 range 1848 accepted 5 cost 514076\n\
    stage 8 t 2652 range 1496 accepted 6 cost 514076\n\
    stage 9 t 2519 range 1286 accepted 7 cost 524076\n\
    stage 10 t 0 range 1170 accepted 4 cost 524076\n\
    Finished done 220 total 74 cost 524076\n\
    accepted 3 4 5 6 7 8 9 11 13 14 17 18 19 25 28 29 30 32 33 34 37 47 52 53 54 56 59 60 66 68 79 \
    80 82 83 84 86 88 91 92 94 100 101 103 104 106 108 109 115 121 124 130 132 143 147 152 156 158 \
    164 165 169 172 175 176 180 188 190 193 194 196 199 203 206 211 219\n\
    at 0,2,0 1,5,0 5,2,1 0,4,1 2,3,0 3,2,0 2,2,0 4,1,0 1,2,0 4,3,0 4,4,0 4,2,0 1,4,0 2,4,0 3,1,0 \
    3,3,0 3,5,0 0,3,1 5,3,1 4,0,0";

/// The whole run of the twenty blocks, with the words of a seed.
fn twenty<R: Threads + Wait + Sync>(
    rt: &R,
    alloc: Global,
    schedule: Schedule,
    seed: u64,
    pace: Pace,
) -> Result<String, Fail> {
    let of = read_setting(alloc, TWENTY_ARCH, TWENTY)?;
    let mut anneal = annealer(alloc, &of, None, schedule, StreamWords::new(seed))?;
    told(rt, alloc, &mut anneal, pace, 200)
}

pub(crate) fn by_a_factor() -> Result<Schedule, SchedFault> {
    Schedule::new(30_000, 3_000, 400, 40)
}

pub(crate) fn by_acceptance() -> Result<Schedule, SchedFault> {
    Schedule::adaptive(4_000, 2_500, 20)
}

#[test]
fn runs_by_a_factor_are_those_of_the_reference(rt: HostRuntime) -> Result<(), Fail> {
    let schedule = by_a_factor()?;
    let rows = [
        (1, ONE_COOLED_BY_A_FACTOR),
        (2, TWO_COOLED_BY_A_FACTOR),
        (0x1234_5678_9ABC_DEF0, LARGE_COOLED_BY_A_FACTOR),
    ];
    for (seed, wanted) in rows {
        assert_eq!(rt;
            twenty(
                &rt,
                rt.alloc(),
                schedule,
                seed,
                Pace {
                    batch: 64,
                    workers: 4
                }
            )?
            .as_str(),
            wanted
        );
    }
    Ok(())
}

#[test]
fn runs_by_acceptance_are_those_of_the_reference(rt: HostRuntime) -> Result<(), Fail> {
    let schedule = by_acceptance()?;
    let rows = [
        (1, ONE_COOLED_BY_ACCEPTANCE),
        (2, TWO_COOLED_BY_ACCEPTANCE),
        (0x1234_5678_9ABC_DEF0, LARGE_COOLED_BY_ACCEPTANCE),
    ];
    for (seed, wanted) in rows {
        assert_eq!(rt;
            twenty(
                &rt,
                rt.alloc(),
                schedule,
                seed,
                Pace {
                    batch: 64,
                    workers: 4
                }
            )?
            .as_str(),
            wanted
        );
    }
    Ok(())
}

#[test]
fn the_batch_and_the_workers_change_nothing(rt: HostRuntime) -> Result<(), Fail> {
    let schedule = by_a_factor()?;
    for (batch, workers) in [(1, 1), (7, 3)] {
        assert_eq!(rt;
            twenty(&rt, rt.alloc(), schedule, 1, Pace { batch, workers })?.as_str(),
            ONE_COOLED_BY_A_FACTOR
        );
    }
    Ok(())
}
