ghost use Rattle.std.specs.Prelude.{◌≡◌, IfOk};

use crate::tests::{
    ALONE, BETWEEN_PADS, Pace, Setting, TWENTY, TWENTY_ARCH, by_a_factor, by_acceptance,
    list_words, put_sites, read_setting, started, told,
};
use crate::{Anneal, Point};
use fab_board::NoGate;
use fab_move::StreamWords;
use fab_net::BlockId;
use fab_sched::Schedule;
use fab_site::{Fixed, ListWords, Placement, Words, is_legal};
use std::alloc::{AllocError, Global};
use std::sync::Wait;
use std::test::*;
use std::thread::Threads;

/// These blocks fixed at their sites.
fn fixed_there(
    alloc: Global,
    placement: &Placement,
    blocks: &[BlockId],
) -> Result<Fixed, AllocError> {
    let mut fixed = Fixed::none(alloc);
    for block in blocks {
        if (block.0 as usize) < placement.blocks() && fixed.site_of(*block).is_none() {
            fixed.fix(*block, placement.site_of(*block))?;
        }
    }
    Ok(fixed)
}

/// An annealer at the start placement, with these blocks fixed at their sites.
fn begun<'a, W: Words + Drop>(
    alloc: Global,
    of: &'a Setting,
    blocks: &[BlockId],
    schedule: Schedule,
    words: W,
) -> Result<Anneal<'a, W>, Fail>
    ensures { IfOk result (λ a. (a.design ≡ of.now.design) × (a.grid ≡ of.now.grid)) }
{
    let placement = started(alloc, of, &words)?;
    let fixed = fixed_there(alloc, &placement, blocks)?;
    if !is_legal(&of.design, &of.grid, &fixed, &placement) {
        return Err(Fail::from("the start placement is not legal"));
    }
    Ok(Anneal::new(
        alloc, &of.design, &of.grid, placement, fixed, schedule, words,
    )?)
}

/// Makes turns at this pace. Fails if the pace is not one that turns accept.
fn turned_often<W: Words + Send + Sync + Drop, R: Threads + Wait + Sync>(
    rt: &R,
    anneal: &mut Anneal<'_, W>,
    pace: Pace,
    turns: u64,
) -> Result<(), Fail>
    ensures design { anneal.new.design ≡ anneal.old.design }
    ensures grid { anneal.new.grid ≡ anneal.old.grid }
{
    if pace.batch < 1 || 4096 < pace.batch || pace.workers < 1 || 64 < pace.workers {
        return Err(Fail::from("no pace of turns"));
    }
    'turns: for _turn in 0..turns {
        anneal.turn(rt, pace.batch, pace.workers, &NoGate)?;
    }
    Ok(())
}

/// An annealer that goes on from the snapshot of another, if moves are left.
fn gone_on<'a, W: Words + Drop>(
    alloc: Global,
    of: &'a Setting,
    anneal: &Anneal<'_, W>,
    words: W,
) -> Result<Option<Anneal<'a, W>>, Fail>
    requires design { anneal.now.design ≡ of.now.design }
    requires grid { anneal.now.grid ≡ of.now.grid }
{
    match anneal.point()? {
        Some(point) => Ok(Some(Anneal::from_point(alloc, &of.design, &of.grid, point, words)?)),
        None => Ok(None),
    }
}

/// Adds the fixed blocks and their sites to a text.
fn put_fixed(alloc: Global, text: &mut String, point: &Point) -> Result<(), AllocError> {
    for block in 0..point.placement.blocks().min(65_535) {
        if let Some(site) = point.fixed.site_of(BlockId(block as u32)) {
            text.push_str(format!(in alloc;
                " {block} at {},{},{}",
                site.x, site.y, site.sub
            )?.as_str())?;
        }
    }
    Ok(())
}

/// Everything that a point says.
fn told_point(alloc: Global, point: &Point) -> Result<String, AllocError> {
    let mut text = format!(in alloc;
        "schedule {} {} {:?} {}\nstage {} t {} range {} done {} accepted {} frozen {}\ntotal {}\nfixed",
        point.schedule.init_t(),
        point.schedule.exit_t(),
        point.schedule.cooling(),
        point.schedule.moves(),
        point.stage.index,
        point.stage.t,
        point.stage.range,
        point.stage.done,
        point.stage.accepted,
        point.stage.frozen,
        point.total
    )?;
    put_fixed(alloc, &mut text, point)?;
    text.push_str("\nat")?;
    put_sites(alloc, &mut text, &point.placement)?;
    Ok(text)
}

/// The point of an annealer, or "no point".
fn told_standing<W: Words + Drop>(
    alloc: Global,
    anneal: &Anneal<'_, W>,
) -> Result<String, AllocError> {
    match anneal.point()? {
        Some(point) => told_point(alloc, &point),
        None => String::from_str(alloc, "no point"),
    }
}

/// What an annealer accepted, and its point.
fn told_so_far<W: Words + Drop>(
    alloc: Global,
    anneal: &Anneal<'_, W>,
) -> Result<String, AllocError> {
    let mut text = String::from_str(alloc, "accepted")?;
    for number in anneal.accepted() {
        text.push_str(format!(in alloc; " {number}")?.as_str())?;
    }
    text.push_str("\n")?;
    text.push_str(told_standing(alloc, anneal)?.as_str())?;
    Ok(text)
}

/// A part of a run: `turns` turns at this pace.
#[derive(Clone, Copy)]
struct Part {
    pace: Pace,
    turns: u64,
}

/// The first part, the point after it, the point of the annealer that goes on from it, and the second part.
fn in_two_parts<'a, W: Words + Send + Sync + Drop, R: Threads + Wait + Sync>(
    rt: &R,
    alloc: Global,
    of: &'a Setting,
    anneal: &mut Anneal<'a, W>,
    words: W,
    parts: (Part, Part),
) -> Result<String, Fail>
    requires design { anneal.old.design ≡ of.now.design }
    requires grid { anneal.old.grid ≡ of.now.grid }
{
    turned_often(rt, anneal, parts.0.pace, parts.0.turns)?;
    let mut text = told_so_far(alloc, anneal)?;
    text.push_str("\n")?;
    if let Some(later) = gone_on(alloc, of, anneal, words)? {
        let mut later = later;
        text.push_str(told_so_far(alloc, &later)?.as_str())?;
        text.push_str("\n")?;
        text.push_str(told(rt, alloc, &mut later, parts.1.pace, parts.1.turns)?.as_str())?;
    }
    Ok(text)
}

const HALF: u32 = 2_147_483_648;

const MOST: u32 = 4_294_967_295;

/// Words that propose the block's own site each time.
fn small_words(alloc: Global) -> Result<ListWords, AllocError> {
    list_words(alloc, &[0, MOST, 0], &[[MOST, HALF, 0, 0]; 36])
}

/// A block on an array of one site between two fixed pads, so that no move is possible.
fn small<R: Threads + Wait + Sync>(
    rt: &R,
    alloc: Global,
    parts: (Part, Part),
) -> Result<String, Fail> {
    let of = read_setting(
        alloc,
        b"io_rat 1\ninpin class: 0 left\noutpin class: 1 right\n",
        BETWEEN_PADS,
    )?;
    let schedule = Schedule::new(100_000, 10_000, 500, 3)?;
    let words = small_words(alloc)?;
    let mut anneal = begun(alloc, &of, &[BlockId(0), BlockId(1)], schedule, words)?;
    in_two_parts(rt, alloc, &of, &mut anneal, small_words(alloc)?, parts)
}

const LATER: Part = Part {
    pace: Pace {
        batch: 64,
        workers: 4,
    },
    turns: 200,
};

const SMALL_POINT: &str = "schedule 100000 10000 Factor(500) 3\n\
    stage 1 t 50000 range 1000 done 2 accepted 0 frozen false\n\
    total 0\n\
    fixed 0 at 0,1,0 1 at 2,1,0\n\
    at 0,1,0 2,1,0 1,1,0\n";

const SMALL_REST: &str = "cost 40000\n\
    stage 1 t 50000 range 1000 accepted 0 cost 40000\n\
    stage 2 t 25000 range 1000 accepted 0 cost 40000\n\
    stage 3 t 12500 range 1000 accepted 0 cost 40000\n\
    stage 4 t 0 range 1000 accepted 0 cost 40000\n\
    Finished done 15 total 0 cost 40000\naccepted\nat 0,1,0 2,1,0 1,1,0";

#[test]
fn a_point_is_in_the_midst_of_a_stage(rt: HostRuntime) -> Result<(), Fail> {
    let first = Part {
        pace: ALONE,
        turns: 5,
    };
    let wanted = format!(in rt.alloc();
        "accepted\n{}accepted\n{}{}",
        SMALL_POINT, SMALL_POINT, SMALL_REST
    )?;
    assert_eq!(rt;
        small(&rt, rt.alloc(), (first, LATER))?.as_str(),
        wanted.as_str()
    );
    Ok(())
}

const FROZEN_POINT: &str = "schedule 100000 10000 Factor(500) 3\n\
    stage 4 t 0 range 1000 done 0 accepted 0 frozen true\n\
    total 0\n\
    fixed 0 at 0,1,0 1 at 2,1,0\n\
    at 0,1,0 2,1,0 1,1,0\n";

const FROZEN_REST: &str = "cost 40000\n\
    stage 4 t 0 range 1000 accepted 0 cost 40000\n\
    Finished done 15 total 0 cost 40000\naccepted\nat 0,1,0 2,1,0 1,1,0";

#[test]
fn the_point_at_the_end_of_a_stage_begins_the_next(rt: HostRuntime) -> Result<(), Fail> {
    let first = Part {
        pace: Pace {
            batch: 64,
            workers: 2,
        },
        turns: 4,
    };
    let wanted = format!(in rt.alloc();
        "accepted\n{}accepted\n{}{}",
        FROZEN_POINT, FROZEN_POINT, FROZEN_REST
    )?;
    assert_eq!(rt;
        small(&rt, rt.alloc(), (first, LATER))?.as_str(),
        wanted.as_str()
    );
    Ok(())
}

#[test]
fn a_finished_run_has_no_point(rt: HostRuntime) -> Result<(), Fail> {
    assert_eq!(rt;
        small(&rt, rt.alloc(), (LATER, LATER))?.as_str(),
        "accepted\nno point\n"
    );
    Ok(())
}

// Twenty blocks, with moves of the point's stage accepted before the point: without their number the next stage would have another
// range or temperature. The expected results were printed by a slow placer in Python that shares no code with this one. It stopped
// after 60 moves in the run by a factor and after 90 in the run by acceptance, wrote its point down, and went on from that.
const ACCEPTED_BEFORE_BY_A_FACTOR: &str =
    "accepted 0 1 2 4 5 6 7 8 10 11 14 15 16 18 19 20 22 23 24 25 27 29 30 32 34 35 36 38 40 42 43 45 \
    47 48 49 51 53 57\n";

const POINT_BY_A_FACTOR: &str = "schedule 30000 3000 Factor(400) 40\n\
    stage 1 t 12000 range 4000 done 20 accepted 10 frozen false\n\
    total 38\n\
    fixed\n\
    at 0,3,0 4,5,0 3,0,0 0,1,0 4,3,0 2,4,0 1,4,0 3,3,0 1,1,0 3,1,0 4,1,0 2,3,0 1,3,0 3,2,0 3,4,0 \
    4,4,0 5,4,1 2,0,0 5,1,0 5,3,1\n";

const REST_BY_A_FACTOR: &str = "cost 677388\n\
    stage 1 t 12000 range 4000 accepted 24 cost 628216\n\
    stage 2 t 4800 range 4000 accepted 12 cost 576560\n\
    stage 3 t 0 range 3440 accepted 15 cost 566560\n\
    Finished done 160 total 79 cost 566560\n\
    accepted 60 61 63 64 65 67 68 69 70 71 72 75 76 78 80 82 85 87 92 95 96 112 115 116 118 119 121 \
    123 124 127 128 130 134 138 139 140 141 143 148 151 159\n\
    at 5,4,1 5,2,1 1,5,0 4,5,0 4,3,0 2,3,0 2,1,0 1,4,0 1,1,0 3,2,0 3,3,0 1,2,0 3,1,0 4,4,0 2,4,0 \
    3,4,0 5,2,0 0,2,1 2,5,1 0,1,0";

const ACCEPTED_BEFORE_BY_ACCEPTANCE: &str =
    "accepted 0 1 4 5 6 7 10 13 14 15 19 23 24 25 27 28 29 30 32 34 35 38 40 43 45 48 49 51 53 58 60 \
    63 64 65 67 71 75 76 77 78 80 82 85 87\n";

const POINT_BY_ACCEPTANCE: &str = "schedule 4000 2500 Adaptive 20\n\
    stage 4 t 3257 range 4000 done 10 accepted 4 frozen false\n\
    total 44\n\
    fixed\n\
    at 5,3,0 1,5,0 0,3,1 2,0,1 4,3,0 1,3,0 1,4,0 1,2,0 1,1,0 3,2,0 3,3,0 2,3,0 4,2,0 4,4,0 2,4,0 \
    3,4,0 5,4,1 0,1,1 4,5,0 0,2,0\n";

const REST_BY_ACCEPTANCE: &str = "cost 577388\n\
    stage 4 t 3257 range 4000 accepted 9 cost 554904\n\
    stage 5 t 3094 range 4000 accepted 2 cost 554904\n\
    stage 6 t 2939 range 2640 accepted 7 cost 554904\n\
    stage 7 t 2792 range 2402 accepted 7 cost 544904\n\
    stage 8 t 2652 range 2185 accepted 6 cost 544904\n\
    stage 9 t 2519 range 1879 accepted 3 cost 545732\n\
    stage 10 t 0 range 1334 accepted 10 cost 524076\n\
    Finished done 220 total 84 cost 524076\n\
    accepted 92 93 95 96 98 112 116 121 124 127 128 130 134 139 140 141 143 148 149 153 155 162 165 \
    168 176 177 178 187 194 196 200 205 206 207 208 211 212 215 216 219\n\
    at 5,1,0 5,2,1 1,0,1 3,5,0 4,4,0 2,3,0 1,3,0 1,1,0 1,2,0 4,3,0 3,3,0 2,2,0 3,2,0 4,2,0 2,4,0 \
    3,4,0 5,4,0 0,2,1 1,5,0 0,1,1";

/// Twenty blocks with the words of seed 1, in two parts.
fn twenty<R: Threads + Wait + Sync>(
    rt: &R,
    alloc: Global,
    schedule: Schedule,
    parts: (Part, Part),
) -> Result<String, Fail> {
    let of = read_setting(alloc, TWENTY_ARCH, TWENTY)?;
    let mut anneal = begun(alloc, &of, &[], schedule, StreamWords::new(1))?;
    in_two_parts(rt, alloc, &of, &mut anneal, StreamWords::new(1), parts)
}

#[test]
fn a_run_by_a_factor_goes_on_from_its_point(rt: HostRuntime) -> Result<(), Fail> {
    let first = Part {
        pace: Pace {
            batch: 20,
            workers: 3,
        },
        turns: 3,
    };
    let wanted = format!(in rt.alloc();
        "{}{}accepted\n{}{}",
        ACCEPTED_BEFORE_BY_A_FACTOR, POINT_BY_A_FACTOR, POINT_BY_A_FACTOR, REST_BY_A_FACTOR
    )?;
    assert_eq!(rt;
        twenty(&rt, rt.alloc(), by_a_factor()?, (first, LATER))?.as_str(),
        wanted.as_str()
    );
    Ok(())
}

#[test]
fn a_run_by_acceptance_goes_on_from_its_point(rt: HostRuntime) -> Result<(), Fail> {
    let first = Part {
        pace: Pace {
            batch: 10,
            workers: 4,
        },
        turns: 9,
    };
    let later = Part {
        pace: Pace {
            batch: 7,
            workers: 1,
        },
        turns: 200,
    };
    let wanted = format!(in rt.alloc();
        "{}{}accepted\n{}{}",
        ACCEPTED_BEFORE_BY_ACCEPTANCE, POINT_BY_ACCEPTANCE, POINT_BY_ACCEPTANCE, REST_BY_ACCEPTANCE
    )?;
    assert_eq!(rt;
        twenty(&rt, rt.alloc(), by_acceptance()?, (first, later))?.as_str(),
        wanted.as_str()
    );
    Ok(())
}
