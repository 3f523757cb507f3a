use crate::tests::{Setting, list_words, put_sites, read_setting, started};
use crate::world_tables::{ROWS, Row};
use crate::{Event, Way, World};
use fab_move::StreamWords;
use fab_sched::{SchedFault, Schedule};
use fab_site::{Fixed, Words, is_legal};
use std::alloc::{AllocError, Global};
use std::test::*;

const HALF: u32 = 2_147_483_648;

/// A world at the start placement, where no block is fixed.
fn world_of<'a, W: Words + Drop>(
    alloc: Global,
    of: &'a Setting,
    schedule: Schedule,
    words: W,
) -> Result<World<'a, W>, Fail> {
    let placement = started(alloc, of, &words)?;
    let fixed = Fixed::none(alloc);
    if !is_legal(&of.design, &of.grid, &fixed, &placement) {
        return Err(Fail::from("the start placement is not legal"));
    }
    Ok(World::new(
        alloc, &of.design, &of.grid, placement, fixed, schedule, words,
    )?)
}

/// The event of a letter and a worker.
fn event_of(letter: u8, worker: u64) -> Event {
    match letter {
        b'C' => Event::Claim(worker),
        b'J' => Event::Judge(worker),
        _ => Event::Lose(worker),
    }
}

/// Applies these events: a letter and the digit of a worker for a claim, a judgement and a loss, + for a commit, = for a refresh.
fn happen<W: Words + Drop>(world: &mut World<'_, W>, events: &[u8]) -> Result<(), AllocError> {
    let mut letter = 0;
    for byte in events {
        match *byte {
            b'+' => world.step(Event::Commit)?,
            b'=' => world.step(Event::Refresh)?,
            b'0'..=b'9' => world.step(event_of(letter, u64::from(*byte - b'0')))?,
            other => letter = other,
        }
    }
    Ok(())
}

/// The first letters of the ways, the accepted moves, and the sites of the blocks.
fn told<W: Words + Drop>(alloc: Global, world: &World<'_, W>) -> Result<String, AllocError> {
    let mut text = String::new(alloc);
    for number in 0..world.done().min(1000) {
        text.push_str(match world.committed(number) {
            Some(Way::Taken) => "T",
            Some(Way::Redone) => "R",
            Some(Way::Late) => "L",
            None => "?",
        })?;
    }
    text.push_str(format!(in alloc; " total {} at", world.total())?.as_str())?;
    put_sites(alloc, &mut text, world.placement())?;
    Ok(text)
}

/// What is told after all these events.
fn told_after<W: Words + Drop>(
    alloc: Global,
    world: &mut World<'_, W>,
    events: &[u8],
) -> Result<String, Fail> {
    happen(world, events)?;
    Ok(told(alloc, world)?)
}

/// Two blocks without a common net, both sent to one empty site in a frozen stage of two moves.
fn two_blocks(alloc: Global, events: &[u8]) -> Result<String, Fail> {
    let schedule = Schedule::new(1, 2, 500, 2)?;
    let words = list_words(alloc, &[], &[[0, HALF, 0, 0], [HALF, HALF, 0, 0]])?;
    let of = read_setting(
        alloc,
        b"io_rat 1\noutpin class: 0 top\n",
        b".clb b1\npinlist: x\n.clb b2\npinlist: y\n",
    )?;
    let mut world = world_of(alloc, &of, schedule, words)?;
    told_after(alloc, &mut world, events)
}

#[test]
fn the_ways_of_two_moves_to_one_site(rt: HostRuntime) -> Result<(), Fail> {
    let rows: [(&[u8], &str); 9] = [
        (b"", " total 0 at 1,1,0 2,2,0"),
        (b"C0C1J0J1++", "TR total 2 at 2,2,0 2,1,0"),
        (b"C0J0+=C0J0+", "TT total 2 at 2,2,0 2,1,0"),
        (b"C0J0L0++", "LL total 2 at 2,2,0 2,1,0"),
        (b"C0C1+J0J1+", "LR total 2 at 2,2,0 2,1,0"),
        (b"C0C1J0J1+++J7=", "TR total 2 at 2,2,0 2,1,0"),
        (b"C0J0C0J0L0++", "TL total 2 at 2,2,0 2,1,0"),
        (b"C0L0C1J1++", "TL total 2 at 2,2,0 2,1,0"),
        (b"C0C0C1J1++", "LR total 2 at 2,2,0 2,1,0"),
    ];
    for (events, wanted) in rows {
        assert_eq!(rt; two_blocks(rt.alloc(), events)?.as_str(), wanted);
    }
    Ok(())
}

pub(crate) fn schedule_of(row: &Row) -> Result<Schedule, SchedFault> {
    if row.alpha == 0 {
        Schedule::adaptive(row.init_t, 3_000, row.moves)
    } else {
        Schedule::new(row.init_t, 3_000, row.alpha, row.moves)
    }
}

pub(crate) const ARCH: &[u8] =
    b"io_rat 2\ninpin class: 0 left\ninpin class: 0 top\noutpin class: 1 right\n";

/// What is told after the events of a row.
fn outcome(alloc: Global, row: &Row) -> Result<String, Fail> {
    let schedule = schedule_of(row)?;
    let of = read_setting(alloc, ARCH, row.net)?;
    let mut world = world_of(alloc, &of, schedule, StreamWords::new(row.seed))?;
    told_after(alloc, &mut world, row.events)
}

/// The seed of the first row whose result differs from the reference.
fn first_other(alloc: Global) -> Result<Option<u64>, Fail> {
    for row in &ROWS {
        if outcome(alloc, row)?.as_str() != row.wanted {
            return Ok(Some(row.seed));
        }
    }
    Ok(None)
}

#[test]
fn the_ways_are_those_of_the_reference(rt: HostRuntime) -> Result<(), Fail> {
    assert_eq!(rt; first_other(rt.alloc())?, None);
    Ok(())
}
