ghost use Rattle.std.specs.Prelude.{◌≡◌, IfOk};

use crate::tests::{Pace, annealer, read_setting};
use crate::turn_tests::{EIGHT, eight};
use crate::world_tests::ARCH;
use crate::{Anneal, Turn};
use fab_board::NoGate;
use fab_dial::{Dial, Reading, Shower, Watcher};
use fab_move::StreamWords;
use fab_site::Words;
use std::alloc::Global;
use std::sync::Wait;
use std::test::*;
use std::thread::Threads;

/// Adds a reading to a text.
fn put_reading(alloc: Global, text: &mut String, reading: Reading) -> Result<(), Fail> {
    let Reading {
        moves,
        accepted,
        cost,
    } = reading;
    text.push_str(format!(in alloc; " {moves},{accepted},{cost}")?.as_str())?;
    Ok(())
}

/// Makes a shown turn at this pace. Fails if the pace is not one that turns accept.
fn shown_turn<W: Words + Send + Sync + Drop, R: Threads + Wait + Sync>(
    rt: &R,
    anneal: &mut Anneal<'_, W>,
    pace: Pace,
    dial: &Dial,
    shower: &mut Shower,
) -> Result<Turn, Fail>
    requires { shower.old.dial ≡ dial.now }
    ensures { shower.new.dial ≡ shower.old.dial }
{
    if pace.batch < 1 || 4096 < pace.batch || pace.workers < 1 || 64 < pace.workers {
        return Err(Fail::from("no pace of turns"));
    }
    Ok(anneal.turn_shown(rt, pace.batch, pace.workers, &NoGate, dial, shower)?)
}

/// Makes the turns of a run. Returns the shower, and what the watcher reads before each turn.
fn put_readings<W: Words + Send + Sync + Drop, R: Threads + Wait + Sync>(
    rt: &R,
    alloc: Global,
    anneal: &mut Anneal<'_, W>,
    pace: Pace,
    dial: &Dial,
    ends: (Shower, Watcher),
) -> Result<(Shower, String), Fail>
    requires shower { ends.0.dial ≡ dial.now }
    requires watcher { ends.1.dial ≡ dial.now }
    ensures { IfOk result (λ r. r.0.dial ≡ dial.now) }
{
    let (mut shower, mut watcher) = ends;
    let mut text = String::new(alloc);
    for _turn in 0..1000u64 {
        let reading = dial.read(rt, &mut watcher);
        put_reading(alloc, &mut text, reading)?;
        let turn = shown_turn(rt, anneal, pace, dial, &mut shower)?;
        if turn == Turn::Finished {
            break;
        }
    }
    Ok((shower, text))
}

/// What a watcher reads before each turn of a run, and what is gathered at its end.
fn readings<W: Words + Send + Sync + Drop, R: Threads + Wait + Sync>(
    rt: &R,
    alloc: Global,
    anneal: &mut Anneal<'_, W>,
    pace: Pace,
) -> Result<String, Fail> {
    let first = Reading {
        moves: 7,
        accepted: 7,
        cost: 7,
    };
    let (dial, shower, mut watchers) = Dial::new(rt, alloc, 1, first)?;
    let Some(watcher) = watchers.pop() else {
        return Err(Fail::from("no watcher"));
    };
    let (shower, mut text) = put_readings(rt, alloc, anneal, pace, &dial, (shower, watcher))?;
    put_reading(alloc, &mut text, dial.gather(rt, shower, watchers))?;
    Ok(text)
}

// From the slow placer in Python, through tests/tables/turns.py. The first reading is the one that the dial was made with.
const EIGHT_READINGS: &str =
    " 7,7,7 64,46,399336 100,75,434184 164,110,412528 200,124,361700 264,142,339336 300,152,350872 \
    364,166,339336 400,173,340872 464,193,339336 500,205,339336";

/// The same for the eight blocks.
fn eight_readings<R: Threads + Wait + Sync>(
    rt: &R,
    alloc: Global,
    workers: u64,
) -> Result<String, Fail> {
    let of = read_setting(alloc, ARCH, EIGHT)?;
    let mut anneal = eight(alloc, &of, StreamWords::new(8))?;
    readings(rt, alloc, &mut anneal, Pace { batch: 64, workers })
}

#[test]
fn each_turn_shows_where_it_led(rt: HostRuntime) -> Result<(), Fail> {
    for workers in [1, 3] {
        assert_eq!(rt;
            eight_readings(&rt, rt.alloc(), workers)?.as_str(),
            EIGHT_READINGS
        );
    }
    Ok(())
}
