ghost use Rattle.std.specs.Prelude.{◌≡◌, All, IfOk};

use crate::{Dial, Reading, Shower, Watcher};
use std::alloc::{AllocError, Global};
use std::process::Abort;
use std::sync::Wait;
use std::test::*;
use std::thread;
use std::thread::Threads;

const READINGS: u64 = 1000;

fn reading(moves: u64, accepted: u64, cost: u64) -> Reading {
    Reading {
        moves,
        accepted,
        cost,
    }
}

// Reading `number` of the list that a test shows. No other number has any of its words, so a mixed reading is noticed.
fn listed(number: u64) -> Reading {
    reading(
        number,
        number.wrapping_mul(3),
        40000u64.wrapping_add(number.wrapping_mul(7)),
    )
}

// What was shown last is what is gathered. The contracts of the two calls suffice to prove it.
fn shown_last<R: Wait>(
    rt: &R,
    dial: Dial,
    mut shower: Shower,
    reading: Reading,
    watchers: Vec<Watcher>,
) -> Reading
    requires own { shower.dial ≡ dial }
    requires watchers { All (λ w. w.dial ≡ dial) watchers.items }
    ensures { result ≡ reading }
{
    dial.show(rt, &mut shower, reading);
    dial.gather(rt, shower, watchers)
}

#[test]
fn a_reading_shown_is_read(rt: HostRuntime) -> Result<(), Fail> {
    let (dial, mut shower, mut watchers) = Dial::new(&rt, rt.alloc(), 1, reading(0, 0, 40000))?;
    let mut watcher = watchers.pop().expect(&rt, "a watcher");
    assert_eq!(rt; dial.read(&rt, &mut watcher), reading(0, 0, 40000));
    dial.show(&rt, &mut shower, reading(3, 1, 30000));
    assert_eq!(rt; dial.read(&rt, &mut watcher), reading(3, 1, 30000));
    assert_eq!(rt; dial.read(&rt, &mut watcher), reading(3, 1, 30000));
    assert_eq!(rt; dial.gather(&rt, shower, watchers), reading(3, 1, 30000));
    Ok(())
}

#[test]
fn a_dial_needs_no_watcher(rt: HostRuntime) -> Result<(), Fail> {
    let (dial, shower, watchers) = Dial::new(&rt, rt.alloc(), 0, reading(0, 0, 40000))?;
    assert!(rt; watchers.is_empty());
    assert_eq!(rt; dial.gather(&rt, shower, watchers), reading(0, 0, 40000));
    Ok(())
}

#[test]
fn fewer_watchers_are_gathered_than_were_made(rt: HostRuntime) -> Result<(), Fail> {
    let (dial, shower, mut watchers) = Dial::new(&rt, rt.alloc(), 64, reading(0, 0, 40000))?;
    assert_eq!(rt; watchers.len(), 64);
    drop(watchers.pop());
    let gathered = shown_last(&rt, dial, shower, reading(5, 2, u64::MAX), watchers);
    assert_eq!(rt; gathered, reading(5, 2, u64::MAX));
    let (dial, mut shower, _watchers) = Dial::new(&rt, rt.alloc(), 2, reading(0, 0, 40000))?;
    dial.show(&rt, &mut shower, reading(1, 1, 1));
    let none = Vec::new(rt.alloc());
    assert_eq!(rt; dial.gather(&rt, shower, none), reading(1, 1, 1));
    Ok(())
}

// Reads many times. Each reading is on the list, and none is before the one read before it.
fn watch<R: Wait + Abort>(rt: &R, dial: &Dial, mut watcher: Watcher) -> Watcher
    requires { watcher.dial ≡ dial.now }
    ensures { result.dial ≡ dial.now }
{
    let mut last = 0;
    for _turn in 0..READINGS {
        let seen = dial.read(rt, &mut watcher);
        assert!(rt; seen.moves <= READINGS && seen == listed(seen.moves));
        assert!(rt; last <= seen.moves);
        last = seen.moves;
    }
    watcher
}

// Shows the readings after the first.
fn show_all<R: Wait>(rt: &R, dial: &Dial, mut shower: Shower) -> Shower
    requires { shower.dial ≡ dial.now }
    ensures { result.dial ≡ dial.now }
{
    for number in 1..=READINGS {
        dial.show(rt, &mut shower, listed(number));
    }
    shower
}

// One thread shows, and two others read.
fn watched<R: Threads + Wait + Abort + Sync>(rt: &R, alloc: Global) -> Result<Reading, AllocError> {
    let (dial, shower, watchers) = Dial::new(rt, alloc, 2, listed(0))?;
    let shown = &dial;
    let (shower, watchers) = thread::join(
        rt,
        move || -> Shower
            requires { shower.dial ≡ shown.now }
            ensures { result.dial ≡ shown.entry.now }
        { show_all(rt, shown, shower) },
        move || -> Result<Vec<Watcher>, AllocError>
            requires { All (λ w. w.dial ≡ shown.now) watchers.items }
            ensures { IfOk result (λ v. All (λ w. w.dial ≡ shown.entry.now) v.items) }
        {
            thread::map_vec(
                rt,
                watchers,
                &|w: Watcher| -> Watcher
                    requires { w.dial ≡ shown.now }
                    ensures { result.dial ≡ shown.entry.now }
                { watch(rt, shown, w) },
            )
        },
    );
    Ok(dial.gather(rt, shower, watchers?))
}

#[test]
fn watchers_in_threads_read_in_order(rt: HostRuntime) -> Result<(), Fail> {
    assert_eq!(rt; watched(&rt, rt.alloc())?, listed(READINGS));
    Ok(())
}
