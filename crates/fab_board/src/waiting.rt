//! How threads wait for a word that another thread changes.

use std::sync::Wait;
use std::sync::atomic::{AtomicU64, Ordering};
use std::{hint, thread};

/// A word with a cache line of its own.
#[derive(Drop)]
pub(crate) struct PaddedAtomic {
    pub(crate) word: AtomicU64,
    room: [u64; 15],
}

impl PaddedAtomic {
    pub(crate) fn new(x: u64) -> PaddedAtomic {
        PaddedAtomic {
            word: AtomicU64::new(x),
            room: [0; 15],
        }
    }

    pub(crate) fn load(&self) -> u64 {
        self.word.load(Ordering::SeqCst)
    }

    pub(crate) fn store(&self, x: u64) {
        self.word.store(x, Ordering::SeqCst);
    }

    pub(crate) fn add_one(&self) {
        self.word.fetch_add(1, Ordering::SeqCst);
    }
}

// A sleeping processor is slow to wake: a millisecond or more on a virtual machine, and a turn takes less. So a thread first spins for some
// microseconds, then reads on for some milliseconds and yields its processor between reads, and only then sleeps.
const SPINS: u64 = 4000;

const YIELDS: u64 = 20000;

/// Reads the word until it is no longer `seen`, for a limited time: spins, then yields. Returns the value that it read last.
pub(crate) fn look_past(word: &AtomicU64, seen: u64) -> u64 {
    for _ in 0..SPINS {
        let now = word.load(Ordering::SeqCst);
        if now != seen {
            return now;
        }
        hint::spin_loop();
    }
    for _ in 0..YIELDS {
        let now = word.load(Ordering::SeqCst);
        if now != seen {
            return now;
        }
        thread::yield_now();
    }
    word.load(Ordering::SeqCst)
}

/// Stores `x` in the word, and then wakes the threads that sleep on it, if `asleep` counts any. A thread counts itself in `asleep`, then
/// reads the word once more, and only then sleeps ([`wait_past`]). So the store has to come before the read of `asleep`. In the other
/// order, a thread that falls asleep between the two would sleep for ever.
pub(crate) fn store_and_wake(word: &AtomicU64, x: u64, asleep: &PaddedAtomic) {
    word.store(x, Ordering::SeqCst);
    if asleep.load() != 0 {
        word.wake_all();
    }
}

/// Waits until the word is no longer `seen`: first as [`look_past`] does, then asleep. A thread that changes the word calls
/// [`store_and_wake`].
pub(crate) fn wait_past<R: Wait>(
    rt: &R,
    word: &AtomicU64,
    asleep: &PaddedAtomic,
    seen: u64,
) -> u64 {
    let now = look_past(word, seen);
    if now != seen {
        return now;
    }
    for _ in rt.forever() {
        asleep.word.fetch_add(1, Ordering::SeqCst);
        if word.load(Ordering::SeqCst) == seen {
            word.park(rt, (seen % 4294967296) as u32);
        }
        asleep.word.fetch_sub(1, Ordering::SeqCst);
        let now = word.load(Ordering::SeqCst);
        if now != seen {
            return now;
        }
    }
    unreachable!()
}
