//! A limit of time for tests that wait for threads.

use std::process::Abort;
use std::sync::Wait;
use std::sync::atomic::{AtomicU64, Ordering};
use std::test::*;
use std::thread;
use std::thread::{Threads, join_mut};
use std::time::{Clock, Duration};

// How long such a test may take, in milliseconds: many times what it takes on an idle machine, since other programs may use this one.
const LIMIT: u64 = 50_000;

/// How long a test holds a thread back for what it wants to see, in milliseconds. Only a test that fails reaches this limit. Both limits
/// are below the minute after which `rt` ends a test.
pub(crate) const HELD: u64 = 40_000;

// Ends the test as failed, unless `ended` is set within the limit.
fn watch<R: Abort + Clock>(rt: &R, ended: &AtomicU64) {
    for _wait in 0..LIMIT {
        if ended.load(Ordering::SeqCst) != 0 {
            return;
        }
        thread::sleep(rt, Duration::from_millis(1));
    }
    panic!(rt; "the test waits for ever: it did not end in {LIMIT} milliseconds");
}

// Runs a test, and notes that it ended.
fn ran<F: FnMut() -> Result<(), Fail>>(test: &mut F, ended: &AtomicU64) -> Result<(), Fail>
    requires { F.pre test.old }
{
    let told = test();
    ended.store(1, Ordering::SeqCst);
    told
}

/// Runs a test while another thread watches the clock. A test that does not end in time fails, since that thread ends the process.
pub(crate) fn in_time<F: FnMut() -> Result<(), Fail>, R: Abort + Clock + Threads + Sync>(
    rt: &R,
    test: &mut F,
) -> Result<(), Fail>
    requires { F.pre test.old }
{
    let ended = AtomicU64::new(0);
    let ((), told) = join_mut(
        rt,
        &mut || watch(rt, &ended),
        &mut || -> Result<(), Fail>
            requires { F.pre test.now }
        { ran(test, &ended) },
    );
    told
}
