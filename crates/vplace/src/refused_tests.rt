// The program where it is refused memory. A test passes as it is, and where one growth of its process is refused: tests/refusals/growths
// refuses each in turn. Since no second one is refused, a run that was refused is made again, and then it has to come to its end.

use crate::desk::{Desk, PLACE, POINT, REPORT, WORDS};
use crate::narrow::Narrow;
use crate::program::program;
use crate::tests::words_of;
use fab_text::Counted;
use std::alloc::{AllocError, Global};
use std::process::Abort;
use std::sync::Wait;
use std::test::*;
use std::thread::Threads;

// Tells how many growths later one is refused, if it is among the next 10,000: that is, if what was tried has met none.
// tests/refusals/growths reads it.
fn tell_refusal_to_come(rt: &(impl AllocGlobal + Print)) {
    for later in 0..10_000u64 {
        if Vec::<u8>::with_capacity(rt.alloc(), 1).is_err() {
            let _told = println!(rt; "refused {later} growths later");
            return;
        }
    }
}

// An output that needs no memory: it has its room from the beginning.
fn output(alloc: Global) -> Result<Counted<Narrow>, AllocError> {
    let taken = match Vec::with_capacity(alloc, 10_000) {
        Ok(room) => room,
        Err(_) => Vec::with_capacity(alloc, 10_000)?,
    };
    Ok(Counted::new(Narrow {
        taken,
        room: 10_000,
    }))
}

// A command line of these words, and more.
fn line_once(alloc: Global, words: &[&[u8]], more: &[&[u8]]) -> Result<Vec<Vec<u8>>, AllocError> {
    let mut line = words_of(alloc, words)?;
    for word in more {
        line.push(Vec::from_slice(alloc, word)?)?;
    }
    Ok(line)
}

fn line_again(alloc: Global, words: &[&[u8]], more: &[&[u8]]) -> Result<Vec<Vec<u8>>, AllocError> {
    match line_once(alloc, words, more) {
        Ok(line) => Ok(line),
        Err(_) => line_once(alloc, words, more),
    }
}

// The files of the design, with a checkpoint among them.
fn desk_with_point(alloc: Global) -> Result<Desk, AllocError> {
    let point = match Vec::from_slice(alloc, POINT) {
        Ok(point) => point,
        Err(_) => Vec::from_slice(alloc, POINT)?,
    };
    Ok(Desk::new(alloc, Some(point)))
}

// What a run left: its status, its two outputs, and its files.
struct Left {
    status: u8,
    out: Vec<u8>,
    err: Vec<u8>,
    desk: Desk,
}

impl Drop for Left {
    // This is one call at each exit of a test. A derived `drop` would be proved again at each.
    fn drop(self) {
        let Left {
            status: _,
            out: _,
            err: _,
            desk: _,
        } = self;
    }
}

fn ran(
    rt: &(impl AllocGlobal + Threads + Wait + Sync),
    mut desk: Desk,
    words: &[&[u8]],
    more: &[&[u8]],
) -> Result<Left, AllocError> {
    let alloc = rt.alloc();
    let line = line_again(alloc, words, more)?;
    let mut out = output(alloc)?;
    let mut err = output(alloc)?;
    let status = program(rt, line.as_slice(), &mut desk, &mut out, &mut err);
    Ok(Left {
        status,
        out: out.into_inner().taken,
        err: err.into_inner().taken,
        desk,
    })
}

// What a run has to write to its output, and what then lies at `t.place`; nothing is no text.
#[derive(Clone, Copy)]
struct Wanted<'a> {
    out: &'a [u8],
    placed: &'a [u8],
}

const NO_MEMORY: &[u8] = b"vplace: no memory\n";

// Whether a run came to what it has to. If it was refused memory, it says so, has written a beginning of its report, and leaves its files
// as they were.
fn is_made(rt: &impl Abort, left: &Left, wanted: Wanted<'_>) -> bool {
    assert_eq!(rt; left.desk.taken(), 0);
    let placed = left.desk.placed().unwrap_or(b"");
    if left.status == 0 {
        assert_eq!(rt; left.out.as_slice(), wanted.out);
        assert!(rt; left.err.is_empty());
        assert_eq!(rt; placed, wanted.placed);
        return true;
    }
    assert_eq!(rt; left.status, 3);
    assert_eq!(rt; left.err.as_slice(), NO_MEMORY);
    assert!(rt; wanted.out.starts_with(&left.out));
    assert!(rt; placed.is_empty());
    false
}

// Makes a run, and another if that is refused memory.
fn assert_made(
    rt: &(impl Abort + AllocGlobal + Print + Threads + Wait + Sync),
    words: &[&[u8]],
    more: &[&[u8]],
    wanted: Wanted<'_>,
) -> Result<(), Fail> {
    let desk = Desk::new(rt.alloc(), None);
    if !is_made(rt, &ran(rt, desk, words, more)?, wanted) {
        let desk = Desk::new(rt.alloc(), None);
        assert!(rt; is_made(rt, &ran(rt, desk, words, more)?, wanted));
    }
    tell_refusal_to_come(rt);
    Ok(())
}

fn assert_placed(
    rt: &(impl Abort + AllocGlobal + Print + Threads + Wait + Sync),
    workers: &[u8],
) -> Result<(), Fail> {
    let more: [&[u8]; 2] = [b"--workers", workers];
    let wanted = Wanted {
        out: REPORT,
        placed: PLACE,
    };
    assert_made(rt, WORDS.as_slice(), more.as_slice(), wanted)
}

#[test]
fn growths_of_a_program_that_places(rt: HostRuntime) -> Result<(), Fail> {
    assert_placed(&rt, b"1")
}

#[test]
fn growths_of_a_program_that_places_with_four_workers(rt: HostRuntime) -> Result<(), Fail> {
    assert_placed(&rt, b"4")
}

#[test]
fn growths_of_a_program_that_checks_the_example(rt: HostRuntime) -> Result<(), Fail> {
    let wanted = Wanted {
        out: b"legal 4 blocks on a 3 x 3 array\ncost 6.4968\n",
        placed: b"",
    };
    assert_made(&rt, &[], &[], wanted)
}

const STAGE_0_ENDS: usize = 122;

#[test]
fn growths_of_a_program_that_stops(rt: HostRuntime) -> Result<(), Fail> {
    let stop: [&[u8]; 4] = [b"--stop", b"5", b"--save", b"t.point"];
    let wanted = Wanted {
        out: &REPORT[..STAGE_0_ENDS],
        placed: b"",
    };
    for _run in 0..2u64 {
        let desk = Desk::new(rt.alloc(), None);
        let left = ran(&rt, desk, WORDS.as_slice(), stop.as_slice())?;
        let point = left.desk.point().unwrap_or(b"");
        if is_made(&rt, &left, wanted) {
            assert_eq!(rt; point, POINT);
            tell_refusal_to_come(&rt);
            return Ok(());
        }
        assert!(rt; point.is_empty());
    }
    Err(Fail::from("two runs were refused"))
}

const RESUME: [&[u8]; 9] = [
    b"resume", b"--arch", b"t.arch", b"--net", b"t.net", b"--point", b"t.point", b"--out",
    b"t.place",
];

#[test]
fn growths_of_a_program_that_goes_on(rt: HostRuntime) -> Result<(), Fail> {
    let wanted = Wanted {
        out: &REPORT[STAGE_0_ENDS..],
        placed: PLACE,
    };
    for _run in 0..2u64 {
        let desk = desk_with_point(rt.alloc())?;
        let left = ran(&rt, desk, RESUME.as_slice(), &[])?;
        let came = is_made(&rt, &left, wanted);
        assert_eq!(rt; left.desk.point().unwrap_or(b""), POINT);
        if came {
            tell_refusal_to_come(&rt);
            return Ok(());
        }
    }
    Err(Fail::from("two runs were refused"))
}

// Words that are answered with this status and no run: help, or a wrong command line. What is said must be the same each time that it is
// said.
fn assert_said(
    rt: &(impl Abort + AllocGlobal + Print + Threads + Wait + Sync),
    words: &[&[u8]],
    status: u8,
) -> Result<(), Fail> {
    let one = ran(rt, Desk::new(rt.alloc(), None), words, &[])?;
    let other = ran(rt, Desk::new(rt.alloc(), None), words, &[])?;
    for left in [&one, &other] {
        if left.status != status {
            assert_eq!(rt; left.status, 3);
            assert_eq!(rt; left.err.as_slice(), NO_MEMORY);
            assert!(rt; left.out.is_empty());
        }
    }
    assert!(rt; one.status == status || other.status == status);
    if one.status == other.status {
        assert_eq!(rt; one.out, other.out);
        assert_eq!(rt; one.err, other.err);
        assert!(rt; one.out.is_empty() != one.err.is_empty());
    }
    tell_refusal_to_come(rt);
    Ok(())
}

#[test]
fn growths_of_a_program_that_helps(rt: HostRuntime) -> Result<(), Fail> {
    assert_said(&rt, &[b"place", b"--help"], 0)
}

#[test]
fn growths_of_a_program_with_wrong_words(rt: HostRuntime) -> Result<(), Fail> {
    assert_said(&rt, &[b"place", b"--nets"], 2)
}
