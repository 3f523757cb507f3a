// Runs, checks and checkpoints that are refused memory. A test passes as it is, and where one growth of its process is refused:
// tests/refusals/growths refuses each in turn. Since no second one is refused, what was refused is asked for again, and then it has to
// come.

use crate::narrow::Narrow;
use crate::piece_tests::SEVEN_AT_13;
use crate::point_tests::SECOND;
use crate::run_tests::{ARCH, INPUTS, NET, OPTIONS, PLACE, REPORT, SEVEN, SHORT};
use crate::{
    Inputs, Options, Outcome, PointFault, RunFault, check_run, place_run, read_point, resume_run,
    write_point,
};
use fab_arch::{Arch, read_arch};
use fab_net::{Design, read_net};
use fab_text::Counted;
use std::alloc::{AllocError, Global};
use std::process::Abort;
use std::sync::Wait;
use std::test::*;
use std::thread::Threads;

// Tells how many growths later one is refused, if it is among the next 10,000: that is, if what was tried has met none.
// tests/refusals/growths reads it.
fn tell_refusal_to_come(rt: &(impl AllocGlobal + Print)) {
    for later in 0..10_000u64 {
        if Vec::<u8>::with_capacity(rt.alloc(), 1).is_err() {
            let _told = println!(rt; "refused {later} growths later");
            return;
        }
    }
}

// A writer that needs no memory: it has its room from the beginning.
fn writer(alloc: Global) -> Result<Counted<Narrow>, AllocError> {
    let taken = match Vec::with_capacity(alloc, 10_000) {
        Ok(room) => room,
        Err(_) => Vec::with_capacity(alloc, 10_000)?,
    };
    Ok(Counted::new(Narrow {
        taken,
        room: 10_000,
        step: usize::MAX,
    }))
}

// What a run answered and wrote.
struct Ran {
    answer: Result<Outcome, RunFault>,
    report: Vec<u8>,
    place: Vec<u8>,
}

impl Drop for Ran {
    // This is one call at each exit of a test. A derived `drop` would be proved again at each.
    fn drop(self) {
        let Ran {
            answer: _,
            report: _,
            place: _,
        } = self;
    }
}

// What a run has to come to: its texts, and the moves that it accepts.
#[derive(Clone, Copy)]
struct Wanted<'a> {
    report: &'a [u8],
    place: &'a [u8],
    accepted: &'a [u64],
}

// Whether it came to what it has to. If it was refused memory, it has written a beginning of its report, and nothing of its place text.
fn is_made(rt: &impl Abort, ran: &Ran, wanted: Wanted<'_>) -> bool {
    match &ran.answer {
        Ok(outcome) => {
            assert_eq!(rt; ran.report.as_slice(), wanted.report);
            assert_eq!(rt; ran.place.as_slice(), wanted.place);
            assert_eq!(rt; outcome.accepted.as_slice(), wanted.accepted);
            true
        }
        Err(fault) => {
            assert_eq!(rt; *fault, RunFault::NoMemory);
            assert!(rt; wanted.report.starts_with(&ran.report));
            assert!(rt; ran.place.is_empty());
            false
        }
    }
}

fn placed(
    rt: &(impl AllocGlobal + Threads + Wait + Sync),
    inputs: &Inputs,
    options: &Options,
) -> Result<Ran, AllocError> {
    let mut report = writer(rt.alloc())?;
    let mut place = writer(rt.alloc())?;
    let answer = place_run(rt, inputs, options, &mut report, &mut place);
    Ok(Ran {
        answer,
        report: report.into_inner().taken,
        place: place.into_inner().taken,
    })
}

// Makes a run, and another if that is refused memory.
fn assert_placed(
    rt: &(impl Abort + AllocGlobal + Print + Threads + Wait + Sync),
    inputs: &Inputs,
    options: &Options,
    wanted: Wanted<'_>,
) -> Result<(), Fail> {
    if !is_made(rt, &placed(rt, inputs, options)?, wanted) {
        assert!(rt; is_made(rt, &placed(rt, inputs, options)?, wanted));
    }
    tell_refusal_to_come(rt);
    Ok(())
}

const CHAIN: Wanted<'static> = Wanted {
    report: REPORT,
    place: PLACE,
    accepted: &[],
};

#[test]
fn growths_of_a_run(rt: HostRuntime) -> Result<(), Fail> {
    let options = Options {
        workers: 1,
        ..OPTIONS
    };
    assert_placed(&rt, &INPUTS, &options, CHAIN)
}

#[test]
fn growths_of_a_run_with_four_workers(rt: HostRuntime) -> Result<(), Fail> {
    assert_placed(&rt, &INPUTS, &OPTIONS, CHAIN)
}

// The length of the report's part up to its first stage, which is the whole report of a run that stops in the second.
const STAGE_0_ENDS: usize = 122;

#[test]
fn growths_of_a_run_that_stops(rt: HostRuntime) -> Result<(), Fail> {
    let options = Options {
        stop: Some(5),
        ..OPTIONS
    };
    let wanted = Wanted {
        report: &REPORT[..STAGE_0_ENDS],
        place: b"",
        accepted: &[],
    };
    assert_placed(&rt, &INPUTS, &options, wanted)
}

// Nothing is asked for after the last line of a run that stops: the memory of its point is there before the first move.
#[test]
fn growths_of_a_run_that_stops_after_a_stage(rt: HostRuntime) -> Result<(), Fail> {
    let options = Options {
        workers: 1,
        stop: Some(3),
        ..OPTIONS
    };
    let wanted = Wanted {
        report: &REPORT[..STAGE_0_ENDS],
        place: b"",
        accepted: &[],
    };
    let ran = placed(&rt, &INPUTS, &options)?;
    if !is_made(&rt, &ran, wanted) {
        assert!(rt; ran.report.len() < wanted.report.len());
        assert!(rt; is_made(&rt, &placed(&rt, &INPUTS, &options)?, wanted));
    }
    tell_refusal_to_come(&rt);
    Ok(())
}

const SEVEN_PLACE: &[u8] = b"Netlist file: s.net   Architecture file: s.arch
Array size: 3 x 2 logic blocks

#block name\tx\ty\tsubblk\tblock number
#----------\t--\t--\t------\t------------
a\t0\t1\t0\t#0
b\t2\t0\t0\t#1
out:z\t0\t2\t0\t#2
x\t2\t1\t0\t#3
y\t3\t1\t0\t#4
z\t2\t2\t0\t#5
w\t1\t1\t0\t#6
";

// Seven blocks whose moves are accepted and rejected; an independent placer made their run.
const SEVEN_MADE: Wanted<'static> = Wanted {
    report: b"blocks 7 logic 4 pads 3 nets 6 array 3 x 2
start cost 24.0000
stage 0 t 2.0000 range 3.000 moves 8 accepted 3 cost 24.0000
stage 1 t 1.0000 range 2.805 moves 8 accepted 6 cost 23.0000
stage 2 t 0.5000 range 3.000 moves 8 accepted 3 cost 22.0000
frozen range 2.805 moves 8 accepted 2 cost 21.0000
final cost 21.0000 accepted 14 of 32
",
    place: SEVEN_PLACE,
    accepted: &[1, 6, 7, 8, 9, 10, 11, 12, 15, 18, 19, 20, 28, 29],
};

fn assert_seven_placed(
    rt: &(impl Abort + AllocGlobal + Print + Threads + Wait + Sync),
    workers: u64,
) -> Result<(), Fail> {
    let options = Options {
        seed: 1,
        workers,
        ..SHORT
    };
    assert_placed(rt, &SEVEN, &options, SEVEN_MADE)
}

#[test]
fn growths_of_a_run_of_seven_blocks(rt: HostRuntime) -> Result<(), Fail> {
    assert_seven_placed(&rt, 1)
}

#[test]
fn growths_of_a_run_of_seven_blocks_with_four_workers(rt: HostRuntime) -> Result<(), Fail> {
    assert_seven_placed(&rt, 4)
}

fn resumed(
    rt: &(impl AllocGlobal + Threads + Wait + Sync),
    inputs: &Inputs,
    point: &[u8],
    workers: u64,
) -> Result<Ran, AllocError> {
    let mut report = writer(rt.alloc())?;
    let mut place = writer(rt.alloc())?;
    let answer = resume_run(rt, inputs, point, 7, workers, None, &mut report, &mut place);
    Ok(Ran {
        answer,
        report: report.into_inner().taken,
        place: place.into_inner().taken,
    })
}

// Resumes a run, and once more if that is refused memory.
fn assert_resumed(
    rt: &(impl Abort + AllocGlobal + Print + Threads + Wait + Sync),
    inputs: &Inputs,
    point: &[u8],
    workers: u64,
    wanted: Wanted<'_>,
) -> Result<(), Fail> {
    if !is_made(rt, &resumed(rt, inputs, point, workers)?, wanted) {
        assert!(rt; is_made(rt, &resumed(rt, inputs, point, workers)?, wanted));
    }
    tell_refusal_to_come(rt);
    Ok(())
}

#[test]
fn growths_of_a_resumed_run(rt: HostRuntime) -> Result<(), Fail> {
    let wanted = Wanted {
        report: &REPORT[STAGE_0_ENDS..],
        ..CHAIN
    };
    assert_resumed(&rt, &INPUTS, SECOND, 5, wanted)
}

fn assert_seven_resumed(
    rt: &(impl Abort + AllocGlobal + Print + Threads + Wait + Sync),
    workers: u64,
) -> Result<(), Fail> {
    let wanted = Wanted {
        report: b"stage 1 t 1.0000 range 2.805 moves 8 accepted 6 cost 23.0000
stage 2 t 0.5000 range 3.000 moves 8 accepted 3 cost 22.0000
frozen range 2.805 moves 8 accepted 2 cost 21.0000
final cost 21.0000 accepted 14 of 32
",
        place: SEVEN_PLACE,
        accepted: &[15, 18, 19, 20, 28, 29],
    };
    assert_resumed(rt, &SEVEN, SEVEN_AT_13, workers, wanted)
}

#[test]
fn growths_of_a_resumed_run_of_seven_blocks(rt: HostRuntime) -> Result<(), Fail> {
    assert_seven_resumed(&rt, 1)
}

#[test]
fn growths_of_a_resumed_run_of_seven_blocks_with_four_workers(rt: HostRuntime) -> Result<(), Fail> {
    assert_seven_resumed(&rt, 4)
}

const STAR_ARCH: &[u8] = b"io_rat 2\nchan_width_io 1\ninpin class: 0 left\n";

const STAR_NET: &[u8] =
    b".input a\npinlist: n\n.clb b1\npinlist: n\n.clb b2\npinlist: n\n.clb b3\npinlist: n\n";

const STAR_PLACE: &[u8] =
    b"Netlist file: x.net   Architecture file: x.arch\nArray size: 3 x 3 logic blocks\na 0 2 1\nb1 1 1 0\nb2 3 3 0\nb3 2 2 0\n";

// Whether a check of a design with a wide net answered its cost and wrote its report. If it was refused memory, it wrote nothing.
fn is_checked(rt: &(impl Abort + AllocGlobal)) -> Result<bool, AllocError> {
    let mut report = writer(rt.alloc())?;
    let answer = check_run(rt.alloc(), STAR_ARCH, STAR_NET, STAR_PLACE, &mut report);
    let written = report.into_inner().taken;
    match answer {
        Ok(cost) => {
            assert_eq!(rt; cost, 64_968);
            let wanted: &[u8] = b"legal 4 blocks on a 3 x 3 array\ncost 6.4968\n";
            assert_eq!(rt; written.as_slice(), wanted);
            Ok(true)
        }
        Err(fault) => {
            assert_eq!(rt; fault, RunFault::NoMemory);
            assert!(rt; written.is_empty());
            Ok(false)
        }
    }
}

#[test]
fn growths_of_a_check(rt: HostRuntime) -> Result<(), Fail> {
    if !is_checked(&rt)? {
        assert!(rt; is_checked(&rt)?);
    }
    tell_refusal_to_come(&rt);
    Ok(())
}

// The texts of a design.
fn read_once(alloc: Global) -> Option<(Arch, Design)> {
    let arch = read_arch(alloc, ARCH).ok()?;
    let design = read_net(alloc, NET, &arch).ok()?;
    Some((arch, design))
}

fn read_again(alloc: Global) -> Result<(Arch, Design), Fail> {
    if let Some(texts) = read_once(alloc) {
        return Ok(texts);
    }
    match read_once(alloc) {
        Some(texts) => Ok(texts),
        None => Err(Fail::from("two readings were refused")),
    }
}

// Reads a checkpoint text and writes its point. Whether that gave the text; if memory was refused, nothing was written.
fn is_written_back(
    rt: &(impl Abort + AllocGlobal),
    arch: &Arch,
    design: &Design,
) -> Result<bool, AllocError> {
    let alloc = rt.alloc();
    let mut out = writer(alloc)?;
    let answer = match read_point(alloc, SECOND, arch, design) {
        Ok((seed, grid, point)) => write_point(alloc, &mut out, seed, design, &grid, &point),
        Err(fault) => Err(fault),
    };
    let written = out.into_inner().taken;
    match answer {
        Ok(()) => {
            assert_eq!(rt; written.as_slice(), SECOND);
            Ok(true)
        }
        Err(fault) => {
            assert_eq!(rt; fault, PointFault::NoMemory);
            assert!(rt; written.is_empty());
            Ok(false)
        }
    }
}

#[test]
fn growths_of_a_checkpoint(rt: HostRuntime) -> Result<(), Fail> {
    let (arch, design) = read_again(rt.alloc())?;
    if !is_written_back(&rt, &arch, &design)? {
        assert!(rt; is_written_back(&rt, &arch, &design)?);
    }
    tell_refusal_to_come(&rt);
    Ok(())
}
