// Pieces of runs: where they stop, and how they are resumed from a checkpoint text. The expected answers for the design of three blocks,
// whose every move finds its block's own site, were worked out by hand; those for the design of seven blocks were made by an independent
// placer.

use crate::narrow::Narrow;
use crate::point_tests::{BY_ACCEPTANCE, FIRST, SECOND};
use crate::run_tests::{
    INPUTS, OPTIONS, PLACE, REPORT, SEVEN, SHORT, redone, run, run_narrow, slow_writer, told_of,
    writer_with,
};
use crate::{Inputs, Options, RunFault, resume_run};
use fab_file::Labels;
use fab_text::Counted;
use std::alloc::AllocError;
use std::sync::Wait;
use std::test::*;
use std::thread::Threads;

// The parts of the report of the design of three blocks.
const HEAD: &[u8] = b"blocks 3 logic 1 pads 2 nets 2 array 1 x 1\nstart cost 4.0000\n";

const STAGE_0: &[u8] = b"stage 0 t 10.0000 range 1.000 moves 3 accepted 0 cost 4.0000\n";

const STAGE_1: &[u8] = b"stage 1 t 5.0000 range 1.000 moves 3 accepted 0 cost 4.0000\n";

const LAST_STAGES: &[u8] = b"stage 2 t 2.5000 range 1.000 moves 3 accepted 0 cost 4.0000
stage 3 t 1.2500 range 1.000 moves 3 accepted 0 cost 4.0000
frozen range 1.000 moves 3 accepted 0 cost 4.0000
final cost 4.0000 accepted 0 of 15
";

const TO_THE_END: &[u8] = b"accepted\ncosts 40000 40000 40000 40000 40000\nredone 0\n";

// How a run is resumed: from which text, with which batch and workers, and where it stops, if it does.
#[derive(Clone, Copy)]
struct Going<'a> {
    point: &'a [u8],
    batch: u64,
    workers: u64,
    stop: Option<u64>,
}

const GOING: Going<'static> = Going {
    point: SECOND,
    batch: 64,
    workers: 4,
    stop: None,
};

// What a resumed run answers and writes to these writers, in one text.
fn go_on_with(
    rt: &(impl AllocGlobal + Threads + Wait + Sync),
    inputs: &Inputs,
    going: &Going,
    mut report: Counted<Narrow>,
    mut place: Counted<Narrow>,
) -> Result<Vec<u8>, AllocError> {
    let Going {
        point,
        batch,
        workers,
        stop,
    } = *going;
    let answer = resume_run(
        rt,
        inputs,
        point,
        batch,
        workers,
        stop,
        &mut report,
        &mut place,
    );
    told_of(rt.alloc(), inputs, report, place, answer)
}

// The same with two writers that take this many bytes.
fn go_on_narrow(
    rt: &(impl AllocGlobal + Threads + Wait + Sync),
    inputs: &Inputs,
    going: &Going,
    rooms: (usize, usize),
) -> Result<Vec<u8>, AllocError> {
    let report = writer_with(rt.alloc(), rooms.0);
    let place = writer_with(rt.alloc(), rooms.1);
    go_on_with(rt, inputs, going, report, place)
}

fn go_on(
    rt: &(impl AllocGlobal + Threads + Wait + Sync),
    inputs: &Inputs,
    going: &Going,
) -> Result<Vec<u8>, AllocError> {
    go_on_narrow(rt, inputs, going, (10_000, 10_000))
}

fn stopped(stop: u64) -> Options {
    Options {
        stop: Some(stop),
        ..OPTIONS
    }
}

#[test]
fn a_run_stops_where_it_is_told_to(rt: HostRuntime) -> Result<(), Fail> {
    let at_0 = b"accepted\ncosts 40000\nredone 0\nstage 0 100000 1000\nmoves 0 0 0\n";
    let at_5 = b"accepted\ncosts 40000 40000\nredone 0\nstage 1 50000 1000\nmoves 2 0 0\n";
    let at_6 = b"accepted\ncosts 40000 40000 40000\nredone 0\nstage 2 25000 1000\nmoves 0 0 0\n";
    let alloc = rt.alloc();
    let wanted = [HEAD, at_0].concat(alloc)?;
    assert_eq!(rt; run(&rt, &INPUTS, &stopped(0))?, wanted);
    let wanted = [HEAD, STAGE_0, at_5].concat(alloc)?;
    assert_eq!(rt; run(&rt, &INPUTS, &stopped(5))?, wanted);
    let wanted = [HEAD, STAGE_0, STAGE_1, at_6].concat(alloc)?;
    assert_eq!(rt; run(&rt, &INPUTS, &stopped(6))?, wanted);
    Ok(())
}

#[test]
fn a_stop_at_the_last_move_is_passed(rt: HostRuntime) -> Result<(), Fail> {
    let last = b"accepted\ncosts 40000 40000 40000 40000 40000 40000\nredone 0\n";
    let wanted = [REPORT, PLACE, last].concat(rt.alloc())?;
    assert_eq!(rt; run(&rt, &INPUTS, &stopped(15))?, wanted);
    Ok(())
}

#[test]
fn a_run_goes_on_from_both_versions(rt: HostRuntime) -> Result<(), Fail> {
    let first = Going {
        point: FIRST,
        batch: 7,
        workers: 5,
        ..GOING
    };
    let wanted = [STAGE_1, LAST_STAGES, PLACE, TO_THE_END].concat(rt.alloc())?;
    assert_eq!(rt; go_on(&rt, &INPUTS, &first)?, wanted);
    assert_eq!(rt; go_on(&rt, &INPUTS, &GOING)?, wanted);
    Ok(())
}

#[test]
fn a_run_that_acceptance_cools_goes_on(rt: HostRuntime) -> Result<(), Fail> {
    let report: &[u8] = b"stage 1 t 8.0000 range 1.000 moves 3 accepted 0 cost 4.0000
stage 2 t 6.4000 range 1.000 moves 3 accepted 0 cost 4.0000
stage 3 t 5.1200 range 1.000 moves 3 accepted 0 cost 4.0000
stage 4 t 4.0960 range 1.000 moves 3 accepted 0 cost 4.0000
";
    let end =
        b"accepted\ncosts 40000 40000 40000 40000 40000\nredone 0\nstage 5 32768 1000\nmoves 1 0 0\n";
    let going = Going {
        point: BY_ACCEPTANCE,
        stop: Some(16),
        ..GOING
    };
    let wanted = [report, end].concat(rt.alloc())?;
    assert_eq!(rt; go_on(&rt, &INPUTS, &going)?, wanted);
    Ok(())
}

#[test]
fn a_stop_before_the_start_is_passed(rt: HostRuntime) -> Result<(), Fail> {
    let here = Going {
        stop: Some(5),
        ..GOING
    };
    let empty: &[u8] = b"accepted\ncosts 40000\nredone 0\nstage 1 50000 1000\nmoves 2 0 0\n";
    assert_eq!(rt; go_on(&rt, &INPUTS, &here)?.as_slice(), empty);
    let before = Going {
        stop: Some(4),
        ..GOING
    };
    let wanted = [STAGE_1, LAST_STAGES, PLACE, TO_THE_END].concat(rt.alloc())?;
    assert_eq!(rt; go_on(&rt, &INPUTS, &before)?, wanted);
    Ok(())
}

// Whether a resumed run is refused with this line.
fn refused(
    rt: &(impl AllocGlobal + Threads + Wait + Sync),
    inputs: &Inputs,
    going: &Going,
    line: &[u8],
) -> Result<bool, AllocError> {
    Ok(go_on(rt, inputs, going)?.as_slice() == line)
}

#[test]
fn the_first_fault_of_a_run_that_goes_on_is_told(rt: HostRuntime) -> Result<(), Fail> {
    // Each row corrects what the row before is refused for.
    let worst = Inputs {
        arch: b"",
        net: b"q",
        pads: Some(b"q"),
        labels: Labels {
            net: b"t net",
            arch: b"t.arch",
        },
    };
    let no_net = Inputs {
        arch: INPUTS.arch,
        ..worst
    };
    let no_label = Inputs {
        net: INPUTS.net,
        ..no_net
    };
    let no_point = Going {
        point: b"q",
        batch: 0,
        workers: 0,
        stop: Some(0),
    };
    let no_batch = Going {
        point: SECOND,
        ..no_point
    };
    let no_workers = Going {
        batch: 1,
        ..no_batch
    };
    assert!(rt; refused(&rt, &worst, &no_point, b"vplace: arch: A1 NoIoRat")?);
    assert!(rt;
        refused(
            &rt,
            &no_net,
            &no_point,
            b"vplace: net: N1 UnknownWord line 1"
        )?
    );
    assert!(rt; refused(&rt, &no_label, &no_point, b"vplace: point: C1 BadVersion")?);
    assert!(rt; refused(&rt, &no_label, &no_batch, b"vplace: place: P11 BadLabel")?);
    assert!(rt;
        refused(
            &rt,
            &INPUTS,
            &no_batch,
            b"vplace: option: O1 BatchOutOfRange"
        )?
    );
    assert!(rt;
        refused(
            &rt,
            &INPUTS,
            &no_workers,
            b"vplace: option: O2 WorkersOutOfRange"
        )?
    );
    Ok(())
}

#[test]
fn a_writer_that_fails_in_the_first_piece_is_told(rt: HostRuntime) -> Result<(), Fail> {
    let report = [HEAD, STAGE_0].concat(rt.alloc())?;
    for room in 0..report.len() {
        let left = run_narrow(&rt, &INPUTS, &stopped(5), (room, 1000))?;
        let wanted = [&report[..room], b"vplace: cannot write report"].concat(rt.alloc())?;
        assert_eq!(rt; left, wanted);
    }
    Ok(())
}

#[test]
fn a_writer_that_fails_in_the_last_piece_is_told(rt: HostRuntime) -> Result<(), Fail> {
    let report = [STAGE_1, LAST_STAGES].concat(rt.alloc())?;
    for room in 0..report.len() {
        let left = go_on_narrow(&rt, &INPUTS, &GOING, (room, 1000))?;
        let wanted = [&report[..room], b"vplace: cannot write report"].concat(rt.alloc())?;
        assert_eq!(rt; left, wanted);
    }
    for room in 0..PLACE.len() {
        let left = go_on_narrow(&rt, &INPUTS, &GOING, (1000, room))?;
        let mut wanted = report.clone()?;
        wanted.extend_from_slice(&PLACE[..room])?;
        wanted.extend_from_slice(b"vplace: cannot write place")?;
        assert_eq!(rt; left, wanted);
    }
    Ok(())
}

#[test]
fn slow_writers_of_a_piece_get_the_same_bytes(rt: HostRuntime) -> Result<(), Fail> {
    let alloc = rt.alloc();
    let wanted = [STAGE_1, LAST_STAGES, PLACE, TO_THE_END].concat(alloc)?;
    for steps in [(1, 1), (7, 2)] {
        let report = slow_writer(alloc, 10_000, steps.0);
        let place = slow_writer(alloc, 10_000, steps.1);
        assert_eq!(rt; go_on_with(&rt, &INPUTS, &GOING, report, place)?, wanted);
    }
    Ok(())
}

#[test]
fn a_writer_that_takes_nothing_of_a_piece_is_told(rt: HostRuntime) -> Result<(), Fail> {
    let alloc = rt.alloc();
    let (report, place) = (slow_writer(alloc, 8, 0), writer_with(alloc, 10_000));
    let left = go_on_with(&rt, &INPUTS, &GOING, report, place)?;
    assert_eq!(rt; left.as_slice(), b"vplace: cannot write report".as_slice());
    let (report, place) = (writer_with(alloc, 10_000), slow_writer(alloc, 8, 0));
    let left = go_on_with(&rt, &INPUTS, &GOING, report, place)?;
    let no_place: &[u8] = b"vplace: cannot write place";
    assert_eq!(rt; left, [STAGE_1, LAST_STAGES, no_place].concat(alloc)?);
    Ok(())
}

pub const SEVEN_AT_13: &[u8] = b"vplace point 2
seed 1
array 3 x 2 io_rat 1
schedule 20000 5000 500 8
stage 1 done 5 accepted 5
temperature 10000
range 2805
total 8
fixed 2
a fixed
w fixed
places 7
a 0 1 0
b 2 0 0
out:z 0 2 0
x 3 1 0
y 2 2 0
z 1 2 0
w 1 1 0
end
";

#[test]
fn seven_blocks_are_placed_in_two_pieces(rt: HostRuntime) -> Result<(), Fail> {
    let first: &[u8] = b"blocks 7 logic 4 pads 3 nets 6 array 3 x 2
start cost 24.0000
stage 0 t 2.0000 range 3.000 moves 8 accepted 3 cost 24.0000
accepted 1 6 7 8 9 10 11 12
costs 240000 240000
redone 6
stage 1 10000 2805
moves 5 5 8
";
    let second: &[u8] = b"stage 1 t 1.0000 range 2.805 moves 8 accepted 6 cost 23.0000
stage 2 t 0.5000 range 3.000 moves 8 accepted 3 cost 22.0000
frozen range 2.805 moves 8 accepted 2 cost 21.0000
final cost 21.0000 accepted 14 of 32
Netlist file: s.net   Architecture file: s.arch
Array size: 3 x 2 logic blocks

#block name\tx\ty\tsubblk\tblock number
#----------\t--\t--\t------\t------------
a\t0\t1\t0\t#0
b\t2\t0\t0\t#1
out:z\t0\t2\t0\t#2
x\t2\t1\t0\t#3
y\t3\t1\t0\t#4
z\t2\t2\t0\t#5
w\t1\t1\t0\t#6
accepted 15 18 19 20 28 29
costs 220000 230000 220000 210000
redone 6
";
    let options = Options {
        seed: 1,
        stop: Some(13),
        ..SHORT
    };
    let going = Going {
        point: SEVEN_AT_13,
        batch: 16,
        ..GOING
    };
    assert_eq!(rt; run(&rt, &SEVEN, &options)?.as_slice(), first);
    assert_eq!(rt; go_on(&rt, &SEVEN, &going)?.as_slice(), second);
    Ok(())
}

// How many moves the two pieces judge again, as the reference counts them.
fn redone_of_two(
    rt: &(impl AllocGlobal + Threads + Wait + Sync),
    batch: u64,
    workers: u64,
) -> Result<(u64, u64), RunFault> {
    let options = Options {
        seed: 1,
        batch,
        workers,
        stop: Some(13),
        ..SHORT
    };
    let mut report = writer_with(rt.alloc(), 10_000);
    let mut place = writer_with(rt.alloc(), 10_000);
    let first = redone(rt, &options)?;
    let second = resume_run(
        rt,
        &SEVEN,
        SEVEN_AT_13,
        batch,
        workers,
        None,
        &mut report,
        &mut place,
    )?;
    Ok((first, second.redone))
}

#[test]
fn the_batch_alone_tells_what_a_piece_judges_again(rt: HostRuntime) -> Result<(), Fail> {
    assert_eq!(rt; redone_of_two(&rt, 1, 1)?, (5, 3));
    assert_eq!(rt; redone_of_two(&rt, 1, 5)?, (5, 3));
    assert_eq!(rt; redone_of_two(&rt, 3, 1)?, (5, 6));
    assert_eq!(rt; redone_of_two(&rt, 3, 5)?, (5, 6));
    assert_eq!(rt; redone_of_two(&rt, 4, 5)?, (6, 6));
    Ok(())
}
