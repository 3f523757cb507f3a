// Whole runs: a design of three blocks whose every move finds its block's own site, and one of seven blocks whose answers were
// made by an independent placer.

use crate::narrow::Narrow;
use crate::{Ending, Inputs, Moves, Options, Outcome, RunFault, fault_line, place_run};
use fab_file::Labels;
use fab_sched::Cooling;
use fab_text::{Counted, push_number};
use std::alloc::{AllocError, Global};
use std::sync::Wait;
use std::test::*;
use std::thread::Threads;

pub const ARCH: &[u8] = b"io_rat 1\ninpin class: 0 left\noutpin class: 1 right\n";

pub const NET: &[u8] =
    b".input a\npinlist: n1\n.output z\npinlist: n2\n.clb b\npinlist: n1 n2\nsubblock: b 0 1\n";

const PADS: &[u8] = b"a 0 1 0\nz 2 1 0\n";

pub const REPORT: &[u8] = b"blocks 3 logic 1 pads 2 nets 2 array 1 x 1
start cost 4.0000
stage 0 t 10.0000 range 1.000 moves 3 accepted 0 cost 4.0000
stage 1 t 5.0000 range 1.000 moves 3 accepted 0 cost 4.0000
stage 2 t 2.5000 range 1.000 moves 3 accepted 0 cost 4.0000
stage 3 t 1.2500 range 1.000 moves 3 accepted 0 cost 4.0000
frozen range 1.000 moves 3 accepted 0 cost 4.0000
final cost 4.0000 accepted 0 of 15
";

pub const PLACE: &[u8] = b"Netlist file: t.net   Architecture file: t.arch
Array size: 1 x 1 logic blocks

#block name\tx\ty\tsubblk\tblock number
#----------\t--\t--\t------\t------------
a\t0\t1\t0\t#0
z\t2\t1\t0\t#1
b\t1\t1\t0\t#2
";

pub const INPUTS: Inputs<'static> = Inputs {
    arch: ARCH,
    net: NET,
    pads: Some(PADS),
    labels: Labels {
        net: b"t.net",
        arch: b"t.arch",
    },
};

pub const OPTIONS: Options = Options {
    seed: 1,
    size: None,
    init_t: 100_000,
    exit_t: 10_000,
    cooling: Cooling::Factor(500),
    moves: Moves::Given(3),
    batch: 64,
    workers: 4,
    stop: None,
};

pub fn writer_with(alloc: Global, room: usize) -> Counted<Narrow> {
    slow_writer(alloc, room, usize::MAX)
}

// The same with at most this many bytes a call.
pub fn slow_writer(alloc: Global, room: usize, step: usize) -> Counted<Narrow> {
    Counted::new(Narrow {
        taken: Vec::new(alloc),
        room,
        step,
    })
}

pub fn push_all(text: &mut Vec<u8>, name: &[u8], numbers: &[u64]) -> Result<(), AllocError> {
    text.extend_from_slice(name)?;
    for number in numbers {
        text.push(b' ')?;
        push_number(text, *number)?;
    }
    text.push(b'\n')?;
    Ok(())
}

// Appends where a run stopped, if it did: its stage, temperature, range, moves made and accepted in the stage, and moves accepted in all.
pub fn push_ending(text: &mut Vec<u8>, ending: &Ending) -> Result<(), AllocError> {
    match ending {
        Ending::Finished => Ok(()),
        Ending::Stopped(point) => {
            let stage = &point.stage;
            push_all(text, b"stage", &[stage.index, stage.t, stage.range])?;
            push_all(text, b"moves", &[stage.done, stage.accepted, point.total])
        }
    }
}

// What a run answered and wrote, in one text: the report, the place text, and the accepted moves, costs, number of moves judged
// again and where it stopped, or the fault.
pub fn told_of(
    alloc: Global,
    inputs: &Inputs,
    report: Counted<Narrow>,
    place: Counted<Narrow>,
    answer: Result<Outcome, RunFault>,
) -> Result<Vec<u8>, AllocError> {
    let mut told = report.into_inner().taken;
    told.extend_from_slice(&place.into_inner().taken)?;
    match answer {
        Ok(outcome) => {
            push_all(&mut told, b"accepted", &outcome.accepted)?;
            push_all(&mut told, b"costs", &outcome.costs)?;
            push_all(&mut told, b"redone", &[outcome.redone])?;
            push_ending(&mut told, &outcome.ending)?;
        }
        Err(fault) => {
            let line = fault_line(alloc, &fault, inputs.net)?;
            told.extend_from_slice(&line)?;
        }
    }
    Ok(told)
}

// The same for a run whose two writers take this many bytes.
pub fn run_narrow(
    rt: &(impl AllocGlobal + Threads + Wait + Sync),
    inputs: &Inputs,
    options: &Options,
    rooms: (usize, usize),
) -> Result<Vec<u8>, AllocError> {
    let alloc = rt.alloc();
    let mut report = writer_with(alloc, rooms.0);
    let mut place = writer_with(alloc, rooms.1);
    let answer = place_run(rt, inputs, options, &mut report, &mut place);
    told_of(alloc, inputs, report, place, answer)
}

pub fn run(
    rt: &(impl AllocGlobal + Threads + Wait + Sync),
    inputs: &Inputs,
    options: &Options,
) -> Result<Vec<u8>, AllocError> {
    run_narrow(rt, inputs, options, (10_000, 10_000))
}

const NO_MOVE: &[u8] = b"accepted\ncosts 40000 40000 40000 40000 40000 40000\nredone 0\n";

#[test]
fn blocks_that_cannot_move_are_placed(rt: HostRuntime) -> Result<(), Fail> {
    let wanted = [REPORT, PLACE, NO_MOVE].concat(rt.alloc())?;
    for seed in [0, 1, u64::MAX] {
        let left = run(&rt, &INPUTS, &Options { seed, ..OPTIONS })?;
        assert_eq!(rt; left, wanted);
    }
    Ok(())
}

#[test]
fn batch_and_workers_change_nothing(rt: HostRuntime) -> Result<(), Fail> {
    let wanted = [REPORT, PLACE, NO_MOVE].concat(rt.alloc())?;
    for (batch, workers) in [(4096, 64), (1, 1)] {
        let options = Options {
            batch,
            workers,
            ..OPTIONS
        };
        assert_eq!(rt; run(&rt, &INPUTS, &options)?, wanted);
    }
    Ok(())
}

#[test]
fn a_cold_start_is_frozen(rt: HostRuntime) -> Result<(), Fail> {
    let report: &[u8] = b"blocks 3 logic 1 pads 2 nets 2 array 1 x 1
start cost 4.0000
frozen range 1.000 moves 3 accepted 0 cost 4.0000
final cost 4.0000 accepted 0 of 3
";
    let wanted = [report, PLACE, b"accepted\ncosts 40000 40000\nredone 0\n"].concat(rt.alloc())?;
    let options = Options {
        init_t: 5000,
        ..OPTIONS
    };
    assert_eq!(rt; run(&rt, &INPUTS, &options)?, wanted);
    Ok(())
}

#[test]
fn no_block_is_placed_too(rt: HostRuntime) -> Result<(), Fail> {
    let wanted: &[u8] = b"blocks 0 logic 0 pads 0 nets 0 array 1 x 1
start cost 0.0000
frozen range 1.000 moves 1 accepted 0 cost 0.0000
final cost 0.0000 accepted 0 of 1
Netlist file: t.net   Architecture file: t.arch
Array size: 1 x 1 logic blocks

#block name\tx\ty\tsubblk\tblock number
#----------\t--\t--\t------\t------------
accepted
costs 0 0
redone 0
";
    let inputs = Inputs {
        net: b"",
        pads: None,
        ..INPUTS
    };
    let options = Options {
        init_t: 5000,
        moves: Moves::Inner(10),
        ..OPTIONS
    };
    assert_eq!(rt; run(&rt, &inputs, &options)?.as_slice(), wanted);
    Ok(())
}

// The line of the fault that a run is refused with.
fn refused(
    rt: &(impl AllocGlobal + Threads + Wait + Sync),
    inputs: &Inputs,
    options: &Options,
    line: &[u8],
) -> Result<bool, AllocError> {
    Ok(run(rt, inputs, options)?.as_slice() == line)
}

#[test]
fn the_first_fault_is_told(rt: HostRuntime) -> Result<(), Fail> {
    // Each row corrects what the row before is refused for.
    let bad_label = Labels {
        net: b"t net",
        arch: b"t.arch",
    };
    let worst = Inputs {
        arch: b"",
        net: b"q",
        pads: Some(b"q"),
        labels: bad_label,
    };
    let wrong = Options {
        seed: 1,
        size: Some((0, 1)),
        init_t: 0,
        exit_t: 0,
        cooling: Cooling::Factor(0),
        moves: Moves::Inner(0),
        batch: 0,
        workers: 0,
        stop: Some(0),
    };
    let no_net = Inputs {
        arch: ARCH,
        ..worst
    };
    let no_pads = Inputs { net: NET, ..no_net };
    let large = Options {
        size: Some((1, 1)),
        ..wrong
    };
    let no_label = Inputs {
        pads: Some(PADS),
        ..no_pads
    };
    assert!(rt; refused(&rt, &worst, &wrong, b"vplace: arch: A1 NoIoRat")?);
    assert!(rt; refused(&rt, &no_net, &wrong, b"vplace: net: N1 UnknownWord line 1")?);
    assert!(rt; refused(&rt, &no_pads, &wrong, b"vplace: size: G3 SizeOutOfRange")?);
    assert!(rt; refused(&rt, &no_pads, &large, b"vplace: pads: P10 BadLine line 1")?);
    assert!(rt; refused(&rt, &no_label, &large, b"vplace: place: P11 BadLabel")?);
    assert!(rt; refused(&rt, &INPUTS, &large, b"vplace: schedule: S1 InitOutOfRange")?);
    Ok(())
}

#[test]
fn the_first_number_out_of_its_limits_is_told(rt: HostRuntime) -> Result<(), Fail> {
    let init = Options {
        exit_t: 0,
        cooling: Cooling::Factor(0),
        moves: Moves::Inner(0),
        batch: 4097,
        workers: 65,
        ..OPTIONS
    };
    let exit = Options { exit_t: 1, ..init };
    let alpha = Options {
        cooling: Cooling::Adaptive,
        ..exit
    };
    let moves = Options {
        moves: Moves::Inner(1),
        ..alpha
    };
    let batch = Options { batch: 1, ..moves };
    assert!(rt; refused(&rt, &INPUTS, &init, b"vplace: schedule: S2 ExitOutOfRange")?);
    assert!(rt; refused(&rt, &INPUTS, &exit, b"vplace: schedule: S3 AlphaOutOfRange")?);
    assert!(rt;
        refused(
            &rt,
            &INPUTS,
            &alpha,
            b"vplace: schedule: S4 MovesOutOfRange"
        )?
    );
    assert!(rt; refused(&rt, &INPUTS, &moves, b"vplace: option: O1 BatchOutOfRange")?);
    assert!(rt;
        refused(
            &rt,
            &INPUTS,
            &batch,
            b"vplace: option: O2 WorkersOutOfRange"
        )?
    );
    Ok(())
}

// A report that is cut leaves no place text, and a place text that is cut stands behind the whole report.
#[test]
fn a_writer_that_fails_has_taken_a_beginning(rt: HostRuntime) -> Result<(), Fail> {
    for room in 0..REPORT.len() {
        let left = run_narrow(&rt, &INPUTS, &OPTIONS, (room, 1000))?;
        let wanted = [&REPORT[..room], b"vplace: cannot write report"].concat(rt.alloc())?;
        assert_eq!(rt; left, wanted);
    }
    for room in 0..PLACE.len() {
        let left = run_narrow(&rt, &INPUTS, &OPTIONS, (1000, room))?;
        let wanted = [REPORT, &PLACE[..room], b"vplace: cannot write place"].concat(rt.alloc())?;
        assert_eq!(rt; left, wanted);
    }
    Ok(())
}

// What a run answered and wrote, whose two writers take at most so many bytes a call.
fn run_slowly(
    rt: &(impl AllocGlobal + Threads + Wait + Sync),
    steps: (usize, usize),
) -> Result<Vec<u8>, AllocError> {
    let alloc = rt.alloc();
    let mut report = slow_writer(alloc, 10_000, steps.0);
    let mut place = slow_writer(alloc, 10_000, steps.1);
    let answer = place_run(rt, &INPUTS, &OPTIONS, &mut report, &mut place);
    told_of(alloc, &INPUTS, report, place, answer)
}

#[test]
fn slow_writers_get_the_same_bytes(rt: HostRuntime) -> Result<(), Fail> {
    let wanted = [REPORT, PLACE, NO_MOVE].concat(rt.alloc())?;
    for steps in [(1, 1), (1, usize::MAX), (usize::MAX, 1), (7, 2)] {
        assert_eq!(rt; run_slowly(&rt, steps)?, wanted);
    }
    Ok(())
}

// A writer that takes none of the bytes has failed as one that answers a fault.
#[test]
fn a_writer_that_takes_nothing_is_told(rt: HostRuntime) -> Result<(), Fail> {
    let no_report: &[u8] = b"vplace: cannot write report";
    for place in [0, 1] {
        assert_eq!(rt; run_slowly(&rt, (0, place))?.as_slice(), no_report);
    }
    let wanted = [REPORT, b"vplace: cannot write place"].concat(rt.alloc())?;
    assert_eq!(rt; run_slowly(&rt, (1, 0))?, wanted);
    Ok(())
}

pub const SEVEN: Inputs<'static> = Inputs {
    arch: b"io_rat 1\ninpin class: 0 left\ninpin class: 0 top\noutpin class: 1 right\n",
    net: b".input a
pinlist: a
.input b
pinlist: b
.output out:z
pinlist: z
.clb x
pinlist: a b x
.clb y
pinlist: x a y
.clb z
pinlist: y x z
.clb w
pinlist: b y w
",
    pads: Some(b"a 0 1 0\nw 1 1 0\ny 2 2 0 free\n"),
    labels: Labels {
        net: b"s.net",
        arch: b"s.arch",
    },
};

pub const SHORT: Options = Options {
    seed: 0,
    size: Some((3, 2)),
    init_t: 20_000,
    exit_t: 5000,
    cooling: Cooling::Factor(500),
    moves: Moves::Given(8),
    batch: 16,
    workers: 3,
    stop: None,
};

#[test]
fn seven_blocks_are_placed_by_seed_zero(rt: HostRuntime) -> Result<(), Fail> {
    let wanted: &[u8] = b"blocks 7 logic 4 pads 3 nets 6 array 3 x 2
start cost 23.0000
stage 0 t 2.0000 range 3.000 moves 8 accepted 5 cost 20.0000
stage 1 t 1.0000 range 3.000 moves 8 accepted 2 cost 23.0000
stage 2 t 0.5000 range 2.430 moves 8 accepted 2 cost 23.0000
frozen range 1.968 moves 8 accepted 1 cost 23.0000
final cost 23.0000 accepted 10 of 32
Netlist file: s.net   Architecture file: s.arch
Array size: 3 x 2 logic blocks

#block name\tx\ty\tsubblk\tblock number
#----------\t--\t--\t------\t------------
a\t0\t1\t0\t#0
b\t4\t1\t0\t#1
out:z\t0\t2\t0\t#2
x\t3\t1\t0\t#3
y\t3\t2\t0\t#4
z\t2\t2\t0\t#5
w\t1\t1\t0\t#6
accepted 0 2 3 4 5 11 13 16 22 29
costs 230000 200000 230000 230000 230000
redone 11
";
    let options = Options { seed: 0, ..SHORT };
    assert_eq!(rt; run(&rt, &SEVEN, &options)?.as_slice(), wanted);
    Ok(())
}

#[test]
fn seven_blocks_are_placed_by_seed_one(rt: HostRuntime) -> Result<(), Fail> {
    let wanted: &[u8] = b"blocks 7 logic 4 pads 3 nets 6 array 3 x 2
start cost 24.0000
stage 0 t 2.0000 range 3.000 moves 8 accepted 3 cost 24.0000
stage 1 t 1.0000 range 2.805 moves 8 accepted 6 cost 23.0000
stage 2 t 0.5000 range 3.000 moves 8 accepted 3 cost 22.0000
frozen range 2.805 moves 8 accepted 2 cost 21.0000
final cost 21.0000 accepted 14 of 32
Netlist file: s.net   Architecture file: s.arch
Array size: 3 x 2 logic blocks

#block name\tx\ty\tsubblk\tblock number
#----------\t--\t--\t------\t------------
a\t0\t1\t0\t#0
b\t2\t0\t0\t#1
out:z\t0\t2\t0\t#2
x\t2\t1\t0\t#3
y\t3\t1\t0\t#4
z\t2\t2\t0\t#5
w\t1\t1\t0\t#6
accepted 1 6 7 8 9 10 11 12 15 18 19 20 28 29
costs 240000 240000 230000 220000 210000
redone 14
";
    let options = Options { seed: 1, ..SHORT };
    assert_eq!(rt; run(&rt, &SEVEN, &options)?.as_slice(), wanted);
    Ok(())
}

#[test]
fn seven_blocks_are_placed_by_seed_the_last_number(rt: HostRuntime) -> Result<(), Fail> {
    let wanted: &[u8] = b"blocks 7 logic 4 pads 3 nets 6 array 3 x 2
start cost 20.0000
stage 0 t 2.0000 range 3.000 moves 8 accepted 6 cost 23.0000
stage 1 t 1.9000 range 3.000 moves 8 accepted 5 cost 21.0000
stage 2 t 1.8050 range 3.000 moves 8 accepted 5 cost 22.0000
stage 3 t 1.7147 range 3.000 moves 8 accepted 4 cost 23.0000
stage 4 t 1.6289 range 3.000 moves 8 accepted 4 cost 21.0000
stage 5 t 1.5474 range 3.000 moves 8 accepted 3 cost 23.0000
stage 6 t 1.4700 range 2.805 moves 8 accepted 4 cost 22.0000
stage 7 t 1.3965 range 2.973 moves 8 accepted 6 cost 22.0000
stage 8 t 1.3266 range 3.000 moves 8 accepted 4 cost 21.0000
stage 9 t 1.2602 range 3.000 moves 8 accepted 5 cost 24.0000
stage 10 t 1.1971 range 3.000 moves 8 accepted 5 cost 22.0000
stage 11 t 1.1372 range 3.000 moves 8 accepted 3 cost 23.0000
stage 12 t 1.0803 range 2.805 moves 8 accepted 3 cost 24.0000
stage 13 t 1.0262 range 2.622 moves 8 accepted 4 cost 22.0000
stage 14 t 0.9748 range 2.779 moves 8 accepted 3 cost 21.0000
stage 15 t 0.9260 range 2.598 moves 8 accepted 3 cost 22.0000
stage 16 t 0.8797 range 2.429 moves 8 accepted 1 cost 21.0000
stage 17 t 0.8357 range 1.663 moves 8 accepted 1 cost 20.0000
stage 18 t 0.7939 range 1.139 moves 8 accepted 1 cost 20.0000
stage 19 t 0.7542 range 1.000 moves 8 accepted 1 cost 20.0000
stage 20 t 0.6033 range 1.000 moves 8 accepted 1 cost 20.0000
frozen range 1.000 moves 8 accepted 5 cost 20.0000
final cost 20.0000 accepted 77 of 176
Netlist file: s.net   Architecture file: s.arch
Array size: 3 x 2 logic blocks

#block name\tx\ty\tsubblk\tblock number
#----------\t--\t--\t------\t------------
a\t0\t1\t0\t#0
b\t1\t3\t0\t#1
out:z\t0\t2\t0\t#2
x\t1\t2\t0\t#3
y\t2\t1\t0\t#4
z\t2\t2\t0\t#5
w\t1\t1\t0\t#6
accepted 0 1 2 3 5 7 8 10 13 14 15 16 18 20 22 23 24 26 27 29 32 33 38 39 44 45 47 49 50 51 52 56 59 60 61 62 63 65 67 68 69 74 76 77 78 79 80 81 83 84 85 88 89 91 96 99 103 104 106 107 108 116 117 118 121 125 126 132 138 147 154 167 168 170 171 172 174
costs 200000 230000 210000 220000 230000 210000 230000 220000 220000 210000 240000 220000 230000 240000 220000 210000 220000 210000 200000 200000 200000 200000 200000
redone 86
";
    let options = Options {
        seed: u64::MAX,
        cooling: Cooling::Adaptive,
        ..SHORT
    };
    assert_eq!(rt; run(&rt, &SEVEN, &options)?.as_slice(), wanted);
    Ok(())
}

// How many moves a run judges again, as the reference counts them.
pub fn redone(
    rt: &(impl AllocGlobal + Threads + Wait + Sync),
    options: &Options,
) -> Result<u64, RunFault> {
    let mut report = writer_with(rt.alloc(), 10_000);
    let mut place = writer_with(rt.alloc(), 10_000);
    Ok(place_run(rt, &SEVEN, options, &mut report, &mut place)?.redone)
}

#[test]
fn the_batch_alone_tells_what_is_judged_again(rt: HostRuntime) -> Result<(), Fail> {
    for (seed, batch, wanted) in [(0, 1, 4), (0, 3, 11), (1, 1, 9), (1, 3, 13), (1, 16, 14)] {
        for workers in [1, 5] {
            let options = Options {
                seed,
                batch,
                workers,
                ..SHORT
            };
            assert_eq!(rt; redone(&rt, &options)?, wanted);
        }
    }
    Ok(())
}
