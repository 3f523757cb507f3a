// Checkpoint texts, read and written again. What is expected was made by an independent placer, written in another language, or
// worked out by hand.

use crate::narrow::Narrow;
use crate::run_tests::{ARCH, NET, slow_writer, writer_with};
use crate::{RunFault, fault_line, read_point, write_point};
use fab_arch::{Arch, read_arch};
use fab_net::{Design, read_net};
use fab_text::Counted;
use std::alloc::{AllocError, Global};
use std::process::Abort;
use std::test::*;

pub const FIRST: &[u8] = b"vplace point 1
seed 1
array 1 x 1 io_rat 1
schedule 100000 10000 500 3
stage 1 done 2 accepted 0
range 1000
total 0
fixed 2
a fixed
z fixed
places 3
a 0 1 0
z 2 1 0
b 1 1 0
end
";

pub const SECOND: &[u8] = b"vplace point 2
seed 1
array 1 x 1 io_rat 1
schedule 100000 10000 500 3
stage 1 done 2 accepted 0
temperature 50000
range 1000
total 0
fixed 2
a fixed
z fixed
places 3
a 0 1 0
z 2 1 0
b 1 1 0
end
";

pub const BY_ACCEPTANCE: &[u8] = b"vplace point 2
seed 1
array 1 x 1 io_rat 1
schedule 100000 10000 adaptive 3
stage 1 done 2 accepted 0
temperature 80000
range 1000
total 0
fixed 2
a fixed
z fixed
places 3
a 0 1 0
z 2 1 0
b 1 1 0
end
";

// Reads a checkpoint text and writes its point again, by this writer. If either fails, the line of the fault follows.
fn told_of(
    alloc: Global,
    arch: &Arch,
    design: &Design,
    text: &[u8],
    mut out: Counted<Narrow>,
) -> Result<Vec<u8>, AllocError> {
    let made = match read_point(alloc, text, arch, design) {
        Ok((seed, grid, point)) => write_point(alloc, &mut out, seed, design, &grid, &point),
        Err(fault) => Err(fault),
    };
    let mut told = out.into_inner().taken;
    if let Err(fault) = made {
        let line = fault_line(alloc, &RunFault::Point(fault), b"")?;
        told.extend_from_slice(&line)?;
    }
    Ok(told)
}

fn told_by(alloc: Global, net: &[u8], text: &[u8], out: Counted<Narrow>) -> Result<Vec<u8>, Fail> {
    let Ok(arch) = read_arch(alloc, ARCH) else {
        return Err(Fail::from("no architecture"));
    };
    let Ok(design) = read_net(alloc, net, &arch) else {
        return Err(Fail::from("no netlist"));
    };
    Ok(told_of(alloc, &arch, &design, text, out)?)
}

// The same by a writer that takes `room` bytes.
fn told_within(alloc: Global, net: &[u8], text: &[u8], room: usize) -> Result<Vec<u8>, Fail> {
    told_by(alloc, net, text, writer_with(alloc, room))
}

fn told(alloc: Global, text: &[u8]) -> Result<Vec<u8>, Fail> {
    told_within(alloc, NET, text, 10_000)
}

// The text with this line in place of the one with this number, from 1.
fn with_line(
    alloc: Global,
    text: &[u8],
    number: usize,
    line: &[u8],
) -> Result<Vec<u8>, AllocError> {
    let mut made = Vec::new(alloc);
    let mut at: usize = 1;
    for byte in text {
        if at != number {
            made.push(*byte)?;
        }
        if *byte == b'\n' {
            if at == number {
                made.extend_from_slice(line)?;
                made.push(b'\n')?;
            }
            at = at.saturating_add(1);
        }
    }
    Ok(made)
}

type Row = (usize, &'static [u8], &'static [u8]);

fn assert_rows(rt: &(impl Abort + AllocGlobal), base: &[u8], rows: &[Row]) -> Result<(), Fail> {
    for (number, line, wanted) in rows {
        let text = with_line(rt.alloc(), base, *number, line)?;
        assert_eq!(rt; told(rt.alloc(), &text)?.as_slice(), *wanted);
    }
    Ok(())
}

const HEAD: [Row; 34] = [
    (1, b"vplace point 3", b"vplace: point: C1 BadVersion"),
    (1, b"vplace point 01", b"vplace: point: C1 BadVersion"),
    (1, b"vplace point", b"vplace: point: C1 BadVersion"),
    (1, b"vplace point 1 1", b"vplace: point: C1 BadVersion"),
    (1, b"vplace points 1", b"vplace: point: C1 BadVersion"),
    (1, b"# nothing", b"vplace: point: C1 BadVersion"),
    (2, b"seed", b"vplace: point: C2 BadField line 2"),
    (2, b"seed 1 1", b"vplace: point: C2 BadField line 2"),
    (2, b"seeds 1", b"vplace: point: C2 BadField line 2"),
    (2, b"seed x", b"vplace: point: C2 BadField line 2"),
    (2, b"seed -1", b"vplace: point: C2 BadField line 2"),
    (
        2,
        b"seed 18446744073709551616",
        b"vplace: point: C2 BadField line 2",
    ),
    (2, b"# no seed", b"vplace: point: C2 BadField line 3"),
    (
        3,
        b"array 1 x 1 io_rat",
        b"vplace: point: C2 BadField line 3",
    ),
    (
        3,
        b"array 1 y 1 io_rat 1",
        b"vplace: point: C2 BadField line 3",
    ),
    (3, b"array 1 x 1 io 1", b"vplace: point: C2 BadField line 3"),
    (
        3,
        b"array 1 x 1 io_rat 1 1",
        b"vplace: point: C2 BadField line 3",
    ),
    (
        3,
        b"array 0 x 1 io_rat 1",
        b"vplace: point: C3 OutOfRange field array",
    ),
    (
        3,
        b"array 1 x 0 io_rat 1",
        b"vplace: point: C3 OutOfRange field array",
    ),
    (
        3,
        b"array 1001 x 1 io_rat 1",
        b"vplace: point: C3 OutOfRange field array",
    ),
    (
        3,
        b"array 1 x 1001 io_rat 1",
        b"vplace: point: C3 OutOfRange field array",
    ),
    (
        3,
        b"array 65537 x 1 io_rat 1",
        b"vplace: point: C3 OutOfRange field array",
    ),
    (
        3,
        b"array 1 x 1 io_rat 2",
        b"vplace: point: C3 OutOfRange field array",
    ),
    (
        3,
        b"array 1 x 1 io_rat 65537",
        b"vplace: point: C3 OutOfRange field array",
    ),
    (
        4,
        b"schedule 100000 10000 500",
        b"vplace: point: C2 BadField line 4",
    ),
    (
        4,
        b"schedule 0 10000 500 3",
        b"vplace: point: C3 OutOfRange field schedule",
    ),
    (
        4,
        b"schedule 1073741825 10000 500 3",
        b"vplace: point: C3 OutOfRange field schedule",
    ),
    (
        4,
        b"schedule 100000 0 500 3",
        b"vplace: point: C3 OutOfRange field schedule",
    ),
    (
        4,
        b"schedule 100000 1073741825 500 3",
        b"vplace: point: C3 OutOfRange field schedule",
    ),
    (
        4,
        b"schedule 100000 10000 0 3",
        b"vplace: point: C3 OutOfRange field schedule",
    ),
    (
        4,
        b"schedule 100000 10000 1000 3",
        b"vplace: point: C3 OutOfRange field schedule",
    ),
    (
        4,
        b"schedule 100000 10000 500 0",
        b"vplace: point: C3 OutOfRange field schedule",
    ),
    (
        4,
        b"schedule 100000 10000 500 1073741825",
        b"vplace: point: C3 OutOfRange field schedule",
    ),
    (
        4,
        b"schedule 100000 10000 adaptive 3",
        b"vplace: point: C2 BadField line 4",
    ),
];

#[test]
fn faults_of_the_head(rt: HostRuntime) -> Result<(), Fail> {
    assert_rows(&rt, FIRST, &HEAD)
}

const STAGE: [Row; 15] = [
    (5, b"stage 1", b"vplace: point: C2 BadField line 5"),
    (
        5,
        b"stage 1 done 2 accepted",
        b"vplace: point: C2 BadField line 5",
    ),
    (
        5,
        b"stage 1 made 2 accepted 0",
        b"vplace: point: C2 BadField line 5",
    ),
    (
        5,
        b"stage 5 done 0 accepted 0",
        b"vplace: point: C3 OutOfRange field stage",
    ),
    (
        5,
        b"stage 1 done 3 accepted 0",
        b"vplace: point: C3 OutOfRange field stage",
    ),
    (
        5,
        b"stage 1 done 2 accepted 3",
        b"vplace: point: C3 OutOfRange field stage",
    ),
    (
        5,
        b"stage 1 done 2 accepted 1",
        b"vplace: point: C3 OutOfRange field total",
    ),
    (
        5,
        b"stage 18446744073709551615 done 0 accepted 0",
        b"vplace: point: C3 OutOfRange field stage",
    ),
    (6, b"range", b"vplace: point: C2 BadField line 6"),
    (6, b"range 999", b"vplace: point: C3 OutOfRange field range"),
    (
        6,
        b"range 1001",
        b"vplace: point: C3 OutOfRange field range",
    ),
    (
        6,
        b"temperature 50000",
        b"vplace: point: C2 BadField line 6",
    ),
    (7, b"total", b"vplace: point: C2 BadField line 7"),
    (7, b"total 6", b"vplace: point: C3 OutOfRange field total"),
    (
        7,
        b"total 18446744073709551615",
        b"vplace: point: C3 OutOfRange field total",
    ),
];

#[test]
fn faults_of_the_stage(rt: HostRuntime) -> Result<(), Fail> {
    assert_rows(&rt, FIRST, &STAGE)
}

const FIXED: [Row; 10] = [
    (8, b"fixed", b"vplace: point: C2 BadField line 8"),
    (8, b"fixed 4", b"vplace: point: C3 OutOfRange field fixed"),
    (8, b"fixed 1", b"vplace: point: C2 BadField line 10"),
    (8, b"fixed 3", b"vplace: point: P10 BadLine line 11"),
    (9, b"a fixes", b"vplace: point: P10 BadLine line 9"),
    (9, b"a", b"vplace: point: P10 BadLine line 9"),
    (9, b"a fixed 1", b"vplace: point: P10 BadLine line 9"),
    (9, b"x fixed", b"vplace: point: P3 UnknownBlock line 9"),
    (10, b"a fixed", b"vplace: point: P4 Repeated line 10"),
    (10, b"b fixed", b"vplace: point: P9 NotAPad line 10"),
];

#[test]
fn faults_of_the_fixed_blocks(rt: HostRuntime) -> Result<(), Fail> {
    assert_rows(&rt, FIRST, &FIXED)
}

const PLACES: [Row; 17] = [
    (11, b"place 3", b"vplace: point: C2 BadField line 11"),
    (
        11,
        b"places 2",
        b"vplace: point: C3 OutOfRange field places",
    ),
    (
        11,
        b"places 4",
        b"vplace: point: C3 OutOfRange field places",
    ),
    (12, b"a 0 1", b"vplace: point: P10 BadLine line 12"),
    (12, b"a 0 1 0 free", b"vplace: point: P10 BadLine line 12"),
    (12, b"x 0 1 0", b"vplace: point: P3 UnknownBlock line 12"),
    (12, b"a 0 3 0", b"vplace: point: P5 NoSuchSite line 12"),
    (12, b"a 0 65536 0", b"vplace: point: P10 BadLine line 12"),
    (12, b"a 1 1 0", b"vplace: point: P6 WrongKind line 12"),
    (13, b"a 2 1 0", b"vplace: point: P4 Repeated line 13"),
    (13, b"z 0 1 0", b"vplace: point: P7 Taken line 13"),
    (14, b"b 1 1 1", b"vplace: point: P5 NoSuchSite line 14"),
    (14, b"b 0 1 0", b"vplace: point: P6 WrongKind line 14"),
    (15, b"ends", b"vplace: point: C2 BadField line 15"),
    (15, b"end end", b"vplace: point: C2 BadField line 15"),
    (15, b"end\nend", b"vplace: point: C2 BadField line 16"),
    (15, b"", b"vplace: point: C2 BadField line 0"),
];

#[test]
fn faults_of_the_places(rt: HostRuntime) -> Result<(), Fail> {
    assert_rows(&rt, FIRST, &PLACES)
}

const IN_THE_SECOND: [Row; 16] = [
    (1, b"vplace point 1", b"vplace: point: C2 BadField line 6"),
    (
        4,
        b"schedule 100000 10000 adaptively 3",
        b"vplace: point: C2 BadField line 4",
    ),
    (
        5,
        b"stage 5 done 0 accepted 0",
        b"vplace: point: C3 OutOfRange field stage",
    ),
    (6, b"temperature", b"vplace: point: C2 BadField line 6"),
    (
        6,
        b"temperature 49999",
        b"vplace: point: C3 OutOfRange field temperature",
    ),
    (
        6,
        b"temperature 50001",
        b"vplace: point: C3 OutOfRange field temperature",
    ),
    (
        6,
        b"temperature 0",
        b"vplace: point: C3 OutOfRange field temperature",
    ),
    (6, b"range 1000", b"vplace: point: C2 BadField line 6"),
    (7, b"range 999", b"vplace: point: C3 OutOfRange field range"),
    (8, b"total 6", b"vplace: point: C3 OutOfRange field total"),
    (9, b"fixed 4", b"vplace: point: C3 OutOfRange field fixed"),
    (11, b"a fixed", b"vplace: point: P4 Repeated line 11"),
    (11, b"x fixed", b"vplace: point: P3 UnknownBlock line 11"),
    (
        12,
        b"places 4",
        b"vplace: point: C3 OutOfRange field places",
    ),
    (13, b"a 1 1 0", b"vplace: point: P6 WrongKind line 13"),
    (
        16,
        b"end\n# over\nend",
        b"vplace: point: C2 BadField line 18",
    ),
];

#[test]
fn faults_of_the_second_version(rt: HostRuntime) -> Result<(), Fail> {
    assert_rows(&rt, SECOND, &IN_THE_SECOND)
}

const TEMPERATURES: [Row; 6] = [
    (
        5,
        b"stage 90002 done 0 accepted 0",
        b"vplace: point: C3 OutOfRange field stage",
    ),
    (
        5,
        b"stage 90001 done 0 accepted 0",
        b"vplace: point: C3 OutOfRange field temperature",
    ),
    (
        6,
        b"temperature 100000",
        b"vplace: point: C3 OutOfRange field temperature",
    ),
    (
        6,
        b"temperature 9999",
        b"vplace: point: C3 OutOfRange field temperature",
    ),
    (
        6,
        b"temperature 1",
        b"vplace: point: C3 OutOfRange field temperature",
    ),
    (
        5,
        b"stage 0 done 2 accepted 0",
        b"vplace: point: C3 OutOfRange field temperature",
    ),
];

#[test]
fn temperatures_by_acceptance(rt: HostRuntime) -> Result<(), Fail> {
    assert_rows(&rt, BY_ACCEPTANCE, &TEMPERATURES)
}

#[test]
fn both_versions_are_read_and_the_second_is_written(rt: HostRuntime) -> Result<(), Fail> {
    let alloc = rt.alloc();
    assert_eq!(rt; told(alloc, FIRST)?.as_slice(), SECOND);
    assert_eq!(rt; told(alloc, SECOND)?.as_slice(), SECOND);
    assert_eq!(rt; told(alloc, BY_ACCEPTANCE)?.as_slice(), BY_ACCEPTANCE);
    Ok(())
}

// Reads `base` with another line, and expects what is written for `base` itself, with the wanted lines in place.
fn assert_taken(
    rt: &(impl Abort + AllocGlobal),
    base: &[u8],
    number: usize,
    line: &[u8],
    wanted: &[(usize, &[u8])],
) -> Result<(), Fail> {
    let alloc = rt.alloc();
    let text = with_line(alloc, base, number, line)?;
    let mut whole = told(alloc, base)?;
    for (number, line) in wanted {
        whole = with_line(alloc, &whole, *number, line)?;
    }
    assert_eq!(rt; told(alloc, &text)?, whole);
    Ok(())
}

#[test]
fn other_lines_are_taken(rt: HostRuntime) -> Result<(), Fail> {
    assert_taken(&rt, SECOND, 11, b"b fixed", &[(11, b"b fixed")])?;
    for t in [
        b"temperature 99999" as &[u8],
        b"temperature 10000",
        b"temperature 0",
    ] {
        assert_taken(&rt, BY_ACCEPTANCE, 6, t, &[(6, t)])?;
    }
    let frozen: &[u8] = b"stage 4 done 2 accepted 0";
    assert_taken(&rt, FIRST, 5, frozen, &[(5, frozen), (6, b"temperature 0")])?;
    let start: &[u8] = b"stage 0 done 0 accepted 0";
    assert_taken(
        &rt,
        FIRST,
        5,
        start,
        &[(5, start), (6, b"temperature 100000")],
    )?;
    let seed: &[u8] = b"seed 18446744073709551615";
    assert_taken(&rt, FIRST, 2, seed, &[(2, seed)])?;
    assert_taken(&rt, FIRST, 2, b"seed 0001 # the first", &[])?;
    assert_taken(&rt, FIRST, 7, b"total 5", &[(8, b"total 5")])?;
    assert_taken(&rt, FIRST, 15, b"\tend\r", &[])?;
    Ok(())
}

#[test]
fn a_text_that_is_cut_is_refused(rt: HostRuntime) -> Result<(), Fail> {
    let whole = FIRST.len() - 1;
    for len in 0..whole {
        let answer = told(rt.alloc(), &FIRST[..len])?;
        assert!(rt; answer.starts_with(b"vplace: point: "));
    }
    assert_eq!(rt; told(rt.alloc(), &FIRST[..whole])?.as_slice(), SECOND);
    Ok(())
}

#[test]
fn a_writer_that_fails_has_taken_a_beginning(rt: HostRuntime) -> Result<(), Fail> {
    let alloc = rt.alloc();
    for room in 0..SECOND.len() {
        let answer = told_within(alloc, NET, FIRST, room)?;
        let line: &[u8] = b"vplace: cannot write point";
        let wanted = [&SECOND[..room], line].concat(alloc)?;
        assert_eq!(rt; answer, wanted);
    }
    Ok(())
}

#[test]
fn a_slow_writer_gets_the_whole_point(rt: HostRuntime) -> Result<(), Fail> {
    let alloc = rt.alloc();
    for step in [1, 2, 7] {
        let answer = told_by(alloc, NET, FIRST, slow_writer(alloc, 10_000, step))?;
        assert_eq!(rt; answer.as_slice(), SECOND);
    }
    Ok(())
}

#[test]
fn a_writer_that_takes_nothing_of_a_point_is_told(rt: HostRuntime) -> Result<(), Fail> {
    let alloc = rt.alloc();
    let answer = told_by(alloc, NET, FIRST, slow_writer(alloc, 8, 0))?;
    assert_eq!(rt; answer.as_slice(), b"vplace: cannot write point".as_slice());
    Ok(())
}

// Blocks with names that are words of the format, and one whose name ends with a backslash.
const ODD_NET: &[u8] =
    b".input open\npinlist: n1\n.output end\npinlist: n2\n.clb fixed\npinlist: n1 n2\n.clb a\\ b\npinlist: n2x n3\n.input free\npinlist: n2x\n.output places\npinlist: n3\n";

const ODD_POINT: &[u8] =
    b"vplace point 2\nseed 3\narray 2 x 2 io_rat 1\nschedule 9 1 500 4\nstage 2 done 3 accepted 2\ntemperature 2\nrange 1200\ntotal 7\nfixed 3\nopen fixed\nend fixed\na\\ fixed\nplaces 6\nopen 0 1 0\nend 0 2 0\nfixed 1 1 0\na\\ 2 2 0\nfree 3 1 0\nplaces 3 2 0\nend\n";

// The same point, with comments, joined lines, a carriage return, and the blocks in another order.
const LOOSE_POINT: &[u8] =
    b"# a point\nvplace point 2\r\nseed \\\n3\narray 2 x 2 io_rat 1 # the array\nschedule 9 1 500 4\n\nstage 2 done 3 accepted 2\ntemperature 2\nrange 1200\ntotal 7\nfixed 3\na\\ fixed\nend fixed\nopen fixed\nplaces 6\nplaces 3 2 0\nfree 3 1 0\na\\ 2 2 0\nfixed 1 1 0\nend 0 2 0\nopen 0 1 0\nend";

#[test]
fn odd_names_and_loose_lines_are_read(rt: HostRuntime) -> Result<(), Fail> {
    let alloc = rt.alloc();
    for text in [ODD_POINT, LOOSE_POINT] {
        assert_eq!(rt;
            told_within(alloc, ODD_NET, text, 10_000)?.as_slice(),
            ODD_POINT
        );
    }
    Ok(())
}
