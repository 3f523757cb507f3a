use crate::narrow::Narrow;
use crate::run_tests::{ARCH, NET, slow_writer, writer_with};
use crate::{RunFault, check_run, fault_line};
use fab_arch::{ArchFault, GridFault};
use fab_file::PlaceFault;
use fab_net::NetFault;
use fab_text::{Counted, Span};
use std::alloc::{AllocError, Global};
use std::process::Abort;
use std::test::*;

// Six words: `b1` from 5 to 7, `n2` from 25 to 27.
const NAMED_NET: &[u8] = b".clb b1\n.clb b2\npinlist: n2\n";

fn assert_lines(
    rt: &(impl Abort + AllocGlobal),
    told: &[(RunFault, &[u8])],
) -> Result<(), AllocError> {
    for (fault, line) in told {
        let made = fault_line(rt.alloc(), fault, NAMED_NET)?;
        assert_eq!(rt; made.as_slice(), *line);
    }
    Ok(())
}

#[test]
fn faults_of_the_architecture_are_told(rt: HostRuntime) -> Result<(), Fail> {
    let told: [(RunFault, &[u8]); 7] = [
        (ArchFault::NoIoRat.into(), b"vplace: arch: A1 NoIoRat"),
        (
            ArchFault::RepeatedIoRat(2).into(),
            b"vplace: arch: A2 RepeatedIoRat line 2",
        ),
        (
            ArchFault::BadNumber(4).into(),
            b"vplace: arch: A3 BadNumber line 4",
        ),
        (
            ArchFault::BadPinLine(5).into(),
            b"vplace: arch: A4 BadPinLine line 5",
        ),
        (ArchFault::NoPins.into(), b"vplace: arch: A5 NoPins"),
        (
            ArchFault::TooLarge(1026).into(),
            b"vplace: arch: A6 TooLarge line 1026",
        ),
        (ArchFault::NoMemory.into(), b"vplace: no memory"),
    ];
    assert_lines(&rt, &told)?;
    Ok(())
}

#[test]
fn faults_of_the_netlist_are_told(rt: HostRuntime) -> Result<(), Fail> {
    let block = Span { start: 5, stop: 7 };
    let net = Span {
        start: 25,
        stop: 27,
    };
    let told: [(RunFault, &[u8]); 11] = [
        (
            NetFault::UnknownWord(1).into(),
            b"vplace: net: N1 UnknownWord line 1",
        ),
        (NetFault::NoName(2).into(), b"vplace: net: N2 NoName line 2"),
        (
            NetFault::PinlistWithoutBlock(3).into(),
            b"vplace: net: N3 PinlistWithoutBlock line 3",
        ),
        (
            NetFault::MissingPinlist(block).into(),
            b"vplace: net: N4 MissingPinlist name b1",
        ),
        (
            NetFault::PinCount(6).into(),
            b"vplace: net: N5 PinCount line 6",
        ),
        (
            NetFault::SubblockWithoutLogic(7).into(),
            b"vplace: net: N6 SubblockWithoutLogic line 7",
        ),
        (
            NetFault::DuplicateBlock(8).into(),
            b"vplace: net: N7 DuplicateBlock line 8",
        ),
        (
            NetFault::NoDriver(net).into(),
            b"vplace: net: N8 NoDriver name n2",
        ),
        (
            NetFault::TwoDrivers(net).into(),
            b"vplace: net: N9 TwoDrivers name n2",
        ),
        (
            NetFault::TooLarge(131_071).into(),
            b"vplace: net: N10 TooLarge line 131071",
        ),
        (NetFault::NoMemory.into(), b"vplace: no memory"),
    ];
    assert_lines(&rt, &told)?;
    Ok(())
}

#[test]
fn faults_of_the_placement_are_told(rt: HostRuntime) -> Result<(), Fail> {
    let told: [(RunFault, &[u8]); 13] = [
        (PlaceFault::BadHeader.into(), b"vplace: place: P1 BadHeader"),
        (PlaceFault::WrongSize.into(), b"vplace: place: P2 WrongSize"),
        (
            PlaceFault::UnknownBlock(3).into(),
            b"vplace: place: P3 UnknownBlock line 3",
        ),
        (
            PlaceFault::Repeated(4).into(),
            b"vplace: place: P4 Repeated line 4",
        ),
        (
            PlaceFault::NoSuchSite(5).into(),
            b"vplace: place: P5 NoSuchSite line 5",
        ),
        (
            PlaceFault::WrongKind(6).into(),
            b"vplace: place: P6 WrongKind line 6",
        ),
        (
            PlaceFault::Taken(7).into(),
            b"vplace: place: P7 Taken line 7",
        ),
        (
            PlaceFault::Missing(2).into(),
            b"vplace: place: P8 Missing block 2",
        ),
        (
            PlaceFault::NotAPad(9).into(),
            b"vplace: place: P9 NotAPad line 9",
        ),
        (
            PlaceFault::BadLine(10).into(),
            b"vplace: place: P10 BadLine line 10",
        ),
        (PlaceFault::BadLabel.into(), b"vplace: place: P11 BadLabel"),
        (PlaceFault::Write.into(), b"vplace: cannot write place"),
        (PlaceFault::NoMemory.into(), b"vplace: no memory"),
    ];
    assert_lines(&rt, &told)?;
    Ok(())
}

#[test]
fn faults_of_size_memory_and_writing_are_told(rt: HostRuntime) -> Result<(), Fail> {
    let told: [(RunFault, &[u8]); 7] = [
        (
            GridFault::TooFewLogicSites.into(),
            b"vplace: size: G1 TooFewLogicSites",
        ),
        (
            GridFault::TooFewPadSites.into(),
            b"vplace: size: G2 TooFewPadSites",
        ),
        (
            GridFault::SizeOutOfRange.into(),
            b"vplace: size: G3 SizeOutOfRange",
        ),
        (RunFault::Report, b"vplace: cannot write report"),
        (RunFault::NoMemory, b"vplace: no memory"),
        (RunFault::Arch(ArchFault::NoMemory), b"vplace: no memory"),
        (RunFault::Net(NetFault::NoMemory), b"vplace: no memory"),
    ];
    assert_lines(&rt, &told)?;
    Ok(())
}

#[test]
fn a_name_of_any_bytes_is_told(rt: HostRuntime) -> Result<(), Fail> {
    let fault: RunFault = NetFault::NoDriver(Span { start: 1, stop: 3 }).into();
    let line = fault_line(rt.alloc(), &fault, b" \xff\x01 ")?;
    assert_eq!(rt;
        line.as_slice(),
        b"vplace: net: N8 NoDriver name \xff\x01".as_slice()
    );
    let line = fault_line(rt.alloc(), &fault, b" ")?;
    assert_eq!(rt;
        line.as_slice(),
        b"vplace: net: N8 NoDriver name ".as_slice()
    );
    Ok(())
}

const PAIR_PLACE: &[u8] =
    b"Netlist file: t.net Architecture file: t.arch\nArray size: 1 x 1 logic blocks\na 0 1 0\nz 2 1 0\nb 1 1 0\n";

const PAIR_REPORT: &[u8] = b"legal 3 blocks on a 1 x 1 array\ncost 4.0000\n";

// What a check answers, and what it wrote to this writer.
fn check_by(
    alloc: Global,
    texts: [&[u8]; 3],
    mut report: Counted<Narrow>,
) -> (Result<u64, RunFault>, Vec<u8>) {
    let answer = check_run(alloc, texts[0], texts[1], texts[2], &mut report);
    (answer, report.into_inner().taken)
}

// The same with a writer that takes `room` bytes.
fn check(alloc: Global, texts: [&[u8]; 3], room: usize) -> (Result<u64, RunFault>, Vec<u8>) {
    check_by(alloc, texts, writer_with(alloc, room))
}

#[test]
fn lawful_texts_are_reported(rt: HostRuntime) -> Result<(), Fail> {
    let empty: &[u8] = b"Netlist file: t Architecture file: t\nArray size: 1 x 1 logic blocks\n";
    let rows: [([&[u8]; 3], u64, &[u8]); 2] = [
        ([ARCH, NET, PAIR_PLACE], 40_000, PAIR_REPORT),
        (
            [ARCH, b"", empty],
            0,
            b"legal 0 blocks on a 1 x 1 array\ncost 0.0000\n",
        ),
    ];
    for (texts, cost, written) in rows {
        let (answer, report) = check(rt.alloc(), texts, 1000);
        assert_eq!(rt; answer, Ok(cost));
        assert_eq!(rt; report.as_slice(), written);
    }
    Ok(())
}

#[test]
fn the_first_check_that_fails_is_answered(rt: HostRuntime) -> Result<(), Fail> {
    let huge: &[u8] =
        b"Netlist file: t Architecture file: t\nArray size: 1001 x 1 logic blocks\nq\n";
    let crowded: &[u8] = b".clb b\npinlist: open n1\n.clb c\npinlist: n1 n2\n";
    let small: &[u8] = b"Netlist file: t Architecture file: t\nArray size: 1 x 1 logic blocks\nq\n";
    let pads: &[u8] =
        b".input a\npinlist: a\n.input b\npinlist: b\n.input c\npinlist: c\n.input d\npinlist: d\n.input e\npinlist: e\n";
    let rows: [([&[u8]; 3], RunFault); 7] = [
        ([b"", b"x", b""], ArchFault::NoIoRat.into()),
        ([ARCH, b"x", b""], NetFault::UnknownWord(1).into()),
        ([ARCH, crowded, b""], PlaceFault::BadHeader.into()),
        ([ARCH, crowded, huge], GridFault::SizeOutOfRange.into()),
        ([ARCH, crowded, small], GridFault::TooFewLogicSites.into()),
        ([ARCH, pads, small], GridFault::TooFewPadSites.into()),
        ([ARCH, NET, small], PlaceFault::BadLine(3).into()),
    ];
    for (texts, fault) in rows {
        let (answer, report) = check(rt.alloc(), texts, 1000);
        assert_eq!(rt; answer, Err(fault));
        assert!(rt; report.is_empty());
    }
    Ok(())
}

#[test]
fn a_report_that_fails_is_told(rt: HostRuntime) -> Result<(), Fail> {
    let whole = PAIR_REPORT;
    for room in 0..whole.len() {
        let (answer, report) = check(rt.alloc(), [ARCH, NET, PAIR_PLACE], room);
        assert_eq!(rt; answer, Err(RunFault::Report));
        assert_eq!(rt; report.as_slice(), &whole[..room]);
    }
    Ok(())
}

#[test]
fn a_slow_writer_gets_the_whole_report(rt: HostRuntime) -> Result<(), Fail> {
    let alloc = rt.alloc();
    for step in [1, 2, 7] {
        let out = slow_writer(alloc, 1000, step);
        let (answer, report) = check_by(alloc, [ARCH, NET, PAIR_PLACE], out);
        assert_eq!(rt; answer, Ok(40_000));
        assert_eq!(rt; report.as_slice(), PAIR_REPORT);
    }
    Ok(())
}

#[test]
fn a_writer_that_takes_nothing_of_a_report_is_told(rt: HostRuntime) -> Result<(), Fail> {
    let out = slow_writer(rt.alloc(), 8, 0);
    let (answer, report) = check_by(rt.alloc(), [ARCH, NET, PAIR_PLACE], out);
    assert_eq!(rt; answer, Err(RunFault::Report));
    assert!(rt; report.is_empty());
    Ok(())
}
