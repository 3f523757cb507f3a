// Texts that are cut: each beginning of two designs' texts, with its fault or as it is taken. The faults and the lengths to which they hold
// were told by an independent placer's readers.

use crate::{PlaceFault, read_pins, read_place};
use fab_arch::{ArchFault, Grid, read_arch};
use fab_net::{Design, NetFault, read_net};
use fab_text::Span;
use std::alloc::Global;
use std::process::Abort;
use std::test::*;

// A pad and three logic blocks on one net, and their places.
const STAR_ARCH: &[u8] = b"io_rat 2\nchan_width_io 1\ninpin class: 0 left\n";

const STAR_NET: &[u8] =
    b".input a\npinlist: n\n.clb b1\npinlist: n\n.clb b2\npinlist: n\n.clb b3\npinlist: n\n";

const STAR_PLACE: &[u8] =
    b"Netlist file: x.net   Architecture file: x.arch\nArray size: 3 x 3 logic blocks\na 0 2 1\nb1 1 1 0\nb2 3 3 0\nb3 2 2 0\n";

// A pad, a logic block and a pad in a chain, their places as they are written, and where the pads are fixed.
pub const CHAIN_ARCH: &[u8] = b"io_rat 1\ninpin class: 0 left\noutpin class: 1 right\n";

pub const CHAIN_NET: &[u8] =
    b".input a\npinlist: n1\n.output z\npinlist: n2\n.clb b\npinlist: n1 n2\nsubblock: b 0 1\n";

pub const CHAIN_PLACE: &[u8] =
    b"Netlist file: t.net   Architecture file: t.arch\nArray size: 1 x 1 logic blocks\n\n#block name\tx\ty\tsubblk\tblock number\n#----------\t--\t--\t------\t------------\na\t0\t1\t0\t#0\nz\t2\t1\t0\t#1\nb\t1\t1\t0\t#2\n";

pub const CHAIN_PADS: &[u8] = b"a 0 1 0\nz 2 1 0\n";

// The answer of the first row that reaches to this length. A row has the greatest length for which its answer holds, and the fault.
fn answer_at<F: Copy>(rows: &[(usize, F)], len: usize) -> Option<F> {
    for (last, answer) in rows {
        if len <= *last {
            return Some(*answer);
        }
    }
    None
}

fn assert_architectures(
    rt: &(impl Abort + AllocGlobal),
    text: &[u8],
    rows: &[(usize, Option<ArchFault>)],
) {
    for len in 0..text.len() + 1 {
        let fault = read_arch(rt.alloc(), &text[..len]).err();
        assert_eq!(rt; Some(fault), answer_at(rows, len), "{len} bytes");
    }
}

const STAR_ARCH_CUT: [(usize, Option<ArchFault>); 7] = [
    (5, Some(ArchFault::NoIoRat)),
    (7, Some(ArchFault::BadNumber(1))),
    (29, Some(ArchFault::NoPins)),
    (36, Some(ArchFault::BadPinLine(3))),
    (38, Some(ArchFault::BadNumber(3))),
    (43, Some(ArchFault::BadPinLine(3))),
    (45, None),
];

const CHAIN_ARCH_CUT: [(usize, Option<ArchFault>); 11] = [
    (5, Some(ArchFault::NoIoRat)),
    (7, Some(ArchFault::BadNumber(1))),
    (13, Some(ArchFault::NoPins)),
    (20, Some(ArchFault::BadPinLine(2))),
    (22, Some(ArchFault::BadNumber(2))),
    (27, Some(ArchFault::BadPinLine(2))),
    (34, None),
    (41, Some(ArchFault::BadPinLine(3))),
    (43, Some(ArchFault::BadNumber(3))),
    (49, Some(ArchFault::BadPinLine(3))),
    (51, None),
];

#[test]
fn an_architecture_that_is_cut_has_its_fault(rt: HostRuntime) {
    assert_architectures(&rt, STAR_ARCH, &STAR_ARCH_CUT);
    assert_architectures(&rt, CHAIN_ARCH, &CHAIN_ARCH_CUT);
}

fn assert_netlists(
    rt: &(impl Abort + AllocGlobal),
    arch: &[u8],
    text: &[u8],
    rows: &[(usize, Option<NetFault>)],
) -> Result<(), Fail> {
    let arch = read_arch(rt.alloc(), arch)?;
    for len in 0..text.len() + 1 {
        let fault = read_net(rt.alloc(), &text[..len], &arch).err();
        assert_eq!(rt; Some(fault), answer_at(rows, len), "{len} bytes");
    }
    Ok(())
}

// The fault of a block without a pinlist, whose name lies from `start` to `stop`.
fn missing_pinlist(start: usize, stop: usize) -> Option<NetFault> {
    Some(NetFault::MissingPinlist(Span { start, stop }))
}

// The fault of a net without a driver, whose name first lies from `start` to `stop`.
fn no_driver(start: usize, stop: usize) -> Option<NetFault> {
    Some(NetFault::NoDriver(Span { start, stop }))
}

#[test]
fn a_netlist_that_is_cut_has_its_fault(rt: HostRuntime) -> Result<(), Fail> {
    let rows = [
        (0, None),
        (5, Some(NetFault::UnknownWord(1))),
        (7, Some(NetFault::NoName(1))),
        (9, missing_pinlist(7, 8)),
        (16, Some(NetFault::UnknownWord(2))),
        (18, Some(NetFault::PinCount(2))),
        (20, None),
        (23, Some(NetFault::UnknownWord(3))),
        (25, Some(NetFault::NoName(3))),
        (26, missing_pinlist(25, 26)),
        (28, missing_pinlist(25, 27)),
        (35, Some(NetFault::UnknownWord(4))),
        (37, Some(NetFault::PinCount(4))),
        (39, None),
        (42, Some(NetFault::UnknownWord(5))),
        (44, Some(NetFault::NoName(5))),
        (45, missing_pinlist(44, 45)),
        (47, missing_pinlist(44, 46)),
        (54, Some(NetFault::UnknownWord(6))),
        (56, Some(NetFault::PinCount(6))),
        (58, None),
        (61, Some(NetFault::UnknownWord(7))),
        (63, Some(NetFault::NoName(7))),
        (64, missing_pinlist(63, 64)),
        (66, missing_pinlist(63, 65)),
        (73, Some(NetFault::UnknownWord(8))),
        (75, Some(NetFault::PinCount(8))),
        (77, None),
    ];
    assert_netlists(&rt, STAR_ARCH, STAR_NET, &rows)
}

#[test]
fn a_netlist_with_drivers_that_is_cut_has_its_fault(rt: HostRuntime) -> Result<(), Fail> {
    let rows = [
        (0, None),
        (5, Some(NetFault::UnknownWord(1))),
        (7, Some(NetFault::NoName(1))),
        (9, missing_pinlist(7, 8)),
        (16, Some(NetFault::UnknownWord(2))),
        (18, Some(NetFault::PinCount(2))),
        (21, None),
        (27, Some(NetFault::UnknownWord(3))),
        (29, Some(NetFault::NoName(3))),
        (31, missing_pinlist(29, 30)),
        (38, Some(NetFault::UnknownWord(4))),
        (40, Some(NetFault::PinCount(4))),
        (41, no_driver(40, 41)),
        (43, no_driver(40, 42)),
        (46, Some(NetFault::UnknownWord(5))),
        (48, Some(NetFault::NoName(5))),
        (50, missing_pinlist(48, 49)),
        (57, Some(NetFault::UnknownWord(6))),
        (62, Some(NetFault::PinCount(6))),
        (63, no_driver(40, 42)),
        (65, None),
        (73, Some(NetFault::UnknownWord(7))),
        (81, None),
    ];
    assert_netlists(&rt, CHAIN_ARCH, CHAIN_NET, &rows)
}

// Two texts of a design, and its array.
#[derive(Clone, Copy)]
struct World {
    arch: &'static [u8],
    net: &'static [u8],
    side: u16,
    io_rat: u16,
}

const STAR: World = World {
    arch: STAR_ARCH,
    net: STAR_NET,
    side: 3,
    io_rat: 2,
};

const CHAIN: World = World {
    arch: CHAIN_ARCH,
    net: CHAIN_NET,
    side: 1,
    io_rat: 1,
};

// The design and the array of its texts.
fn read_world(alloc: Global, world: World) -> Result<(Design, Grid), Fail> {
    let arch = read_arch(alloc, world.arch)?;
    let design = read_net(alloc, world.net, &arch)?;
    let grid = Grid::new(world.side, world.side, world.io_rat)?;
    Ok((design, grid))
}

fn assert_places(
    rt: &(impl Abort + AllocGlobal),
    world: World,
    text: &[u8],
    rows: &[(usize, Option<PlaceFault>)],
) -> Result<(), Fail> {
    let (design, grid) = read_world(rt.alloc(), world)?;
    for len in 0..text.len() + 1 {
        let fault = read_place(rt.alloc(), &text[..len], &design, &grid).err();
        assert_eq!(rt; Some(fault), answer_at(rows, len), "{len} bytes");
    }
    Ok(())
}

fn assert_locations(
    rt: &(impl Abort + AllocGlobal),
    world: World,
    text: &[u8],
    rows: &[(usize, Option<PlaceFault>)],
) -> Result<(), Fail> {
    let (design, grid) = read_world(rt.alloc(), world)?;
    for len in 0..text.len() + 1 {
        let fault = read_pins(rt.alloc(), &text[..len], &design, &grid).err();
        assert_eq!(rt; Some(fault), answer_at(rows, len), "{len} bytes");
    }
    Ok(())
}

const STAR_PLACE_CUT: [(usize, Option<PlaceFault>); 10] = [
    (77, Some(PlaceFault::BadHeader)),
    (79, Some(PlaceFault::Missing(0))),
    (85, Some(PlaceFault::BadLine(3))),
    (87, Some(PlaceFault::Missing(1))),
    (94, Some(PlaceFault::BadLine(4))),
    (96, Some(PlaceFault::Missing(2))),
    (103, Some(PlaceFault::BadLine(5))),
    (105, Some(PlaceFault::Missing(3))),
    (112, Some(PlaceFault::BadLine(6))),
    (114, None),
];

const CHAIN_PLACE_CUT: [(usize, Option<PlaceFault>); 8] = [
    (77, Some(PlaceFault::BadHeader)),
    (154, Some(PlaceFault::Missing(0))),
    (160, Some(PlaceFault::BadLine(6))),
    (165, Some(PlaceFault::Missing(1))),
    (171, Some(PlaceFault::BadLine(7))),
    (176, Some(PlaceFault::Missing(2))),
    (182, Some(PlaceFault::BadLine(8))),
    (187, None),
];

const CHAIN_PADS_CUT: [(usize, Option<PlaceFault>); 5] = [
    (0, None),
    (6, Some(PlaceFault::BadLine(1))),
    (8, None),
    (14, Some(PlaceFault::BadLine(2))),
    (16, None),
];

// A place text is whole once the sub of its last block is there: what follows it is a comment.
#[test]
fn a_place_text_that_is_cut_has_its_fault(rt: HostRuntime) -> Result<(), Fail> {
    assert_places(&rt, STAR, STAR_PLACE, &STAR_PLACE_CUT)?;
    assert_places(&rt, CHAIN, CHAIN_PLACE, &CHAIN_PLACE_CUT)
}

#[test]
fn a_location_text_that_is_cut_has_its_fault(rt: HostRuntime) -> Result<(), Fail> {
    assert_locations(&rt, CHAIN, CHAIN_PADS, &CHAIN_PADS_CUT)
}
