use crate::{Labels, PlaceFault, PlaceLines, place_size, read_pins, read_place, write_place};
use fab_arch::{Grid, Site, read_arch};
use fab_net::{BlockId, Design, read_net};
use fab_site::{ListWords, Pins, Placement, start};
use fab_text::{Counted, Lines, Sink};
use std::alloc::{AllocError, Global};
use std::io;
use std::io::Write;
use std::test::*;

// The size, or None if the header is refused; any other fault fails the test.
fn size(alloc: Global, text: &[u8]) -> Result<Option<(u16, u16)>, Fail> {
    match place_size(alloc, text) {
        Ok(sides) => Ok(Some(sides)),
        Err(PlaceFault::BadHeader) => Ok(None),
        Err(fault) => Err(fault.into()),
    }
}

#[test]
fn headers_give_the_size(rt: HostRuntime) -> Result<(), Fail> {
    let alloc = rt.alloc();
    let rows: [(&[u8], (u16, u16)); 4] = [
        (
            b"Netlist file: a.net   Architecture file: b.arch\nArray size: 3 x 4 logic blocks\n",
            (3, 4),
        ),
        (
            b"\n# made by hand\r\nNetlist file: a Architecture file: b\r\n\nArray size: 0 x 65535 logic blocks",
            (0, 65535),
        ),
        (
            b"Netlist file: \\\na Architecture file: b\nArray size: 007 x 1 logic blocks # then the blocks\nx y",
            (7, 1),
        ),
        (
            b"Netlist file: \xff Architecture file: file:\nArray size: 1000 x 1 logic blocks\nArray size: 2 x 2",
            (1000, 1),
        ),
    ];
    for (text, wanted) in rows {
        assert_eq!(rt; size(alloc, text)?, Some(wanted));
    }
    Ok(())
}

#[test]
fn other_headers_are_refused(rt: HostRuntime) -> Result<(), Fail> {
    let alloc = rt.alloc();
    let rows: [&[u8]; 12] = [
        b"",
        b"\n# nothing\n",
        b"Netlist file: a Architecture file: b\n",
        b"Array size: 3 x 3 logic blocks\nNetlist file: a Architecture file: b\n",
        b"Netlist file: Architecture file: b\nArray size: 3 x 3 logic blocks\n",
        b"Netlist file: a Architecture file: b c\nArray size: 3 x 3 logic blocks\n",
        b"netlist file: a Architecture file: b\nArray size: 3 x 3 logic blocks\n",
        b"Netlist file: a Architecture file: b\nArray size: 3 by 3 logic blocks\n",
        b"Netlist file: a Architecture file: b\nArray size: 3x3 logic blocks\n",
        b"Netlist file: a Architecture file: b\nArray size: 65536 x 3 logic blocks\n",
        b"Netlist file: a Architecture file: b\nArray size: 3 x -3 logic blocks\n",
        b"Netlist file: a Architecture file: b\na 1 0 0\nArray size: 3 x 3 logic blocks\n",
    ];
    for text in rows {
        assert_eq!(rt; size(alloc, text)?, None);
    }
    Ok(())
}

const ARCH: &[u8] = b"io_rat 1\ninpin class: 0 left\noutpin class: 1 right\n";

// A pad `a`, a pad `z` and a logic block `b`.
const NET: &[u8] =
    b".input a\npinlist: n1\n.output z\npinlist: n2\n.clb b\npinlist: n1 n2\nsubblock: b 0 1\n";

const HEADER: &[u8] =
    b"Netlist file: t.net   Architecture file: t.arch\nArray size: 1 x 1 logic blocks\n\n#block\n#-----\n";

fn site(x: u16, y: u16, sub: u16) -> Site {
    Site { x, y, sub }
}

fn design(alloc: Global) -> Result<Design, Fail> {
    let arch = read_arch(alloc, ARCH)?;
    Ok(read_net(alloc, NET, &arch)?)
}

// The result of reading a text, on one logic site.
fn read(alloc: Global, text: &[u8]) -> Result<Result<Placement, PlaceFault>, Fail> {
    let grid = Grid::new(1, 1, 1)?;
    let design = design(alloc)?;
    Ok(read_place(alloc, text, &design, &grid))
}

// The sites of three blocks.
fn three_sites(placement: &Placement) -> Option<[Site; 3]> {
    if placement.blocks() == 3 {
        Some([
            placement.site_of(BlockId(0)),
            placement.site_of(BlockId(1)),
            placement.site_of(BlockId(2)),
        ])
    } else {
        None
    }
}

// The sites that a text gives.
fn sites_in(alloc: Global, text: &[u8]) -> Result<Option<[Site; 3]>, Fail> {
    match read(alloc, text)? {
        Ok(placement) => Ok(three_sites(&placement)),
        Err(_) => Ok(None),
    }
}

// Why a text stands for no placement.
fn fault_in(alloc: Global, text: &[u8]) -> Result<Option<PlaceFault>, Fail> {
    Ok(read(alloc, text)?.err())
}

// The header and these lines.
fn text_of(alloc: Global, lines: &[u8]) -> Result<Vec<u8>, AllocError> {
    let mut text = Vec::from_slice(alloc, HEADER)?;
    text.extend_from_slice(lines)?;
    Ok(text)
}

#[test]
fn placements_are_read(rt: HostRuntime) -> Result<(), Fail> {
    let alloc = rt.alloc();
    let rows: [&[u8]; 4] = [
        b"a\t0\t1\t0\t#0\nz\t2\t1\t0\t#1\nb\t1\t1\t0\t#2\n",
        b"b 1 1 0\nz 2 1 0\na 0 1 0",
        b"z 2 \\\r\n 1 0\r\n\r\na 00 01 000 # left\nb 1 1 \\\n0\n",
        b"b 1 1 0 #b 1 1 0\n\n a 0 1 0\n\tz 2 1 0\t",
    ];
    let wanted = [site(0, 1, 0), site(2, 1, 0), site(1, 1, 0)];
    for lines in rows {
        let text = text_of(alloc, lines)?;
        assert_eq!(rt; sites_in(alloc, text.as_slice())?, Some(wanted));
    }
    Ok(())
}

#[test]
fn the_first_faulty_line_is_told(rt: HostRuntime) -> Result<(), Fail> {
    let alloc = rt.alloc();
    let rows: [(&[u8], PlaceFault); 14] = [
        (b"a 0 1 0\nz 0 1 0\nb 1 1 0\n", PlaceFault::Taken(7)),
        (b"a 0 1 0\nz 2 1 0\n", PlaceFault::Missing(2)),
        (b"", PlaceFault::Missing(0)),
        (b"a 0 1 0\nz 2 1 0\nb 1 1 1\n", PlaceFault::NoSuchSite(8)),
        (b"a 0 1 0\nz 2 1 0\nb 0 1 0\n", PlaceFault::WrongKind(8)),
        (b"a 1 1 0\n", PlaceFault::WrongKind(6)),
        (b"a 0 0 0\n", PlaceFault::NoSuchSite(6)),
        (b"a 0 1 1\n", PlaceFault::NoSuchSite(6)),
        (b"a 0 1 0\n\na 9 9 9\n", PlaceFault::Repeated(8)),
        (b"q 0 1 0\nz 0\n", PlaceFault::UnknownBlock(6)),
        (b"q 0 1\n", PlaceFault::BadLine(6)),
        (b"a 0 1 0 0\n", PlaceFault::BadLine(6)),
        (b"q 0 1 65536\n", PlaceFault::BadLine(6)),
        (b"a 0 \\\n1 -0\nq\n", PlaceFault::BadLine(6)),
    ];
    for (lines, fault) in rows {
        let text = text_of(alloc, lines)?;
        assert_eq!(rt; fault_in(alloc, text.as_slice())?, Some(fault));
    }
    Ok(())
}

#[test]
fn another_size_is_refused_before_the_blocks(rt: HostRuntime) -> Result<(), Fail> {
    let alloc = rt.alloc();
    let rows: [(&[u8], PlaceFault); 4] = [
        (
            b"Netlist file: t Architecture file: t\nArray size: 2 x 1 logic blocks\nq\n",
            PlaceFault::WrongSize,
        ),
        (
            b"Netlist file: t Architecture file: t\nArray size: 1 x 2 logic blocks\n",
            PlaceFault::WrongSize,
        ),
        (b"a 0 1 0\nz 2 1 0\nb 1 1 0\n", PlaceFault::BadHeader),
        (b"", PlaceFault::BadHeader),
    ];
    for (text, fault) in rows {
        assert_eq!(rt; fault_in(alloc, text)?, Some(fault));
    }
    Ok(())
}

// Takes the next line of some lines.
fn take_next(lines: &mut Lines, placed: &mut PlaceLines) -> Result<Option<PlaceFault>, Fail> {
    match lines.next()? {
        Some(line) => Ok(placed.take(&line).err()),
        None => Err(Fail::from("no line is left")),
    }
}

// The results of taking four lines, and of the end.
fn told(
    alloc: Global,
    design: &Design,
    grid: &Grid,
    text: &[u8],
) -> Result<[Option<PlaceFault>; 5], Fail> {
    let mut placed = PlaceLines::new(alloc, design, grid)?;
    let mut lines = Lines::new(alloc, text);
    let one = take_next(&mut lines, &mut placed)?;
    let two = take_next(&mut lines, &mut placed)?;
    let three = take_next(&mut lines, &mut placed)?;
    let four = take_next(&mut lines, &mut placed)?;
    Ok([one, two, three, four, placed.finish().err()])
}

#[test]
fn a_refused_line_changes_nothing(rt: HostRuntime) -> Result<(), Fail> {
    let grid = Grid::new(1, 1, 1)?;
    let design = design(rt.alloc())?;
    let told = told(
        rt.alloc(),
        &design,
        &grid,
        b"a 0 1 0\nz 0 1 0\nz 1 1 0\nz 2 1 0\n",
    )?;
    let wanted = [
        None,
        Some(PlaceFault::Taken(2)),
        Some(PlaceFault::WrongKind(3)),
        None,
        Some(PlaceFault::Missing(2)),
    ];
    assert_eq!(rt; told, wanted);
    Ok(())
}

// The sites where three blocks are fixed, and those where they are begun.
fn three_pins(pins: &Pins) -> [Option<Site>; 6] {
    [
        pins.fixed.site_of(BlockId(0)),
        pins.fixed.site_of(BlockId(1)),
        pins.fixed.site_of(BlockId(2)),
        pins.begun.site_of(BlockId(0)),
        pins.begun.site_of(BlockId(1)),
        pins.begun.site_of(BlockId(2)),
    ]
}

// The result of reading a location text, on one logic site.
fn located(alloc: Global, text: &[u8]) -> Result<Result<[Option<Site>; 6], PlaceFault>, Fail> {
    let grid = Grid::new(1, 1, 1)?;
    let design = design(alloc)?;
    match read_pins(alloc, text, &design, &grid) {
        Ok(pins) => Ok(Ok(three_pins(&pins))),
        Err(fault) => Ok(Err(fault)),
    }
}

#[test]
fn location_texts_are_read(rt: HostRuntime) -> Result<(), Fail> {
    let alloc = rt.alloc();
    let a = Some(site(0, 1, 0));
    let z = Some(site(2, 1, 0));
    let b = Some(site(1, 1, 0));
    let rows: [(&[u8], [Option<Site>; 6]); 6] = [
        (b"", [None, None, None, None, None, None]),
        (b"b 1 1 0\n", [None, None, b, None, None, None]),
        (b"b 1 1 0 free\n", [None, None, None, None, None, b]),
        (b"z 2 1 0 free\na 0 1 0\n", [a, None, None, None, z, None]),
        (
            b"\n# pads\n a 00 \\\n01 0 free # begun\nz 2 1 0 # free\n",
            [None, z, None, a, None, None],
        ),
        (
            b"Netlist file: t Architecture file: t\nArray size: 1 x 1 logic blocks\nb 1 1 0\n",
            [None, None, b, None, None, None],
        ),
    ];
    for (text, wanted) in rows {
        assert_eq!(rt; located(alloc, text)?, Ok(wanted));
    }
    Ok(())
}

#[test]
fn the_first_fault_of_a_location_text_is_told(rt: HostRuntime) -> Result<(), Fail> {
    let alloc = rt.alloc();
    let rows: [(&[u8], PlaceFault); 12] = [
        (b"a 0 1 0 free\nz 0 1 0\n", PlaceFault::Taken(2)),
        (b"a 0 1 0\na 1 0 0 free\n", PlaceFault::Repeated(2)),
        (b"b 1 1 0 fixed\n", PlaceFault::BadLine(1)),
        (b"b 1 1 0 free free\n", PlaceFault::BadLine(1)),
        (b"b 1 1 free\n", PlaceFault::BadLine(1)),
        (b"q 9 9 65536 free\n", PlaceFault::BadLine(1)),
        (
            b"a 0 1 0\nArray size: 1 x 1 logic blocks\n",
            PlaceFault::BadLine(2),
        ),
        (b"q 9 9 9 free\n", PlaceFault::UnknownBlock(1)),
        (b"a 1 0 0\nb 0 0 0\n", PlaceFault::NoSuchSite(2)),
        (b"\nb 0 1 0 free\n", PlaceFault::WrongKind(2)),
        (b"Netlist file: t\nb 1 1 0\n", PlaceFault::BadHeader),
        (
            b"Netlist file: t Architecture file: t\nArray size: 1 x 2 logic blocks\nq\n",
            PlaceFault::WrongSize,
        ),
    ];
    for (text, fault) in rows {
        assert_eq!(rt; located(alloc, text)?, Err(fault));
    }
    Ok(())
}

// A writer that takes at most `step` bytes a call and `room` bytes in all, and then fails.
#[derive(Drop)]
struct Narrow {
    taken: Vec<u8>,
    room: usize,
    step: usize,
}

impl Write for Narrow {
    fn write(&mut self, bytes: &[u8]) -> io::Result<usize> {
        if self.room == 0 {
            return Err(io::Error::from(io::ErrorKind::StorageFull));
        }
        let taken = self.room.min(self.step).min(bytes.len());
        self.taken.extend_from_slice(&bytes[..taken])?;
        self.room -= taken;
        Ok(taken)
    }

    fn flush(&mut self) -> io::Result<()> {
        Ok(())
    }
}

// What a write returned, how often its writer failed, and what was written.
#[derive(Drop)]
struct Outcome {
    answer: Result<(), PlaceFault>,
    failures: u64,
    text: Vec<u8>,
}

// Writes the placement that lines give, on one logic site, to this writer.
fn write_of(
    alloc: Global,
    design: &Design,
    labels: [&[u8]; 2],
    lines: &[u8],
    writer: Narrow,
) -> Result<Outcome, Fail> {
    let grid = Grid::new(1, 1, 1)?;
    let text = text_of(alloc, lines)?;
    let placement = read_place(alloc, text.as_slice(), design, &grid)?;
    let mut out = Counted::new(writer);
    let shown = Labels {
        net: labels[0],
        arch: labels[1],
    };
    let answer = write_place(alloc, &mut out, &shown, design, &grid, &placement);
    let failures = out.failures();
    Ok(Outcome {
        answer,
        failures,
        text: out.into_inner().taken,
    })
}

// The same to a writer with room for a number of bytes.
fn write(alloc: Global, labels: [&[u8]; 2], lines: &[u8], room: usize) -> Result<Outcome, Fail> {
    let design = design(alloc)?;
    let writer = Narrow {
        taken: Vec::new(alloc),
        room,
        step: usize::MAX,
    };
    write_of(alloc, &design, labels, lines, writer)
}

// The same to a writer that takes at most `step` bytes a call.
fn write_slowly(alloc: Global, step: usize) -> Result<Outcome, Fail> {
    let design = design(alloc)?;
    let writer = Narrow {
        taken: Vec::new(alloc),
        room: 1000,
        step,
    };
    write_of(alloc, &design, LABELS, LINES, writer)
}

const WRITTEN: &[u8] =
    b"Netlist file: t.net   Architecture file: t.arch\nArray size: 1 x 1 logic blocks\n\n#block name\tx\ty\tsubblk\tblock number\n#----------\t--\t--\t------\t------------\na\t0\t1\t0\t#0\nz\t2\t1\t0\t#1\nb\t1\t1\t0\t#2\n";

const LABELS: [&[u8]; 2] = [b"t.net", b"t.arch"];

const LINES: &[u8] = b"b 1 1 0\nz 2 1 0\na 0 1 0\n";

#[test]
fn placements_are_written(rt: HostRuntime) -> Result<(), Fail> {
    let rows: [([&[u8]; 2], &[u8], &[u8]); 2] = [
        (LABELS, LINES, WRITTEN),
        (
            [b"\\x", b"y\\z\xff"],
            b"a 1 0 0\nz 1 2 0\nb 1 1 0\n",
            b"Netlist file: \\x   Architecture file: y\\z\xff\nArray size: 1 x 1 logic blocks\n\n#block name\tx\ty\tsubblk\tblock number\n#----------\t--\t--\t------\t------------\na\t1\t0\t0\t#0\nz\t1\t2\t0\t#1\nb\t1\t1\t0\t#2\n",
        ),
    ];
    for (labels, lines, text) in rows {
        let outcome = write(rt.alloc(), labels, lines, 1000)?;
        assert_eq!(rt; outcome.text.as_slice(), text);
    }
    Ok(())
}

#[test]
fn bad_labels_write_nothing(rt: HostRuntime) -> Result<(), Fail> {
    let rows: [[&[u8]; 2]; 9] = [
        [b"", b"t"],
        [b"t", b""],
        [b"a b", b"t"],
        [b"t", b"a\tb"],
        [b"a\r", b"t"],
        [b"t", b"\na"],
        [b"#", b"t"],
        [b"t\\", b"t"],
        [b"t", b"a\\"],
    ];
    for labels in rows {
        let outcome = write(rt.alloc(), labels, LINES, 1000)?;
        assert_eq!(rt; outcome.answer, Err(PlaceFault::BadLabel));
        assert!(rt; outcome.text.is_empty());
    }
    Ok(())
}

#[test]
fn a_writer_that_fails_has_taken_a_beginning(rt: HostRuntime) -> Result<(), Fail> {
    for room in 0..WRITTEN.len() {
        let outcome = write(rt.alloc(), LABELS, LINES, room)?;
        assert_eq!(rt;
            (outcome.answer, outcome.failures),
            (Err(PlaceFault::Write), 1)
        );
        assert_eq!(rt; outcome.text.as_slice(), &WRITTEN[..room]);
    }
    Ok(())
}

#[test]
fn a_slow_writer_gets_the_whole_placement(rt: HostRuntime) -> Result<(), Fail> {
    for step in [1, 2, 7] {
        let outcome = write_slowly(rt.alloc(), step)?;
        assert_eq!(rt; (outcome.answer, outcome.failures), (Ok(()), 0));
        assert_eq!(rt; outcome.text.as_slice(), WRITTEN);
    }
    Ok(())
}

#[test]
fn a_writer_that_takes_nothing_of_a_placement_is_told(rt: HostRuntime) -> Result<(), Fail> {
    let outcome = write_slowly(rt.alloc(), 0)?;
    assert_eq!(rt;
        (outcome.answer, outcome.failures),
        (Err(PlaceFault::Write), 1)
    );
    assert!(rt; outcome.text.is_empty());
    Ok(())
}

#[test]
fn what_is_written_reads_back(rt: HostRuntime) -> Result<(), Fail> {
    let outcome = write(rt.alloc(), LABELS, LINES, 1000)?;
    let wanted = [site(0, 1, 0), site(2, 1, 0), site(1, 1, 0)];
    assert_eq!(rt;
        sites_in(rt.alloc(), outcome.text.as_slice())?,
        Some(wanted)
    );
    Ok(())
}

// Two logic blocks, `b1` and `b2`.
fn two_blocks(alloc: Global) -> Result<Design, Fail> {
    let arch = read_arch(alloc, b"io_rat 1\noutpin class: 0 top\n")?;
    Ok(read_net(alloc, b".clb b1\npinlist: x\n.clb b2\npinlist: y\n", &arch)?)
}

fn two_sites(placement: &Placement) -> Option<[Site; 2]> {
    if placement.blocks() == 2 {
        Some([placement.site_of(BlockId(0)), placement.site_of(BlockId(1))])
    } else {
        None
    }
}

// The start sites of two blocks on an array of 2 by 2 with this location text.
fn started_of(
    alloc: Global,
    design: &Design,
    words: &ListWords,
    text: &[u8],
) -> Result<Option<[Site; 2]>, Fail> {
    let grid = Grid::new(2, 2, 1)?;
    if grid.holds(design.logic_blocks(), design.pads()).is_err() {
        return Ok(None);
    }
    match read_pins(alloc, text, design, &grid) {
        Ok(pins) => Ok(two_sites(&start(alloc, design, &grid, &pins, words)?)),
        Err(_) => Ok(None),
    }
}

// The same with all start words 0.
fn started(alloc: Global, text: &[u8]) -> Result<Option<[Site; 2]>, Fail> {
    let words = ListWords {
        starts: Vec::new(alloc),
        moves: Vec::new(alloc),
    };
    let design = two_blocks(alloc)?;
    started_of(alloc, &design, &words, text)
}

#[test]
fn given_blocks_start_at_their_sites(rt: HostRuntime) -> Result<(), Fail> {
    let alloc = rt.alloc();
    let given = [site(2, 1, 0), site(1, 1, 0)];
    assert_eq!(rt; started(alloc, b"b2 1 1 0")?, Some(given));
    assert_eq!(rt; started(alloc, b"b2 1 1 0 free")?, Some(given));
    assert_eq!(rt; started(alloc, b"")?, Some([site(1, 1, 0), site(2, 2, 0)]));
    assert_eq!(rt; started(alloc, b"b1 1 1 0 free\nb2 1 1 0")?, None);
    Ok(())
}
