use fab_arch::{ArchFault, Grid, GridFault, PinKind, Site, SiteKind, read_arch};
use std::alloc::Global;
use std::test::*;

fn site(x: u16, y: u16, sub: u16) -> Site {
    Site { x, y, sub }
}

fn fault(alloc: Global, text: &[u8]) -> Option<ArchFault> {
    match read_arch(alloc, text) {
        Ok(_) => None,
        Err(fault) => Some(fault),
    }
}

#[test]
fn an_architecture_is_read(rt: HostRuntime) -> Result<(), Fail> {
    let text = b"io_rat 2 and more\nchan_width_io 1\ninpin class: 0 left # a pin\n\
        outpin class: 1 global top right \\\n left\ninpin class: 65535 bottom bottom\n";
    let arch = read_arch(rt.alloc(), text)?;
    assert_eq!(rt; arch.io_rat, 2);
    assert_eq!(rt;
        arch.pins.as_slice(),
        [PinKind::Reads, PinKind::Drives, PinKind::Reads].as_slice()
    );
    Ok(())
}

#[test]
fn the_first_fault_of_a_line_is_told(rt: HostRuntime) {
    let alloc = rt.alloc();
    let rows: [(&[u8], ArchFault); 16] = [
        (b"io_rat", ArchFault::BadNumber(1)),
        (b"io_rat 0", ArchFault::BadNumber(1)),
        (b"io_rat 1x", ArchFault::BadNumber(1)),
        (b"io_rat 65", ArchFault::TooLarge(1)),
        (b"io_rat 99999999999999999999", ArchFault::TooLarge(1)),
        (b"io_rat 1\n\nio_rat x", ArchFault::RepeatedIoRat(3)),
        (b"inpin", ArchFault::BadPinLine(1)),
        (b"inpin class 0 left", ArchFault::BadPinLine(1)),
        (b"inpin class:", ArchFault::BadNumber(1)),
        (b"inpin class: left", ArchFault::BadNumber(1)),
        (b"inpin class: 65536", ArchFault::TooLarge(1)),
        (b"outpin class: 0", ArchFault::BadPinLine(1)),
        (b"outpin class: 0 global", ArchFault::BadPinLine(1)),
        (b"outpin class: 0 left global", ArchFault::BadPinLine(1)),
        (b"outpin class: 0 Left", ArchFault::BadPinLine(1)),
        (
            b"inpin class: 0 \\\nleft\ninpin class: 0",
            ArchFault::BadPinLine(3),
        ),
    ];
    for (text, wanted) in rows {
        assert_eq!(rt; fault(alloc, text), Some(wanted));
    }
}

#[test]
fn faults_of_the_whole_text_come_last(rt: HostRuntime) {
    let alloc = rt.alloc();
    assert_eq!(rt; fault(alloc, b""), Some(ArchFault::NoIoRat));
    assert_eq!(rt;
        fault(alloc, b"inpin class: 0 left"),
        Some(ArchFault::NoIoRat)
    );
    assert_eq!(rt; fault(alloc, b"io_rat 1\n"), Some(ArchFault::NoPins));
}

#[test]
fn the_pins_have_a_limit(rt: HostRuntime) -> Result<(), Fail> {
    let alloc = rt.alloc();
    let mut text = Vec::new(alloc);
    text.extend_from_slice(b"io_rat 1\n")?;
    for _pin in 0..1024 {
        text.extend_from_slice(b"inpin class: 0 left\n")?;
    }
    assert_eq!(rt; read_arch(alloc, &text)?.pins.len(), 1024);
    text.extend_from_slice(b"inpin class: 0\n")?;
    assert_eq!(rt; fault(alloc, &text), Some(ArchFault::BadPinLine(1026)));
    text.truncate(text.len().saturating_sub(1));
    text.extend_from_slice(b" left\n")?;
    assert_eq!(rt; fault(alloc, &text), Some(ArchFault::TooLarge(1026)));
    Ok(())
}

#[test]
fn arrays_hold_what_fits(rt: HostRuntime) -> Result<(), Fail> {
    let size = Err(GridFault::SizeOutOfRange);
    assert_eq!(rt; Grid::new(0, 1, 1), size);
    assert_eq!(rt; Grid::new(1, 1001, 1), size);
    assert_eq!(rt; Grid::new(1, 1, 65), size);
    assert_eq!(rt; Grid::new(1, 1, 0), size);
    let grid = Grid::new(1, 1, 1)?;
    assert_eq!(rt; grid.holds(1, 4), Ok(()));
    assert_eq!(rt; grid.holds(2, 0), Err(GridFault::TooFewLogicSites));
    assert_eq!(rt; grid.holds(2, 5), Err(GridFault::TooFewLogicSites));
    assert_eq!(rt; grid.holds(1, 5), Err(GridFault::TooFewPadSites));
    Ok(())
}

#[test]
fn the_least_square_is_taken(rt: HostRuntime) -> Result<(), Fail> {
    let rows = [(5, 0, 1, 3), (1, 9, 2, 2), (0, 0, 1, 1), (114, 86, 1, 22)];
    for (logic, pads, io_rat, side) in rows {
        let grid = Grid::fit(logic, pads, io_rat)?;
        assert_eq!(rt; (grid.nx(), grid.ny(), grid.io_rat()), (side, side, io_rat));
    }
    let size = Err(GridFault::SizeOutOfRange);
    assert_eq!(rt; Grid::fit(1, 65_535, 1), size);
    assert_eq!(rt; Grid::fit(1, 1, 0), size);
    assert_eq!(rt; Grid::fit(1, 1, 65), size);
    Ok(())
}

#[test]
fn positions_go_round(rt: HostRuntime) -> Result<(), Fail> {
    let grid = Grid::new(2, 2, 2)?;
    let round = [
        (0, 1),
        (0, 2),
        (1, 3),
        (2, 3),
        (3, 2),
        (3, 1),
        (2, 0),
        (1, 0),
    ];
    for (i, position) in round.iter().enumerate() {
        assert_eq!(rt; grid.pad_at(i), Some(*position));
        let (x, y) = *position;
        assert_eq!(rt; grid.has_site(site(x, y, 1)), Some(SiteKind::Pad));
        assert_eq!(rt; grid.has_site(site(x, y, 2)), None);
    }
    assert_eq!(rt; grid.pad_at(8), None);
    assert_eq!(rt; grid.has_site(site(1, 2, 0)), Some(SiteKind::Logic));
    assert_eq!(rt; grid.has_site(site(1, 2, 1)), None);
    for corner in [site(0, 0, 0), site(0, 3, 0), site(3, 0, 0), site(3, 3, 0)] {
        assert_eq!(rt; grid.has_site(corner), None);
    }
    assert_eq!(rt; grid.has_site(site(4, 1, 0)), None);
    Ok(())
}
