// Texts of more than 64 KiB, each written in one call. What is expected is made here, line by line, by the rules of the two formats.

use crate::{read_point, write_point};
use fab_arch::{Grid, read_arch};
use fab_file::{Labels, read_place, write_place};
use fab_net::read_net;
use fab_text::Counted;
use std::alloc::{AllocError, Global};
use std::io::{self, Write};
use std::test::*;

const ARCH: &[u8] = b"io_rat 64\ninpin class: 0 left\noutpin class: 1 right\n";

const LABELS: Labels<'static> = Labels {
    net: b"t.net",
    arch: b"t.arch",
};

const PADS: u64 = 5_000;

// Takes all bytes of each write, and keeps the length of the longest one.
#[derive(Drop)]
struct Longest {
    taken: Vec<u8>,
    longest: usize,
}

// The columns and the rows of the array, and the sites of its left side.
const SIDE: u64 = 40;

const LEFT: u64 = 2_560;

// Pad i stands on the left side, or on the right side where the left one is full.
fn column_of(pad: u64) -> u64 {
    if pad < LEFT { 0 } else { SIDE + 1 }
}

fn row_of(pad: u64) -> u64 {
    1 + pad % SIDE
}

fn sub_of(pad: u64) -> u64 {
    pad % LEFT / SIDE
}

impl Write for Longest {
    fn write(&mut self, bytes: &[u8]) -> io::Result<usize> {
        self.taken.extend_from_slice(bytes)?;
        self.longest = self.longest.max(bytes.len());
        Ok(bytes.len())
    }

    fn flush(&mut self) -> io::Result<()> {
        Ok(())
    }
}

fn writer(alloc: Global) -> Counted<Longest> {
    Counted::new(Longest {
        taken: Vec::new(alloc),
        longest: 0,
    })
}

fn net_text(alloc: Global) -> Result<String, AllocError> {
    let mut text = String::new(alloc);
    for pad in 0..PADS {
        text.push_str(format!(in alloc; ".input pad{pad}\npinlist: net{pad}\n")?.as_str())?;
    }
    Ok(text)
}

fn point_text(alloc: Global) -> Result<String, AllocError> {
    let mut text = String::new(alloc);
    text.push_str("vplace point 2\nseed 1\narray 40 x 40 io_rat 64\n")?;
    text.push_str("schedule 100000 10000 500 3\nstage 0 done 0 accepted 0\ntemperature 100000\n")?;
    text.push_str("range 40000\ntotal 0\nfixed 0\nplaces 5000\n")?;
    for pad in 0..PADS {
        let (x, y, sub) = (column_of(pad), row_of(pad), sub_of(pad));
        text.push_str(format!(in alloc; "pad{pad} {x} {y} {sub}\n")?.as_str())?;
    }
    text.push_str("end\n")?;
    Ok(text)
}

fn place_text(alloc: Global) -> Result<String, AllocError> {
    let mut text = String::new(alloc);
    text.push_str("Netlist file: t.net   Architecture file: t.arch\n")?;
    text.push_str("Array size: 40 x 40 logic blocks\n\n")?;
    text.push_str("#block name\tx\ty\tsubblk\tblock number\n")?;
    text.push_str("#----------\t--\t--\t------\t------------\n")?;
    for pad in 0..PADS {
        let (x, y, sub) = (column_of(pad), row_of(pad), sub_of(pad));
        text.push_str(format!(in alloc; "pad{pad}\t{x}\t{y}\t{sub}\t#{pad}\n")?.as_str())?;
    }
    Ok(text)
}

#[test]
fn a_point_of_more_than_64_kib_is_written_in_one_call(rt: HostRuntime) -> Result<(), Fail> {
    let alloc = rt.alloc();
    let (net, text) = (net_text(alloc)?, point_text(alloc)?);
    let Ok(arch) = read_arch(alloc, ARCH) else {
        return Err(Fail::from("no architecture"));
    };
    let Ok(design) = read_net(alloc, net.as_bytes(), &arch) else {
        return Err(Fail::from("no netlist"));
    };
    let Ok((seed, grid, point)) = read_point(alloc, text.as_bytes(), &arch, &design) else {
        return Err(Fail::from("no point"));
    };
    let mut out = writer(alloc);
    assert_eq!(rt;
        write_point(alloc, &mut out, seed, &design, &grid, &point),
        Ok(())
    );
    let out = out.into_inner();
    assert!(rt; out.longest > 65_536);
    assert!(rt; out.taken.as_slice() == text.as_bytes());
    Ok(())
}

#[test]
fn a_place_text_of_more_than_64_kib_is_written_in_one_call(rt: HostRuntime) -> Result<(), Fail> {
    let alloc = rt.alloc();
    let (net, text) = (net_text(alloc)?, place_text(alloc)?);
    let Ok(arch) = read_arch(alloc, ARCH) else {
        return Err(Fail::from("no architecture"));
    };
    let Ok(design) = read_net(alloc, net.as_bytes(), &arch) else {
        return Err(Fail::from("no netlist"));
    };
    let Ok(grid) = Grid::new(40, 40, 64) else {
        return Err(Fail::from("no array"));
    };
    let Ok(placement) = read_place(alloc, text.as_bytes(), &design, &grid) else {
        return Err(Fail::from("no placement"));
    };
    let mut out = writer(alloc);
    assert_eq!(rt;
        write_place(alloc, &mut out, &LABELS, &design, &grid, &placement),
        Ok(())
    );
    let out = out.into_inner();
    assert!(rt; out.longest > 65_536);
    assert!(rt; out.taken.as_slice() == text.as_bytes());
    Ok(())
}
