// Readers and a writer that are refused memory. A test passes as it is, and where one growth of its process is refused:
// tests/refusals/growths refuses each in turn. Since no second one is refused, what was refused is asked for again, and then it has to
// come.

use crate::cut_tests::{CHAIN_ARCH, CHAIN_NET, CHAIN_PADS, CHAIN_PLACE};
use crate::{Labels, PlaceFault, read_pins, read_place, write_place};
use fab_arch::{ArchFault, Grid, Site, read_arch};
use fab_net::{BlockId, NetFault, read_net};
use fab_text::{Counted, Line, Lines};
use std::alloc::AllocError;
use std::process::Abort;
use std::test::*;

// Tells how many growths later one is refused, if it is among the next 10,000: that is, if what was tried has met none.
// tests/refusals/growths reads it.
fn tell_refusal_to_come(rt: &(impl AllocGlobal + Print)) {
    for later in 0..10_000u64 {
        if Vec::<u8>::with_capacity(rt.alloc(), 1).is_err() {
            let _told = println!(rt; "refused {later} growths later");
            return;
        }
    }
}

// Lines of 1, 70, 2 and 130 words.
const MANY_WORDS: &[u8] = b"one\n\
    0 1 2 3 4 5 6 7 8 9 10 11 12 13 14 15 16 17 18 19 20 21 22 23 24 25 26 27 28 29 30 31 32 33 34 \
    35 36 37 38 39 40 41 42 43 44 45 46 47 48 49 50 51 52 53 54 55 56 57 58 59 60 61 62 63 64 65 66 \
    67 68 69\n\
    a # b\n # c\nd \\\n e\n\
    0 1 2 3 4 5 6 7 8 9 10 11 12 13 14 15 16 17 18 19 20 21 22 23 24 25 26 27 28 29 30 31 32 33 34 \
    35 36 37 38 39 40 41 42 43 44 45 46 47 48 49 50 51 52 53 54 55 56 57 58 59 60 61 62 63 64 65 66 \
    67 68 69 70 71 72 73 74 75 76 77 78 79 80 81 82 83 84 85 86 87 88 89 90 91 92 93 94 95 96 97 98 \
    99 100 101 102 103 104 105 106 107 108 109 110 111 112 113 114 115 116 117 118 119 120 121 122 \
    123 124 125 126 127 128 129";

// The numbers of these lines, and how many words they have.
const MANY_LINES: [(u64, usize); 5] = [(1, 1), (2, 70), (3, 1), (5, 2), (7, 130)];

// Takes the next line. Where that was refused, the line is still there.
fn next_again<'a>(lines: &mut Lines<'a>) -> Result<Option<Line<'a>>, AllocError> {
    match lines.next() {
        Ok(line) => Ok(line),
        Err(_) => lines.next(),
    }
}

#[test]
fn growths_of_lines(rt: HostRuntime) -> Result<(), Fail> {
    let mut lines = Lines::new(rt.alloc(), MANY_WORDS);
    for wanted in MANY_LINES {
        let line = next_again(&mut lines)?.ok_or("no line")?;
        assert_eq!(rt; (line.number, line.words.len()), wanted);
    }
    assert!(rt; next_again(&mut lines)?.is_none());
    tell_refusal_to_come(&rt);
    Ok(())
}

// The same in the room of a line that is done.
fn next_in_room_again<'a>(
    lines: &mut Lines<'a>,
    done: Option<Line<'a>>,
) -> Result<Option<Line<'a>>, AllocError> {
    match lines.next_in_room_of(done) {
        Ok(line) => Ok(line),
        Err(_) => lines.next(),
    }
}

#[test]
fn growths_of_lines_in_the_room_of_others(rt: HostRuntime) -> Result<(), Fail> {
    let mut lines = Lines::new(rt.alloc(), MANY_WORDS);
    let mut done = None;
    for wanted in MANY_LINES {
        let line = next_in_room_again(&mut lines, done)?.ok_or("no line")?;
        assert_eq!(rt; (line.number, line.words.len()), wanted);
        done = Some(line);
    }
    assert!(rt; next_in_room_again(&mut lines, done)?.is_none());
    tell_refusal_to_come(&rt);
    Ok(())
}

// Reads a design and its placement, and writes that. Whether it is written; any fault but a want of memory fails the test.
fn is_written(rt: &(impl Abort + AllocGlobal), out: &mut Counted<&mut [u8]>) -> bool {
    let alloc = rt.alloc();
    let arch = match read_arch(alloc, CHAIN_ARCH) {
        Ok(arch) => arch,
        Err(fault) => {
            assert_eq!(rt; fault, ArchFault::NoMemory);
            return false;
        }
    };
    let design = match read_net(alloc, CHAIN_NET, &arch) {
        Ok(design) => design,
        Err(fault) => {
            assert_eq!(rt; fault, NetFault::NoMemory);
            return false;
        }
    };
    let Ok(grid) = Grid::new(1, 1, 1) else {
        return false;
    };
    let placement = match read_place(alloc, CHAIN_PLACE, &design, &grid) {
        Ok(placement) => placement,
        Err(fault) => {
            assert_eq!(rt; fault, PlaceFault::NoMemory);
            return false;
        }
    };
    let labels = Labels {
        net: b"t.net",
        arch: b"t.arch",
    };
    let answer = write_place(alloc, out, &labels, &design, &grid, &placement);
    assert!(rt; answer == Ok(()) || answer == Err(PlaceFault::NoMemory));
    answer.is_ok()
}

#[test]
fn growths_of_a_place_text(rt: HostRuntime) -> Result<(), Fail> {
    for _try in 0..2u64 {
        let mut room = [0u8; 400];
        let mut out = Counted::new(room.as_mut_slice());
        let is_whole = is_written(&rt, &mut out);
        let left = out.into_inner().len();
        let written = &room[..400usize.saturating_sub(left)];
        if is_whole {
            assert_eq!(rt; written, CHAIN_PLACE);
            tell_refusal_to_come(&rt);
            return Ok(());
        }
        assert!(rt; written.is_empty());
    }
    Err(Fail::from("two place texts were refused"))
}

// Reads a design and the places of its two pads. None if memory was refused; any other fault of the places fails the test.
fn fixed_pads(rt: &(impl Abort + AllocGlobal)) -> Option<[Option<Site>; 2]> {
    let arch = read_arch(rt.alloc(), CHAIN_ARCH).ok()?;
    let design = read_net(rt.alloc(), CHAIN_NET, &arch).ok()?;
    let grid = Grid::new(1, 1, 1).ok()?;
    match read_pins(rt.alloc(), CHAIN_PADS, &design, &grid) {
        Ok(pins) => Some([
            pins.fixed.site_of(BlockId(0)),
            pins.fixed.site_of(BlockId(1)),
        ]),
        Err(fault) => {
            assert_eq!(rt; fault, PlaceFault::NoMemory);
            None
        }
    }
}

#[test]
fn growths_of_a_location_text(rt: HostRuntime) -> Result<(), Fail> {
    let pads = match fixed_pads(&rt) {
        Some(pads) => Some(pads),
        None => fixed_pads(&rt),
    };
    let wanted = [
        Some(Site { x: 0, y: 1, sub: 0 }),
        Some(Site { x: 2, y: 1, sub: 0 }),
    ];
    assert_eq!(rt; pads, Some(wanted));
    tell_refusal_to_come(&rt);
    Ok(())
}
