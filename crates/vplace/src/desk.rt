//! For tests: a small design in memory, its files, and runs of the program on them. The design has two pads and one logic block; every move
//! finds its block's own site.

ghost use Rattle.std.specs.Prelude.{Some, [], ◌∷◌, option_map, codes};
ghost use Rattle.vplace.specs.Files.{shut_but, text_among};

use crate::files::{NamedFiles, ReadFault, WriteFault};
use crate::narrow::Narrow;
use crate::program::program;
use fab_text::Counted;
use std::alloc::{AllocError, Global};
use std::cell::Cell;
use std::sync::Wait;
use std::thread::Threads;

const ARCH: &[u8] = b"io_rat 1\ninpin class: 0 left\noutpin class: 1 right\n";

const NET: &[u8] =
    b".input a\npinlist: n1\n.output z\npinlist: n2\n.clb b\npinlist: n1 n2\nsubblock: b 0 1\n";

// A netlist whose second net has no driver.
const UNDRIVEN: &[u8] = b".input a\npinlist: n1\n.output z\npinlist: n2\n";

const PADS: &[u8] = b"a 0 1 0\nz 2 1 0\n";

/// The report of an unbroken run.
pub const REPORT: &[u8] = b"blocks 3 logic 1 pads 2 nets 2 array 1 x 1
start cost 4.0000
stage 0 t 10.0000 range 1.000 moves 3 accepted 0 cost 4.0000
stage 1 t 5.0000 range 1.000 moves 3 accepted 0 cost 4.0000
stage 2 t 2.5000 range 1.000 moves 3 accepted 0 cost 4.0000
stage 3 t 1.2500 range 1.000 moves 3 accepted 0 cost 4.0000
frozen range 1.000 moves 3 accepted 0 cost 4.0000
final cost 4.0000 accepted 0 of 15
";

/// The part of the report that is written before a name is tried.
pub const HEAD: &[u8] = b"blocks 3 logic 1 pads 2 nets 2 array 1 x 1\nstart cost 4.0000\n";

/// The text of its placement.
pub const PLACE: &[u8] = b"Netlist file: t.net   Architecture file: t.arch
Array size: 1 x 1 logic blocks

#block name\tx\ty\tsubblk\tblock number
#----------\t--\t--\t------\t------------
a\t0\t1\t0\t#0
z\t2\t1\t0\t#1
b\t1\t1\t0\t#2
";

/// The point of a run after five moves.
pub const POINT: &[u8] = b"vplace point 2
seed 1
array 1 x 1 io_rat 1
schedule 100000 10000 500 3
stage 1 done 2 accepted 0
temperature 50000
range 1000
total 0
fixed 2
a fixed
z fixed
places 3
a 0 1 0
z 2 1 0
b 1 1 0
end
";

/// The words of a run of 15 moves.
pub const WORDS: [&[u8]; 17] = [
    b"place",
    b"--arch",
    b"t.arch",
    b"--net",
    b"t.net",
    b"--pads",
    b"t.pads",
    b"--out",
    b"t.place",
    b"--init-t",
    b"10",
    b"--exit-t",
    b"1",
    b"--alpha-t",
    b"0.5",
    b"--moves",
    b"3",
];

/// The files of the design, and `u.net`, a netlist whose second net has no driver. Bytes that are put at `t.place` and at `t.point` are
/// kept. Two more names can be reserved: for `late` the disk is full when the bytes come, and for `huge` memory has run out by then. No
/// other name can be reserved; for `none` memory runs out. A name stands on the right of each comparison, as in the definitions, so that
/// the proof search needs no lemma.
#[derive(Drop)]
pub struct Desk {
    arch: &'static [u8],
    net: &'static [u8],
    undriven: &'static [u8],
    pads: &'static [u8],
    placed: Option<Vec<u8>>,
    point: Option<Vec<u8>>,
    taken: Cell<u32>,
    alloc: Global,
}

impl Desk {
    /// The files of the design before a run, with this text at `t.point`, if any.
    pub fn new(alloc: Global, point: Option<Vec<u8>>) -> Desk {
        Desk {
            arch: ARCH,
            net: NET,
            undriven: UNDRIVEN,
            pads: PADS,
            placed: None,
            point,
            taken: Cell::new(0),
            alloc,
        }
    }

    /// The text at `t.place`, if any.
    pub fn placed(&self) -> Option<&[u8]> {
        self.placed.as_deref()
    }

    /// The text at `t.point`, if any.
    pub fn point(&self) -> Option<&[u8]> {
        self.point.as_deref()
    }

    /// How many names are reserved and neither put nor released.
    pub fn taken(&self) -> u32 {
        self.taken.get()
    }
}

impl NamedFiles for Desk {
    ghost held = { λ desk.
        Some (text_among
        ((codes "t.arch", Some desk.arch.now) ∷ (codes "t.net", Some desk.net.now) ∷
        (codes "u.net", Some desk.undriven.now) ∷ (codes "t.pads", Some desk.pads.now) ∷
        (codes "t.place", option_map (λ bytes. bytes.items) desk.placed) ∷
        (codes "t.point", option_map (λ bytes. bytes.items) desk.point) ∷ [])) };

    // A name that is not known, and one whose disk is full.
    ghost shut = { λ desk.
        Some (shut_but (codes "t.place" ∷ codes "t.point" ∷ codes "huge" ∷ codes "none" ∷ [])) };

    // The name.
    type Outlet = Vec<u8>;

    ghost name_of = { λ name. name.items };

    fn read(&self, alloc: Global, name: &[u8]) -> Result<Vec<u8>, ReadFault> {
        let text = if b"t.arch".as_slice() == name {
            self.arch
        } else if b"t.net".as_slice() == name {
            self.net
        } else if b"u.net".as_slice() == name {
            self.undriven
        } else if b"t.pads".as_slice() == name {
            self.pads
        } else if b"t.place".as_slice() == name {
            match &self.placed {
                Some(place) => place.as_slice(),
                None => return Err(ReadFault::Unreadable),
            }
        } else if b"t.point".as_slice() == name {
            match &self.point {
                Some(point) => point.as_slice(),
                None => return Err(ReadFault::Unreadable),
            }
        } else {
            return Err(ReadFault::Unreadable);
        };
        match Vec::from_slice(alloc, text) {
            Ok(bytes) => Ok(bytes),
            Err(_) => Err(ReadFault::NoMemory),
        }
    }

    fn reserve(&self, alloc: Global, name: &[u8]) -> Result<Vec<u8>, WriteFault> {
        if b"none".as_slice() == name {
            return Err(WriteFault::NoMemory);
        }
        let is_known = b"t.place".as_slice() == name
            || b"t.point".as_slice() == name
            || b"huge".as_slice() == name
            || b"late".as_slice() == name;
        if !is_known {
            return Err(WriteFault::Unwritable);
        }
        match Vec::from_slice(alloc, name) {
            Ok(name) => {
                self.taken.set(self.taken.get().saturating_add(1));
                Ok(name)
            }
            Err(_) => Err(WriteFault::NoMemory),
        }
    }

    fn put(&mut self, name: Vec<u8>, bytes: &[u8]) -> Result<(), WriteFault> {
        self.taken.set(self.taken.get().saturating_sub(1));
        if b"huge".as_slice() == name.as_slice() || b"none".as_slice() == name.as_slice() {
            return Err(WriteFault::NoMemory);
        }
        let Ok(bytes) = Vec::from_slice(self.alloc, bytes) else {
            return Err(WriteFault::NoMemory);
        };
        if b"t.place".as_slice() == name.as_slice() {
            self.placed = Some(bytes);
            return Ok(());
        }
        if b"t.point".as_slice() == name.as_slice() {
            self.point = Some(bytes);
            return Ok(());
        }
        Err(WriteFault::Unwritable)
    }

    fn release(&self, _name: Vec<u8>) {
        self.taken.set(self.taken.get().saturating_sub(1));
    }
}

/// What a run left, in one text: its status, its two outputs, the placement and the checkpoint.
pub fn run(
    rt: &(impl AllocGlobal + Threads + Wait + Sync),
    words: &[&[u8]],
) -> Result<Vec<u8>, AllocError> {
    run_on(rt, Desk::new(rt.alloc(), None), words, 100_000)
}

/// The same, on `files`, with an output that takes `room` bytes.
pub fn run_on(
    rt: &(impl AllocGlobal + Threads + Wait + Sync),
    mut desk: Desk,
    words: &[&[u8]],
    room: usize,
) -> Result<Vec<u8>, AllocError> {
    let alloc = rt.alloc();
    let mut given = Vec::new(alloc);
    for word in words {
        given.push(Vec::from_slice(alloc, word)?)?;
    }
    let mut out = Counted::new(Narrow {
        taken: Vec::new(alloc),
        room,
    });
    let mut err = Counted::new(Vec::new(alloc));
    let status = program(rt, given.as_slice(), &mut desk, &mut out, &mut err);
    let mut left = Vec::new(alloc);
    left.push(b'0'.saturating_add(status))?;
    left.push(b'\n')?;
    left.extend_from_slice(&out.into_inner().taken)?;
    left.extend_from_slice(&err.into_inner())?;
    // Each place that was reserved was released, or written.
    if desk.taken.get() != 0 {
        left.extend_from_slice(b"a place is left")?;
    }
    left.extend_from_slice(desk.placed.as_deref().unwrap_or(b""))?;
    left.extend_from_slice(desk.point.as_deref().unwrap_or(b""))?;
    Ok(left)
}
