// The program in memory: its words, the files that it reads, what it writes, and its status.

ghost use Rattle.std.specs.Prelude.{None, []};

use crate::arguments::{as_bytes, as_text};
use crate::desk::{Desk, PLACE, POINT, REPORT, WORDS};
use crate::files::{NamedFiles, ReadFault, WriteFault};
use crate::narrow::Narrow;
use crate::program::program;
use fab_text::Counted;
use std::alloc::{AllocError, Global};
use std::cell::Cell;
use std::sync::Wait;
use std::test::*;
use std::thread::Threads;

// The answer for the example of four blocks.
const LEGAL: &[u8] = b"legal 4 blocks on a 3 x 3 array\ncost 6.4968\n";

// Three files in memory, with the texts of the example. No other name can be read; for `huge` memory runs out.
#[derive(Drop)]
struct Shelf {
    reads: Cell<u32>,
    arch: &'static [u8],
    net: &'static [u8],
    place: &'static [u8],
}

impl Shelf {
    fn new() -> Shelf {
        Shelf {
            reads: Cell::new(0),
            arch: b"a.arch",
            net: b"n.net",
            place: b"p.place",
        }
    }
}

impl NamedFiles for Shelf {
    ghost held = { λ shelf. None };

    ghost shut = { λ shelf. None };

    type Outlet = ();

    ghost name_of = { λ outlet. [] };

    fn read(&self, alloc: Global, name: &[u8]) -> Result<Vec<u8>, ReadFault> {
        self.reads.set(self.reads.get().saturating_add(1));
        let text = if name == self.arch {
            crate::example::ARCH
        } else if name == self.net {
            crate::example::NET
        } else if name == self.place {
            crate::example::PLACE
        } else if name == b"huge".as_slice() {
            return Err(ReadFault::NoMemory);
        } else {
            return Err(ReadFault::Unreadable);
        };
        match Vec::from_slice(alloc, text) {
            Ok(bytes) => Ok(bytes),
            Err(_) => Err(ReadFault::NoMemory),
        }
    }

    // A check writes no file.
    fn reserve(&self, _alloc: Global, _name: &[u8]) -> Result<(), WriteFault> {
        Err(WriteFault::Unwritable)
    }

    fn put(&mut self, _outlet: (), _bytes: &[u8]) -> Result<(), WriteFault> {
        Err(WriteFault::Unwritable)
    }

    fn release(&self, _outlet: ()) {}
}

// The files of the desk, each under its name with the byte 255 in front, so that no name is UTF-8; and what is written, after its name.
#[derive(Drop)]
struct OddNames {
    desk: Desk,
    written: Vec<u8>,
}

// The name without the byte in front; empty if it is not there.
fn without_255(name: &[u8]) -> &[u8] {
    match name.split_first() {
        Some((255, rest)) => rest,
        _ => b"",
    }
}

impl NamedFiles for OddNames {
    ghost held = { λ files. None };

    ghost shut = { λ files. None };

    // The name.
    type Outlet = Vec<u8>;

    ghost name_of = { λ name. name.items };

    fn read(&self, alloc: Global, name: &[u8]) -> Result<Vec<u8>, ReadFault> {
        self.desk.read(alloc, without_255(name))
    }

    fn reserve(&self, alloc: Global, name: &[u8]) -> Result<Vec<u8>, WriteFault> {
        match Vec::from_slice(alloc, name) {
            Ok(name) => Ok(name),
            Err(_) => Err(WriteFault::NoMemory),
        }
    }

    fn put(&mut self, name: Vec<u8>, bytes: &[u8]) -> Result<(), WriteFault> {
        for part in [name.as_slice(), b"\n", bytes] {
            if self.written.extend_from_slice(part).is_err() {
                return Err(WriteFault::NoMemory);
            }
        }
        Ok(())
    }

    fn release(&self, _name: Vec<u8>) {}
}

// What a run with such names left, in one text: its status, its two outputs, and what it wrote.
fn run_with_odd_names(
    rt: &(impl AllocGlobal + Threads + Wait + Sync),
    words: &[&[u8]],
) -> Result<Vec<u8>, AllocError> {
    let alloc = rt.alloc();
    let words = words_of(alloc, words)?;
    let point = Vec::from_slice(alloc, POINT)?;
    let mut files = OddNames {
        desk: Desk::new(alloc, Some(point)),
        written: Vec::new(alloc),
    };
    let mut out = Counted::new(Vec::new(alloc));
    let mut err = Counted::new(Vec::new(alloc));
    let status = program(rt, words.as_slice(), &mut files, &mut out, &mut err);
    let mut left = Vec::new(alloc);
    left.push(b'0'.saturating_add(status))?;
    left.push(b'\n')?;
    left.extend_from_slice(&out.into_inner())?;
    left.extend_from_slice(&err.into_inner())?;
    left.extend_from_slice(&files.written)?;
    Ok(left)
}

// What a run of the program left: its status, its two outputs, and how many files it read.
#[derive(Drop)]
struct Ended {
    status: u8,
    out: Vec<u8>,
    err: Vec<u8>,
    reads: u32,
}

// The words of a command line.
pub fn words_of(alloc: Global, words: &[&[u8]]) -> Result<Vec<Vec<u8>>, AllocError> {
    let mut all = Vec::new(alloc);
    for word in words {
        all.push(Vec::from_slice(alloc, word)?)?;
    }
    Ok(all)
}

// Runs the program with an output that takes `room` bytes.
fn run_narrow(
    rt: &(impl AllocGlobal + Threads + Wait + Sync),
    files: &mut Shelf,
    words: &[&[u8]],
    room: usize,
) -> Result<Ended, AllocError> {
    let words = words_of(rt.alloc(), words)?;
    let mut out = Counted::new(Narrow {
        taken: Vec::new(rt.alloc()),
        room,
    });
    let mut err = Counted::new(Narrow {
        taken: Vec::new(rt.alloc()),
        room: 100_000,
    });
    let status = program(rt, words.as_slice(), files, &mut out, &mut err);
    Ok(Ended {
        status,
        out: out.into_inner().taken,
        err: err.into_inner().taken,
        reads: files.reads.get(),
    })
}

fn run(
    rt: &(impl AllocGlobal + Threads + Wait + Sync),
    words: &[&[u8]],
) -> Result<Ended, AllocError> {
    run_narrow(rt, &mut Shelf::new(), words, 100_000)
}

#[test]
fn no_words_check_the_example(rt: HostRuntime) -> Result<(), Fail> {
    let ended = run(&rt, &[])?;
    assert_eq!(rt; ended.status, 0);
    assert_eq!(rt; ended.out.as_slice(), LEGAL);
    assert!(rt; ended.err.is_empty());
    assert_eq!(rt; ended.reads, 0);
    Ok(())
}

#[test]
fn files_are_checked(rt: HostRuntime) -> Result<(), Fail> {
    let apart: [&[u8]; 7] = [
        b"check", b"--arch", b"a.arch", b"--net", b"n.net", b"--place", b"p.place",
    ];
    let joined: [&[u8]; 4] = [
        b"check",
        b"--place=p.place",
        b"--net=n.net",
        b"--arch=a.arch",
    ];
    for words in [apart.as_slice(), joined.as_slice()] {
        let ended = run(&rt, words)?;
        assert_eq!(rt; ended.status, 0);
        assert_eq!(rt; ended.out.as_slice(), LEGAL);
        assert!(rt; ended.err.is_empty());
        assert_eq!(rt; ended.reads, 3);
    }
    Ok(())
}

#[test]
fn a_wrong_command_line_is_told(rt: HostRuntime) -> Result<(), Fail> {
    let unknown: [&[u8]; 1] = [b"chek"];
    let no_value: [&[u8]; 6] = [
        b"check", b"--arch", b"--net", b"n.net", b"--place", b"p.place",
    ];
    let last_value: [&[u8]; 6] = [
        b"check", b"--arch", b"a.arch", b"--net", b"n.net", b"--place",
    ];
    let no_place: [&[u8]; 5] = [b"check", b"--arch", b"a.arch", b"--net", b"n.net"];
    let twice: [&[u8]; 5] = [b"check", b"--arch", b"a.arch", b"--arch", b"a.arch"];
    let two_values: [&[u8]; 4] = [b"check", b"--arch", b"a.arch", b"b.arch"];
    let other: [&[u8]; 2] = [b"check", b"--cost"];
    let told: [(&[&[u8]], &str); 7] = [
        (&unknown, "error: unrecognized subcommand 'chek'\n"),
        (
            &no_value,
            "error: a value is required for '--arch <FILE>' but none was supplied\n",
        ),
        (
            &last_value,
            "error: a value is required for '--place <FILE>' but none was supplied\n",
        ),
        (
            &no_place,
            "error: the following required arguments were not provided:\n  --place <FILE>\n",
        ),
        (
            &twice,
            "error: the argument '--arch <FILE>' cannot be used multiple times\n",
        ),
        (&two_values, "error: unexpected argument 'b.arch' found\n"),
        (&other, "error: unexpected argument '--cost' found\n"),
    ];
    for (words, beginning) in told {
        let ended = run(&rt, words)?;
        assert_eq!(rt; ended.status, 2);
        assert!(rt; ended.err.starts_with(beginning.as_bytes()), "{beginning}");
        assert!(rt; ended.err.ends_with(b"try '--help'.\n"), "{beginning}");
        assert!(rt; ended.out.is_empty());
        assert_eq!(rt; ended.reads, 0);
    }
    Ok(())
}

#[test]
fn help_goes_to_the_output(rt: HostRuntime) -> Result<(), Fail> {
    let asked: [(&[&[u8]], &[u8]); 9] = [
        (&[b"--help"], b"\nUsage: vplace [COMMAND]\n"),
        (&[b"-h"], b"\nUsage: vplace [COMMAND]\n"),
        (&[b"help"], b"\nUsage: vplace [COMMAND]\n"),
        (
            &[b"help", b"check"],
            b"\nUsage: vplace check --arch <FILE> --net <FILE> --place <FILE>\n",
        ),
        (
            &[b"check", b"--help"],
            b"\nUsage: vplace check --arch <FILE> --net <FILE> --place <FILE>\n",
        ),
        (
            &[b"place", b"--help"],
            b"\nUsage: vplace place [OPTIONS] --arch <FILE> --net <FILE> --out <FILE>\n",
        ),
        (
            &[b"place", b"--help"],
            b"      --init-t <NUMBER>   The first temperature [default: 100]\n",
        ),
        (
            &[b"resume", b"--help"],
            b"\nUsage: vplace resume [OPTIONS] --arch <FILE> --net <FILE> --point <FILE>\n                     --out <FILE>\n",
        ),
        (
            &[b"resume", b"--help"],
            b"The checkpoint that the run goes on from\n",
        ),
    ];
    for (words, usage) in asked {
        let ended = run(&rt, words)?;
        assert_eq!(rt; ended.status, 0);
        assert!(rt; ended.out.windows(usage.len()).any(|part| part == usage));
        assert!(rt; ended.err.is_empty());
        assert_eq!(rt; ended.reads, 0);
    }
    Ok(())
}

#[test]
fn a_file_that_cannot_be_read_is_told(rt: HostRuntime) -> Result<(), Fail> {
    let rows: [([&[u8]; 3], u8, &[u8], u32); 5] = [
        ([b"no", b"no", b"no"], 4, b"vplace: cannot read arch\n", 1),
        (
            [b"a.arch", b"no", b"huge"],
            4,
            b"vplace: cannot read net\n",
            2,
        ),
        (
            [b"a.arch", b"n.net", b""],
            4,
            b"vplace: cannot read place\n",
            3,
        ),
        ([b"a.arch", b"n.net", b"huge"], 3, b"vplace: no memory\n", 3),
        ([b"huge", b"no", b"no"], 3, b"vplace: no memory\n", 1),
    ];
    for ([arch, net, place], status, line, reads) in rows {
        let words: [&[u8]; 7] = [b"check", b"--arch", arch, b"--net", net, b"--place", place];
        let ended = run(&rt, &words)?;
        assert_eq!(rt; ended.status, status);
        assert_eq!(rt; ended.err.as_slice(), line);
        assert!(rt; ended.out.is_empty());
        assert_eq!(rt; ended.reads, reads);
    }
    Ok(())
}

#[test]
fn a_refused_file_is_told_after_all_are_read(rt: HostRuntime) -> Result<(), Fail> {
    let refused: [&[u8]; 7] = [
        b"check", b"--arch", b"n.net", b"--net", b"n.net", b"--place", b"p.place",
    ];
    let ended = run(&rt, &refused)?;
    assert_eq!(rt; ended.status, 1);
    assert_eq!(rt;
        ended.err.as_slice(),
        b"vplace: arch: A1 NoIoRat\n".as_slice()
    );
    assert!(rt; ended.out.is_empty());
    let unread: [&[u8]; 7] = [
        b"check", b"--arch", b"n.net", b"--net", b"n.net", b"--place", b"no",
    ];
    let ended = run(&rt, &unread)?;
    assert_eq!(rt; ended.status, 4);
    assert_eq!(rt;
        ended.err.as_slice(),
        b"vplace: cannot read place\n".as_slice()
    );
    Ok(())
}

#[test]
fn an_output_that_fails_is_told(rt: HostRuntime) -> Result<(), Fail> {
    for room in [0, 1, LEGAL.len() - 1] {
        let ended = run_narrow(&rt, &mut Shelf::new(), &[], room)?;
        assert_eq!(rt; ended.status, 4);
        assert_eq!(rt;
            ended.err.as_slice(),
            b"vplace: cannot write report\n".as_slice()
        );
        assert_eq!(rt; ended.out.as_slice(), &LEGAL[..room]);
    }
    let ended = run_narrow(&rt, &mut Shelf::new(), &[b"--help"], 10)?;
    assert_eq!(rt; ended.status, 4);
    assert_eq!(rt;
        ended.err.as_slice(),
        b"vplace: cannot write report\n".as_slice()
    );
    Ok(())
}

#[test]
fn words_of_any_bytes_are_names(rt: HostRuntime) -> Result<(), Fail> {
    let words: [&[u8]; 6] = [
        b"check",
        b"--arch=\xff\xfe",
        b"--net",
        b"",
        b"--place",
        "\u{10FFFE}é".as_bytes(),
    ];
    let mut files = Shelf::new();
    files.arch = b"\xff\xfe";
    files.net = b"";
    files.place = "\u{10FFFE}é".as_bytes();
    let ended = run_narrow(&rt, &mut files, &words, 100)?;
    assert_eq!(rt; ended.out.as_slice(), LEGAL);
    assert_eq!(rt; ended.status, 0);
    let ended = run(&rt, &[b"ch\xffeck"])?;
    assert_eq!(rt; ended.status, 2);
    assert!(rt;
        ended
            .err
            .starts_with(b"error: unrecognized subcommand 'ch\xffeck'\n")
    );
    Ok(())
}

#[test]
fn a_word_is_shown_as_text_and_turned_back(rt: HostRuntime) -> Result<(), Fail> {
    let alloc = rt.alloc();
    let words: [&[u8]; 6] = [
        b"",
        b"plain",
        "é€𝄞".as_bytes(),
        b"\x7f\x80\xff",
        b"\xf4\x8f\xbe\xbf",
        b"\xf4\x8f\xbf\xbf \xc3",
    ];
    for word in words {
        let text = as_text(alloc, word)?;
        let bytes = as_bytes(alloc, text.as_str())?;
        assert_eq!(rt; bytes.as_slice(), word);
    }
    assert_eq!(rt; as_text(alloc, "é€𝄞".as_bytes())?.as_str(), "é€𝄞");
    Ok(())
}

// The placement of the desk's design under the odd names.
fn odd_place(alloc: Global) -> Result<Vec<u8>, AllocError> {
    let header = b"Netlist file: \xfft.net   Architecture file: \xfft.arch\n".as_slice();
    let rest = &PLACE[header.len() - 2..];
    [header, rest].concat(alloc)
}

#[test]
fn odd_names_of_a_run_go_each_to_its_option(rt: HostRuntime) -> Result<(), Fail> {
    let mut words = WORDS;
    words[2] = b"\xfft.arch";
    words[4] = b"\xfft.net";
    words[6] = b"\xfft.pads";
    words[8] = b"\xffout";
    let left = run_with_odd_names(&rt, words.as_slice())?;
    let place = odd_place(rt.alloc())?;
    let wanted = [b"0\n".as_slice(), REPORT, b"\xffout\n", &place].concat(rt.alloc())?;
    assert_eq!(rt; left, wanted);
    let mut stopped = Vec::from_slice(rt.alloc(), words.as_slice())?;
    let stop: [&[u8]; 4] = [b"--stop", b"5", b"--save", b"\xffsave"];
    stopped.extend_from_slice(stop.as_slice())?;
    let left = run_with_odd_names(&rt, stopped.as_slice())?;
    let saved = [b"\xffsave\n".as_slice(), POINT].concat(rt.alloc())?;
    assert!(rt; left.starts_with(b"0\n"));
    assert!(rt; left.ends_with(&saved));
    Ok(())
}

#[test]
fn odd_names_of_a_resumed_run_go_each_to_its_option(rt: HostRuntime) -> Result<(), Fail> {
    let words: [&[u8]; 9] = [
        b"resume",
        b"--out",
        b"\xffout",
        b"--point",
        b"\xfft.point",
        b"--net",
        b"\xfft.net",
        b"--arch=\xfft.arch",
        b"--batch=7",
    ];
    let left = run_with_odd_names(&rt, words.as_slice())?;
    let place = odd_place(rt.alloc())?;
    let written = [b"\xffout\n".as_slice(), &place].concat(rt.alloc())?;
    assert!(rt; left.starts_with(b"0\nstage 1 "));
    assert!(rt; left.ends_with(&written));
    let mut stopped = Vec::from_slice(rt.alloc(), words.as_slice())?;
    let stop: [&[u8]; 2] = [b"--save=\xffsave", b"--stop=5"];
    stopped.extend_from_slice(stop.as_slice())?;
    let left = run_with_odd_names(&rt, stopped.as_slice())?;
    let wanted = [b"0\n\xffsave\n".as_slice(), POINT].concat(rt.alloc())?;
    assert_eq!(rt; left, wanted);
    Ok(())
}
