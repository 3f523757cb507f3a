use fab_arch::read_arch;
use fab_net::{BlockId, BlockKind, Design, NetFault, NetId, read_net};
use fab_text::{Span, push_number};
use std::alloc::{AllocError, Global};
use std::test::*;

// Two pins that read, then one that drives.
const ARCH: &[u8] = b"io_rat 1\ninpin class: 0 left\ninpin class: 0 left\noutpin class: 1 right";

fn read(alloc: Global, text: &[u8]) -> Result<Result<Design, NetFault>, Fail> {
    let arch = read_arch(alloc, ARCH)?;
    Ok(read_net(alloc, text, &arch))
}

fn push_block(line: &mut Vec<u8>, design: &Design, block: u32) -> Result<(), AllocError> {
    if block as usize >= design.blocks() {
        return Ok(());
    }
    let block = BlockId(block);
    line.extend_from_slice(match design.kind(block) {
        BlockKind::InputPad => b"in ",
        BlockKind::OutputPad => b"out ",
        BlockKind::Logic => b"logic ",
    })?;
    line.extend_from_slice(design.name(block))?;
    for net in design.nets_of(block) {
        line.extend_from_slice(b" ")?;
        push_number(line, u64::from(net.0))?;
    }
    line.extend_from_slice(b"\n")
}

fn push_net(line: &mut Vec<u8>, design: &Design, net: u32) -> Result<(), AllocError> {
    if net as usize >= design.nets() {
        return Ok(());
    }
    let net = NetId(net);
    line.extend_from_slice(if design.is_global(net) {
        b"global"
    } else {
        b"net"
    })?;
    for terminal in design.terminals(net) {
        line.extend_from_slice(b" ")?;
        push_number(line, u64::from(terminal.block.0))?;
        line.extend_from_slice(b".")?;
        push_number(line, u64::from(terminal.pin))?;
    }
    line.extend_from_slice(b"\n")
}

// One line for each block with its nets, then one line for each net with its terminals as BLOCK.PIN.
fn lines_of(alloc: Global, design: &Design) -> Result<Vec<u8>, AllocError> {
    let mut lines = Vec::new(alloc);
    for block in 0..65_535 {
        push_block(&mut lines, design, block)?;
    }
    for net in 0..65_535 {
        push_net(&mut lines, design, net)?;
    }
    Ok(lines)
}

// The lines of the design that a text means; none if it is faulty.
fn told(alloc: Global, text: &[u8]) -> Result<Vec<u8>, Fail> {
    match read(alloc, text)? {
        Ok(design) => Ok(lines_of(alloc, &design)?),
        Err(_) => Ok(Vec::new(alloc)),
    }
}

#[test]
fn designs_are_read(rt: HostRuntime) -> Result<(), Fail> {
    let alloc = rt.alloc();
    let rows: [(&[u8], &[u8]); 5] = [
        // Carriage returns, a comment, a joined line, and no line feed at the end.
        (
            b".input a\r\npinlist: n1 # drives\r\n.output z\r\npinlist: n2\r\n.clb b\r\n\
            pinlist: n1 \\\r\n open n2\r\nsubblock: b 0 1",
            b"in a 0\nout z 1\nlogic b 0 1\nnet 0.0 2.0\nnet 1.0 2.2\n",
        ),
        // A block on two pins of a net; a global net; open pins.
        (
            b".clb b1\npinlist: open open n\n.global m q\n.clb b2\npinlist: n n m",
            b"logic b1 0\nlogic b2 0\nnet 0.2 1.0 1.1\nglobal 1.2\n",
        ),
        // Names of any bytes, and of words of the format.
        (
            b".global m q\n.input open more\npinlist: m\n.clb \xff\x01\x0b\n\
            subblock: x\npinlist: m open \\n\nsubblock: y\n.output pinlist:\npinlist: open\n.global",
            b"in open\nlogic \xff\x01\x0b 1\nout pinlist:\nglobal 0.0 1.0\nnet 1.2\n",
        ),
        // The nets of a block ascend, whatever their order at its pins.
        (
            b".input a\npinlist: m\n.input d\npinlist: k\n.clb b\npinlist: n m l\n\
            .clb c\npinlist: k k n\n.output z\npinlist: g\n.clb e\npinlist: n l g\n.global g",
            b"in a 0\nin d 1\nlogic b 0 2 3\nlogic c 1 2\nout z\nlogic e 2 3\n\
            net 0.0 2.1\nnet 1.0 3.0 3.1\nnet 2.0 3.2 5.0\nnet 2.2 5.1\nglobal 4.0 5.2\n",
        ),
        (
            b".input a\npinlist: m\n.input d\npinlist: k\n.clb b\npinlist: k m l\n\
            .clb c\npinlist: l l g\n.output z\npinlist: g\n.global g",
            b"in a 0\nin d 1\nlogic b 0 1 2\nlogic c 2\nout z\nnet 0.0 2.1\nnet 1.0 2.0\nnet 2.2 3.0 3.1\nglobal 3.2 4.0\n",
        ),
    ];
    for (text, wanted) in rows {
        assert_eq!(rt; told(alloc, text)?.as_slice(), wanted);
    }
    Ok(())
}

// How many blocks, logic blocks and nets a text has.
fn counts(alloc: Global, text: &[u8]) -> Result<Option<(usize, usize, usize)>, Fail> {
    match read(alloc, text)? {
        Ok(design) => Ok(Some((design.blocks(), design.logic_blocks(), design.nets()))),
        Err(_) => Ok(None),
    }
}

#[test]
fn an_empty_text_is_a_design(rt: HostRuntime) -> Result<(), Fail> {
    let alloc = rt.alloc();
    for text in [b"".as_slice(), b"\n # nothing\r\n", b".global clk"] {
        assert_eq!(rt; counts(alloc, text)?, Some((0, 0, 0)));
    }
    assert_eq!(rt;
        counts(
            alloc,
            b".clb b\npinlist: open open n\n.output z\npinlist: n"
        )?,
        Some((2, 1, 1))
    );
    Ok(())
}

// The number of the block of a name.
fn number_of(alloc: Global, text: &[u8], name: &[u8]) -> Result<Option<u32>, Fail> {
    match read(alloc, text)? {
        Ok(design) => match design.block_named(name) {
            Some(block) => Ok(Some(block.0)),
            None => Ok(None),
        },
        Err(_) => Ok(None),
    }
}

#[test]
fn blocks_are_found_by_name(rt: HostRuntime) -> Result<(), Fail> {
    let alloc = rt.alloc();
    let text = b".input a\npinlist: n\n.clb \xff\npinlist: n open open\n.output aa\npinlist: n";
    assert_eq!(rt; number_of(alloc, text, b"a")?, Some(0));
    assert_eq!(rt; number_of(alloc, text, b"\xff")?, Some(1));
    assert_eq!(rt; number_of(alloc, text, b"aa")?, Some(2));
    assert_eq!(rt; number_of(alloc, text, b"n")?, None);
    assert_eq!(rt; number_of(alloc, text, b"")?, None);
    Ok(())
}

#[test]
fn the_first_fault_is_told(rt: HostRuntime) -> Result<(), Fail> {
    let alloc = rt.alloc();
    let rows: [(&[u8], NetFault); 12] = [
        (b"\n.Input a", NetFault::UnknownWord(2)),
        (b".input a\npinlist: n\n.output", NetFault::NoName(3)),
        (b".global n\npinlist: n", NetFault::PinlistWithoutBlock(2)),
        (
            b".input a\n.input",
            NetFault::MissingPinlist(Span { start: 7, stop: 8 }),
        ),
        (
            b".clb long\nsubblock: long\n.global n",
            NetFault::MissingPinlist(Span { start: 5, stop: 9 }),
        ),
        (b".clb b\npinlist: n \\\n\nm", NetFault::PinCount(2)),
        (
            b".output z\npinlist: n\nsubblock: z",
            NetFault::SubblockWithoutLogic(3),
        ),
        (b".input a\npinlist: n\n.clb a", NetFault::DuplicateBlock(3)),
        (
            b".output z\npinlist: first\n.input a\npinlist: second\n.input b\npinlist: second",
            NetFault::NoDriver(Span {
                start: 19,
                stop: 24,
            }),
        ),
        (
            b".input a\npinlist: second\n.output z\npinlist: first\n.input b\npinlist: second",
            NetFault::TwoDrivers(Span {
                start: 18,
                stop: 24,
            }),
        ),
        (
            b".global n\n.output z\npinlist: n",
            NetFault::NoDriver(Span {
                start: 29,
                stop: 30,
            }),
        ),
        (b".input a\npinlist: n m", NetFault::PinCount(2)),
    ];
    for (text, fault) in rows {
        assert_eq!(rt; read(alloc, text)?.err(), Some(fault));
    }
    Ok(())
}
