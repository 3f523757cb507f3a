//! Why a text is not a netlist.

ghost use Rattle.std.specs.Prelude.{◌≡◌, Some};
ghost use Rattle.fab_net.specs.FaultTexts.{net_fault_text};
ghost use Rattle.fab_net.specs.declared.fault.NetFault.TheVariants.{NoMemory};

use fab_text::Span;
use std::alloc::{AllocError, AllocFailed};
use std::fmt;
use thiserror::Error;

/// Why a text is not a netlist: its first fault. A number is that of the faulty line, and a span is the place of a name in the text.
#[derive(Clone, Copy, Debug, PartialEq, Eq, Error)]
pub enum NetFault {
    /// The first word of a line is no word of the netlist format.
    UnknownWord(u64),
    /// A line opens a block without a name.
    NoName(u64),
    /// A pinlist comes where no block is open, or where the open block already has its pinlist.
    PinlistWithoutBlock(u64),
    /// A block ends without a pinlist; the span is that of its name.
    MissingPinlist(Span),
    /// A pinlist has more or fewer entries than its block has pins.
    PinCount(u64),
    /// A subblock comes where no logic block is open.
    SubblockWithoutLogic(u64),
    /// A block has the name of an earlier one.
    DuplicateBlock(u64),
    /// A net has no driver; the span is its first appearance in a pinlist.
    NoDriver(Span),
    /// A net has two drivers or more; the span is its first appearance in a pinlist.
    TwoDrivers(Span),
    /// There is a block or net above the 65,535th, or a terminal above the 1,048,576th.
    TooLarge(u64),
    /// Memory ran out.
    NoMemory,
}

impl fmt::Display for NetFault {
    ghost output = { λ fault. Some (net_fault_text fault) };

    fn fmt<W: fmt::Write>(&self, f: &mut fmt::Formatter<W>) -> fmt::Result {
        match self {
            NetFault::UnknownWord(line) => write!(f, "N1 UnknownWord line {line}"),
            NetFault::NoName(line) => write!(f, "N2 NoName line {line}"),
            NetFault::PinlistWithoutBlock(line) => write!(f, "N3 PinlistWithoutBlock line {line}"),
            NetFault::MissingPinlist(_) => f.write_str("N4 MissingPinlist"),
            NetFault::PinCount(line) => write!(f, "N5 PinCount line {line}"),
            NetFault::SubblockWithoutLogic(line) => write!(
                f,
                "N6 SubblockWithoutLogic line {line}"
            ),
            NetFault::DuplicateBlock(line) => write!(f, "N7 DuplicateBlock line {line}"),
            NetFault::NoDriver(_) => f.write_str("N8 NoDriver"),
            NetFault::TwoDrivers(_) => f.write_str("N9 TwoDrivers"),
            NetFault::TooLarge(line) => write!(f, "N10 TooLarge line {line}"),
            NetFault::NoMemory => f.write_str("no memory"),
        }
    }
}

impl From<AllocError> for NetFault {
    ghost from_gives = { λ _ e. e ≡ NoMemory };

    fn from(_e: AllocError) -> NetFault {
        NetFault::NoMemory
    }
}

impl<T: Drop> From<AllocFailed<T>> for NetFault {
    ghost from_gives = { λ _ e. e ≡ NoMemory };

    fn from(_e: AllocFailed<T>) -> NetFault {
        NetFault::NoMemory
    }
}
