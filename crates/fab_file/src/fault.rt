//! Why a text does not stand for a placement.

ghost use Rattle.std.specs.Prelude.{◌≡◌, Some};
ghost use Rattle.fab_file.specs.FaultTexts.{place_fault_text};
ghost use Rattle.fab_file.specs.declared.fault.PlaceFault.TheVariants.{NoMemory};

use std::alloc::{AllocError, AllocFailed};
use std::fmt;
use thiserror::Error;

/// Why a text does not stand for a placement, or why none was written: the first fault. A number is that of the faulty line, except in
/// `Missing`, where it is that of a block.
#[derive(Clone, Copy, Debug, PartialEq, Eq, Error)]
pub enum PlaceFault {
    /// One of the first two lines is missing or is not the header's.
    BadHeader,
    /// The header gives a size that is not the array's.
    WrongSize,
    /// A line names no block of the design.
    UnknownBlock(u64),
    /// A line names a block that an earlier line names.
    Repeated(u64),
    /// The array has no such site.
    NoSuchSite(u64),
    /// The site is not of the block's kind.
    WrongKind(u64),
    /// An earlier line gives the site to another block.
    Taken(u64),
    /// No line names this block: the first such block, by number.
    Missing(u64),
    /// A line of a checkpoint of the first version fixes a block that is not a pad.
    NotAPad(u64),
    /// A line is not a name with three numbers of at most 65,535, or not what its format requires.
    BadLine(u64),
    /// A label cannot be part of a header.
    BadLabel,
    /// The writer failed.
    Write,
    /// Memory ran out.
    NoMemory,
}

impl fmt::Display for PlaceFault {
    ghost output = { λ fault. Some (place_fault_text fault) };

    fn fmt<W: fmt::Write>(&self, f: &mut fmt::Formatter<W>) -> fmt::Result {
        match self {
            PlaceFault::BadHeader => f.write_str("P1 BadHeader"),
            PlaceFault::WrongSize => f.write_str("P2 WrongSize"),
            PlaceFault::UnknownBlock(line) => write!(f, "P3 UnknownBlock line {line}"),
            PlaceFault::Repeated(line) => write!(f, "P4 Repeated line {line}"),
            PlaceFault::NoSuchSite(line) => write!(f, "P5 NoSuchSite line {line}"),
            PlaceFault::WrongKind(line) => write!(f, "P6 WrongKind line {line}"),
            PlaceFault::Taken(line) => write!(f, "P7 Taken line {line}"),
            PlaceFault::Missing(block) => write!(f, "P8 Missing block {block}"),
            PlaceFault::NotAPad(line) => write!(f, "P9 NotAPad line {line}"),
            PlaceFault::BadLine(line) => write!(f, "P10 BadLine line {line}"),
            PlaceFault::BadLabel => f.write_str("P11 BadLabel"),
            PlaceFault::Write => f.write_str("the writer failed"),
            PlaceFault::NoMemory => f.write_str("no memory"),
        }
    }
}

impl From<AllocError> for PlaceFault {
    ghost from_gives = { λ _ e. e ≡ NoMemory };

    fn from(_e: AllocError) -> PlaceFault {
        PlaceFault::NoMemory
    }
}

impl<T: Drop> From<AllocFailed<T>> for PlaceFault {
    ghost from_gives = { λ _ e. e ≡ NoMemory };

    fn from(_e: AllocFailed<T>) -> PlaceFault {
        PlaceFault::NoMemory
    }
}
