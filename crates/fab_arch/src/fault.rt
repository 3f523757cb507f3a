//! Why a text is not an architecture, and why an array is not possible or is too small.

ghost use Rattle.std.specs.Prelude.{◌≡◌, Some};
ghost use Rattle.fab_arch.specs.FaultTexts.{arch_fault_text, grid_fault_text};
ghost use Rattle.fab_arch.specs.declared.fault.ArchFault.TheVariants.{NoMemory};

use std::alloc::{AllocError, AllocFailed};
use std::fmt;
use thiserror::Error;

/// Why a text is not an architecture: its first fault. A number is that of the faulty line.
#[derive(Clone, Copy, Debug, PartialEq, Eq, Error)]
pub enum ArchFault {
    /// No line gives the number of pads at each position.
    NoIoRat,
    /// A second line gives the number of pads at each position.
    RepeatedIoRat(u64),
    /// A number is missing, is 0 where that is not allowed, or has a bad digit.
    BadNumber(u64),
    /// A pin's line has a wrong form.
    BadPinLine(u64),
    /// No line declares a pin.
    NoPins,
    /// More than 64 pads at each position, a class above 65,535, or a pin above the 1,024th.
    TooLarge(u64),
    /// Memory ran out.
    NoMemory,
}

impl fmt::Display for ArchFault {
    ghost output = { λ fault. Some (arch_fault_text fault) };

    fn fmt<W: fmt::Write>(&self, f: &mut fmt::Formatter<W>) -> fmt::Result {
        match self {
            ArchFault::NoIoRat => f.write_str("A1 NoIoRat"),
            ArchFault::RepeatedIoRat(line) => write!(f, "A2 RepeatedIoRat line {line}"),
            ArchFault::BadNumber(line) => write!(f, "A3 BadNumber line {line}"),
            ArchFault::BadPinLine(line) => write!(f, "A4 BadPinLine line {line}"),
            ArchFault::NoPins => f.write_str("A5 NoPins"),
            ArchFault::TooLarge(line) => write!(f, "A6 TooLarge line {line}"),
            ArchFault::NoMemory => f.write_str("no memory"),
        }
    }
}

impl From<AllocError> for ArchFault {
    ghost from_gives = { λ _ e. e ≡ NoMemory };

    fn from(_e: AllocError) -> ArchFault {
        ArchFault::NoMemory
    }
}

impl<T: Drop> From<AllocFailed<T>> for ArchFault {
    ghost from_gives = { λ _ e. e ≡ NoMemory };

    fn from(_e: AllocFailed<T>) -> ArchFault {
        ArchFault::NoMemory
    }
}

/// Why an array is not possible, or why blocks do not fit on it.
#[derive(Clone, Copy, Debug, PartialEq, Eq, Error)]
pub enum GridFault {
    /// There are more logic blocks than logic sites.
    TooFewLogicSites,
    /// There are more pads than pad sites.
    TooFewPadSites,
    /// A side is outside 1 to 1,000, or the pads at each position are outside 1 to 64.
    SizeOutOfRange,
}

impl fmt::Display for GridFault {
    ghost output = { λ fault. Some (grid_fault_text fault) };

    fn fmt<W: fmt::Write>(&self, f: &mut fmt::Formatter<W>) -> fmt::Result {
        f.write_str(match self {
            GridFault::TooFewLogicSites => "G1 TooFewLogicSites",
            GridFault::TooFewPadSites => "G2 TooFewPadSites",
            GridFault::SizeOutOfRange => "G3 SizeOutOfRange",
        })
    }
}
