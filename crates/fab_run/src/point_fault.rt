//! Why a checkpoint text is refused, or was not written.

ghost use Rattle.std.specs.Prelude.{◌≡◌, Some};
ghost use Rattle.fab_run.specs.PointFaultTexts.{field_word, of_line_fault, point_fault_text};
ghost use Rattle.fab_run.specs.declared.point_fault.PointFault.TheVariants.{NoMemory, Write};

use fab_file::PlaceFault;
use fab_text::WriteFault;
use std::alloc::{AllocError, AllocFailed};
use std::fmt;
use thiserror::Error;

/// A field of a checkpoint text whose numbers have a range.
#[derive(Clone, Copy, Debug, PartialEq, Eq)]
pub enum PointField {
    /// An array within its limits that holds the design, with as many pads at a position as the architecture has.
    Array,
    /// A lawful schedule.
    Schedule,
    /// A stage of the schedule with a move that is not made yet, and no more moves accepted than made.
    Stage,
    /// A temperature that the stage can have.
    Temperature,
    /// A range from 1 to the longer side of the array.
    Range,
    /// At least the moves accepted in the running stage, and at most all moves made.
    Total,
    /// At most as many blocks as the design has.
    Fixed,
    /// As many blocks as the design has.
    Places,
}

impl fmt::Display for PointField {
    ghost output = { λ field. Some (field_word field) };

    fn fmt<W: fmt::Write>(&self, f: &mut fmt::Formatter<W>) -> fmt::Result {
        match self {
            PointField::Array => f.write_str("array"),
            PointField::Schedule => f.write_str("schedule"),
            PointField::Stage => f.write_str("stage"),
            PointField::Temperature => f.write_str("temperature"),
            PointField::Range => f.write_str("range"),
            PointField::Total => f.write_str("total"),
            PointField::Fixed => f.write_str("fixed"),
            PointField::Places => f.write_str("places"),
        }
    }
}

/// The first fault of a checkpoint text, or why none was written.
#[derive(Clone, Copy, Debug, PartialEq, Eq, Error)]
pub enum PointFault {
    /// The first line gives no known version.
    BadVersion,
    /// The line with this number does not have the form that is due there, or comes after the last line that is due. The number is 0 if the
    /// text ends too early.
    BadField(u64),
    /// The numbers of a field are out of range.
    OutOfRange(PointField),
    /// The line of a fixed block or of a place is faulty: it does not have this form; its block is unknown, already named, or, in the first
    /// version, not a pad; or its site does not exist, is of another kind, or is taken.
    Block(PlaceFault),
    /// The writer failed.
    Write,
    /// Memory ran out.
    NoMemory,
}

impl fmt::Display for PointFault {
    ghost output = { λ fault. Some (point_fault_text fault) };

    fn fmt<W: fmt::Write>(&self, f: &mut fmt::Formatter<W>) -> fmt::Result {
        match self {
            PointFault::BadVersion => f.write_str("C1 BadVersion"),
            PointFault::BadField(line) => write!(f, "C2 BadField line {line}"),
            PointFault::OutOfRange(field) => write!(f, "C3 OutOfRange field {field}"),
            PointFault::Block(fault) => write!(f, "{fault}"),
            PointFault::Write => f.write_str("the writer failed"),
            PointFault::NoMemory => f.write_str("no memory"),
        }
    }
}

impl From<AllocError> for PointFault {
    ghost from_gives = { λ _ e. e ≡ NoMemory };

    fn from(_e: AllocError) -> PointFault {
        PointFault::NoMemory
    }
}

impl<T: Drop> From<AllocFailed<T>> for PointFault {
    ghost from_gives = { λ _ e. e ≡ NoMemory };

    fn from(_e: AllocFailed<T>) -> PointFault {
        PointFault::NoMemory
    }
}

impl From<WriteFault> for PointFault {
    ghost from_gives = { λ _ e. e ≡ Write };

    fn from(_fault: WriteFault) -> PointFault {
        PointFault::Write
    }
}

impl From<PlaceFault> for PointFault {
    ghost from_gives = { λ fault e. e ≡ of_line_fault fault };

    fn from(fault: PlaceFault) -> PointFault {
        match fault {
            PlaceFault::NoMemory => PointFault::NoMemory,
            _ => PointFault::Block(fault),
        }
    }
}
