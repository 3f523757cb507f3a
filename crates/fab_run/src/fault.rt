//! Why a run gave no answer, and the line that reports it.

ghost use Rattle.std.specs.Prelude.{◌≡◌, ◌++◌, Some, IfOk, OnOk};
ghost use Rattle.fab_run.specs.FaultLines.{run_fault_text, named_place, named_bytes, name_text, fault_line as line_of_fault};
ghost use Rattle.fab_run.specs.RunFaults.{of_arch, of_net, of_pads, of_place, of_point};
ghost use Rattle.fab_run.specs.declared.fault.RunFault.TheVariants.{Size, Schedule, Report, NoMemory};

use crate::point_fault::PointFault;
use fab_arch::{ArchFault, GridFault};
use fab_file::PlaceFault;
use fab_net::NetFault;
use fab_sched::SchedFault;
use fab_text::{Span, WriteFault};
use std::alloc::{AllocError, AllocFailed, Global};
use std::fmt;
use thiserror::Error;

/// Why a run gave no answer: the first fault of its inputs, a writer that failed, or a lack of memory.
#[derive(Clone, Copy, Debug, PartialEq, Eq, Error)]
pub enum RunFault {
    /// The architecture text is faulty.
    Arch(ArchFault),
    /// The netlist text is faulty.
    Net(NetFault),
    /// The location text is faulty.
    Pads(PlaceFault),
    /// The placement text is faulty, a label is not allowed in it, or its writer failed.
    Place(PlaceFault),
    /// The checkpoint text is faulty, or its writer failed.
    Point(PointFault),
    /// The size of the array is out of range, or the design does not fit on it.
    Size(GridFault),
    /// The schedule is not lawful.
    Schedule(SchedFault),
    /// The batch is outside 1 to 4,096.
    BatchOutOfRange,
    /// The workers are outside 1 to 64.
    WorkersOutOfRange,
    /// The writer of the report failed.
    Report,
    /// Memory ran out.
    NoMemory,
}

impl fmt::Display for RunFault {
    ghost output = { λ fault. Some (run_fault_text fault) };

    fn fmt<W: fmt::Write>(&self, f: &mut fmt::Formatter<W>) -> fmt::Result {
        match self {
            RunFault::NoMemory
            | RunFault::Arch(ArchFault::NoMemory)
            | RunFault::Net(NetFault::NoMemory)
            | RunFault::Pads(PlaceFault::NoMemory)
            | RunFault::Place(PlaceFault::NoMemory)
            | RunFault::Point(PointFault::NoMemory) => f.write_str("no memory"),
            RunFault::Report => f.write_str("cannot write report"),
            RunFault::Place(PlaceFault::Write) => f.write_str("cannot write place"),
            RunFault::Point(PointFault::Write) => f.write_str("cannot write point"),
            RunFault::Arch(fault) => write!(f, "arch: {fault}"),
            RunFault::Net(fault) => write!(f, "net: {fault}"),
            RunFault::Pads(fault) => write!(f, "pads: {fault}"),
            RunFault::Place(fault) => write!(f, "place: {fault}"),
            RunFault::Point(fault) => write!(f, "point: {fault}"),
            RunFault::Size(fault) => write!(f, "size: {fault}"),
            RunFault::Schedule(fault) => write!(f, "schedule: {fault}"),
            RunFault::BatchOutOfRange => f.write_str("option: O1 BatchOutOfRange"),
            RunFault::WorkersOutOfRange => f.write_str("option: O2 WorkersOutOfRange"),
        }
    }
}

impl From<AllocError> for RunFault {
    ghost from_gives = { λ _ e. e ≡ NoMemory };

    fn from(_e: AllocError) -> RunFault {
        RunFault::NoMemory
    }
}

impl<T: Drop> From<AllocFailed<T>> for RunFault {
    ghost from_gives = { λ _ e. e ≡ NoMemory };

    fn from(_e: AllocFailed<T>) -> RunFault {
        RunFault::NoMemory
    }
}

impl From<ArchFault> for RunFault {
    ghost from_gives = { λ fault e. e ≡ of_arch fault };

    fn from(fault: ArchFault) -> RunFault {
        match fault {
            ArchFault::NoMemory => RunFault::NoMemory,
            _ => RunFault::Arch(fault),
        }
    }
}

impl From<NetFault> for RunFault {
    ghost from_gives = { λ fault e. e ≡ of_net fault };

    fn from(fault: NetFault) -> RunFault {
        match fault {
            NetFault::NoMemory => RunFault::NoMemory,
            _ => RunFault::Net(fault),
        }
    }
}

impl From<PlaceFault> for RunFault {
    ghost from_gives = { λ fault e. e ≡ of_place fault };

    fn from(fault: PlaceFault) -> RunFault {
        match fault {
            PlaceFault::NoMemory => RunFault::NoMemory,
            _ => RunFault::Place(fault),
        }
    }
}

impl From<PointFault> for RunFault {
    ghost from_gives = { λ fault e. e ≡ of_point fault };

    fn from(fault: PointFault) -> RunFault {
        match fault {
            PointFault::NoMemory => RunFault::NoMemory,
            _ => RunFault::Point(fault),
        }
    }
}

/// The fault of a run whose location text has this fault.
pub(crate) fn pads_fault(fault: PlaceFault) -> RunFault
    ensures { result ≡ of_pads fault }
{
    match fault {
        PlaceFault::NoMemory => RunFault::NoMemory,
        _ => RunFault::Pads(fault),
    }
}

impl From<SchedFault> for RunFault {
    ghost from_gives = { λ fault e. e ≡ Schedule fault };

    fn from(fault: SchedFault) -> RunFault {
        RunFault::Schedule(fault)
    }
}

impl From<GridFault> for RunFault {
    ghost from_gives = { λ fault e. e ≡ Size fault };

    fn from(fault: GridFault) -> RunFault {
        RunFault::Size(fault)
    }
}

impl From<WriteFault> for RunFault {
    ghost from_gives = { λ _ e. e ≡ Report };

    fn from(_fault: WriteFault) -> RunFault {
        RunFault::Report
    }
}

/// The span, in the netlist, of the name that the line of a fault shows, if it shows one.
fn named_place(fault: &RunFault) -> Option<Span>
    ensures { result ≡ named_place fault.now }
{
    match fault {
        RunFault::Net(
            NetFault::MissingPinlist(span) | NetFault::NoDriver(span) | NetFault::TwoDrivers(span),
        ) => Some(*span),
        _ => None,
    }
}

/// The bytes of a text at a span; none if the span is not within the text.
fn named_bytes<'a>(net: &'a [u8], span: &Span) -> &'a [u8]
    ensures { result.now ≡ named_bytes net.now span.now }
{
    net.get(span.start..span.stop).unwrap_or(b"")
}

/// Appends the name that the line of a fault shows, if it shows one.
fn push_name(line: &mut Vec<u8>, fault: &RunFault, net: &[u8]) -> Result<(), AllocError>
    ensures { OnOk result
        (line.new.items ≡ line.old.items ++ name_text (named_place fault.now) net.now) }
{
    if let Some(span) = named_place(fault) {
        line.extend_from_slice(b" name ")?;
        line.extend_from_slice(named_bytes(net, &span))?;
    }
    Ok(())
}

/// The line that reports a fault, without a line feed at its end: `vplace: ROLE: CODE NAME` and its detail. A lack of memory, and a writer
/// that failed, are reported in words. `net` is the netlist text that the span of a fault refers to. If a span is not within it, the line
/// names nothing.
pub fn fault_line(alloc: Global, fault: &RunFault, net: &[u8]) -> Result<Vec<u8>, AllocError>
    ensures { IfOk result (λ line. line.items ≡ line_of_fault fault.now net.now) }
{
    let mut line = format!(in alloc; "vplace: {fault}")?.into_bytes();
    push_name(&mut line, fault, net)?;
    Ok(line)
}
