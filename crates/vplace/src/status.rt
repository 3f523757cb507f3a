//! How a run of the program ended, and its exit status.

ghost use Rattle.std.specs.Prelude.{◌≡◌, ◌≢◌, ◌⊎◌};
ghost use Rattle.fab_file.specs.declared.fault.PlaceFault.TheVariants.{Write};
ghost use Rattle.fab_run.specs.declared.fault.RunFault.TheVariants.{Place, Point, Report};
ghost use Rattle.fab_run.specs.declared.point_fault.PointFault.TheVariants.{Write as PointWrite};
ghost use Rattle.vplace.specs.Status.{code_of, status_of};

use fab_arch::ArchFault;
use fab_file::PlaceFault;
use fab_net::NetFault;
use fab_run::{PointFault, RunFault};

/// How a run of the program ended.
#[derive(Clone, Copy, Debug, PartialEq, Eq)]
pub enum Status {
    /// It did what the words ask for.
    Done,
    /// A file or the size of the array is refused, or the design does not fit on it.
    Refused,
    /// The command line is wrong, or its schedule, batch or workers are out of range.
    CommandLine,
    /// Memory ran out.
    NoMemory,
    /// A file could not be read, or an output could not be written.
    Device,
}

impl Status {
    /// The exit status, 0 to 4.
    pub fn code(self) -> u8
        ensures { result ≡ code_of self }
    {
        match self {
            Status::Done => 0,
            Status::Refused => 1,
            Status::CommandLine => 2,
            Status::NoMemory => 3,
            Status::Device => 4,
        }
    }
}

/// How a run with this fault ends.
pub fn status_after(fault: &RunFault) -> Status
    ensures status { result ≡ status_of fault.now }
    ensures open { result ≢ Status.Done }
    ensures device { result ≡ Status.Device → (fault.now ≡ Report) ⊎
        ((fault.now ≡ Place Write) ⊎ (fault.now ≡ Point PointWrite)) }
{
    match fault {
        RunFault::NoMemory
        | RunFault::Arch(ArchFault::NoMemory)
        | RunFault::Net(NetFault::NoMemory)
        | RunFault::Pads(PlaceFault::NoMemory)
        | RunFault::Place(PlaceFault::NoMemory)
        | RunFault::Point(PointFault::NoMemory) => Status::NoMemory,
        RunFault::Report
        | RunFault::Place(PlaceFault::Write)
        | RunFault::Point(PointFault::Write) => Status::Device,
        RunFault::Schedule(_) | RunFault::BatchOutOfRange | RunFault::WorkersOutOfRange => {
            Status::CommandLine
        }
        RunFault::Arch(_)
        | RunFault::Net(_)
        | RunFault::Pads(_)
        | RunFault::Place(_)
        | RunFault::Point(_)
        | RunFault::Size(_) => Status::Refused,
    }
}
