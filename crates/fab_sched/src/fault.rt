//! Why numbers do not form a schedule.

ghost use Rattle.std.specs.Prelude.{Some};
ghost use Rattle.fab_sched.specs.FaultTexts.{sched_fault_text};

use std::fmt;
use thiserror::Error;

/// The first of a schedule's numbers that is outside its limits.
#[derive(Clone, Copy, Debug, PartialEq, Eq, Error)]
pub enum SchedFault {
    /// The first temperature is outside 1 to 1,073,741,824 ten-thousandths.
    InitOutOfRange,
    /// The least temperature that is run is outside 1 to 1,073,741,824 ten-thousandths.
    ExitOutOfRange,
    /// The factor is outside 1 to 999 thousandths.
    AlphaOutOfRange,
    /// The moves of a stage are outside 1 to 1,073,741,824, or the factor they are computed from is outside 1 to 10,000.
    MovesOutOfRange,
}

impl fmt::Display for SchedFault {
    ghost output = { λ fault. Some (sched_fault_text fault) };

    fn fmt<W: fmt::Write>(&self, f: &mut fmt::Formatter<W>) -> fmt::Result {
        f.write_str(match self {
            SchedFault::InitOutOfRange => "S1 InitOutOfRange",
            SchedFault::ExitOutOfRange => "S2 ExitOutOfRange",
            SchedFault::AlphaOutOfRange => "S3 AlphaOutOfRange",
            SchedFault::MovesOutOfRange => "S4 MovesOutOfRange",
        })
    }
}
