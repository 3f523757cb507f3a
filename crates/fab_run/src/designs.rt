//! The design that an architecture text and a netlist mean.

ghost use Rattle.std.specs.Prelude.{◌≡◌, ◌≤◌, ℕ, IfOk, IfErr, MatchResult};
ghost use Rattle.fab_net.specs.Netlist.{Netlist};
ghost use Rattle.fab_run.specs.Check.{MeanDesign, IsDesignFault};
ghost use Rattle.fab_run.specs.declared.fault.RunFault.TheVariants.{NoMemory};

use crate::fault::RunFault;
use fab_arch::read_arch;
use fab_net::{Design, read_net};
use std::alloc::Global;

/// Reads the number of pads at a position, and the design, from an architecture text and a netlist. An error is the first fault of the
/// architecture text, or else of the netlist, or a lack of memory.
pub(crate) fn read_design(alloc: Global, arch: &[u8], net: &[u8]) -> Result<(u16, Design), RunFault>
    ensures found { IfOk result (λ r. MeanDesign arch.now net.now r.0 r.1) }
    ensures ratio { IfOk result (λ r. (1 ≤ r.0) × (r.0 ≤ 64)) }
    ensures only { (io_rat : ℕ) (d : Netlist) → MeanDesign arch.now net.now io_rat d →
        MatchResult result (λ r. (r.0 ≡ io_rat) × (r.1 ≡ d)) (λ e. e ≡ NoMemory) }
    ensures fault { IfErr result (IsDesignFault arch.now net.now) }
{
    let arch = read_arch(alloc, arch)?;
    let design = read_net(alloc, net, &arch)?;
    Ok((arch.io_rat, design))
}
