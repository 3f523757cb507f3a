//! The check of three texts: is the placement legal, and what does it cost?

ghost use Rattle.std.specs.Prelude.{◌≡◌, ◌≢◌, ◌<◌, ◌^◌, ◌⊎◌, ℕ, List, length, Some, IfOk, IfErr, OnOk, MatchResult};
ghost use Rattle.fab_arch.specs.declared.array.Site.{Site};
ghost use Rattle.fab_arch.specs.Grid.{GridShape};
ghost use Rattle.fab_text.specs.Lines.{lines};
ghost use Rattle.fab_net.specs.Netlist.{Netlist};
ghost use Rattle.fab_file.specs.Place.{place_size_of};
ghost use Rattle.fab_cost.specs.Cost.{cost_of};
ghost use Rattle.fab_run.specs.CheckReport.{check_report};
ghost use Rattle.fab_run.specs.Check.{MeanDesign, FitsOn, AreChecked, FaultOf, IsReport, IsReported, IsCut, IsTextFault, report_failed_with};
ghost use Rattle.fab_run.specs.declared.fault.RunFault.TheVariants.{Report, NoMemory};

use crate::designs::read_design;
use crate::fault::RunFault;
use fab_arch::Grid;
use fab_cost::Boxes;
use fab_file::{place_size, read_place};
use fab_net::Design;
use fab_site::Placement;
use fab_text::{Sink, push_fixed4, push_number, write_whole};
use std::alloc::{AllocError, Global};

/// The array that the header of a placement text gives, if it holds the design. An error is the fault of the header or of the size, or a
/// lack of memory.
fn read_array(alloc: Global, place: &[u8], design: &Design, io_rat: u16) -> Result<Grid, RunFault>
    ensures found { IfOk result (λ g.
        (g.io_rat ≡ io_rat) × (place_size_of (lines place.now) ≡ Some (g.nx, g.ny)) ×
        FitsOn design.now g) }
    ensures only { (g : GridShape) → g.io_rat ≡ io_rat →
        place_size_of (lines place.now) ≡ Some (g.nx, g.ny) → FitsOn design.now g →
        MatchResult result (λ h. h ≡ g) (λ e. e ≡ NoMemory) }
    ensures fault { (arch net : List ℕ) → MeanDesign arch net io_rat design.now →
        IfErr result (λ e. FaultOf arch net place.now e) }
    ensures text { IfErr result IsTextFault }
{
    let (nx, ny) = place_size(alloc, place)?;
    let grid = Grid::new(nx, ny, io_rat)?;
    grid.holds(design.logic_blocks(), design.pads())?;
    Ok(grid)
}

/// What three texts mean: a design, an array that holds it, and a placement of it.
fn read_checked(
    alloc: Global,
    arch: &[u8],
    net: &[u8],
    place: &[u8],
) -> Result<(Design, Grid, Placement), RunFault>
    ensures found { IfOk result (λ r. AreChecked arch.now net.now place.now r.0 r.1 r.2.sites) }
    ensures only { (d : Netlist) (g : GridShape) (sites : List Site) →
        AreChecked arch.now net.now place.now d g sites →
        MatchResult result (λ r. (r.0 ≡ d) × (r.1 ≡ g) × (r.2.sites ≡ sites)) (λ e. e ≡ NoMemory) }
    ensures fault { IfErr result (λ e. FaultOf arch.now net.now place.now e) }
    ensures text { IfErr result IsTextFault }
{
    let (io_rat, design) = read_design(alloc, arch, net)?;
    let grid = read_array(alloc, place, &design, io_rat)?;
    let placement = read_place(alloc, place, &design, &grid)?;
    Ok((design, grid, placement))
}

/// The two lines of a check's report.
fn report_lines(alloc: Global, blocks: usize, grid: &Grid, cost: u64) -> Result<Vec<u8>, AllocError>
    ensures { IfOk result (λ v. v.items ≡ check_report blocks grid.now cost) }
{
    let mut lines = Vec::new(alloc);
    lines.extend_from_slice(b"legal ")?;
    push_number(&mut lines, blocks as u64)?;
    lines.extend_from_slice(b" blocks on a ")?;
    push_number(&mut lines, u64::from(grid.nx()))?;
    lines.extend_from_slice(b" x ")?;
    push_number(&mut lines, u64::from(grid.ny()))?;
    lines.extend_from_slice(b" array\ncost ")?;
    push_fixed4(&mut lines, cost)?;
    lines.extend_from_slice(b"\n")?;
    Ok(lines)
}

/// The cost of a placement, and the report of its check.
fn report_of(
    alloc: Global,
    design: &Design,
    grid: &Grid,
    placement: &Placement,
) -> Result<(u64, Vec<u8>), AllocError>
    requires { length design.now.kinds ≡ length placement.now.sites }
    ensures value { IfOk result (λ r. r.0 ≡ cost_of design.now grid.now placement.now.sites) }
    ensures text { IfOk result (λ r.
        r.1.items ≡ check_report (length design.now.kinds) grid.now r.0) }
    ensures below { IfOk result (λ r. r.0 < 2 ^ 43) }
{
    let cost = Boxes::new(alloc, design, grid, placement)?.cost();
    let lines = report_lines(alloc, design.blocks(), grid, cost)?;
    Ok((cost, lines))
}

/// The cost and the report of the check of three texts.
fn checked_report(
    alloc: Global,
    arch: &[u8],
    net: &[u8],
    place: &[u8],
) -> Result<(u64, Vec<u8>), RunFault>
    ensures found { IfOk result (λ r. IsReport arch.now net.now place.now r.0 r.1.items) }
    ensures only { (d : Netlist) (g : GridShape) (sites : List Site) →
        AreChecked arch.now net.now place.now d g sites →
        MatchResult result (λ r. r.0 ≡ cost_of d g sites) (λ e. e ≡ NoMemory) }
    ensures fault { IfErr result (λ e. FaultOf arch.now net.now place.now e) }
    ensures text { IfErr result IsTextFault }
    ensures below { IfOk result (λ r. r.0 < 2 ^ 43) }
{
    let (design, grid, placement) = read_checked(alloc, arch, net, place)?;
    let report = report_of(alloc, &design, &grid, &placement)?;
    Ok(report)
}

/// Checks a placement. The three texts must mean a design, an array that holds it, and a legal placement of it on that array; the placement
/// text gives the size of the array. Returns the wire cost, in ten-thousandths, and writes the report: `legal B blocks on a NX x NY array`
/// and `cost C`.
///
/// An error is the first check that fails, in the order architecture, netlist, header, size, placement; then nothing is written. If no
/// check fails, an error is the failure of the writer. Memory may run out for any texts.
pub fn check_run<W: Sink>(
    alloc: Global,
    arch: &[u8],
    net: &[u8],
    place: &[u8],
    report: &mut W,
) -> Result<u64, RunFault>
    // What is answered and written is what the texts mean.
    ensures found { IfOk result (λ cost.
        IsReported arch.now net.now place.now cost (W.contents report.old)
        (W.contents report.new)) }
    // Their meaning is answered, unless memory runs out or the writer fails.
    ensures only { (d : Netlist) (g : GridShape) (sites : List Site) →
        AreChecked arch.now net.now place.now d g sites →
        MatchResult result (λ cost. cost ≡ cost_of d g sites) (λ e. (e ≡ NoMemory) ⊎ (e ≡ Report)) }
    // An error is the first check that fails, a lack of memory, or the failure of the writer.
    ensures fault { IfErr result (λ e. FaultOf arch.now net.now place.now e) }
    // Only the report is written, so no other writer fails.
    ensures text { IfErr result (λ e. IsTextFault e ⊎ (e ≡ Report)) }
    ensures below { IfOk result (λ cost. cost < 2 ^ 43) }
    // A writer that fails has taken a beginning of the report. After any other fault nothing is written.
    ensures silent { IfErr result (λ e.
        e ≢ Report → W.contents report.new ≡ W.contents report.old) }
    ensures cut { IfErr result (λ e.
        e ≡ Report →
        IsCut arch.now net.now place.now (W.contents report.old) (W.contents report.new)) }
    // The writer failed only if the answer says so.
    ensures sound { OnOk result (W.failed report.new ≡ W.failed report.old) }
    ensures failed { IfErr result (λ e.
        W.failed report.new ≡ report_failed_with e (W.failed report.old)) }
{
    let (cost, lines) = checked_report(alloc, arch, net, place)?;
    write_whole(report, &lines)?;
    Ok(cost)
}
