//! Reads placement texts: a header, and one line for each block.

ghost use Rattle.std.specs.Prelude.{◌≡◌, List, IfOk, IfErr, MatchResult};
ghost use Rattle.fab_arch.specs.declared.array.Site.{Site};
ghost use Rattle.fab_text.specs.Lines.{TextLine, lines};
ghost use Rattle.fab_arch.specs.Grid.{GridShape};
ghost use Rattle.fab_net.specs.Netlist.{Netlist, IsLawful};
ghost use Rattle.fab_file.specs.Place.{StandsFor};
ghost use Rattle.fab_file.specs.PlaceFaults.{FaultIs, PlaceMeansOrFaults, first_fault};
ghost use Rattle.fab_file.specs.declared.fault.PlaceFault.TheVariants.{NoMemory};

use crate::block_lines::PlaceLines;
use crate::fault::PlaceFault;
use crate::header::{check_size, take_size};
use fab_arch::Grid;
use fab_net::Design;
use fab_site::Placement;
use fab_text::Lines;
use std::alloc::Global;

/// Reads the placement that a text stands for, of the design `design` on the array `grid`. Otherwise returns the text's first fault: that
/// of the header, else that of the first faulty line, else the first block that no line names.
pub fn read_place(
    alloc: Global,
    bytes: &[u8],
    design: &Design,
    grid: &Grid,
) -> Result<Placement, PlaceFault>
    // If a placement is returned, the text stands for it.
    ensures found { IfOk result (λ p. StandsFor design.now grid.now (lines bytes.now) p.sites) }
    ensures grid { IfOk result (λ p. p.grid ≡ grid.now) }
    // If the text stands for a placement, it is returned, unless memory runs out.
    ensures only { (sites : List Site) → StandsFor design.now grid.now (lines bytes.now) sites →
        MatchResult result (λ p. p.sites ≡ sites) (λ e. e ≡ NoMemory) }
    // An error is the first fault, or that memory ran out.
    ensures fault { IfErr result (λ e.
        FaultIs e (first_fault design.now grid.now (lines bytes.now))) }
{
    let mut placed = PlaceLines::new(alloc, design, grid)?;
    let mut left = Lines::new(alloc, bytes);
    let (nx, ny) = take_size(&mut left)?;
    check_size(grid, nx, ny)?;
    let mut done = None;
    while let Some(line) = left.next_in_room_of(done)? {
        placed.take(&line)?;
        done = Some(line);
    }
    placed.finish()
}

/// The law that the lines of a placement text either stand for a placement or have a first fault, and never both.
pub fn place_texts_mean_or_fault()
    ensures { (d : Netlist) (g : GridShape) (ls : List TextLine) → IsLawful d →
        PlaceMeansOrFaults d g ls }
{}
