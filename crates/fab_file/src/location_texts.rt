//! Reads location texts: an optional header, and one line for each block that has a site before the first move.

ghost use Rattle.std.specs.Prelude.{◌≡◌, ℕ, ◌<◌, ◌^◌, List, Option, Some, None, length, IfOk, IfErr, OnOk, MatchResult};
ghost use Rattle.fab_arch.specs.declared.array.Site.{Site};
ghost use Rattle.fab_text.specs.Lines.{TextLine, lines};
ghost use Rattle.fab_arch.specs.Grid.{GridShape};
ghost use Rattle.fab_net.specs.Netlist.{Netlist, IsLawful};
ghost use Rattle.fab_text.specs.Shown.{shown};
ghost use Rattle.fab_site.specs.Placement.{fixed_at};
ghost use Rattle.fab_site.specs.Pins.{either_site, ArePins};
ghost use Rattle.fab_file.specs.PlaceFaults.{FaultIs};
ghost use Rattle.fab_file.specs.Pinned.{begins_header, has_header, block_lines, header_fault, is_free, without_free, site_for, IsLocated, LocationMeansOrFaults, pins_fault};
ghost use Rattle.fab_file.specs.declared.fault.PlaceFault.TheVariants.{NoMemory};

use crate::block_lines::PlaceLines;
use crate::fault::PlaceFault;
use crate::header::{check_size, take_size};
use crate::words::{is_word, site_in, word_at};
use fab_arch::{Grid, Site};
use fab_net::{BlockId, Design};
use fab_site::{Fixed, Pins};
use fab_text::{Line, Lines};
use std::alloc::{AllocError, Global};

/// Whether a text's first line is the first line of a header.
fn begins_header(line: &Line) -> bool
    ensures { result ≡ begins_header (shown line.now) }
{
    is_word(line, 0, b"Netlist") && is_word(line, 1, b"file:")
}

/// Whether a text has a header.
fn has_header(alloc: Global, bytes: &[u8]) -> Result<bool, AllocError>
    ensures { IfOk result (λ b. b ≡ has_header (lines bytes.now)) }
{
    match Lines::new(alloc, bytes).next()? {
        Some(first) => Ok(begins_header(&first)),
        None => Ok(false),
    }
}

/// The lines of a text after its header, or all lines if there is no header. The header's size must be that of `grid`.
fn block_lines<'a>(alloc: Global, bytes: &'a [u8], grid: &Grid) -> Result<Lines<'a>, PlaceFault>
    ensures rest { IfOk result (λ left. left ≡ block_lines (lines bytes.now)) }
    ensures ok { OnOk result (header_fault grid.now (lines bytes.now) ≡ None) }
    ensures fault { IfErr result (λ e. FaultIs e (header_fault grid.now (lines bytes.now))) }
{
    let mut left = Lines::new(alloc, bytes);
    if has_header(alloc, bytes)? {
        let (nx, ny) = take_size(&mut left)?;
        check_size(grid, nx, ny)?;
    }
    Ok(left)
}

/// Whether a line has five words, and the last is `free`.
fn is_free(line: &Line) -> bool
    ensures { result ≡ is_free (shown line.now) }
{
    line.words.len() == 5 && is_word(line, 4, b"free")
}

/// The line without its last word, if that is the fifth and is `free`.
fn without_free(line: Line) -> Line
    ensures { shown result ≡ without_free (shown line.entry) }
{
    if !is_free(&line) {
        return line;
    }
    let Line {
        number,
        mut words,
        mut spans,
    } = line;
    words.truncate(4);
    spans.truncate(4);
    Line {
        number,
        words,
        spans,
    }
}

/// Gives a block the site in its line `name x y sub`. The block must have no site in `sites` yet. `sites` has a place for each block.
fn keep(sites: &mut Vec<Option<Site>>, design: &Design, line: &Line)
    requires lawful { IsLawful design.now }
    requires long { length sites.old.items ≡ length design.now.kinds }
    requires new { (b : ℕ) (s : Site) → site_for design.now b (shown line.now) ≡ Some s →
        fixed_at sites.old.items b ≡ None }
    ensures long { length sites.new.items ≡ length sites.old.items }
    ensures kept { (b : ℕ) →
        fixed_at sites.new.items b ≡
        either_site (fixed_at sites.old.items b) (site_for design.now b (shown line.now)) }
{
    if let Some(block) = design.block_named(word_at(line, 0))
        && let Some(site) = site_in(line)
    {
        sites[block.0 as usize] = Some(site);
    }
}

/// Fixes each block that has a site in `sites` there. Takes time in proportion to the number of blocks.
fn fixed_there(alloc: Global, sites: &[Option<Site>]) -> Result<Fixed, AllocError>
    requires few { length sites.now < 2 ^ 32 }
    ensures { IfOk result (λ f. (b : ℕ) → fixed_at f b ≡ fixed_at sites.now b) }
{
    let mut fixed = Fixed::none(alloc);
    // In ascending order, so that no block is inserted before another.
    'each: for block in 0..sites.len() as u32 {
        if let Some(site) = sites[block as usize] {
            fixed.fix(BlockId(block), site)?;
        }
    }
    Ok(fixed)
}

/// Reads the fixed and the begun blocks that a location text gives, for the design `design` on the array `grid`. Otherwise returns the
/// text's first fault: that of the header, or else that of the first faulty line.
pub fn read_pins(
    alloc: Global,
    bytes: &[u8],
    design: &Design,
    grid: &Grid,
) -> Result<Pins, PlaceFault>
    // If pins are returned, the text stands for them.
    ensures found { IfOk result (λ p.
        IsLocated design.now grid.now (lines bytes.now) p.fixed p.begun) }
    // If the text stands for sites of blocks, they are returned, unless memory runs out.
    ensures only { (fixed begun : List (Option Site)) →
        IsLocated design.now grid.now (lines bytes.now) fixed begun →
        MatchResult result (λ p.
        ((b : ℕ) → fixed_at p.fixed b ≡ fixed_at fixed b) ×
        ((b : ℕ) → fixed_at p.begun b ≡ fixed_at begun b)) (λ e. e ≡ NoMemory) }
    // An error is the first fault, or that memory ran out.
    ensures fault { IfErr result (λ e.
        FaultIs e (pins_fault design.now grid.now (lines bytes.now))) }
    // No block and no site is given twice. The array has each site, and it is of its block's kind.
    ensures lawful { IfOk result (λ p. ArePins design.now grid.now p.fixed p.begun) }
{
    let mut placed = PlaceLines::new(alloc, design, grid)?;
    let mut fixed = vec![in alloc; None; design.blocks()]?;
    let mut begun = vec![in alloc; None; design.blocks()]?;
    let mut left = block_lines(alloc, bytes, grid)?;
    while let Some(line) = left.next()? {
        let free = is_free(&line);
        let line = without_free(line);
        placed.take(&line)?;
        if free {
            keep(&mut begun, design, &line);
        } else {
            keep(&mut fixed, design, &line);
        }
    }
    Ok(Pins {
        fixed: fixed_there(alloc, &fixed)?,
        begun: fixed_there(alloc, &begun)?,
    })
}

/// The law that the lines of a location text either stand for sites of blocks or have a first fault, and never both.
pub fn location_texts_mean_or_fault()
    ensures { (d : Netlist) (g : GridShape) (ls : List TextLine) → IsLawful d →
        LocationMeansOrFaults d g ls }
{}
