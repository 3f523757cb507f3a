//! Takes block lines one after another: `name x y sub`, in any order.

ghost use Rattle.std.specs.Prelude.{◌≡◌, Some, None, [], map, IfOk, IfErr, OnOk, OnErr};
ghost use Rattle.fab_text.specs.Shown.{shown};
ghost use Rattle.fab_site.specs.Placement.{IsLegal};
ghost use Rattle.fab_file.specs.declared.fault.PlaceFault.TheVariants.{NoMemory};
ghost use Rattle.fab_file.specs.PlaceFaults.{FaultIs, same_kind};
ghost use Rattle.fab_file.specs.Taken.{LinesOf, no_lines, take_fault, with_line, end_fault, wanted};

use crate::fault::PlaceFault;
use crate::words::{site_in, word_at};
use fab_arch::{Grid, SiteKind};
use fab_net::{BlockId, BlockKind, Design};
use fab_site::{Draft, Placement};
use fab_text::Line;
use std::alloc::{AllocError, Global};
use std::marker::Model;

/// What the block lines read so far mean: for each block of a design the site that a line gave it.
#[derive(Drop)]
pub struct PlaceLines<'a> {
    design: &'a Design,
    grid: &'a Grid,
    draft: Draft,
}

impl<'a> Model for PlaceLines<'a> {
    ghost use Rattle.std.specs.Prelude.{◌≡◌, length};
    ghost use Rattle.fab_net.specs.Netlist.{IsLawful};
    ghost use Rattle.fab_file.specs.Taken.{AreFitting, LinesOf};

    ghost Value = { LinesOf };

    ghost view = { λ p.
        record { netlist = p.design.now; grid = p.grid.now; sites = p.draft.sites } };

    ghost invariant = { λ p.
        (p.draft.grid ≡ p.grid.now) × (length p.draft.sites ≡ length p.design.now.kinds) ×
        IsLawful p.design.now × AreFitting p.design.now p.grid.now p.draft.sites };
}

impl<'a> PlaceLines<'a> {
    ghost use Rattle.fab_net.specs.Netlist.{IsLawful};

    /// No lines yet.
    pub fn new(
        alloc: Global,
        design: &'a Design,
        grid: &'a Grid,
    ) -> Result<PlaceLines<'a>, AllocError>
        ensures none { IfOk result (λ p. p ≡ no_lines design.now grid.now) }
        ensures lawful { OnOk result (IsLawful design.now) }
    {
        let draft = Draft::new(alloc, design.blocks(), grid)?;
        Ok(PlaceLines {
            design,
            grid,
            draft,
        })
    }

    /// Takes one block line, or returns its first fault: its form is wrong, its block is unknown, the block has its site already, the array
    /// has no such site, the site is of another kind, or another block has it. A line with a fault changes nothing.
    pub fn take(&mut self, line: &Line) -> Result<(), PlaceFault>
        ensures ok { OnOk result (take_fault self.old (shown line.now) ≡ None) }
        ensures taken { OnOk result (self.new ≡ with_line self.old (shown line.now)) }
        ensures fault { IfErr result (λ e. take_fault self.old (shown line.now) ≡ Some e) }
        ensures err { OnErr result (self.new ≡ self.old) }
    {
        let Some(site) = site_in(line) else {
            return Err(PlaceFault::BadLine(line.number));
        };
        let Some(block) = self.design.block_named(word_at(line, 0)) else {
            return Err(PlaceFault::UnknownBlock(line.number));
        };
        if self.draft.site_of(block).is_some() {
            return Err(PlaceFault::Repeated(line.number));
        }
        let Some(kind) = self.grid.has_site(site) else {
            return Err(PlaceFault::NoSuchSite(line.number));
        };
        if !takes(kind, self.design.kind(block)) {
            return Err(PlaceFault::WrongKind(line.number));
        }
        if self.draft.at(site).is_some() {
            return Err(PlaceFault::Taken(line.number));
        }
        self.draft.put(block, site);
        Ok(())
    }

    /// Makes the placement, or returns the first block without a site. Returns `NoMemory` only if each block has a site.
    pub fn finish(self) -> Result<Placement, PlaceFault>
        ensures ok { OnOk result (end_fault self.entry ≡ None) }
        ensures grid { IfOk result (λ p. p.grid ≡ self.entry.grid) }
        ensures sites { IfOk result (λ p. map Some p.sites ≡ self.entry.sites) }
        ensures legal { IfOk result (λ p. IsLegal self.entry.netlist self.entry.grid [] p.sites) }
        ensures fault { IfErr result (λ e. FaultIs e (end_fault self.entry)) }
        ensures memory { IfErr result (λ e. e ≡ NoMemory → end_fault self.entry ≡ None) }
    {
        let PlaceLines { draft, .. } = self;
        match draft.first_missing() {
            Some(block) => Err(PlaceFault::Missing(block as u64)),
            None => Ok(draft.finish()?),
        }
    }
}

/// Whether a block of kind `block` may be on a site of kind `site`.
fn takes(site: SiteKind, block: BlockKind) -> bool
    ensures { result ≡ same_kind site (wanted block) }
{
    match site {
        SiteKind::Logic => block == BlockKind::Logic,
        SiteKind::Pad => block != BlockKind::Logic,
    }
}
