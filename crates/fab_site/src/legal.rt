//! Whether a placement is legal. Only tests call this.

ghost use Rattle.std.specs.Prelude.{◌≡◌, ◌↔◌, ℕ, ◌<◌, length, if◌then◌else◌, slice_get, Some, IsTrue};
ghost use Rattle.fab_arch.specs.declared.array.Site.{Site};
ghost use Rattle.fab_arch.specs.declared.array.SiteKind.TheVariants.{Logic, Pad};
ghost use Rattle.fab_net.specs.Netlist.{is_logic};
ghost use Rattle.fab_site.specs.Placement.{Fits, IsLegal, fixed_at, site_of};

use crate::fixed::Fixed;
use crate::places::Placement;
use fab_arch::{Grid, Site, SiteKind};
use fab_net::{BlockId, BlockKind, Design};

/// Whether each block of the design is on a site of its kind, no two blocks are on one site, and each fixed block is on the site where it
/// is fixed. Allocates nothing.
pub fn is_legal(design: &Design, grid: &Grid, fixed: &Fixed, placement: &Placement) -> bool
    ensures { IsTrue result ↔ IsLegal design.now grid.now fixed.now placement.now.sites }
{
    placement.blocks() == design.blocks()
        && all_fit(design, grid, placement.sites())
        && all_stay(fixed.sites(), placement.sites())
}

/// Whether each block is on a site of its kind.
fn all_fit(design: &Design, grid: &Grid, sites: &[Site]) -> bool
    requires { length sites.now ≡ length design.now.kinds }
    ensures { IsTrue result ↔
        ((b : ℕ) → b < length sites.now → Fits design.now grid.now b (site_of sites.now b)) }
{
    for block in 0..sites.len() {
        if !fits(design, grid, block, sites[block]) {
            return false;
        }
    }
    true
}

/// Whether the array has the site, and the site is of the block's kind.
fn fits(design: &Design, grid: &Grid, block: usize, site: Site) -> bool
    requires { block < length design.now.kinds }
    ensures { IsTrue result ↔ Fits design.now grid.now block site }
{
    let _blocks = design.blocks();
    let kind = design.kind(BlockId(block as u32));
    match grid.has_site(site) {
        Some(found) => found == wanted(kind),
        None => false,
    }
}

/// The kind of site that a kind of block needs.
fn wanted(kind: BlockKind) -> SiteKind
    ensures { result ≡ (if is_logic kind then Logic else Pad) }
{
    match kind {
        BlockKind::Logic => SiteKind::Logic,
        BlockKind::InputPad | BlockKind::OutputPad => SiteKind::Pad,
    }
}

/// Whether each fixed block is on the site where it is fixed.
fn all_stay(fixed: &[Option<Site>], sites: &[Site]) -> bool
    ensures { IsTrue result ↔
        ((b : ℕ) (s : Site) → fixed_at fixed.now b ≡ Some s → slice_get sites.now b ≡ Some s) }
{
    for block in 0..fixed.len() {
        if !stays(fixed[block], sites, block) {
            return false;
        }
    }
    true
}

/// Whether a block, if it is fixed, is on the site where it is fixed.
fn stays(fixed: Option<Site>, sites: &[Site], block: usize) -> bool
    ensures { IsTrue result ↔ ((s : Site) → fixed ≡ Some s → slice_get sites.now block ≡ Some s) }
{
    match (fixed, sites.get(block)) {
        (Some(site), Some(at)) => *at == site,
        (Some(_), None) => false,
        (None, _) => true,
    }
}
